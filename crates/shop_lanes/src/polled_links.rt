use crate::PolledListener;
use crate::trace::Trace;
use futures::task::{Context, Poll};
use shop_edges::{Linked, Opened};
use shop_text::{Listed, Memory};
use std::alloc::Global;
use std::collections::VecDeque;
use std::marker::Model;

/// A listener over links, which it gives in their order; behind the last one it fails. A poll is put off at each call
/// that is listed so, and wakes the task; calls of `open` and `poll_accept` are counted together, from 1, and fail at
/// each listed one. It keeps as many of the links that come back as there are links.
#[derive(Drop)]
pub struct PolledLinks<I, O> {
    left: VecDeque<(I, O)>,
    waits: Listed<u64>,
    fails: Listed<u64>,
    room: usize,
    back: Vec<(u64, I, O)>,
    calls: u64,
    put_off: u64,
    faults: u64,
    accepted: u64,
    given: Trace<(I, O)>,
    returned: Trace<(u64, I, O)>,
}

impl<I, O> Model for PolledLinks<I, O> {
    ghost use Rattle.std.specs.Prelude.{◌≡◌, ◌≤◌, take};
    ghost use Rattle.std.specs.Vec.{vec_capacity};
    ghost use Rattle.shop_lanes.specs.ListedLinks.{ListedLinks};
    ghost use Rattle.shop_lanes.specs.PolledLinksView.{links_of};
    ghost use Rattle.shop_lanes.specs.Traces.{traced};

    ghost Value = { ListedLinks I O };

    ghost view = { links_of };

    ghost invariant = { λ s. (s.back.items ≡ take s.room (traced s.returned)) × (s.room ≤ vec_capacity s.back) };
}

impl<I: Drop, O: Drop> PolledLinks<I, O> {
    ghost use Rattle.std.specs.Prelude.{◌≡◌, IfOk, map};
    ghost use Rattle.shop_lanes.specs.ListedLinks.{fresh, kept_of, returned_of};

    /// No link was given yet.
    pub fn new(
        alloc: Global,
        links: Vec<(I, O)>,
        waits: Listed<u64>,
        fails: Listed<u64>,
    ) -> Result<PolledLinks<I, O>, Memory>
        ensures { IfOk result (λ listener. listener ≡ fresh links.items waits fails) }
    {
        let room = links.len();
        let back = Vec::with_capacity(alloc, room)?;
        Ok(PolledLinks {
            left: VecDeque::from(links),
            waits,
            fails,
            room,
            back,
            calls: 0,
            put_off: 0,
            faults: 0,
            accepted: 0,
            given: Trace::new(),
            returned: Trace::new(),
        })
    }

    /// The links that came back, as far as they are kept, each with its number.
    pub fn back(&self) -> &[(u64, I, O)]
        ensures { map returned_of result.now ≡ kept_of self.now }
    {
        &self.back
    }

    /// How many calls have failed.
    pub fn faults(&self) -> u64
        ensures { result ≡ self.now.faults }
    {
        self.faults
    }
}

impl<I: Drop, O: Drop> PolledListener for PolledLinks<I, O> {
    ghost use Rattle.std.specs.Prelude.{◌≡◌, ◌≤◌, Some, true};
    ghost use Rattle.futures.specs.Poll.{OnPending};
    ghost use Rattle.futures.specs.Task.{Covers, Keeps};
    ghost use Rattle.shop_edges.specs.Links.{OpenCause, got_back, opened};
    ghost use Rattle.shop_lanes.specs.Accepts.{PolledCause, WaitCause, gave_polled, links_polled};
    ghost use Rattle.shop_lanes.specs.ListedLinks.{GivesNext, Opens};

    type In = I;

    type Out = O;

    ghost links = { λ l. Some l.told };

    ghost faults = { λ l. l.faults };

    ghost waits = { λ l. l.put_off };

    ghost accepted = { λ l. l.accepted };

    ghost needs = { λ _ _. ⊥ };

    fn open(&mut self, _port: u16) -> Opened
        ensures links { Some self.new.told ≡ Some (opened self.old.told) }
        ensures cause { OpenCause self.old.faults self.new.faults result }
        ensures waits { self.old.put_off ≤ self.new.put_off }
        ensures accepted { self.new.accepted ≡ self.old.accepted }
        ensures opens { Opens self.old self.new result }
    {
        self.given = Trace::new();
        self.returned = Trace::new();
        self.back.clear();
        self.calls = self.calls.saturating_add(1);
        if self.fails.as_slice().contains(&self.calls) {
            self.faults = self.faults.saturating_add(1);
            return Opened::Failed;
        }
        Opened::Open
    }

    fn poll_accept(&mut self, cx: &mut Context<'_>) -> Poll<Linked<I, O>>
        ensures links { Some self.new.told ≡ Some (gave_polled result self.old.told) }
        ensures cause { PolledCause self.old.faults self.new.faults result }
        ensures waits { WaitCause self.old.put_off self.new.put_off result }
        ensures accepted { self.new.accepted ≡ links_polled result self.old.accepted }
        ensures registered { OnPending result (Covers cx.new (λ _. ⊥)) }
        ensures kept { Keeps cx.old cx.new }
        ensures next { GivesNext self.old self.new result }
        ensures woken { OnPending result (cx.new.is_woken ≡ true) }
    {
        self.calls = self.calls.saturating_add(1);
        if self.waits.as_slice().contains(&self.calls) {
            self.put_off = self.put_off.saturating_add(1);
            return cx.yield_now();
        }
        if self.fails.as_slice().contains(&self.calls) {
            self.faults = self.faults.saturating_add(1);
            return Poll::Ready(Linked::Failed);
        }
        match self.left.pop_front() {
            Some(link) => {
                self.given = self.given.with(&link);
                self.accepted = self.accepted.saturating_add(1);
                Poll::Ready(Linked::Linked(link.0, link.1))
            }
            None => {
                self.faults = self.faults.saturating_add(1);
                Poll::Ready(Linked::Failed)
            }
        }
    }

    fn give_back(&mut self, link: u64, source: I, sink: O)
        ensures links { Some self.new.told ≡
            Some (got_back (record { link = link; source = source; sink = sink }) self.old.told) }
        ensures later { self.old.faults ≤ self.new.faults }
        ensures waits { self.old.put_off ≤ self.new.put_off }
        ensures accepted { self.new.accepted ≡ self.old.accepted }
        ensures same { self.new ≡ record self.old { told = self.new.told } }
    {
        let back = (link, source, sink);
        self.returned = self.returned.with(&back);
        if self.back.len() < self.room {
            let Ok(()) = self.back.push(back) else {
                unreachable!()
            };
        }
    }
}
