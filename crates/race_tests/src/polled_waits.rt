//! Lanes that are waited at, while others go on.
use crate::pages::{Answer, ITEM_1, written_of};
use crate::peers::{Written, requests_of};
use crate::polled_links::{
    Link, Links, Peer, came_back, got, link_of, listed, read_side, written_side,
};
use crate::polled_runs::{Outcome, run};
use crate::targets;
use futures::task::{Context, Poll};
use shop_app::Status;
use shop_edges::{BytesIn, BytesOut, Got, Sink, Source, Took};
use shop_lanes::{BlockOn, PolledLinks};
use shop_polled::{PolledBytesIn, PolledBytesOut, PolledSink, PolledSource};
use shop_text::{Listed, Memory, Text};
use std::alloc::{AllocGlobal, Global};
use std::cell::Cell;
use std::random::RandomSource;
use std::rc::Rc;
use std::sync::Wait;
use std::test::Fail;

/// How often a source is put off.
const WAITS: u64 = 1_000;

/// Whether a peer was written to; two sides of links share it.
type Note = Rc<Cell<bool>, Global>;

/// A source whose bytes come once another peer was written to. It is put off 1,000 times at most, and then it ends.
#[derive(Drop)]
struct LaterIn {
    bytes: BytesIn,
    /// Whether they come.
    note: Note,
    waits: u64,
}

/// A sink that notes that it was written to.
#[derive(Drop)]
struct NotedOut {
    bytes: BytesOut,
    note: Note,
}

impl PolledSource for LaterIn {
    ghost use Rattle.std.specs.Prelude.{None, length};

    ghost left = { λ _. None };

    ghost faults = { λ source. source.bytes.faults };

    ghost reads = { λ source. length source.bytes.bytes };

    ghost waits = { λ source. source.waits };

    ghost needs = { λ _ _. ⊥ };

    fn poll_read(&mut self, cx: &mut Context<'_>, into: &mut [u8]) -> Poll<Got> {
        if self.note.get() {
            return Poll::Ready(self.bytes.read(into));
        }
        if self.waits < WAITS {
            self.waits += 1;
            return cx.yield_now();
        }
        Poll::Ready(Got::End)
    }
}

impl PolledSink for NotedOut {
    ghost use Rattle.std.specs.Prelude.{Some};

    ghost held = { λ sink. Some sink.bytes.pieces.bytes };

    ghost faults = { λ sink. sink.bytes.pieces.faults };

    ghost waits = { λ _. 0 };

    ghost needs = { λ _ _. ⊥ };

    fn poll_write(&mut self, _cx: &mut Context<'_>, from: &[u8]) -> Poll<Took> {
        self.note.set(true);
        Poll::Ready(self.bytes.write(from))
    }
}

impl Written for NotedOut {
    fn written(&self) -> &[u8] {
        self.bytes.bytes()
    }
}

/// A note that says this.
fn note_of(alloc: Global, is_written: bool) -> Result<Note, Memory> {
    Ok(Rc::new(alloc, Cell::new(is_written))?)
}

/// The link of a peer that asks for a new cart with item 1, once the first note says that another one was written to; the
/// second note is its own.
fn noted_link(alloc: Global, source: Note, sink: Note) -> Result<(LaterIn, NotedOut), Memory> {
    let requests = requests_of(alloc, &[targets::CART_OF_ITEM_1])?;
    let source = LaterIn {
        bytes: read_side(alloc, requests),
        note: source,
        waits: 0,
    };
    let sink = NotedOut {
        bytes: written_side(alloc),
        note: sink,
    };
    Ok((source, sink))
}

/// Two peers, the first of whom sends nothing until the second one was written to.
fn one_behind_another(alloc: Global) -> Result<PolledLinks<LaterIn, NotedOut>, Memory> {
    let note = note_of(alloc, false)?;
    let first = noted_link(alloc, note.clone()?, note_of(alloc, false)?)?;
    let second = noted_link(alloc, note_of(alloc, true)?, note)?;
    let links = Vec::from_array(alloc, [first, second])?;
    PolledLinks::new(alloc, links, Listed::new(alloc), Listed::new(alloc))
}

/// The page of a new cart with item 1.
fn cart(alloc: Global, number: u32) -> Result<String, Memory> {
    written_of(alloc, &[Answer::Cart(number, ITEM_1)])
}

/// Whether the second peer got the first cart, and the first one the second.
fn are_served(
    alloc: Global,
    outcome: &Outcome<PolledLinks<LaterIn, NotedOut>>,
) -> Result<bool, Memory> {
    let Some(listener) = &outcome.listener else {
        return Ok(false);
    };
    let back = listener.back();
    let lines = "entries 2\norders 0\ncents 0\ncaller 1 1\ncaller 2 1\n";
    Ok(
        outcome.is_told(Status::Done, lines, "")
            && came_back(back, &[2, 1])
            && got(back, 1, cart(alloc, 2)?.as_str())
            && got(back, 2, cart(alloc, 1)?.as_str()),
    )
}

/// Whether two lanes serve a peer that waits for the other one.
fn is_served<R: Wait + RandomSource + AllocGlobal + Clone + Drop>(
    rt: &R,
    alloc: Global,
) -> Result<bool, Memory> {
    let links = one_behind_another(alloc)?;
    let mut runner = BlockOn::new(rt.clone()?);
    let outcome = run(
        rt,
        alloc,
        "poll --lanes 2 --connections 2",
        links,
        &mut runner,
    )?;
    are_served(alloc, &outcome)
}

#[test]
fn a_peer_waits_for_the_answer_of_another_one(rt: HostRuntime) -> Result<(), Fail> {
    assert!(rt; is_served(&rt, rt.alloc())?);
    Ok(())
}

/// The link of a peer that sends nothing: its source is put off 100 times, and then it fails.
fn silent_link(alloc: Global) -> Result<Link, Memory> {
    let mut waits = Vec::new(alloc);
    for poll in 1..=100 {
        waits.push(poll)?;
    }
    let bytes = BytesIn::new(Text::new(alloc), 1, listed(alloc, &[1])?);
    let source = PolledBytesIn::new(bytes, Listed::from_vec(waits));
    let sink = PolledBytesOut::new(written_side(alloc), Listed::new(alloc));
    Ok((source, sink))
}

/// A peer that sends nothing, and then twenty who ask for a new cart with item 1.
fn twenty_behind_a_silent_one(alloc: Global) -> Result<Links, Memory> {
    let peer = Peer {
        target: targets::CART_OF_ITEM_1,
        reads: &[2],
        writes: &[1],
    };
    let mut links = Vec::new(alloc);
    links.push(silent_link(alloc)?)?;
    for _ in 0..20 {
        links.push(link_of(alloc, &peer)?)?;
    }
    PolledLinks::new(alloc, links, Listed::new(alloc), Listed::new(alloc))
}

/// Whether each link but the first got a cart, in their order, before the first one came back with nothing.
fn got_carts(alloc: Global, back: &[(u64, PolledBytesIn, PolledBytesOut)]) -> Result<bool, Memory> {
    for cart_number in 1..=20 {
        let link = u64::from(cart_number) + 1;
        if !got(back, link, cart(alloc, cart_number)?.as_str()) {
            return Ok(false);
        }
    }
    Ok(got(back, 1, "") && back.len() == 21)
}

/// Whether twenty peers got their carts, and what came back last is the link of the one that sent nothing.
fn twenty_are_served(alloc: Global, outcome: &Outcome<Links>) -> Result<bool, Memory> {
    let Some(listener) = &outcome.listener else {
        return Ok(false);
    };
    let lines = "entries 20\norders 0\ncents 0\ncaller 1 0\ncaller 2 10\ncaller 3 10\n";
    let Some((last, silent, _)) = listener.back().last() else {
        return Ok(false);
    };
    Ok(
        outcome.is_told(Status::Done, lines, "")
            && *last == 1
            && silent.polls() == 101
            && got_carts(alloc, listener.back())?,
    )
}

/// Whether two lanes serve twenty peers, while a third one is busy with a peer that sends nothing.
fn twenty_pass<R: Wait + RandomSource + AllocGlobal + Clone + Drop>(
    rt: &R,
    alloc: Global,
) -> Result<bool, Memory> {
    let links = twenty_behind_a_silent_one(alloc)?;
    let mut runner = BlockOn::new(rt.clone()?);
    let outcome = run(
        rt,
        alloc,
        "poll --lanes 3 --connections 21",
        links,
        &mut runner,
    )?;
    twenty_are_served(alloc, &outcome)
}

#[test]
fn a_peer_that_sends_nothing_holds_up_its_lane_alone(rt: HostRuntime) -> Result<(), Fail> {
    assert!(rt; twenty_pass(&rt, rt.alloc())?);
    Ok(())
}
