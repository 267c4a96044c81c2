//! Links in memory of which one gives nothing until another one was written to.
use crate::pages::ITEM;
use crate::peers::{Peers, Written, link_of, requests_of};
use crate::runs::{is_told, run};
use crate::targets;
use shop_app::Status;
use shop_edges::{BytesIn, BytesOut, Got, LinkIn, LinkOut, Sink, Source, Took, Way};
use shop_text::Memory;
use std::alloc::Global;
use std::rt::Clock;
use std::sync::Arc;
use std::sync::atomic::{AtomicUsize, Ordering};
use std::test::Fail;
use std::thread;
use std::time::Duration;

/// How often it is asked at most whether a source may give.
const TURNS: u32 = 1_000_000;

/// The same, where nothing runs meanwhile.
const TURNS_ALONE: u32 = 1_000;

/// How often it is asked between two pauses of a millisecond, in which other threads run.
const TURNS_OF_A_PAUSE: u32 = 200;

/// How many bytes were written to a link.
type Count = Arc<AtomicUsize, Global>;

/// A sink that tells how many bytes it has.
#[derive(Drop)]
struct CountedOut {
    bytes: BytesOut,
    count: Count,
}

impl CountedOut {
    fn new(bytes: BytesOut, count: Count) -> CountedOut {
        CountedOut { bytes, count }
    }
}

impl Written for CountedOut {
    fn written(&self) -> &[u8] {
        self.bytes.bytes()
    }
}

impl Sink for CountedOut {
    ghost use Rattle.std.specs.Prelude.{Some};

    ghost held = { λ s. Some s.bytes.pieces.bytes };

    ghost faults = { λ s. s.bytes.pieces.faults };

    fn write(&mut self, from: &[u8]) -> Took {
        let took = self.bytes.write(from);
        if let Took::Bytes(count) = took {
            self.count.fetch_add(count, Ordering::SeqCst);
        }
        took
    }
}

impl LinkOut for CountedOut {
    fn end(&mut self) {}
}

/// A source that may be held until another link has bytes.
#[derive(Drop)]
struct HeldIn<R: Clock + Drop> {
    rt: R,
    bytes: BytesIn,
    /// What was written to the other link, where it is held, and how often that is looked at.
    until: Option<Count>,
    turns: u32,
    /// How many reads have failed since the other link had no bytes.
    late: u64,
}

impl<R: Clock + Drop> HeldIn<R> {
    fn new(rt: R, bytes: BytesIn, until: Option<Count>, turns: u32) -> HeldIn<R> {
        HeldIn {
            rt,
            bytes,
            until,
            turns,
            late: 0,
        }
    }

    /// Whether it is held by nothing, or by nothing any more after some turns.
    fn is_let_go(&self) -> bool {
        let Some(count) = &self.until else {
            return true;
        };
        for turn in 0..self.turns {
            if count.load(Ordering::SeqCst) > 0 {
                return true;
            }
            if turn % TURNS_OF_A_PAUSE == 0 {
                thread::sleep(&self.rt, Duration::from_millis(1));
            }
        }
        false
    }
}

impl<R: Clock + Drop> Source for HeldIn<R> {
    ghost use Rattle.std.specs.Prelude.{◌+◌, Some, length};

    ghost left = { λ s. Some s.bytes.bytes };

    ghost faults = { λ s. s.bytes.faults + s.late };

    ghost reads = { λ s. length s.bytes.bytes };

    fn read(&mut self, into: &mut [u8]) -> Got {
        if self.is_let_go() {
            return self.bytes.read(into);
        }
        self.late = self.late.saturating_add(1);
        Got::Failed
    }
}

impl<R: Clock + Drop> LinkIn for HeldIn<R> {
    fn end(&mut self) {}
}

/// Two links of peers who ask for item 1: nothing comes over the first one until the second one was written to.
fn held_links<R: Clock + Clone + Drop>(
    rt: &R,
    alloc: Global,
    turns: u32,
) -> Result<Peers<HeldIn<R>, CountedOut>, Memory> {
    let count = Arc::new(alloc, AtomicUsize::new(0))?;
    let until = Arc::try_clone(&count)?;
    let unseen = Arc::new(alloc, AtomicUsize::new(0))?;
    let (first, out) = link_of(alloc, requests_of(alloc, &[targets::ITEM])?);
    let first = HeldIn::new(rt.clone()?, first, Some(until), turns);
    let out = CountedOut::new(out, unseen);
    let mut links = Vec::new(alloc);
    links.push((first, out))?;
    let (second, out) = link_of(alloc, requests_of(alloc, &[targets::ITEM])?);
    let second = HeldIn::new(rt.clone()?, second, None, turns);
    let out = CountedOut::new(out, count);
    links.push((second, out))?;
    Ok(Peers::new(alloc, links))
}

/// The words of a run that serves both.
const LINE: &str = "serve --workers 2 --connections 2";

#[test]
fn a_connection_is_served_while_an_earlier_one_waits(rt: HostRuntime) -> Result<(), Fail> {
    let alloc = rt.alloc();
    let mut peers = held_links(&rt, alloc, TURNS)?;
    let outcome = run(&rt, alloc, LINE, Way::Threads, &mut peers)?;
    let lines = "entries 0\norders 0\ncents 0\ncaller 1 0\ncaller 2 0\n";
    assert!(rt; is_told(&outcome, Status::Done, (2, 0), lines, ""));
    assert!(rt; peers.got(1, ITEM) && peers.got(2, ITEM));
    Ok(())
}

/// A job that is run at once leaves no time for another one.
#[test]
fn an_earlier_connection_waits_in_vain_where_jobs_are_run_at_once(
    rt: HostRuntime,
) -> Result<(), Fail> {
    let alloc = rt.alloc();
    let mut peers = held_links(&rt, alloc, TURNS_ALONE)?;
    let outcome = run(&rt, alloc, LINE, Way::AtOnce, &mut peers)?;
    assert!(rt; (outcome.status, outcome.starts) == (Status::Done, (2, 0)));
    assert!(rt; peers.got(1, "") && peers.got(2, ITEM));
    Ok(())
}
