//! Runs of `poll` that don't end well: the first failure ends them, and its status is told.
use crate::pages::ITEM;
use crate::polled_links::{Calls, Links, Peer, came_back, got, links_of};
use crate::polled_runs::{Outcome, run, run_at};
use crate::targets;
use futures::Future;
use shop_app::Status;
use shop_edges::Clock;
use shop_lanes::{BlockOn, Ran, Runner};
use shop_text::Memory;
use std::alloc::{AllocGlobal, Global};
use std::random::RandomSource;
use std::sync::Wait;
use std::test::Fail;

/// Two lanes for two connections.
const TWO: &str = "poll --lanes 2 --connections 2";

/// Polls nothing: each run fails, or has no memory.
#[derive(Drop)]
struct Idle {
    has_memory: bool,
    runs: u64,
    faults: u64,
}

impl Idle {
    fn new(has_memory: bool) -> Idle {
        Idle {
            has_memory,
            runs: 0,
            faults: 0,
        }
    }

    /// How many runs there were, and how many have failed.
    fn counts(&self) -> (u64, u64) {
        (self.runs, self.faults)
    }
}

impl Runner for Idle {
    ghost faults = { λ runner. runner.faults };

    fn run<F: Future>(&mut self, future: F) -> Ran<F::Output> {
        drop(future);
        self.runs = self.runs.saturating_add(1);
        if !self.has_memory {
            return Ran::Memory;
        }
        self.faults = self.faults.saturating_add(1);
        Ran::Failed
    }
}

/// A clock that has no twin.
#[derive(Drop)]
struct LoneClock {
    reading: u64,
}

impl Clock for LoneClock {
    ghost use Rattle.std.specs.Prelude.{None};

    ghost readings = { λ _. None };

    fn now(&mut self) -> u64 {
        self.reading
    }

    fn twin(&self) -> Option<LoneClock> {
        None
    }
}

/// Links of two peers who ask for item 1; these calls of the listener fail.
fn two_links(alloc: Global, fails: &'static [u64]) -> Result<Links, Memory> {
    let peer = Peer {
        target: targets::ITEM,
        reads: &[],
        writes: &[],
    };
    links_of(alloc, &[peer, peer], Calls { waits: &[], fails })
}

/// Whether the listener failed once and was handed back, with these links in it, each served.
fn is_network_fault(outcome: &Outcome<Links>, back: &[u64]) -> bool {
    let Some(listener) = &outcome.listener else {
        return false;
    };
    for link in back {
        if !got(listener.back(), *link, ITEM) {
            return false;
        }
    }
    outcome.is_told(Status::NetworkFault, "", "tpcw: network fault\n")
        && outcome.status.code() == 5
        && listener.faults() == 1
        && came_back(listener.back(), back)
}

/// Whether these links come back where these calls of the listener fail.
fn fails<R: Wait + RandomSource + AllocGlobal + Clone + Drop>(
    rt: &R,
    alloc: Global,
    calls: &'static [u64],
    back: &[u64],
) -> Result<bool, Memory> {
    let mut runner = BlockOn::new(rt.clone()?);
    let outcome = run(rt, alloc, TWO, two_links(alloc, calls)?, &mut runner)?;
    Ok(is_network_fault(&outcome, back))
}

#[test]
fn what_was_accepted_before_a_fault_of_the_listener_is_served(rt: HostRuntime) -> Result<(), Fail> {
    assert!(rt; fails(&rt, rt.alloc(), &[1], &[])?);
    assert!(rt; fails(&rt, rt.alloc(), &[2], &[])?);
    assert!(rt; fails(&rt, rt.alloc(), &[3], &[1])?);
    Ok(())
}

/// Whether the words are bad: nothing is done, and the listener, whose port would not open, is handed back.
fn are_bad<R: Wait + Clone + Drop>(rt: &R, alloc: Global, line: &str) -> Result<bool, Memory> {
    let mut runner = Idle::new(true);
    let outcome = run(rt, alloc, line, two_links(alloc, &[1])?, &mut runner)?;
    let Some(listener) = &outcome.listener else {
        return Ok(false);
    };
    Ok(
        outcome.is_told(Status::BadWords, "", "tpcw: bad words\n")
            && outcome.status.code() == 2
            && listener.faults() == 0
            && runner.counts() == (0, 0),
    )
}

#[test]
fn at_bad_words_the_listener_is_handed_back(rt: HostRuntime) -> Result<(), Fail> {
    assert!(rt; are_bad(&rt, rt.alloc(), "poll --lanes 17")?);
    assert!(rt; are_bad(&rt, rt.alloc(), "poll --gateway 8081")?);
    Ok(())
}

/// Whether the listener is lost, and these are the status's code and what is told.
fn is_lost(outcome: &Outcome<Links>, status: Status, code: u8, told: &str) -> bool {
    outcome.is_told(status, "", told) && outcome.status.code() == code && outcome.listener.is_none()
}

/// Whether a run fails whose runner does.
fn is_worker_fault<R: Wait + Clone + Drop>(rt: &R, alloc: Global) -> Result<bool, Memory> {
    let mut runner = Idle::new(true);
    let outcome = run(rt, alloc, TWO, two_links(alloc, &[])?, &mut runner)?;
    Ok(
        is_lost(&outcome, Status::WorkerFault, 6, "tpcw: worker fault\n")
            && runner.counts() == (1, 1),
    )
}

/// Whether memory runs out where the runner has none.
fn is_out_of_memory<R: Wait + Clone + Drop>(rt: &R, alloc: Global) -> Result<bool, Memory> {
    let mut runner = Idle::new(false);
    let outcome = run(rt, alloc, TWO, two_links(alloc, &[])?, &mut runner)?;
    Ok(is_lost(&outcome, Status::Memory, 7, "tpcw: out of memory\n") && runner.counts() == (1, 0))
}

/// Whether memory runs out where there is no clock for a lane.
fn is_out_of_clocks<R: Wait + Clone + Drop>(rt: &R, alloc: Global) -> Result<bool, Memory> {
    let mut runner = Idle::new(true);
    let clock = LoneClock { reading: 1_000 };
    let outcome = run_at(rt, alloc, TWO, two_links(alloc, &[])?, &mut runner, &clock)?;
    Ok(is_lost(&outcome, Status::Memory, 7, "tpcw: out of memory\n") && runner.counts() == (0, 0))
}

#[test]
fn a_listener_is_lost_with_its_lanes(rt: HostRuntime) -> Result<(), Fail> {
    assert!(rt; is_worker_fault(&rt, rt.alloc())?);
    assert!(rt; is_out_of_memory(&rt, rt.alloc())?);
    assert!(rt; is_out_of_clocks(&rt, rt.alloc())?);
    Ok(())
}
