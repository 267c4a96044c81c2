//! Runs of `poll`.
use crate::runs::words_of;
use shop_app::Status;
use shop_edges::{BytesOut, Clock, ListClock};
use shop_lanes::{PolledListener, Runner};
use shop_poll::run_polled;
use shop_polled::{PolledSink, PolledSource};
use shop_text::{Listed, Memory};
use std::alloc::Global;
use std::sync::Wait;

/// What came of words: the status, the listener unless it was lost, and what was printed and told.
#[derive(Drop)]
pub(crate) struct Outcome<L> {
    pub(crate) status: Status,
    pub(crate) listener: Option<L>,
    printed: BytesOut,
    told: BytesOut,
}

impl<L> Outcome<L> {
    /// Whether this is what came, printed and told.
    pub(crate) fn is_told(&self, status: Status, printed: &str, told: &str) -> bool {
        self.status == status
            && self.printed.bytes() == printed.as_bytes()
            && self.told.bytes() == told.as_bytes()
    }
}

/// What comes of words at this clock, where links are those of this listener, and this runner polls them.
pub(crate) fn run_at<
    R: Wait + Clone + Drop,
    S: PolledSource + Drop,
    O: PolledSink + Drop,
    L: PolledListener<In = S, Out = O> + Drop,
    U: Runner,
    C: Clock + Drop,
>(
    rt: &R,
    alloc: Global,
    line: &str,
    listener: L,
    runner: &mut U,
    clock: &C,
) -> Result<Outcome<L>, Memory> {
    let words = words_of(alloc, line)?;
    let mut printed = BytesOut::new(alloc, 1_000, Listed::new(alloc));
    let mut told = BytesOut::new(alloc, 1_000, Listed::new(alloc));
    let (status, listener) = run_polled(
        rt,
        alloc,
        &words,
        listener,
        runner,
        &mut printed,
        &mut told,
        clock,
    );
    Ok(Outcome {
        status,
        listener,
        printed,
        told,
    })
}

/// What comes of words at a clock that always reads 1,000.
pub(crate) fn run<
    R: Wait + Clone + Drop,
    S: PolledSource + Drop,
    O: PolledSink + Drop,
    L: PolledListener<In = S, Out = O> + Drop,
    U: Runner,
>(rt: &R, alloc: Global, line: &str, listener: L, runner: &mut U) -> Result<Outcome<L>, Memory> {
    let clock = ListClock::new(alloc, Listed::from_vec(vec![in alloc; 1_000]?))?;
    run_at(rt, alloc, line, listener, runner, &clock)
}
