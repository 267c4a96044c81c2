//! Runs of what several callers ask for, at a clock that always reads 1,000.
use shop_app::{Status, run_shared};
use shop_edges::{BytesOut, LinkIn, LinkOut, ListClock, Listener, Spawner, Way};
use shop_text::{Listed, Memory, Text};
use std::alloc::Global;
use std::sync::Wait;
use std::thread::Threads;

/// What came of words: the status, how often a job was started and how often not, and what was printed and
/// told.
#[derive(Drop)]
pub(crate) struct Outcome {
    pub(crate) status: Status,
    pub(crate) starts: (u64, u64),
    pub(crate) printed: BytesOut,
    pub(crate) told: BytesOut,
}

/// The words between blanks.
pub(crate) fn words_of(alloc: Global, line: &str) -> Result<Vec<Text>, Memory> {
    let mut words = Vec::new(alloc);
    for word in line.split_whitespace() {
        words.push(Text::copy(alloc, word.as_bytes())?)?;
    }
    Ok(words)
}

/// What comes of words, where the jobs are run in this way, links are those of this listener, and this sink takes what is
/// printed.
pub(crate) fn run_into<
    R: Threads + Wait + Clone + Drop + Send + 'static,
    I: LinkIn + Drop + Send + 'static,
    O: LinkOut + Drop + Send + 'static,
    L: Listener<In = I, Out = O>,
>(
    rt: &R,
    alloc: Global,
    line: &str,
    way: Way,
    listener: &mut L,
    printed: BytesOut,
) -> Result<Outcome, Memory> {
    let words = words_of(alloc, line)?;
    let clock = ListClock::new(alloc, Listed::from_vec(vec![in alloc; 1_000]?))?;
    let mut spawner = Spawner::new(way);
    let mut printed = printed;
    let mut told = BytesOut::new(alloc, 1_000, Listed::new(alloc));
    let status = run_shared(
        rt,
        alloc,
        &words,
        &mut spawner,
        listener,
        &mut printed,
        &mut told,
        &clock,
    );
    Ok(Outcome {
        status,
        starts: (spawner.starts(), spawner.faults()),
        printed,
        told,
    })
}

/// What comes of words, where the jobs are run in this way, and links are those of this listener.
pub(crate) fn run<
    R: Threads + Wait + Clone + Drop + Send + 'static,
    I: LinkIn + Drop + Send + 'static,
    O: LinkOut + Drop + Send + 'static,
    L: Listener<In = I, Out = O>,
>(rt: &R, alloc: Global, line: &str, way: Way, listener: &mut L) -> Result<Outcome, Memory> {
    let sink = BytesOut::new(alloc, 1_000, Listed::new(alloc));
    run_into(rt, alloc, line, way, listener, sink)
}

/// Whether this is what came, printed and told.
pub(crate) fn is_told(
    outcome: &Outcome,
    status: Status,
    starts: (u64, u64),
    printed: &str,
    told: &str,
) -> bool {
    (outcome.status, outcome.starts) == (status, starts)
        && outcome.printed.bytes() == printed.as_bytes()
        && outcome.told.bytes() == told.as_bytes()
}
