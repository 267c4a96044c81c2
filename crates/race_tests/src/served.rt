//! Runs of `serve` that end well, over links in memory.
use crate::pages::{Answer, written_of};
use crate::peers::Peers;
use crate::runs::{Outcome, is_told, run};
use shop_app::Status;
use shop_edges::{BytesIn, BytesOut, Way};
use shop_text::Memory;
use std::alloc::Global;
use std::sync::Wait;
use std::thread::Threads;

/// What peers ask for, and what is to come of it.
#[derive(Clone, Copy)]
pub(crate) struct Serving<'a, 'b> {
    pub(crate) words: &'static str,
    /// What gateways reply, in the order in which they are dialled.
    pub(crate) gateways: &'a [&'static str],
    /// The targets that each peer asks for.
    pub(crate) asked: &'a [&'b [&'static str]],
    /// What each peer is answered.
    pub(crate) answers: &'a [&'b [Answer]],
    /// The numbers of the links, as they come back.
    pub(crate) back: &'a [u64],
    pub(crate) printed: &'static str,
}

/// Whether each peer got its answers.
fn are_answered(
    alloc: Global,
    peers: &Peers<BytesIn, BytesOut>,
    answers: &[&[Answer]],
) -> Result<bool, Memory> {
    let mut link = 0_u64;
    for answers in answers {
        link = link.saturating_add(1);
        if !peers.got(link, written_of(alloc, answers)?.as_str()) {
            return Ok(false);
        }
    }
    Ok(true)
}

/// Whether this outcome, and what came back to these peers, is what was to come.
fn is_as_told(
    alloc: Global,
    outcome: &Outcome,
    peers: &Peers<BytesIn, BytesOut>,
    serving: &Serving,
) -> Result<bool, Memory> {
    let links = serving.asked.len() as u64;
    Ok(
        is_told(outcome, Status::Done, (links, 0), serving.printed, "")
            && peers.counts() == (links, serving.gateways.len() as u64, 0)
            && peers.came_back(serving.back)
            && are_answered(alloc, peers, serving.answers)?,
    )
}

/// Whether what is to come of it comes, where the jobs are run in this way.
pub(crate) fn is_served<R: Threads + Wait + Clone + Drop + Send + 'static>(
    rt: &R,
    alloc: Global,
    way: Way,
    serving: &Serving,
) -> Result<bool, Memory> {
    let mut peers = Peers::asking(alloc, serving.asked)?;
    peers.add_gateways(alloc, serving.gateways)?;
    let outcome = run(rt, alloc, serving.words, way, &mut peers)?;
    is_as_told(alloc, &outcome, &peers, serving)
}
