//! Sessions of caller 1 at the desk with seed 0, among whose settles caller 2 does a deed.
use crate::deeds::Deed;
use crate::opened::{book_of, empty_draft, index_of};
use crate::rivalled::Rivalled;
use crate::told::{Shown, Told};
use shop_edges::{BytesIn, BytesOut, ListClock};
use shop_engine::{Worker, serve_connection};
use shop_gateway::Emulator;
use shop_model::Scale;
use shop_text::{Listed, Memory, Text};
use std::alloc::Global;
use std::sync::Arc;

/// The worker of caller 1, among whose settles caller 2 does a deed so often. The book comes last, so that no refusal
/// has it to let go.
fn worker_among(alloc: Global, deed: Deed, changes: u32) -> Result<Worker<Rivalled>, Memory> {
    let scale = Scale::desk();
    let built = index_of(alloc, &scale)?;
    let index = Arc::new(alloc, built)?;
    let shared = Arc::try_clone(&index)?;
    let draft = empty_draft(alloc)?;
    let book = book_of(alloc, &scale)?;
    let store = Rivalled::new(alloc, book, shared, deed, changes, draft);
    Worker::new(alloc, store, 1, 0, scale, index)
}

/// What is told once a worker has served what comes in.
fn told_by(
    alloc: Global,
    worker: Worker<Rivalled>,
    source: &mut BytesIn,
    clock: &mut ListClock,
) -> Told {
    let mut worker = worker;
    let mut sink = BytesOut::new(alloc, 1_000_000, Listed::new(alloc));
    let mut gateway = Emulator::new(alloc);
    let report = serve_connection(alloc, &mut worker, source, &mut sink, clock, &mut gateway);
    let mut book = worker.into_store().into_book();
    Told::of(&report, sink.bytes(), &gateway, &mut book)
}

/// The messages that come in, and a clock with these readings.
fn streams(alloc: Global, readings: &[u64], input: &[u8]) -> Result<(BytesIn, ListClock), Memory> {
    let readings = Listed::from_vec(Vec::from_slice(alloc, readings)?);
    let clock = ListClock::new(alloc, readings)?;
    let input = Text::copy(alloc, input)?;
    Ok((BytesIn::new(input, 1_000_000, Listed::new(alloc)), clock))
}

/// What is told of messages at these readings of the clock, among whose settles caller 2 does a deed so often.
pub(crate) fn told_after(
    alloc: Global,
    readings: &[u64],
    input: &[u8],
    deed: Deed,
    changes: u32,
) -> Result<Told, Memory> {
    let (mut source, mut clock) = streams(alloc, readings, input)?;
    let worker = worker_among(alloc, deed, changes)?;
    Ok(told_by(alloc, worker, &mut source, &mut clock))
}

/// What is shown of them.
pub(crate) fn shown_after(
    alloc: Global,
    readings: &[u64],
    input: &[u8],
    deed: Deed,
    changes: u32,
) -> Result<Shown, Memory> {
    match told_after(alloc, readings, input, deed, changes) {
        Ok(Told { shown, sold: _ }) => Ok(shown),
        Err(Memory) => Err(Memory),
    }
}
