//! Connections over bytes in memory, whose calls fail where they are told to.
use crate::done;
use crate::shops::{book_of, clock, serve_streams, worker_of};
use crate::streams::{sink, source};
use anyhow::Result;
use shop_book::{Book, Summary};
use shop_edges::{BytesIn, BytesOut};
use shop_engine::Ended;
use shop_gateway::Emulator;
use shop_model::Scale;
use shop_text::Memory;
use std::alloc::Global;

/// The reads of a source, or the writes of a sink: at most so many bytes go with each, and the one of
/// this number fails; none does where it is 0.
#[derive(Clone, Copy)]
pub struct Calls {
    pub piece: usize,
    pub fault: usize,
}

/// The entries, the orders and the cents of a log; and how often the gateway was asked, with the call and the cents of
/// the first charge.
pub type Left = ((u64, u64, u64), (usize, Option<(u64, u64)>));

/// How a connection ended, what was written, and what it left.
#[derive(Drop)]
pub struct Outcome {
    pub end: Ended,
    pub sink: BytesOut,
    pub left: Left,
}

/// Serves this input from a shop of its own, at one moment.
pub fn serve(alloc: Global, input: &[u8], reads: Calls, writes: Calls) -> Result<Outcome> {
    done(served(alloc, input, reads, writes))
}

fn first_charge(gateway: &Emulator) -> Option<(u64, u64)> {
    let charge = &gateway.answers().first()?.get().charge;
    Some((charge.call, charge.cents))
}

fn left_by(book: &Book, gateway: &Emulator) -> Left {
    let Summary {
        entries,
        orders,
        cents,
    } = book.summary();
    let asked = gateway.answers().len();
    ((entries, orders, cents), (asked, first_charge(gateway)))
}

/// How a connection ends, and what it leaves.
fn ended(
    alloc: Global,
    source: &mut BytesIn,
    sink: &mut BytesOut,
) -> Result<(Ended, Left), Memory> {
    let mut clock = clock(alloc, [1_000; 4])?;
    let mut gateway = Emulator::new(alloc);
    let mut worker = worker_of(alloc, Scale::desk())?;
    let report = serve_streams(alloc, &mut worker, source, sink, &mut clock, &mut gateway);
    let book = book_of(alloc, worker)?;
    Ok((report.end, left_by(&book, &gateway)))
}

fn served(alloc: Global, input: &[u8], reads: Calls, writes: Calls) -> Result<Outcome, Memory> {
    let mut source = source(alloc, input, reads.piece, reads.fault as u64)?;
    let mut sink = sink(alloc, writes.piece, writes.fault as u64)?;
    let (end, left) = ended(alloc, &mut source, &mut sink)?;
    Ok(Outcome { end, sink, left })
}
