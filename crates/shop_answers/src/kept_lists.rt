//! Lists that a worker keeps from one connection to the next, behind a log that is full, too.
use crate::connections::print_report;
use crate::done;
use crate::shops::{SMALL, clock, serve_input, worker};
use anyhow::Result;
use shop_book::Solo;
use shop_edges::ListClock;
use shop_engine::{Report, Worker};
use shop_gateway::Emulator;
use shop_text::{Memory, Text};
use std::alloc::Global;

/// What comes in, one connection after another. The log takes one change.
const CONNECTIONS: [&[u8]; 2] = [
    b"GET /new_products?subject=NON-FICTION HTTP/1.1\r\n\r\n\
GET /shopping_cart HTTP/1.1\r\n\r\n\
GET /shopping_cart HTTP/1.1\r\n\r\n\
GET /search_results?kind=title&text=HARBOUR HTTP/1.1\r\n\r\n",
    b"GET /new_products?subject=NON-FICTION&c=10 HTTP/1.1\r\n\r\n\
GET /best_sellers?subject=NON-FICTION HTTP/1.1\r\n\r\n\
GET /search_results?kind=title&text=HARBOUR HTTP/1.1\r\n\r\n\
GET /search_results?kind=title&text=harbour HTTP/1.1\r\n\r\n",
];

/// What comes of one connection of the worker.
fn report(
    alloc: Global,
    worker: &mut Worker<Solo>,
    clock: &mut ListClock,
    input: &[u8],
) -> Result<Report, Memory> {
    let input = Text::copy(alloc, input)?;
    let mut gateway = Emulator::new(alloc);
    Ok(serve_input(alloc, worker, input, SMALL, clock, &mut gateway))
}

fn print_one(
    rt: &(impl Print + AllocGlobal),
    worker: &mut Worker<Solo>,
    clock: &mut ListClock,
    input: &[u8],
) -> Result<()> {
    let report = done(report(rt.alloc(), worker, clock, input))?;
    print_report(rt, "kept lists", &report)
}

/// Serves all of them.
fn print_all(
    rt: &(impl Print + AllocGlobal),
    worker: &mut Worker<Solo>,
    clock: &mut ListClock,
) -> Result<()> {
    for input in &CONNECTIONS {
        print_one(rt, worker, clock, input)?;
    }
    Ok(())
}

pub fn print(rt: &(impl Print + AllocGlobal)) -> Result<()> {
    let mut clock = done(clock(rt.alloc(), [1_000, 2_000, 31_000, 31_000]))?;
    let mut worker = done(worker(rt.alloc(), 1))?;
    print_all(rt, &mut worker, &mut clock)
}
