//! Sessions whose streams fail.
use crate::answers::{answer, text_of};
use crate::done;
use crate::runs::{Told, run};
use crate::streams::{sink, source};
use anyhow::Result;
use shop_edges::{BytesIn, BytesOut, ListClock};
use shop_gateway::Emulator;
use shop_text::{Listed, Memory, Text};
use std::alloc::Global;

const INPUT: &[u8] = b"GET /product_detail?item=1 HTTP/1.1\r\n\r\n";

fn run_session(alloc: Global, source: &mut BytesIn, sink: BytesOut) -> Result<Told, Memory> {
    let mut clock = ListClock::new(alloc, Listed::new(alloc))?;
    let words = [Text::copy(alloc, b"session")?];
    let faults = BytesOut::new(alloc, 1_000, Listed::new(alloc));
    let mut gateway = Emulator::new(alloc);
    Ok(run(
        alloc,
        &words,
        source,
        (sink, faults),
        &mut clock,
        &mut gateway,
    ))
}

/// What comes of a session for one page. The read and the write with these numbers fail, counted from 1, and so many
/// bytes go with a write at most.
fn session(alloc: Global, (read, write, piece): (u64, u64, usize)) -> Result<Told, Memory> {
    let mut source = source(alloc, INPUT, 1_000, read)?;
    let sink = sink(alloc, piece, write)?;
    run_session(alloc, &mut source, sink)
}

fn print_told(rt: &impl Print, asked: (u64, u64, usize), told: &Told) -> Result<()> {
    let streams = (text_of(told.sink.bytes()), text_of(told.faults.bytes()));
    answer(rt, &asked, &(told.status, told.status.code(), streams))
}

fn print_session(rt: &(impl Print + AllocGlobal), asked: (u64, u64, usize)) -> Result<()> {
    let told = done(session(rt.alloc(), asked))?;
    print_told(rt, asked, &told)
}

pub fn print(rt: &(impl Print + AllocGlobal)) -> Result<()> {
    print_session(rt, (1, 0, 1_000))?;
    print_session(rt, (0, 2, 1))
}
