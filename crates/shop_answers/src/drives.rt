//! Browsers that are driven over a log of 50 changes, and drives whose gateway or whose sink fails. What comes of the
//! small log was worked out by a model of its own.
use crate::answers::{answer, text_of};
use crate::done;
use crate::runs::{Told, run};
use crate::shops::{book_of, clock, unchanged, worker_at};
use crate::streams::{sink, source};
use anyhow::Result;
use shop_app::authorised_only;
use shop_book::{Book, Solo, Summary};
use shop_browsers::{Browser, Mix};
use shop_drive::{Tally, drive};
use shop_edges::{Answer, BytesOut, Gateway, ListClock};
use shop_engine::Worker;
use shop_gateway::{Emulator, ScriptGateway};
use shop_model::Scale;
use shop_text::{Listed, Memory, Shared, Text};
use std::alloc::Global;
use std::boxed::Box;

/// How requests went, what the book came to, and the approvals that no order has: all, and of the first one over a
/// book without a change.
type Outcome = (Tally, Summary, u64, u64);

/// Eight browsers of the desk, who order.
fn browsers(alloc: Global) -> Result<Vec<Browser>, Memory> {
    let mut browsers = Vec::new(alloc);
    for number in 1..=8 {
        browsers.push(Browser::new(0, number, Mix::Ordering, &Scale::desk()))?;
    }
    Ok(browsers)
}

/// Drives browsers, 250 steps each. Its callers need none of what is promised of it.
fn tally_of(
    alloc: Global,
    worker: &mut Worker<Solo>,
    clock: &mut ListClock,
    gateway: &mut Emulator,
    browsers: &mut [Browser],
) -> Result<Tally, Memory> {
    drive(alloc, worker, clock, gateway, browsers, 250)
}

/// Drives the eight.
fn tally(
    alloc: Global,
    worker: &mut Worker<Solo>,
    gateway: &mut Emulator,
) -> Result<Tally, Memory> {
    let mut browsers = browsers(alloc)?;
    let mut clock = clock(alloc, [1_000; 4])?;
    tally_of(alloc, worker, &mut clock, gateway, &mut browsers)
}

fn copy_of(answer: &Answer) -> Answer {
    Answer {
        charge: answer.charge.copy(),
        verdict: answer.verdict,
    }
}

/// The first answer of a gateway to each key.
fn answers_of(alloc: Global, ledger: &[Shared<Answer>]) -> Result<Vec<Answer>, Memory> {
    let mut answers = Vec::new(alloc);
    for entry in ledger {
        answers.push(copy_of(entry.get()))?;
    }
    Ok(answers)
}

/// How many approvals no order has. Its callers need none of what is promised of it.
fn unused(answers: &[Answer], book: &Book) -> u64 {
    authorised_only(answers, book)
}

/// Whether the first approval has an order in a book without a change.
fn unused_first(alloc: Global, answers: &[Answer]) -> Result<u64, Memory> {
    let book = unchanged(alloc)?;
    Ok(unused(answers.get(..1).unwrap_or(&[]), &book))
}

/// The approvals that no order has: all, and of the first one over a book without a change.
fn approvals(alloc: Global, gateway: &Emulator, book: &Book) -> Result<(u64, u64), Memory> {
    let answers = answers_of(alloc, gateway.ledger())?;
    Ok((unused(&answers, book), unused_first(alloc, &answers)?))
}

/// A drive over a log of 50 changes, and the book after it.
fn driven(alloc: Global, gateway: &mut Emulator) -> Result<(Tally, Box<Book>), Memory> {
    let mut worker = worker_at(alloc, 50, false)?;
    let tally = tally(alloc, &mut worker, gateway);
    let book = book_of(alloc, worker)?;
    Ok((tally?, book))
}

fn outcome_at(alloc: Global, gateway: &mut Emulator) -> Result<Outcome, Memory> {
    let (tally, book) = driven(alloc, gateway)?;
    let (all, first) = approvals(alloc, gateway, &book)?;
    Ok((tally, book.summary(), all, first))
}

fn outcome(alloc: Global) -> Result<Outcome, Memory> {
    let mut gateway = Emulator::new(alloc);
    outcome_at(alloc, &mut gateway)
}

/// The words of a drive of so many browsers and steps, who order.
fn words(alloc: Global, browsers: &[u8], steps: &[u8]) -> Result<Vec<Text>, Memory> {
    let mut words = Vec::new(alloc);
    for word in &[
        b"drive".as_slice(),
        b"--browsers",
        browsers,
        b"--steps",
        steps,
        b"--mix=ordering",
    ] {
        words.push(Text::copy(alloc, word)?)?;
    }
    Ok(words)
}

/// Runs the words over sinks that take seven bytes at a time, of which the first fails at its call of this number.
fn run_words<G: Gateway>(
    alloc: Global,
    words: &[Text],
    fault: u64,
    gateway: &mut G,
) -> Result<Told, Memory> {
    let mut clock = clock(alloc, [1_000; 4])?;
    let mut source = source(alloc, b"", 1, 0)?;
    let sink = sink(alloc, 7, fault)?;
    let faults = BytesOut::new(alloc, 7, Listed::new(alloc));
    Ok(run(
        alloc,
        words,
        &mut source,
        (sink, faults),
        &mut clock,
        gateway,
    ))
}

/// Every third call of a gateway, a hundred times.
fn thirds(alloc: Global) -> Result<Listed<u64>, Memory> {
    let mut calls = Listed::new(alloc);
    for call in 1..=100 {
        calls.push(3 * call)?;
    }
    Ok(calls)
}

/// Prints the status, and what was written.
fn print_run<G: Gateway>(
    rt: &(impl Print + AllocGlobal),
    what: &str,
    words: &[Text],
    fault: u64,
    gateway: &mut G,
) -> Result<()> {
    let told = done(run_words(rt.alloc(), words, fault, gateway))?;
    answer(rt, &what, &(told.status.code(), text_of(told.sink.bytes())))
}

fn print_sink(rt: &(impl Print + AllocGlobal)) -> Result<()> {
    let words = done(words(rt.alloc(), b"2", b"1"))?;
    let mut gateway = Emulator::new(rt.alloc());
    print_run(rt, "a sink that fails", &words, 3, &mut gateway)
}

fn print_gateway(rt: &(impl Print + AllocGlobal)) -> Result<()> {
    let words = done(words(rt.alloc(), b"8", b"250"))?;
    let thirds = done(thirds(rt.alloc()))?;
    let mut gateway = ScriptGateway::new(Emulator::new(rt.alloc()), thirds);
    print_run(rt, "a gateway that fails", &words, 0, &mut gateway)
}

pub fn print(rt: &(impl Print + AllocGlobal)) -> Result<()> {
    answer(rt, &"a log of 50 changes", &done(outcome(rt.alloc()))?)?;
    print_sink(rt)?;
    print_gateway(rt)
}
