//! Sessions over bytes in memory.
use crate::case::Case;
use crate::difference::{Difference, first_place};
use anyhow::{Context, Result};
use shop_app::run_alone;
use shop_edges::{BytesIn, BytesOut, ListClock};
use shop_gateway::{Emulator, ScriptGateway};
use shop_text::{Listed, Text};
use std::alloc::Global;
use std::rt::Files;
use std::{fmt, fs};

/// At most so many bytes come with a read and go with a write.
#[derive(Clone, Copy)]
pub struct Pieces {
    pub read: usize,
    pub write: usize,
}

impl fmt::Display for Pieces {
    fn fmt<W: fmt::Write>(&self, f: &mut fmt::Formatter<W>) -> fmt::Result {
        write!(f, "pieces {} and {}", self.read, self.write)
    }
}

/// The bytes that come in, those that are to be written and those that are to be told.
#[derive(Drop)]
pub struct Streams {
    input: Vec<u8>,
    output: Vec<u8>,
    told: Vec<u8>,
}

impl Streams {
    /// What a case names, from files in its folder.
    pub fn of(rt: &(impl Files + AllocGlobal), folder: &str, case: &Case) -> Result<Streams> {
        let input = input_of(rt, folder, case.asks)?;
        let output = output_of(rt, folder, case.answers)?;
        let told = told_of(rt.alloc(), case.told)?;
        Ok(Streams {
            input,
            output,
            told,
        })
    }
}

/// The bytes of files and requests.
fn input_of(rt: &(impl Files + AllocGlobal), folder: &str, asks: &str) -> Result<Vec<u8>> {
    let mut input = Vec::new(rt.alloc());
    for part in asks.split_whitespace() {
        add_asked(rt, folder, part, &mut input)?;
    }
    Ok(input)
}

/// Adds the bytes of a file, or the request of a target.
fn add_asked(
    rt: &(impl Files + AllocGlobal),
    folder: &str,
    part: &str,
    input: &mut Vec<u8>,
) -> Result<()> {
    let (name, count) = repeated(part)?;
    let bytes = if name.starts_with('/') {
        request(rt.alloc(), name)?
    } else {
        file(rt, folder, name)?
    };
    add(input, &bytes, count)
}

/// The bytes of files.
fn output_of(rt: &(impl Files + AllocGlobal), folder: &str, answers: &str) -> Result<Vec<u8>> {
    let mut output = Vec::new(rt.alloc());
    for part in answers.split_whitespace() {
        let (name, count) = repeated(part)?;
        add(&mut output, &file(rt, folder, name)?, count)?;
    }
    Ok(output)
}

/// A line, where there is one.
fn told_of(alloc: Global, line: &str) -> Result<Vec<u8>> {
    let mut told = line.as_bytes().to_vec(alloc)?;
    if !told.is_empty() {
        told.push(b'\n')?;
    }
    Ok(told)
}

/// What a part names, and how often it stands there: once, or as often as a number behind `*` says.
fn repeated(part: &str) -> Result<(&str, usize)> {
    match part.split_once('*') {
        None => Ok((part, 1)),
        Some((name, count)) => Ok((name, count.parse::<usize>()?)),
    }
}

/// The request of a target.
fn request(alloc: Global, target: &str) -> Result<Vec<u8>> {
    let request = format!(in alloc; "GET {target} HTTP/1.1\r\n\r\n")?;
    Ok(request.as_bytes().to_vec(alloc)?)
}

/// Adds some bytes so often.
fn add(all: &mut Vec<u8>, bytes: &[u8], count: usize) -> Result<()> {
    for _ in 0..count {
        all.extend_from_slice(bytes)?;
    }
    Ok(())
}

/// The bytes of a file.
fn file(rt: &(impl Files + AllocGlobal), folder: &str, name: &str) -> Result<Vec<u8>> {
    let path = format!(in rt.alloc(); "{folder}/{name}")?;
    fs::read(rt, path.as_str()).context(format_args!("reading {path}"))
}

/// The clock of a case.
fn clock_of(alloc: Global, case: &Case) -> Result<ListClock> {
    let readings = case.readings(alloc)?;
    let clock = ListClock::new(alloc, readings).ok();
    clock.context("no memory for a clock")
}

/// The input, of which so many bytes come with a read.
fn source_of(alloc: Global, input: &[u8], piece: usize) -> Result<BytesIn> {
    let input = Text::from_vec(input.to_vec(alloc)?);
    Ok(BytesIn::new(input, piece.max(1), Listed::new(alloc)))
}

/// The gateway of a case.
fn gateway_of(alloc: Global, case: &Case) -> Result<ScriptGateway<Emulator>> {
    Ok(ScriptGateway::new(Emulator::new(alloc), case.fails(alloc)?))
}

/// Runs the words; the status. Its callers need none of what is promised of it.
fn run(
    alloc: Global,
    words: &[Text],
    source: &mut BytesIn,
    (sink, faults): (&mut BytesOut, &mut BytesOut),
    clock: &mut ListClock,
    gateway: &mut ScriptGateway<Emulator>,
) -> u8 {
    run_alone(alloc, words, source, sink, faults, clock, gateway).code()
}

/// Runs words with the gateway of a case; the status.
fn run_case(
    alloc: Global,
    case: &Case,
    words: &[Text],
    source: &mut BytesIn,
    told: (&mut BytesOut, &mut BytesOut),
    clock: &mut ListClock,
) -> Result<u8> {
    let mut gateway = gateway_of(alloc, case)?;
    Ok(run(alloc, words, source, told, clock, &mut gateway))
}

/// Runs the words of a case at its clock; the status.
fn status_of(
    alloc: Global,
    case: &Case,
    source: &mut BytesIn,
    told: (&mut BytesOut, &mut BytesOut),
) -> Result<u8> {
    let words = case.words(alloc)?;
    let mut clock = clock_of(alloc, case)?;
    run_case(alloc, case, &words, source, told, &mut clock)
}

/// How a session differs from what a case wants, its bytes cut into such pieces.
pub fn differs(
    alloc: Global,
    case: &Case,
    streams: &Streams,
    pieces: Pieces,
) -> Result<Option<Difference>> {
    let mut source = source_of(alloc, &streams.input, pieces.read)?;
    let mut sink = BytesOut::new(alloc, pieces.write, Listed::new(alloc));
    let mut faults = BytesOut::new(alloc, pieces.write, Listed::new(alloc));
    let status = status_of(alloc, case, &mut source, (&mut sink, &mut faults))?;
    Ok(difference(case, streams, sink.bytes(), faults.bytes(), status))
}

/// How what was written and told, and the status, differ from what a case wants.
fn difference(
    case: &Case,
    streams: &Streams,
    written: &[u8],
    told: &[u8],
    got: u8,
) -> Option<Difference> {
    if let Some(place) = first_place(written, &streams.output) {
        return Some(Difference::Written(place));
    }
    if let Some(place) = first_place(told, &streams.told) {
        return Some(Difference::Told(place));
    }
    let wanted = case.status;
    (got != wanted).then_some(Difference::Status { got, wanted })
}
