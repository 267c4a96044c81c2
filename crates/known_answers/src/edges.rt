//! Streams and clocks, in memory and over std.
ghost use Rattle.std.specs.Prelude.{◌<◌};

use crate::answers::{answer, heading, text_of};
use crate::stop::Stop;
use shop_edges::*;
use shop_text::{Listed, Memory, Text};
use std::alloc::{AllocError, Global};
use std::io::{self, ErrorKind, Read, Write};

pub fn print(rt: &(impl Print + AllocGlobal)) -> Result<(), Stop> {
    print_reads(rt)?;
    print_writes(rt)?;
    print_readings(rt)?;
    print_readers(rt)?;
    print_writers(rt)
}

/// Standard output, standard error and the system's clock.
pub fn print_standard(rt: HostRuntime) -> Result<(), Stop> {
    print_streams(rt)?;
    print_clock(rt)
}

fn listed(alloc: Global, calls: &[u64]) -> Result<Listed<u64>, AllocError> {
    Ok(Listed::from_vec(Vec::from_slice(alloc, calls)?))
}

/// What four reads into a buffer of three bytes give.
fn four_reads<S: Source>(source: &mut S) -> [Got; 4] {
    let mut room = [0; 3];
    [
        source.read(&mut room),
        source.read(&mut room),
        source.read(&mut room),
        source.read(&mut room),
    ]
}

/// Whether `hello` was written whole.
fn hello<K: Sink>(sink: &mut K) -> bool {
    write_all(sink, b"hello")
}

/// The first reading, and one of a twin.
fn two_readings<C: Clock + Drop>(clock: &mut C) -> Result<[u64; 2], Memory> {
    let first = clock.now();
    match clock.twin() {
        Some(mut twin) => Ok([first, twin.now()]),
        None => Err(Memory),
    }
}

fn source(alloc: Global, piece: usize, fails: &[u64]) -> Result<BytesIn, Memory>
    requires { 0 < piece }
{
    let bytes = Text::copy(alloc, b"abcd")?;
    Ok(BytesIn::new(bytes, piece, listed(alloc, fails)?))
}

/// By pieces and the calls that fail: what the reads gave, and the faults.
fn print_reads(rt: &(impl Print + AllocGlobal)) -> Result<(), Stop> {
    heading(rt, "reads come in pieces and fail where listed")?;
    for (piece, fails) in [(9, [0, 0]), (2, [0, 0]), (2, [1, 3]), (9, [2, 4])] {
        print_read(rt, piece, fails)?;
    }
    Ok(())
}

fn print_read(rt: &(impl Print + AllocGlobal), piece: usize, fails: [u64; 2]) -> Result<(), Stop>
    requires { 0 < piece }
{
    let mut source = source(rt.alloc(), piece, &fails)?;
    let reads = four_reads(&mut source);
    answer(rt, &(piece, fails), &(reads, source.faults()))
}

/// By pieces and the call that fails: whether all was written, what is held, and the faults.
fn print_writes(rt: &(impl Print + AllocGlobal)) -> Result<(), Stop> {
    heading(rt, "writes come in pieces and fail where listed")?;
    for (piece, fails) in [(2, 0), (9, 0), (2, 3), (9, 1), (0, 0)] {
        print_write(rt, piece, fails)?;
    }
    Ok(())
}

fn print_write(rt: &(impl Print + AllocGlobal), piece: usize, fails: u64) -> Result<(), Stop> {
    let fail = listed(rt.alloc(), &[fails])?;
    let mut sink = BytesOut::with_room(rt.alloc(), piece, fail, 5)?;
    let whole = hello(&mut sink);
    let written = (whole, text_of(sink.bytes()), sink.faults());
    answer(rt, &(piece, fails), &written)
}

fn clock(alloc: Global, readings: &[u64]) -> Result<ListClock, Memory> {
    ListClock::new(alloc, listed(alloc, readings)?)
}

/// Readings of a clock twice, and then of the clock and of a twin.
fn four_readings(mut clock: ListClock) -> Result<[[u64; 2]; 4], Memory> {
    let (first, second) = (two_readings(&mut clock)?, two_readings(&mut clock)?);
    let Some(mut twin) = clock.twin() else {
        return Err(Memory);
    };
    Ok([
        first,
        second,
        two_readings(&mut clock)?,
        two_readings(&mut twin)?,
    ])
}

fn print_readings(rt: &(impl Print + AllocGlobal)) -> Result<(), Stop> {
    heading(rt, "a list of readings ends with its last")?;
    let four = four_readings(clock(rt.alloc(), &[5, 9, 7])?)?;
    answer(rt, &[5, 9, 7], &four)?;
    let two = two_readings(&mut clock(rt.alloc(), &[])?)?;
    answer(rt, &"no readings", &two)
}

/// A reader of `abcd` in two pieces, which fails between them.
#[derive(Drop)]
struct Stumbling {
    calls: u8,
}

impl Read for Stumbling {
    fn read(&mut self, into: &mut [u8]) -> io::Result<usize> {
        self.calls = self.calls.saturating_add(1);
        match self.calls {
            1 => (b"ab" as &[u8]).read(into),
            2 => Err(io::Error::from(ErrorKind::Interrupted)),
            3 => (b"cd" as &[u8]).read(into),
            _ => Ok(0),
        }
    }
}

/// What four reads from a reader give, and the faults.
fn four_reads_of<R: Read + Drop>(reader: R) -> ([Got; 4], u64) {
    let mut source = ReaderSource::new(reader);
    (four_reads(&mut source), source.faults())
}

fn print_readers(rt: &impl Print) -> Result<(), Stop> {
    heading(rt, "a reader fails in mid-stream")?;
    answer(rt, &"stumbling", &four_reads_of(Stumbling { calls: 0 }))?;
    answer(rt, &"steady", &four_reads_of(b"abcd" as &[u8]))
}

/// A writer that takes one byte at a time, up to its room, and then none.
#[derive(Drop)]
struct Cramped {
    room: u8,
}

impl Write for Cramped {
    fn write(&mut self, from: &[u8]) -> io::Result<usize> {
        if self.room == 0 || from.is_empty() {
            return Ok(0);
        }
        self.room -= 1;
        Ok(1)
    }

    fn flush(&mut self) -> io::Result<()> {
        Ok(())
    }
}

/// Whether `hello` was written whole to a writer, and the faults.
fn hello_to<W: Write + Drop>(writer: W) -> (bool, u64) {
    let mut sink = WriterSink::new(writer);
    (hello(&mut sink), sink.faults())
}

fn print_writers(rt: &impl Print) -> Result<(), Stop> {
    heading(rt, "a writer that takes nothing is a fault")?;
    for room in [5, 4, 0] {
        answer(rt, &room, &hello_to(Cramped { room }))?;
    }
    Ok(())
}

/// What is written to standard output comes before what is said of it.
fn print_streams(rt: HostRuntime) -> Result<(), Stop> {
    heading(&rt, "standard output and standard error are one type")?;
    answer(
        &rt,
        &"output",
        &hello_to(StandardOutput::Output(rt.stdout())),
    )?;
    answer(&rt, &"error", &hello_to(StandardOutput::Error(rt.stderr())))
}

/// The start of 2020, in milliseconds since 1970.
const START_OF_2020: u64 = 1_577_836_800_000;

fn print_clock(rt: HostRuntime) -> Result<(), Stop> {
    heading(&rt, "the system clock is past 2020")?;
    let [first, second] = two_readings(&mut SystemClock::new(rt))?;
    answer(
        &rt,
        &"readings",
        &(first > START_OF_2020, second > START_OF_2020),
    )
}
