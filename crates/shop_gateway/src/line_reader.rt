//! Lines of bytes that come from a source in pieces.
ghost use Rattle.std.specs.Prelude.{◌≡◌, ◌+◌, ◌-◌, ◌≤◌, ◌<◌, [], length, take, drop};
ghost use Rattle.shop_edges.specs.Causes.{Rose};
ghost use Rattle.shop_edges.specs.Streams.{GotFits, Reads, Lowers, ReadCause};
ghost use Rattle.shop_gateway.specs.Lines.{Gathers};
ghost use Rattle.shop_gateway.specs.Readings.{IsFront, IsFilled, IsStop, weight};

use memchr::memchr;
use shop_edges::{Got, Source};
use std::marker::Model;

/// The most bytes of a line before its line feed.
const LINE_LIMIT: usize = 200;

/// How many bytes are held at most: more than an open line has.
const ROOM: usize = 512;

/// What stands at the front of bytes.
#[derive(Clone, Copy)]
enum Front {
    /// A line of so many bytes.
    Whole(usize),
    /// A line that is too long.
    Long,
    /// A line whose end may still come, or nothing.
    Open,
}

/// What comes next of a source.
#[derive(Clone, Copy)]
pub(crate) enum NextLine {
    /// A line of so many bytes, which stands at the front.
    Whole(usize),
    /// The source ended between two lines.
    End,
    /// The source ended inside a line.
    Cut,
    TooLong,
    /// The source failed.
    Failed,
}

/// The bytes that came and are not passed. A contract sees the list of them.
#[derive(Drop)]
pub(crate) struct LineReader {
    bytes: [u8; ROOM],
    start: usize,
    end: usize,
}

impl Model for LineReader {
    ghost use Rattle.std.specs.Prelude.{List, ℕ};
    ghost use Rattle.shop_gateway.specs.Readings.{IsReader, unread};

    ghost Value = { List ℕ };

    ghost view = { λ r. unread r.bytes r.start r.end };

    ghost invariant = { λ r. IsReader r.bytes r.start r.end };
}

/// Looks at the front of the bytes.
fn front_of(bytes: &[u8]) -> Front
    ensures { IsFront bytes.now result }
{
    match memchr(b'\n', bytes) {
        Some(len) => {
            if len <= LINE_LIMIT {
                Front::Whole(len)
            } else {
                Front::Long
            }
        }
        None => {
            if bytes.len() <= LINE_LIMIT {
                Front::Open
            } else {
                Front::Long
            }
        }
    }
}

/// Moves the bytes from a start to an end to the front.
fn move_to_front(bytes: &mut [u8], start: usize, end: usize)
    requires order { start ≤ end }
    requires within { end ≤ length bytes.old }
    ensures { take (end - start) bytes.new ≡ drop start (take end bytes.old) }
{
    bytes.copy_within(start..end, 0);
}

/// Reads once, behind the first bytes.
fn read_behind<S: Source>(source: &mut S, bytes: &mut [u8], end: usize) -> Got
    requires { end < length bytes.old }
    ensures front { take end bytes.new ≡ take end bytes.old }
    ensures fits { GotFits result (drop end bytes.new) }
    ensures read { Reads (S.left source.old) (S.left source.new) result (drop end bytes.new) }
    ensures reads { Lowers (S.reads source.old) (S.reads source.new) result }
    ensures faults { ReadCause (S.faults source.old) (S.faults source.new) result }
{
    source.read(&mut bytes[end..])
}

impl LineReader {
    /// No bytes; takes no memory.
    pub(crate) fn new() -> LineReader
        ensures { result ≡ [] }
    {
        LineReader {
            bytes: [0; ROOM],
            start: 0,
            end: 0,
        }
    }

    fn rest(&self) -> &[u8]
        ensures value { result.now ≡ self.now }
        ensures few { length self.now ≤ ROOM }
    {
        &self.bytes[self.start..self.end]
    }

    /// The first bytes, so many.
    pub(crate) fn line(&self, len: usize) -> &[u8]
        requires { len ≤ length self.now }
        ensures { result.now ≡ take len self.now }
    {
        &self.rest()[..len]
    }

    /// Goes on behind a line of so many bytes and its line feed.
    pub(crate) fn pass(&mut self, len: usize)
        requires { len < length self.old }
        ensures { self.new ≡ drop (len + 1) self.old }
    {
        self.start = self.start + len + 1;
    }

    /// Reads once, behind the bytes that are there.
    fn fill<S: Source>(&mut self, source: &mut S) -> Got
        requires { length self.old < ROOM }
        ensures piece { IsFilled (S.left source.old) (S.left source.new) self.old self.new result }
        ensures few { length self.new ≤ ROOM }
        ensures reads { Lowers (S.reads source.old) (S.reads source.new) result }
        ensures faults { ReadCause (S.faults source.old) (S.faults source.new) result }
    {
        move_to_front(&mut self.bytes, self.start, self.end);
        self.end -= self.start;
        self.start = 0;
        let got = read_behind(source, &mut self.bytes, self.end);
        if let Got::Bytes(count) = got {
            self.end += count;
        }
        got
    }

    /// Reads until a line is whole.
    pub(crate) fn next<S: Source>(&mut self, source: &mut S) -> NextLine
        ensures gathers { Gathers (S.left source.old) (S.left source.new) self.old self.new }
        ensures stop { IsStop (S.left source.new) self.new result }
        ensures weight { weight (S.reads source.new) self.new ≤ weight (S.reads source.old) self.old }
        ensures later { S.faults source.old ≤ S.faults source.new }
        ensures failed { result ≡ NextLine.Failed → Rose (S.faults source.old) (S.faults source.new) }
    {
        loop {
            match front_of(self.rest()) {
                Front::Whole(len) => return NextLine::Whole(len),
                Front::Long => return NextLine::TooLong,
                Front::Open => {}
            }
            match self.fill(source) {
                Got::Bytes(_) => {}
                Got::End => {
                    if self.rest().is_empty() {
                        return NextLine::End;
                    }
                    return NextLine::Cut;
                }
                Got::Failed => return NextLine::Failed,
            }
        }
    }
}
