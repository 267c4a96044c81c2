ghost use Rattle.std.specs.Prelude.{◌≡◌, ◌+◌, ◌-◌, ◌≤◌, ◌<◌, ◌↔◌, ◌++◌, length, take, drop, replicate, IfOk, OnOk, OnErr, IsTrue, IfSome, []};
ghost use Rattle.shop_message.specs.Buffers.{HasHead, HasHeadOrNone, IsSearched, IsSearch, IsOpenLine};
ghost use Rattle.shop_message.specs.Looks.{IsFound};
ghost use Rattle.shop_message.specs.Messages as spec;
ghost use Rattle.shop_message.specs.Pieces.{IsFilled};
ghost use Rattle.shop_edges.specs.Streams.{GotFits, Reads, Lowers, ReadCause};

use crate::found::{Found, found_at};
use crate::messages::Message;
use httparse::spans::{EMPTY_HEADER_SPAN, HeaderSpan};
use memchr::memchr;
use shop_edges::{Got, Source};
use shop_text::{Memory, Text};
use std::alloc::Global;
use std::marker::Model;

/// Room for the longest message: its head, and the body behind it.
const CAPACITY: usize = 32_768;

/// The most header lines of a head.
const FIELDS_LIMIT: usize = 64;

/// The first bytes of some: how many, and how many line feeds are among them.
#[derive(Clone, Copy)]
pub(crate) struct Prefix {
    pub(crate) len: usize,
    pub(crate) lines: usize,
}

const NOTHING: Prefix = Prefix { len: 0, lines: 0 };

/// What a search for the end of a head comes to.
#[derive(Clone, Copy)]
enum Search {
    /// The head.
    Found(Prefix),
    /// No end yet, and none in these first bytes, whatever comes behind.
    Open(Prefix),
}

/// The bytes that came and are not served yet.
#[derive(Drop)]
pub(crate) struct Buffer {
    bytes: Vec<u8>,
    start: usize,
    end: usize,
    /// These first bytes are not searched again for the end of a head.
    searched: Prefix,
    /// Room for where the fields of a head are, which serves one head after another.
    fields: Vec<HeaderSpan>,
    /// Room for the target of the next message, which a message before it gave back.
    spare: Text,
}

impl Model for Buffer {
    ghost use Rattle.std.specs.Prelude.{List, ℕ};
    ghost use Rattle.shop_message.specs.Buffers.{IsBuffer, unserved};

    ghost Value = { List ℕ };

    ghost view = { λ b. unserved b.bytes.items b.start b.end };

    ghost invariant = { λ b. IsBuffer b.bytes.items b.start b.end b.searched b.fields.items };
}

impl Buffer {
    pub(crate) fn new(alloc: Global) -> Result<Buffer, Memory>
        ensures { IfOk result (λ buffer. buffer ≡ []) }
    {
        Ok(Buffer {
            bytes: vec![in alloc; 0; CAPACITY]?,
            start: 0,
            end: 0,
            searched: NOTHING,
            fields: vec![in alloc; EMPTY_HEADER_SPAN; FIELDS_LIMIT]?,
            spare: Text::new(alloc),
        })
    }

    pub(crate) fn len(&self) -> usize
        ensures { result ≡ length self.now }
    {
        self.end - self.start
    }

    pub(crate) fn is_empty(&self) -> bool
        ensures { IsTrue result ↔ (self.now ≡ []) }
    {
        self.len() == 0
    }

    fn as_slice(&self) -> &[u8]
        ensures { result.now ≡ self.now }
    {
        &self.bytes[self.start..self.end]
    }

    /// Lets the first bytes go.
    pub(crate) fn consume(&mut self, len: usize)
        requires { len ≤ length self.old }
        ensures { self.new ≡ drop len self.old }
    {
        self.start += len;
        self.searched = NOTHING;
    }

    /// Lets the line ends at the front go.
    pub(crate) fn skip_line_ends(&mut self)
        ensures rest { self.new ≡ spec.after_line_ends self.old }
        ensures shorter { length self.new ≤ length self.old }
    {
        let rest = after_line_ends(self.as_slice()).len();
        if rest < self.len() {
            self.consume(self.len() - rest);
        }
    }

    /// The head at the front, where it is whole.
    pub(crate) fn head(&mut self) -> Option<Prefix>
        ensures head { HasHeadOrNone self.old result }
        ensures same { self.new ≡ self.old }
    {
        match head_end(self.as_slice(), self.searched) {
            Search::Found(head) => Some(head),
            Search::Open(searched) => {
                self.searched = searched;
                None
            }
        }
    }

    /// What the head at the front, and the bytes behind it, come to.
    pub(crate) fn found(&mut self, alloc: Global, head: Prefix) -> Found
        requires { HasHead self.old head }
        ensures found { IsFound self.old head.len result }
        ensures same { self.new ≡ self.old }
    {
        let bytes = &self.bytes[self.start..self.end];
        found_at(alloc, bytes, head, &mut self.fields, &mut self.spare)
    }

    /// Takes back a message that is answered: the room of its target serves the next one.
    pub(crate) fn reuse(&mut self, message: Message)
        ensures { self.new ≡ self.old }
    {
        self.spare = message.target;
    }

    /// Adds a piece behind the bytes that are there.
    pub(crate) fn give(&mut self, piece: &[u8]) -> Result<(), Memory>
        ensures ok { OnOk result (self.new ≡ self.old ++ piece.now) }
        ensures err { OnErr result (self.new ≡ self.old) }
    {
        if self.bytes.len() - self.end < piece.len() {
            move_to_front(&mut self.bytes, self.start, self.end);
            self.end -= self.start;
            self.start = 0;
        }
        lengthen(&mut self.bytes, self.end + piece.len())?;
        put_behind(&mut self.bytes, self.end, piece);
        self.end += piece.len();
        Ok(())
    }

    /// Reads once, behind the bytes that are there.
    pub(crate) fn fill<S: Source>(&mut self, source: &mut S) -> Got
        requires { length self.old < CAPACITY }
        ensures piece { IsFilled (S.left source.old) (S.left source.new) self.old self.new result }
        ensures reads { Lowers (S.reads source.old) (S.reads source.new) result }
        ensures faults { ReadCause (S.faults source.old) (S.faults source.new) result }
    {
        if self.end == self.bytes.len() || self.start == self.end {
            move_to_front(&mut self.bytes, self.start, self.end);
            self.end -= self.start;
            self.start = 0;
        }
        let got = read_behind(source, &mut self.bytes, self.end);
        if let Got::Bytes(count) = got {
            self.end += count;
        }
        got
    }
}

/// Moves the bytes from a start to an end to the front.
fn move_to_front(bytes: &mut [u8], start: usize, end: usize)
    requires order { start ≤ end }
    requires within { end ≤ length bytes.old }
    ensures { take (end - start) bytes.new ≡ drop start (take end bytes.old) }
{
    bytes.copy_within(start..end, 0);
}

/// Makes the bytes at least so many.
fn lengthen(bytes: &mut Vec<u8>, len: usize) -> Result<(), Memory>
    ensures ok { OnOk result (bytes.new.items ≡ bytes.old.items ++ replicate (len - length bytes.old.items) 0) }
    ensures err { OnErr result (bytes.new.items ≡ bytes.old.items) }
{
    if bytes.len() < len {
        bytes.resize(len, 0)?;
    }
    Ok(())
}

/// Puts a piece behind the first bytes.
fn put_behind(bytes: &mut [u8], end: usize, piece: &[u8])
    requires { end + length piece.now ≤ length bytes.old }
    ensures front { take end bytes.new ≡ take end bytes.old }
    ensures piece { take (length piece.now) (drop end bytes.new) ≡ piece.now }
{
    bytes[end..end + piece.len()].copy_from_slice(piece);
}

/// Reads once, behind the first bytes.
fn read_behind<S: Source>(source: &mut S, bytes: &mut [u8], end: usize) -> Got
    requires { end < length bytes.old }
    ensures front { take end bytes.new ≡ take end bytes.old }
    ensures fits { GotFits result (drop end bytes.new) }
    ensures read { Reads (S.left source.old) (S.left source.new) result (drop end bytes.new) }
    ensures reads { Lowers (S.reads source.old) (S.reads source.new) result }
    ensures faults { ReadCause (S.faults source.old) (S.faults source.new) result }
{
    source.read(&mut bytes[end..])
}

/// What follows the line ends at the front.
#[tactic(auto, unfolding(crate::specs::Messages::after_line_ends))]
fn after_line_ends(bytes: &[u8]) -> &[u8]
    ensures rest { result.now ≡ spec.after_line_ends bytes.now }
    ensures shorter { length result.now ≤ length bytes.now }
{
    let mut rest = bytes;
    while let [b'\r' | b'\n', after @ ..] = rest {
        rest = after;
    }
    rest
}

/// The length of an empty line at the front.
fn empty_line(bytes: &[u8]) -> Option<usize>
    ensures value { result ≡ spec.empty_line bytes.now }
    ensures within { IfSome result (λ len. len ≤ length bytes.now) }
{
    if bytes.starts_with(b"\n") {
        Some(1)
    } else if bytes.starts_with(b"\r\n") {
        Some(2)
    } else {
        None
    }
}

/// Whether the bytes may become an empty line by what comes behind.
fn is_open_line(bytes: &[u8]) -> bool
    ensures { IsTrue result ↔ IsOpenLine bytes.now }
{
    matches!(bytes, [] | [b'\r'])
}

/// Looks for the end of a head behind the bytes that were searched.
fn head_end(bytes: &[u8], searched: Prefix) -> Search
    requires { IsSearched bytes.now searched }
    ensures { IsSearch bytes.now result }
{
    let mut passed = searched;
    let mut rest = &bytes[passed.len..];
    while let Some(at) = memchr(b'\n', rest) {
        rest = &rest[at + 1..];
        if let Some(len) = empty_line(rest) {
            return Search::Found(Prefix {
                len: passed.len + at + 1 + len,
                lines: passed.lines + 2,
            });
        }
        if is_open_line(rest) {
            return Search::Open(Prefix {
                len: passed.len + at,
                lines: passed.lines,
            });
        }
        passed = Prefix {
            len: passed.len + at + 1,
            lines: passed.lines + 1,
        };
    }
    Search::Open(Prefix {
        len: bytes.len(),
        lines: passed.lines,
    })
}
