use crate::digits::digits;
use crate::over::{FEW, write_array, write_few};
use crate::short::{SHORT_ROOM, Short};
use itoa::Buffer;
use shop_text::{Caption, Memory, Text, entity};
use std::alloc::Global;
use std::marker::Model;

/// Bytes that are written one piece after another into room that is there.
#[derive(Drop)]
pub(crate) struct Flat {
    bytes: Vec<u8>,
    /// How many of them are written.
    at: usize,
}

impl Model for Flat {
    ghost use Rattle.std.specs.Prelude.{List, ℕ, ◌≤◌, length, take};

    ghost Value = { List ℕ };

    ghost view = { λ f. take f.at f.bytes.items };

    ghost invariant = { λ f. f.at ≤ length f.bytes.items };
}

ghost use Rattle.std.specs.Prelude.{◌≡◌, ◌≤◌, ◌<◌, ◌+◌, ◌++◌, ◌∷◌, ◌↔◌, [], length, take, drop, decimal, IfOk, OnOk, OnErr, IfSome, IsTrue, MatchBool};
ghost use Rattle.shop_text.specs.Texts.{cents_text, escape};

/// By how many bytes more than it must a buffer grows: a few wide moves fill so many.
const STEP: usize = 1024;

/// The length of a buffer of this one that is made for so many bytes more: no more than the memory that it has, where
/// that is enough.
fn grown(len: usize, more: usize, capacity: usize) -> Option<usize>
    ensures { IfSome result (λ room. len + more ≤ room) }
{
    let least = len.checked_add(more)?;
    Some(least.saturating_add(STEP).min(capacity.max(least)))
}

/// Whether there is room for so many bytes more behind a place.
#[inline(always)]
fn has_room(bytes: &Vec<u8>, at: usize, more: usize) -> bool
    requires { at ≤ length bytes.now.items }
    ensures { IsTrue result ↔ (at + more ≤ length bytes.now.items) }
{
    more <= bytes.len() - at
}

/// Makes room for so many bytes more.
#[cold]
#[inline(never)]
fn grow(bytes: &mut Vec<u8>, more: usize) -> Result<(), Memory>
    ensures front { take (length bytes.old.items) bytes.new.items ≡ bytes.old.items }
    ensures room { OnOk result (length bytes.old.items + more ≤ length bytes.new.items) }
{
    let Some(len) = grown(bytes.len(), more, bytes.capacity()) else {
        return Err(Memory);
    };
    bytes.resize(len, 0)?;
    Ok(())
}

/// Makes room for so many bytes more behind a place.
#[inline(always)]
fn make_room(bytes: &mut Vec<u8>, at: usize, more: usize) -> Result<(), Memory>
    requires { at ≤ length bytes.old.items }
    ensures front { take at bytes.new.items ≡ take at bytes.old.items }
    ensures kept { at ≤ length bytes.new.items }
    ensures room { OnOk result (at + more ≤ length bytes.new.items) }
{
    if !has_room(bytes, at, more) {
        grow(bytes, more)?;
    }
    Ok(())
}

/// Writes the bytes over those from a place on.
#[inline(always)]
fn write_over(bytes: &mut Vec<u8>, start: usize, more: &[u8])
    requires { start + length more.now ≤ length bytes.old.items }
    ensures { bytes.new.items ≡ take start bytes.old.items ++ more.now ++ drop (start + length more.now) bytes.old.items }
{
    bytes[start..start + more.len()].copy_from_slice(more);
}

/// Writes bytes that stand for themselves in a page over others, as many; stops at one that does not.
#[inline(always)]
fn write_plain(place: &mut [u8], bytes: &[u8]) -> bool
    requires { length place.old ≡ length bytes.now }
    ensures plain { IsTrue result → escape bytes.now ≡ bytes.now }
    ensures written { IsTrue result → place.new ≡ bytes.now }
{
    for (at, byte) in bytes.iter().enumerate() {
        if entity(*byte).is_some() {
            return false;
        }
        place[at] = *byte;
    }
    true
}

/// Drops the first bytes, so many.
fn remove_front(bytes: &mut Vec<u8>, count: usize)
    requires { count ≤ length bytes.old.items }
    ensures { bytes.new.items ≡ drop count bytes.old.items }
{
    let len = bytes.len();
    bytes.as_mut_slice().copy_within(count..len, 0);
    bytes.truncate(len - count);
}

impl Flat {
    /// No bytes, with room for so many.
    pub(crate) fn with_room(alloc: Global, room: usize) -> Result<Flat, Memory>
        ensures { IfOk result (λ flat. flat ≡ []) }
    {
        Ok(Flat {
            bytes: vec![in alloc; 0u8; room]?,
            at: 0,
        })
    }

    /// No bytes, with memory for so many; it becomes room in steps.
    pub(crate) fn with_capacity(alloc: Global, capacity: usize) -> Result<Flat, Memory>
        ensures { IfOk result (λ flat. flat ≡ []) }
    {
        Ok(Flat {
            bytes: Vec::with_capacity(alloc, capacity)?,
            at: 0,
        })
    }

    #[inline(always)]
    pub(crate) fn bytes(&self) -> &[u8]
        ensures { result.now ≡ self.now }
    {
        &self.bytes[..self.at]
    }

    /// The number of bytes.
    #[inline(always)]
    pub(crate) fn len(&self) -> usize
        ensures { result ≡ length self.now }
    {
        self.at
    }

    /// Keeps the first bytes, so many, and the room.
    #[inline(always)]
    pub(crate) fn truncate(&mut self, len: usize)
        requires { len ≤ length self.old }
        ensures { self.new ≡ take len self.old }
    {
        self.at = len;
    }

    /// Adds the bytes at the end.
    #[inline(always)]
    pub(crate) fn put(&mut self, bytes: &[u8]) -> Result<(), Memory>
        ensures ok { OnOk result (self.new ≡ self.old ++ bytes.now) }
        ensures err { OnErr result (self.new ≡ self.old) }
    {
        make_room(&mut self.bytes, self.at, bytes.len())?;
        let end = self.at + bytes.len();
        self.bytes[self.at..end].copy_from_slice(bytes);
        self.at = end;
        Ok(())
    }

    /// Adds the bytes of an array at the end: so many that few moves write them.
    #[inline(always)]
    pub(crate) fn put_array<const N: usize>(&mut self, bytes: &[u8; N]) -> Result<(), Memory>
        ensures ok { OnOk result (self.new ≡ self.old ++ bytes.now) }
        ensures err { OnErr result (self.new ≡ self.old) }
    {
        make_room(&mut self.bytes, self.at, N)?;
        write_array(&mut self.bytes, self.at, bytes);
        self.at += N;
        Ok(())
    }

    /// Adds a short text at the end, and writes over the room behind it. It is read once there is room, so that it
    /// goes straight to its place.
    #[inline(always)]
    pub(crate) fn put_short(&mut self, text: &Short) -> Result<(), Memory>
        ensures ok { OnOk result (self.new ≡ self.old ++ text.now) }
        ensures err { OnErr result (self.new ≡ self.old) }
    {
        make_room(&mut self.bytes, self.at, SHORT_ROOM)?;
        let (bytes, len) = text.parts();
        write_over(&mut self.bytes, self.at, &bytes);
        self.at += len;
        Ok(())
    }

    /// Adds a byte, and behind it a short text without its first bytes, so many.
    #[inline(always)]
    pub(crate) fn put_behind(
        &mut self,
        byte: u8,
        text: &Short,
        skipped: usize,
    ) -> Result<(), Memory>
        requires { skipped ≤ length text.now }
        ensures ok { OnOk result (self.new ≡ self.old ++ byte ∷ drop skipped text.now) }
        ensures err { OnErr result (self.new ≡ self.old) }
    {
        make_room(&mut self.bytes, self.at, 1 + SHORT_ROOM)?;
        let start = self.at + 1;
        write_over(&mut self.bytes, self.at, &[byte]);
        let (bytes, len) = text.parts();
        let end = start + len - skipped;
        write_over(&mut self.bytes, start, &bytes[skipped..]);
        self.at = end;
        Ok(())
    }

    /// Adds the digits of a number. Up to four go straight to their place, where there is room.
    #[inline(never)]
    pub(crate) fn put_number(&mut self, number: u64) -> Result<(), Memory>
        ensures ok { OnOk result (self.new ≡ self.old ++ decimal number) }
        ensures err { OnErr result (self.new ≡ self.old) }
    {
        if number < FEW && has_room(&self.bytes, self.at, 4) {
            self.at = write_few(&mut self.bytes, self.at, number);
            Ok(())
        } else {
            self.put_long_number(number)
        }
    }

    /// Adds the digits of a number through a buffer.
    #[cold]
    #[inline(never)]
    fn put_long_number(&mut self, number: u64) -> Result<(), Memory>
        ensures ok { OnOk result (self.new ≡ self.old ++ decimal number) }
        ensures err { OnErr result (self.new ≡ self.old) }
    {
        let mut buffer = Buffer::new();
        self.put(buffer.format(number).as_bytes())
    }

    /// Adds an amount in cents. One of few digits goes straight to its place, where there is room.
    #[inline(never)]
    pub(crate) fn put_cents(&mut self, cents: u64) -> Result<(), Memory>
        ensures ok { OnOk result (self.new ≡ self.old ++ cents_text cents) }
        ensures longer { length self.old ≤ length self.new }
    {
        if cents < 100 * FEW && has_room(&self.bytes, self.at, 7) {
            let at = write_few(&mut self.bytes, self.at, cents / 100);
            let (dimes, rest) = digits(cents % 100);
            write_array(&mut self.bytes, at, &[b'.', dimes, rest]);
            self.at = at + 3;
            Ok(())
        } else {
            self.put_long_cents(cents)
        }
    }

    /// Adds an amount in cents through a buffer.
    #[cold]
    #[inline(never)]
    fn put_long_cents(&mut self, cents: u64) -> Result<(), Memory>
        ensures ok { OnOk result (self.new ≡ self.old ++ cents_text cents) }
        ensures longer { length self.old ≤ length self.new }
    {
        let (dimes, rest) = digits(cents % 100);
        self.put_long_number(cents / 100)?;
        self.put(&[b'.', dimes, rest])
    }

    /// Adds bytes that stand for themselves in a page, where there is room; says whether it did. Else it adds none.
    #[inline(always)]
    fn put_plain(&mut self, bytes: &[u8]) -> bool
        ensures { MatchBool result (self.new ≡ self.old ++ escape bytes.now) (self.new ≡ self.old) }
    {
        if !has_room(&self.bytes, self.at, bytes.len()) {
            return false;
        }
        let end = self.at + bytes.len();
        if !write_plain(&mut self.bytes[self.at..end], bytes) {
            return false;
        }
        self.at = end;
        true
    }

    /// Adds bytes as they stand in a page. Most are plain.
    #[inline(never)]
    pub(crate) fn put_escaped(&mut self, bytes: &[u8]) -> Result<(), Memory>
        ensures ok { OnOk result (self.new ≡ self.old ++ escape bytes.now) }
        ensures longer { length self.old ≤ length self.new }
    {
        if self.put_plain(bytes) {
            Ok(())
        } else {
            self.put_runs(bytes)
        }
    }

    /// Adds bytes as they stand in a page: whole runs of plain bytes, and an entity for each other byte.
    #[cold]
    #[inline(never)]
    fn put_runs(&mut self, bytes: &[u8]) -> Result<(), Memory>
        ensures ok { OnOk result (self.new ≡ self.old ++ escape bytes.now) }
        ensures longer { length self.old ≤ length self.new }
    {
        let mut start = 0;
        for (at, byte) in bytes.iter().enumerate() {
            if let Some(name) = entity(*byte) {
                self.put(&bytes[start..at])?;
                self.put(name)?;
                start = at + 1;
            }
        }
        self.put(&bytes[start..])
    }

    /// Adds a text as it stands in a page.
    #[inline(always)]
    pub(crate) fn put_caption(&mut self, caption: &Caption) -> Result<(), Memory>
        ensures ok { OnOk result (self.new ≡ self.old ++ escape caption.now) }
        ensures longer { length self.old ≤ length self.new }
    {
        if caption.is_plain() {
            self.put(caption.bytes())
        } else {
            self.put_runs(caption.bytes())
        }
    }

    /// Writes the bytes over those from a place on.
    pub(crate) fn write_at(&mut self, start: usize, bytes: &[u8])
        requires { start + length bytes.now ≤ length self.old }
        ensures { self.new ≡ take start self.old ++ bytes.now ++ drop (start + length bytes.now) self.old }
    {
        write_over(&mut self.bytes, start, bytes);
    }

    /// The bytes from a place on; takes no memory.
    pub(crate) fn into_text(self, start: usize) -> Text
        requires { start ≤ length self }
        ensures { result ≡ drop start self }
    {
        let Flat { bytes, at } = self;
        let mut bytes = bytes;
        bytes.truncate(at);
        remove_front(&mut bytes, start);
        Text::from_vec(bytes)
    }
}
