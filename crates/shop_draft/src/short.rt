//! Short texts on the stack.
ghost use Rattle.std.specs.Prelude.{◌≡◌, ◌≤◌, ◌+◌, ◌++◌, [], length, take, decimal};
ghost use Rattle.shop_draft.specs.Links.{marked};

use crate::over::{FEW, write_few};
use itoa::Buffer;
use std::marker::Model;

/// The most bytes of one.
pub(crate) const SHORT_ROOM: usize = 40;

/// A text of a few bytes. It is copied together with the room behind it, since so many bytes are copied at once.
#[derive(Drop)]
pub(crate) struct Short {
    bytes: [u8; SHORT_ROOM],
    len: usize,
}

impl Model for Short {
    ghost use Rattle.std.specs.Prelude.{List, ℕ, ◌≤◌, take};

    ghost Value = { List ℕ };

    ghost view = { λ s. take s.len s.bytes };

    ghost invariant = { λ s. s.len ≤ 40 };
}

impl Short {
    pub(crate) fn new() -> Short
        ensures { result ≡ [] }
    {
        Short {
            bytes: [0; SHORT_ROOM],
            len: 0,
        }
    }

    /// Drops all bytes.
    #[inline(always)]
    pub(crate) fn clear(&mut self)
        ensures { self.new ≡ [] }
    {
        self.len = 0;
    }

    /// Adds the bytes at the end.
    #[inline(always)]
    fn put(&mut self, bytes: &[u8])
        requires { length self.old + length bytes.now ≤ 40 }
        ensures { self.new ≡ self.old ++ bytes.now }
    {
        let end = self.len + bytes.len();
        self.bytes[self.len..end].copy_from_slice(bytes);
        self.len = end;
    }

    /// Adds the digits of an id. Up to four go straight to their place.
    #[inline(always)]
    fn put_number(&mut self, id: u32)
        requires { length self.old ≤ 30 }
        ensures text { self.new ≡ self.old ++ decimal id }
        ensures short { length self.new ≤ length self.old + 10 }
    {
        let number = u64::from(id);
        if number < FEW {
            self.len = write_few(&mut self.bytes, self.len, number);
        } else {
            let mut buffer = Buffer::new();
            self.put(buffer.format(id).as_bytes());
        }
    }

    /// Adds an id behind its mark, where there is one.
    #[tactic(auto, using(shop_text::proofs::cited::Plain::plain_decimal))]
    #[inline(always)]
    pub(crate) fn put_id(&mut self, mark: &[u8], id: Option<u32>)
        requires { length self.old + length mark.now ≤ 30 }
        ensures text { self.new ≡ self.old ++ marked mark.now id }
        ensures short { length self.new ≤ length self.old + length mark.now + 10 }
    {
        if let Some(id) = id {
            self.put(mark);
            self.put_number(id);
        }
    }

    /// The bytes and the room behind them, and how many are the text's.
    #[inline(always)]
    pub(crate) fn parts(&self) -> ([u8; SHORT_ROOM], usize)
        ensures text { take result.1 result.0 ≡ self.now }
        ensures fits { result.1 ≤ 40 }
    {
        (self.bytes, self.len)
    }
}
