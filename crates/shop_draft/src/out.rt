use crate::digits::{digit, digits};
use itoa::Buffer;
use shop_text::{Memory, Text};
use std::alloc::Global;
use std::marker::Model;

/// Bytes whose room is made before they are written.
#[derive(Drop)]
pub struct Out {
    items: Vec<u8>,
}

impl Model for Out {
    ghost use Rattle.std.specs.Prelude.{◌-◌, vec_len, vec_capacity};
    ghost use Rattle.shop_draft.specs.Outs.{OutState};

    ghost Value = { OutState };

    ghost view = { λ o. record { bytes = o.items.items; room = vec_capacity o.items - vec_len o.items } };
}

impl Out {
    ghost use Rattle.std.specs.Prelude.{◌≡◌, ◌≤◌, ◌<◌, ◌^◌, ◌+◌, ◌++◌, [], length, decimal, IfOk, OnOk};

    /// No bytes, with room for so many.
    pub fn with_capacity(alloc: Global, capacity: usize) -> Result<Out, Memory>
        ensures { IfOk result (λ out. out.bytes ≡ []) }
    {
        Ok(Out {
            items: Vec::with_capacity(alloc, capacity)?,
        })
    }

    pub fn bytes(&self) -> &[u8]
        ensures { result.now ≡ self.now.bytes }
    {
        &self.items
    }

    /// The bytes; takes no memory.
    pub fn into_text(self) -> Text
        ensures { result ≡ self.bytes }
    {
        let Out { items } = self;
        Text::from_vec(items)
    }

    /// Drops all bytes and keeps their room.
    pub fn clear(&mut self)
        ensures bytes { self.new.bytes ≡ [] }
        ensures room { self.old.room ≤ self.new.room }
        ensures fits { self.new.room < 2 ^ 64 }
    {
        self.items.clear();
    }

    /// Makes room for so many more bytes.
    pub fn reserve(&mut self, additional: usize) -> Result<(), Memory>
        ensures bytes { self.new.bytes ≡ self.old.bytes }
        ensures room { OnOk result (additional ≤ self.new.room) }
    {
        self.items.reserve(additional)?;
        Ok(())
    }

    /// Adds the bytes at the end; takes no memory.
    pub fn put(&mut self, bytes: &[u8])
        requires { length bytes.now ≤ self.old.room }
        ensures bytes { self.new.bytes ≡ self.old.bytes ++ bytes.now }
        ensures room { self.old.room ≤ self.new.room + length bytes.now }
    {
        match self.items.extend_from_slice(bytes) {
            Ok(()) => {}
            Err(_) => unreachable!(),
        }
    }

    /// Adds the number's decimal digits, with no leading zeros; takes no memory. Most are of three or four.
    #[tactic(auto, using(crate::proofs::cited::FewDigits::decimal_three, crate::proofs::cited::FewDigits::decimal_four))]
    pub fn put_decimal(&mut self, number: u64)
        requires { 20 ≤ self.old.room }
        ensures bytes { self.new.bytes ≡ self.old.bytes ++ decimal number }
        ensures room { self.old.room ≤ self.new.room + 20 }
    {
        if number >= 100 && number < 1_000 {
            let (tens, ones) = digits(number % 100);
            self.put(&[digit(number / 100), tens, ones]);
        } else if number >= 1_000 && number < 10_000 {
            let (thousands, hundreds) = digits(number / 100);
            let (tens, ones) = digits(number % 100);
            self.put(&[thousands, hundreds, tens, ones]);
        } else {
            self.put_long(number);
        }
    }

    /// Adds the digits through a buffer.
    #[cold]
    #[inline(never)]
    fn put_long(&mut self, number: u64)
        requires { 20 ≤ self.old.room }
        ensures bytes { self.new.bytes ≡ self.old.bytes ++ decimal number }
        ensures room { self.old.room ≤ self.new.room + 20 }
    {
        let mut buffer = Buffer::new();
        self.put(buffer.format(number).as_bytes());
    }
}
