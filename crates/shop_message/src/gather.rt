ghost use Rattle.shop_message.specs.Looks.{IsLook};

use crate::buffer::Buffer;
use crate::found::Found;
use crate::messages::Message;
use shop_edges::{Got, Source};
use shop_model::Refusal;
use shop_text::Memory;
use std::alloc::Global;
use std::marker::Model;

/// The most bytes of a head.
const HEAD_LIMIT: usize = 16_384;

/// What the bytes that were given come to.
#[derive(Drop)]
pub enum Gathered {
    /// They decide nothing yet, and more may come.
    More,
    Message(Message),
    /// They ended between two messages.
    End,
    /// They ended inside a message.
    Cut,
    /// A message is refused, and no other is read.
    Bad(Refusal),
    Memory,
}

/// What stands at a message's place.
#[derive(Drop)]
enum Look {
    Message(Message),
    /// A message that is refused.
    Refused(Refusal),
    /// A part of a message, or nothing; it may be whole with so many bytes.
    Part(usize),
    Memory,
}

/// The messages of bytes that are given in pieces, however they are cut.
#[derive(Drop)]
pub struct Gather {
    alloc: Global,
    buffer: Buffer,
    /// Fewer bytes than these are no message yet: they are not looked at again, so that no head is parsed
    /// more than twice, before its body came and behind it.
    wanted: usize,
    is_ended: bool,
}

impl Model for Gather {
    ghost use Rattle.shop_message.specs.Gatherings.{Gathering, Awaits};

    ghost Value = { Gathering };

    ghost view = { λ g. record { held = g.buffer; ended = g.is_ended } };

    ghost invariant = { λ g. Awaits g.buffer g.wanted };
}

impl Gather {
    ghost use Rattle.std.specs.Prelude.{◌≡◌, ◌<◌, ◌++◌, ◌↔◌, [], true, false, length, IsTrue, IfOk, OnOk, OnErr};
    ghost use Rattle.shop_edges.specs.Streams.{Lowers, ReadCause};
    ghost use Rattle.shop_message.specs.Gathered.{IsGathered, IsUndecided};
    ghost use Rattle.shop_message.specs.Pieces.{IsFilled};

    pub fn new(alloc: Global) -> Result<Gather, Memory>
        ensures { IfOk result (λ gather. gather ≡ record { held = []; ended = false }) }
    {
        Ok(Gather {
            alloc,
            buffer: Buffer::new(alloc)?,
            wanted: 1,
            is_ended: false,
        })
    }

    /// Adds a piece.
    pub fn give(&mut self, piece: &[u8]) -> Result<(), Memory>
        requires { self.old.ended ≡ false }
        ensures ok { OnOk result (self.new ≡ record self.old { held = self.old.held ++ piece.now }) }
        ensures err { OnErr result (self.new ≡ self.old) }
    {
        self.buffer.give(piece)
    }

    /// Tells that no more bytes come.
    pub fn end(&mut self)
        ensures { self.new ≡ record self.old { ended = true } }
    {
        self.is_ended = true;
    }

    /// Whether it was told that no more bytes come.
    pub fn is_ended(&self) -> bool
        ensures { result ≡ self.now.ended }
    {
        self.is_ended
    }

    /// The next message, or what the bytes come to in its place.
    pub fn take(&mut self) -> Gathered
        ensures gathered { IsGathered self.old self.new result }
        ensures ended { self.new.ended ≡ self.old.ended }
    {
        if self.buffer.len() < self.wanted {
            return self.undecided();
        }
        self.wanted = 1;
        match look_at(self.alloc, &mut self.buffer) {
            Look::Message(message) => Gathered::Message(message),
            Look::Refused(refusal) => Gathered::Bad(refusal),
            Look::Part(wanted) => {
                self.wanted = wanted;
                self.undecided()
            }
            Look::Memory => Gathered::Memory,
        }
    }

    /// What bytes come to that decide nothing.
    fn undecided(&self) -> Gathered
        ensures { IsUndecided self.now result }
    {
        if !self.is_ended {
            return Gathered::More;
        }
        if self.is_empty() {
            return Gathered::End;
        }
        Gathered::Cut
    }

    /// Whether no bytes are held.
    pub fn is_empty(&self) -> bool
        ensures { IsTrue result ↔ (self.now.held ≡ []) }
    {
        self.buffer.is_empty()
    }

    /// Takes back a message that is answered: the room of its target serves the next one.
    pub fn reuse(&mut self, message: Message)
        ensures { self.new ≡ self.old }
    {
        self.buffer.reuse(message);
    }

    /// Reads once, behind the bytes that are there.
    pub(crate) fn fill<S: Source>(&mut self, source: &mut S) -> Got
        requires { length self.old.held < 32_768 }
        ensures piece { IsFilled (S.left source.old) (S.left source.new) self.old.held self.new.held result }
        ensures reads { Lowers (S.reads source.old) (S.reads source.new) result }
        ensures faults { ReadCause (S.faults source.old) (S.faults source.new) result }
        ensures ended { self.new.ended ≡ self.old.ended }
    {
        self.buffer.fill(source)
    }
}

/// Takes a message that stands whole at the front.
fn look_at(alloc: Global, buffer: &mut Buffer) -> Look
    ensures { IsLook buffer.old buffer.new result }
{
    buffer.skip_line_ends();
    let Some(head) = buffer.head() else {
        return if buffer.len() < HEAD_LIMIT {
            Look::Part(buffer.len() + 1)
        } else {
            Look::Refused(Refusal::LargeHead)
        };
    };
    if head.len > HEAD_LIMIT {
        return Look::Refused(Refusal::LargeHead);
    }
    match buffer.found(alloc, head) {
        Found::Whole(message, size) => {
            buffer.consume(size);
            Look::Message(message)
        }
        Found::Refused(refusal) => Look::Refused(refusal),
        Found::Part(wanted) => Look::Part(wanted),
        Found::Memory => Look::Memory,
    }
}
