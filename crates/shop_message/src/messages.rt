ghost use Rattle.std.specs.Prelude.{◌≡◌, ◌≤◌, false};
ghost use Rattle.shop_edges.specs.Causes.{Rose};
ghost use Rattle.shop_message.specs.Nexts.{IsNext};

use crate::gather::{Gather, Gathered};
use http::Method;
use shop_edges::{Got, Source};
use shop_model::Refusal;
use shop_text::Text;

/// A message of a connection.
#[derive(Debug, Drop)]
pub struct Message {
    /// A contract sees its name.
    pub method: Method,
    /// As it stands in the head, not decoded.
    pub target: Text,
    /// At most 16,384 bytes.
    pub body: Text,
    /// Whether the connection is to end after the answer (RFC 9112, section 9.6).
    pub close: bool,
}

/// What comes next of a connection.
#[derive(Debug, Drop)]
pub enum Next {
    Message(Message),
    /// The source ended between two messages.
    End,
    /// The source ended inside a message.
    Cut,
    /// A message is refused, and no other is read.
    Bad(Refusal),
    /// The source failed.
    ReadFault,
    Memory,
}

/// Reads up to the end of the next message. The gatherer holds the bytes behind it.
pub fn next_message<S: Source>(source: &mut S, gather: &mut Gather) -> Next
    requires { gather.old.ended ≡ false }
    ensures next { IsNext (S.left source.old) (S.left source.new) gather.old.held gather.new.held result }
    ensures ended { gather.new.ended ≡ false }
    ensures later { S.faults source.old ≤ S.faults source.new }
    ensures failed { result ≡ Next.ReadFault → Rose (S.faults source.old) (S.faults source.new) }
{
    loop {
        match gather.take() {
            Gathered::Message(message) => return Next::Message(message),
            Gathered::Bad(refusal) => return Next::Bad(refusal),
            Gathered::Memory => return Next::Memory,
            Gathered::More => {}
            Gathered::End | Gathered::Cut => unreachable!(),
        }
        match gather.fill(source) {
            Got::Bytes(_) => {}
            Got::End => {
                if gather.is_empty() {
                    return Next::End;
                }
                return Next::Cut;
            }
            Got::Failed => return Next::ReadFault,
        }
    }
}
