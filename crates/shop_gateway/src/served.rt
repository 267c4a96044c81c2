//! A gateway that decides by its ledger, over lines.
ghost use Rattle.std.specs.Prelude.{◌≡◌, ◌≤◌};
ghost use Rattle.shop_edges.specs.Causes.{Rose};
ghost use Rattle.shop_gateway.specs.Services.{IsTold, IsWritten, Serves, streams};

use crate::charge_line::charge_asked;
use crate::emulator::Emulator;
use crate::line_reader::{LineReader, NextLine};
use crate::reply_line::{approval_line, bad_line, denial_line};
use shop_edges::{Gateway, Sink, Source, Verdict, write_all};

/// How the service of a gateway ended.
#[derive(Clone, Copy, Debug, PartialEq, Eq)]
pub enum Served {
    /// The input ended between two lines.
    Closed,
    /// The input ended inside a line of at most 200 bytes.
    Cut,
    /// A line has more than 200 bytes: it is `BAD`, and none behind it is read.
    TooLong,
    /// The source failed.
    ReadFault,
    /// The sink failed.
    WriteFault,
    Memory,
}

/// What became of a line.
#[derive(Clone, Copy)]
enum Told {
    /// It is decided, and its reply is written.
    Whole,
    /// It is decided, and a write of its reply failed.
    Broken,
    Memory,
}

/// Writes the reply to a line that is decided.
fn tell<K: Sink>(sink: &mut K, reply: &[u8]) -> Told
    ensures told { IsWritten (K.held sink.old) (K.held sink.new) reply.now result }
    ensures later { K.faults sink.old ≤ K.faults sink.new }
    ensures broken { result ≡ Told.Broken → Rose (K.faults sink.old) (K.faults sink.new) }
{
    if write_all(sink, reply) {
        Told::Whole
    } else {
        Told::Broken
    }
}

/// Decides a line, and writes the reply to it.
fn answer<K: Sink>(emulator: &mut Emulator, line: &[u8], sink: &mut K) -> Told
    ensures told { IsTold emulator.old emulator.new (K.held sink.old) (K.held sink.new) line.now result }
    ensures later { K.faults sink.old ≤ K.faults sink.new }
    ensures broken { result ≡ Told.Broken → Rose (K.faults sink.old) (K.faults sink.new) }
{
    let Some(charge) = charge_asked(line) else {
        return tell(sink, bad_line());
    };
    match emulator.authorize(&charge) {
        Verdict::Approved(auth) => tell(sink, &approval_line(&auth)),
        Verdict::Denied(reason) => tell(sink, denial_line(&reason)),
        Verdict::Failed => unreachable!(),
        Verdict::Memory => Told::Memory,
    }
}

/// Decides lines in order until there are no more, and writes the reply to each.
pub fn serve_gateway<S: Source, K: Sink>(
    emulator: &mut Emulator,
    source: &mut S,
    sink: &mut K,
) -> Served
    ensures serves { Serves emulator.old emulator.new (streams (S.left source.old) (K.held sink.old))
        (streams (S.left source.new) (K.held sink.new)) result }
    ensures reads_later { S.faults source.old ≤ S.faults source.new }
    ensures writes_later { K.faults sink.old ≤ K.faults sink.new }
    ensures read_fault { result ≡ Served.ReadFault → Rose (S.faults source.old) (S.faults source.new) }
    ensures write_fault { result ≡ Served.WriteFault → Rose (K.faults sink.old) (K.faults sink.new) }
{
    let mut reader = LineReader::new();
    loop {
        let len = match reader.next(source) {
            NextLine::Whole(len) => len,
            NextLine::End => return Served::Closed,
            NextLine::Cut => return Served::Cut,
            NextLine::Failed => return Served::ReadFault,
            NextLine::TooLong => {
                if write_all(sink, bad_line()) {
                    return Served::TooLong;
                }
                return Served::WriteFault;
            }
        };
        match answer(emulator, reader.line(len), sink) {
            Told::Whole => reader.pass(len),
            Told::Broken => return Served::WriteFault,
            Told::Memory => return Served::Memory,
        }
    }
}
