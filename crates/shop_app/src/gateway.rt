//! The command `gateway`.
ghost use Rattle.std.specs.Prelude.{◌≤◌};
ghost use Rattle.shop_app.specs.Paying.{PaysBy};

use crate::Status;
use shop_edges::{Sink, Source};
use shop_gateway::{Emulator, Served, serve_gateway};
use std::alloc::Global;

/// Answers the lines that ask for payments, by a ledger of its own.
pub(crate) fn answer_lines<S: Source, K: Sink>(
    alloc: Global,
    source: &mut S,
    sink: &mut K,
) -> Status
    ensures pays { PaysBy (S.Source, K.Sink) (source.old, sink.old) (source.new, sink.new) result }
    ensures reads { S.faults source.old ≤ S.faults source.new }
    ensures writes { K.faults sink.old ≤ K.faults sink.new }
{
    let mut emulator = Emulator::new(alloc);
    match serve_gateway(&mut emulator, source, sink) {
        Served::Closed => Status::Done,
        Served::Cut | Served::TooLong => Status::Unserved,
        Served::ReadFault => Status::ReadFault,
        Served::WriteFault => Status::WriteFault,
        Served::Memory => Status::Memory,
    }
}
