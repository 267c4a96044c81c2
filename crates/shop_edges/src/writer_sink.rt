use crate::{Sink, Took};
use std::io::Write;
use std::marker::Model;

/// A sink over a writer of std: it tells what the writer tells, and that is nothing for standard
/// output, files and sockets. Each error of the writer is a fault, an interrupted write too, and so
/// is a write that takes nothing.
///
/// Trusted: that the writer hands its bytes to the system.
#[derive(Drop)]
pub struct WriterSink<W: Write> {
    writer: W,
    faults: u64,
}

impl<W: Write> Model for WriterSink<W> {
    ghost use Rattle.shop_edges.specs.Adapters.{WriterState};

    ghost Value = { WriterState W };

    ghost view = { λ s. record { writer = s.writer; faults = s.faults } };
}

impl<W: Write> WriterSink<W> {
    ghost use Rattle.std.specs.Prelude.{◌≡◌};

    pub fn new(writer: W) -> WriterSink<W>
        ensures { result ≡ record { writer = writer; faults = 0 } }
    {
        WriterSink { writer, faults: 0 }
    }

    /// How many writes have failed.
    pub fn faults(&self) -> u64
        ensures { result ≡ self.now.faults }
    {
        self.faults
    }
}

impl<W: Write> Sink for WriterSink<W> {
    ghost use Rattle.std.specs.Prelude.{◌≡◌, ◌<◌, length};
    ghost use Rattle.shop_edges.specs.Streams.{TookFits, Writes, WriteCause};
    ghost use Rattle.shop_edges.specs.Adapters.{faults_after_write};

    ghost held = { λ s. W.contents s.writer };

    ghost faults = { λ s. s.faults };

    fn write(&mut self, from: &[u8]) -> Took
        requires { 0 < length from.now }
        ensures fits { TookFits result from.now }
        ensures bytes { Writes (W.contents self.old.writer) (W.contents self.new.writer)
            result from.now }
        ensures cause { WriteCause self.old.faults self.new.faults result }
        ensures faults { self.new.faults ≡ faults_after_write result self.old.faults }
    {
        match self.writer.write(from) {
            Ok(0) | Err(_) => {
                self.faults = self.faults.saturating_add(1);
                Took::Failed
            }
            Ok(count) => Took::Bytes(count),
        }
    }
}
