use crate::{Got, Source};
use std::io::Read;
use std::marker::Model;

/// How many reads a source over a reader begins with.
pub const FIRST_READS: u64 = 1 << 63;

/// A source over a reader of std: it tells what the reader tells, and that is nothing for standard
/// input, files and sockets. Each error of the reader is a fault, an interrupted read too. After
/// 2^63 reads every read fails.
///
/// Trusted: that the reader gives the bytes that stand in the system.
#[derive(Drop)]
pub struct ReaderSource<R: Read> {
    reader: R,
    reads: u64,
    faults: u64,
}

impl<R: Read> Model for ReaderSource<R> {
    ghost use Rattle.shop_edges.specs.Adapters.{ReaderState};

    ghost Value = { ReaderState R };

    ghost view = { λ s. record { reader = s.reader; reads = s.reads; faults = s.faults } };
}

impl<R: Read> ReaderSource<R> {
    ghost use Rattle.std.specs.Prelude.{◌≡◌};

    pub fn new(reader: R) -> ReaderSource<R>
        ensures { result ≡ record { reader = reader; reads = FIRST_READS; faults = 0 } }
    {
        ReaderSource {
            reader,
            reads: FIRST_READS,
            faults: 0,
        }
    }

    /// How many reads have failed.
    pub fn faults(&self) -> u64
        ensures { result ≡ self.now.faults }
    {
        self.faults
    }
}

impl<R: Read> Source for ReaderSource<R> {
    ghost use Rattle.std.specs.Prelude.{◌≡◌, ◌-◌, ◌<◌, length};
    ghost use Rattle.shop_edges.specs.Streams.{GotFits, Reads, Lowers, ReadCause};
    ghost use Rattle.shop_edges.specs.Adapters.{faults_after_read};

    ghost left = { λ s. R.remaining s.reader };

    ghost faults = { λ s. s.faults };

    ghost reads = { λ s. s.reads };

    fn read(&mut self, into: &mut [u8]) -> Got
        requires { 0 < length into.old }
        ensures fits { GotFits result into.new }
        ensures bytes { Reads (R.remaining self.old.reader) (R.remaining self.new.reader)
            result into.new }
        ensures reads { Lowers self.old.reads self.new.reads result }
        ensures cause { ReadCause self.old.faults self.new.faults result }
        ensures fewer { self.new.reads ≡ self.old.reads - 1 }
        ensures faults { self.new.faults ≡ faults_after_read result self.old.faults }
    {
        if self.reads == 0 {
            self.faults = self.faults.saturating_add(1);
            return Got::Failed;
        }
        self.reads -= 1;
        match self.reader.read(into) {
            Ok(0) => Got::End,
            Ok(count) => Got::Bytes(count),
            Err(_) => {
                self.faults = self.faults.saturating_add(1);
                Got::Failed
            }
        }
    }
}
