ghost use Rattle.std.specs.Prelude.{◌≡◌, ◌<◌, ℕ, List, length, Option, is_some};
ghost use Rattle.shop_disk.specs.Images.{Torn};
ghost use Rattle.shop_disk.specs.DiskStates.{DiskState, NoMore, Follows, Elapses, IsDisk};
ghost use Rattle.shop_disk.specs.Calls.{OpensAs, Measures, GotFits, ReadsAt, WritesAt, IsWithin, SyncsAs, OpenCause, LengthCause, ReadCause, WriteCause};

/// Whether a file was opened.
#[derive(Clone, Copy, Debug, PartialEq, Eq)]
pub enum Opened {
    Open,
    Failed,
}

/// How long a file is.
#[derive(Clone, Copy, Debug, PartialEq, Eq)]
pub enum Length {
    Bytes(u64),
    Failed,
}

/// What a read gave.
#[derive(Clone, Copy, Debug, PartialEq, Eq)]
pub enum Got {
    /// So many bytes, at least one.
    Bytes(usize),
    /// The place is at or past the end.
    End,
    Failed,
}

/// Whether something was written, or is on the disk.
#[derive(Clone, Copy, Debug, PartialEq, Eq)]
pub enum Wrote {
    Done,
    Failed,
}

/// A file on a disk that may crash. Between two syncs each range that was written, and what is past the length at the
/// last sync, may hold any bytes after a crash. All other bytes stay.
pub trait Disk {
    /// What is known of it now.
    ghost state: { Self → DiskState };

    /// What a read gives once the file of a name is open, where that is known.
    ghost named: { Self → List ℕ → Option (List ℕ) };

    /// What holds of each state.
    ghost is_disk: { (disk : Self) → IsDisk (state disk) };

    /// Opens the file of a name, which is made empty where there is none. The calls behind it act on this file.
    fn open(&mut self, name: &[u8]) -> Opened
        ensures told { OpensAs (named self.old name.now) (state self.new).told result }
        ensures tells { is_some (state self.new).told ≡ is_some (state self.old).told }
        ensures cause { OpenCause (state self.old).faults (state self.new).faults result };

    /// How long the file is, in bytes.
    fn length(&mut self) -> Length
        ensures length { Measures (state self.old).told result }
        ensures told { (state self.new).told ≡ (state self.old).told }
        ensures crash { NoMore (state self.old) (state self.new) }
        ensures time { Elapses (state self.old) (state self.new) }
        ensures cause { LengthCause (state self.old).faults (state self.new).faults result };

    /// Reads bytes of the file from a place on.
    fn read_at(&mut self, at: u64, into: &mut [u8]) -> Got
        requires { 0 < length into.old }
        ensures fits { GotFits result into.new }
        ensures bytes { ReadsAt (state self.old).told at result into.new }
        ensures told { (state self.new).told ≡ (state self.old).told }
        ensures crash { NoMore (state self.old) (state self.new) }
        ensures time { Elapses (state self.old) (state self.new) }
        ensures cause { ReadCause (state self.old).faults (state self.new).faults result };

    /// Writes bytes over the file from a place on, also past its end. One that failed may have written any part.
    fn write_at(&mut self, at: u64, from: &[u8]) -> Wrote
        requires { IsWithin (state self.old).told at }
        ensures written { WritesAt (state self.old).told (state self.new).told at from.now result }
        ensures crash { Follows (Torn at (length from.now)) (state self.old) (state self.new) }
        ensures time { Elapses (state self.old) (state self.new) }
        ensures cause { WriteCause (state self.old).faults (state self.new).faults result };

    /// Puts what was written onto the disk.
    fn sync(&mut self) -> Wrote
        ensures durable { SyncsAs (state self.old).told (state self.new).may_leave result }
        ensures told { (state self.new).told ≡ (state self.old).told }
        ensures crash { NoMore (state self.old) (state self.new) }
        ensures time { Elapses (state self.old) (state self.new) }
        ensures cause { WriteCause (state self.old).faults (state self.new).faults result };
}
