//! Records in a file of the system.
ghost use Rattle.std.specs.Prelude.{◌≡◌};

use crate::cases::{Seen, opened, two_records};
use crate::{Found, Records};
use shop_disk::{Disk, FileDisk, Got, Length, Opened, Wrote};
use std::alloc::Global;
use std::fs;
use std::test::Fail;

/// A file of the system whose program is killed: behind so many calls none reaches the system.
#[derive(Drop)]
struct Killed {
    disk: FileDisk<HostRuntime>,
    left: u64,
    faults: u64,
}

impl Killed {
    /// Whether one call more is made.
    fn lives(&mut self) -> bool
        ensures { self.new.faults ≡ self.old.faults }
    {
        let lives = self.left > 0;
        self.left = self.left.saturating_sub(1);
        lives
    }
}

impl Disk for Killed {
    ghost use Rattle.std.specs.Prelude.{None};
    ghost use Rattle.shop_disk.specs.FileStates.{untold, untold_is_disk};

    ghost state = { λ d. untold d.faults };

    ghost named = { λ _ _. None };

    ghost is_disk = { λ d. untold_is_disk d.faults };

    fn open(&mut self, name: &[u8]) -> Opened {
        if self.disk.open(name) == Opened::Open {
            return Opened::Open;
        }
        self.faults = self.faults.saturating_add(1);
        Opened::Failed
    }

    fn length(&mut self) -> Length {
        if self.lives() {
            if let Length::Bytes(count) = self.disk.length() {
                return Length::Bytes(count);
            }
        }
        self.faults = self.faults.saturating_add(1);
        Length::Failed
    }

    fn read_at(&mut self, at: u64, into: &mut [u8]) -> Got {
        if self.lives() {
            match self.disk.read_at(at, into) {
                Got::Failed => {}
                got => return got,
            }
        }
        self.faults = self.faults.saturating_add(1);
        Got::Failed
    }

    fn write_at(&mut self, at: u64, from: &[u8]) -> Wrote {
        if self.lives() && self.disk.write_at(at, from) == Wrote::Done {
            return Wrote::Done;
        }
        self.faults = self.faults.saturating_add(1);
        Wrote::Failed
    }

    fn sync(&mut self) -> Wrote {
        if self.lives() && self.disk.sync() == Wrote::Done {
            return Wrote::Done;
        }
        self.faults = self.faults.saturating_add(1);
        Wrote::Failed
    }
}

/// The name of the file.
const NAME: &str = "killed.records";

/// Makes a file with two records, in a program that is killed behind so many calls.
fn killed_behind(alloc: Global, disk: FileDisk<HostRuntime>, left: u64) {
    let mut killed = Killed {
        disk,
        left,
        faults: 0,
    };
    if killed.open(NAME.as_bytes()) == Opened::Open {
        drop(two_records(alloc, killed));
    }
}

/// What the file is.
fn seen_now(alloc: Global, disk: FileDisk<HostRuntime>) -> Seen {
    let mut disk = disk;
    if disk.open(NAME.as_bytes()) == Opened::Failed {
        return Seen::Failed;
    }
    opened(alloc, disk)
}

/// What a program leaves that is killed behind so many calls.
fn left_behind(rt: &HostRuntime, calls: u64) -> Result<Seen, Fail> {
    let _ = fs::remove_file(rt, NAME);
    killed_behind(rt.alloc(), FileDisk::new(rt.clone()?), calls);
    Ok(seen_now(rt.alloc(), FileDisk::new(rt.clone()?)))
}

/// How many calls are made, and what the file is then.
const ROWS: [(u64, Seen); 12] = [
    (0, Seen::NotAJournal(0)),
    (1, Seen::NotAJournal(0)),
    (2, Seen::Records(0)),
    (3, Seen::Records(0)),
    (4, Seen::Records(0)),
    (5, Seen::Records(0)),
    (6, Seen::Records(1)),
    (7, Seen::Records(1)),
    (8, Seen::Records(1)),
    (9, Seen::Records(1)),
    (10, Seen::Records(2)),
    (11, Seen::Records(2)),
];

#[test]
fn a_program_that_is_killed_between_two_calls_leaves_its_records(
    rt: HostRuntime,
) -> Result<(), Fail> {
    for (calls, want) in ROWS {
        assert!(rt;
            left_behind(&rt, calls)? == want,
            "killed behind {calls} calls"
        );
    }
    fs::remove_file(&rt, NAME)?;
    Ok(())
}

/// Whether each call fails of a disk on which no file is open.
fn is_shut(disk: &mut FileDisk<HostRuntime>) -> bool {
    disk.length() == Length::Failed
        && disk.read_at(0, &mut [0]) == Got::Failed
        && disk.write_at(0, b"x") == Wrote::Failed
        && disk.sync() == Wrote::Failed
        && disk.faults() == 4
}

/// Whether an open of such a disk fails, and none is open behind it.
fn stays_shut(disk: &mut FileDisk<HostRuntime>) -> bool {
    disk.open(b"no/such/folder") == Opened::Failed
        && disk.open(b"not \xff text") == Opened::Failed
        && disk.length() == Length::Failed
        && disk.faults() == 7
}

/// How many calls have failed where an opening of records failed.
fn faults_of(alloc: Global, disk: FileDisk<HostRuntime>) -> Option<u64> {
    match Records::open(alloc, disk) {
        Found::Failed(disk) => Some(disk.faults()),
        Found::Open(_, _) | Found::NotAJournal(_, _) | Found::Memory(_) => None,
    }
}

#[test]
fn a_disk_on_which_no_file_is_open_fails(rt: HostRuntime) -> Result<(), Fail> {
    let mut disk = FileDisk::new(rt.clone()?);
    let fails = is_shut(&mut disk) && stays_shut(&mut disk);
    let faults = faults_of(rt.alloc(), disk);
    assert!(rt; fails && faults == Some(8));
    Ok(())
}
