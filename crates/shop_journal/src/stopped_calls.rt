//! Calls that are stopped, each in turn.
use crate::cases::{Seen, disk_with, is_seen, opened, purchased};
use shop_disk::MemoryDisk;
use shop_model::TaxRule;
use shop_text::Memory;
use std::alloc::Global;
use std::test::Fail;

/// For each call of a creation and of two appends, and for the sync of an opening: how many bytes the file has where that
/// call fails, and what it is without a crash, behind one that keeps no byte written since the last sync, and behind one
/// that keeps all.
const STOPPED: [(u64, usize, [Seen; 3]); 12] = [
    (
        1,
        0,
        [
            Seen::NotAJournal(0),
            Seen::NotAJournal(0),
            Seen::NotAJournal(0),
        ],
    ),
    (
        2,
        0,
        [Seen::NotAJournal(0), Seen::NotAJournal(0), Seen::Entries(0)],
    ),
    (
        3,
        33,
        [Seen::Entries(0), Seen::NotAJournal(0), Seen::Entries(0)],
    ),
    (
        4,
        33,
        [Seen::Entries(0), Seen::Entries(0), Seen::Entries(0)],
    ),
    (
        5,
        99,
        [Seen::Entries(0), Seen::Entries(0), Seen::Entries(0)],
    ),
    (
        6,
        99,
        [Seen::Entries(0), Seen::Entries(0), Seen::Entries(1)],
    ),
    (
        7,
        99,
        [Seen::Entries(1), Seen::Entries(0), Seen::Entries(1)],
    ),
    (
        8,
        99,
        [Seen::Entries(1), Seen::Entries(1), Seen::Entries(1)],
    ),
    (
        9,
        234,
        [Seen::Entries(1), Seen::Entries(1), Seen::Entries(1)],
    ),
    (
        10,
        234,
        [Seen::Entries(1), Seen::Entries(1), Seen::Entries(2)],
    ),
    (
        11,
        234,
        [Seen::Entries(2), Seen::Entries(1), Seen::Entries(2)],
    ),
    (12, 234, [Seen::Failed, Seen::Entries(2), Seen::Entries(2)]),
];

/// Whether a crash that keeps so many of the bytes written since the last sync leaves this.
fn is_left(alloc: Global, disk: &MemoryDisk, keep: usize, want: Seen) -> Result<bool, Memory> {
    let image = disk.after_crash(keep)?;
    is_seen(alloc, image.bytes(), want)
}

/// Whether a journal of a purchase that stops at a call leaves this.
fn stops(alloc: Global, call: u64, len: usize, want: [Seen; 3]) -> Result<bool, Memory> {
    let [now, none, all] = want;
    let disk = purchased(alloc, disk_with(alloc, &[], call)?, TaxRule::ByCountry)?;
    let crashes = is_left(alloc, &disk, 0, none)? && is_left(alloc, &disk, 1_000, all)?;
    Ok(crashes && disk.bytes().len() == len && opened(alloc, disk) == now)
}

#[test]
fn a_stopped_call_loses_nothing_acknowledged(rt: HostRuntime) -> Result<(), Fail> {
    for (call, len, want) in STOPPED {
        assert!(rt; stops(rt.alloc(), call, len, want)?);
    }
    Ok(())
}
