//! A cart and its purchase in one connection, where each call of the disk fails in turn, and what a later connection finds.
use crate::cases::{CART_OF_ITEM_1, Case, ITEM, Outcome, PURCHASE, outcome_of};
use shop_app::Status;
use shop_disk::MemoryDisk;
use shop_journal::{Found, Journal};
use shop_text::Memory;
use std::alloc::Global;
use std::test::Fail;

const LINE: &str = "keep --journal shop.journal";

/// How many bytes the replies have: that to the cart, and both.
const ONE: usize = 546;

const BOTH: usize = 1_086;

/// How many entries a later connection goes on with; none where the file is no journal.
type Kept = Option<usize>;

/// For each call that fails: how many bytes were written to the sink, and how many the file has; and what is found behind a
/// crash that keeps none of the bytes written since the last sync, seven of them, and all. In the last line no call fails.
const STOPPED: [(u64, usize, usize, [Kept; 3]); 13] = [
    (1, 0, 0, [Some(0), Some(0), Some(0)]),
    (2, 0, 0, [Some(0), Some(0), Some(0)]),
    (3, 0, 0, [Some(0), None, Some(0)]),
    (4, 0, 33, [Some(0), None, Some(0)]),
    (5, 0, 33, [Some(0), Some(0), Some(0)]),
    (6, 0, 99, [Some(0), Some(0), Some(0)]),
    (7, 0, 99, [Some(0), Some(1), Some(1)]),
    (8, 0, 99, [Some(0), Some(1), Some(1)]),
    (9, ONE, 99, [Some(1), Some(1), Some(1)]),
    (10, ONE, 234, [Some(1), Some(1), Some(1)]),
    (11, ONE, 234, [Some(1), Some(2), Some(2)]),
    (12, ONE, 234, [Some(1), Some(2), Some(2)]),
    (13, BOTH, 234, [Some(2), Some(2), Some(2)]),
];

/// What comes of a cart and its purchase, where one call of the disk fails.
fn stopped_at(alloc: Global, call: u64) -> Result<Outcome, Memory> {
    let case = Case {
        fails: (call, 0),
        ..Case::of(LINE, &[CART_OF_ITEM_1, PURCHASE], &[])
    };
    outcome_of(alloc, case)
}

/// How many entries a journal has.
fn entries_of(alloc: Global, disk: MemoryDisk) -> Kept {
    match Journal::open(alloc, disk) {
        Found::Open(_, _, entries) => Some(entries.len()),
        Found::OldFormat(_) | Found::NotAJournal(_, _) | Found::Failed(_) | Found::Memory(_) => {
            None
        }
    }
}

/// What a later connection finds in the file that a crash leaves. It is served where that is a journal, and asks for
/// nothing that changes it.
fn found_behind(alloc: Global, disk: &MemoryDisk, keep: usize) -> Result<Kept, Memory> {
    let image = disk.after_crash(keep)?;
    let outcome = outcome_of(alloc, Case::of(LINE, &[ITEM], image.bytes()))?;
    match outcome.status {
        Status::Done => Ok(entries_of(alloc, outcome.disk)),
        _ => Ok(None),
    }
}

/// Whether this is found behind crashes that keep none, seven and all of the bytes written since the last sync.
fn finds(alloc: Global, disk: &MemoryDisk, want: [Kept; 3]) -> Result<bool, Memory> {
    let [none, some, all] = want;
    Ok(
        found_behind(alloc, disk, 0)? == none
            && found_behind(alloc, disk, 7)? == some
            && found_behind(alloc, disk, 1_000)? == all,
    )
}

/// Whether a run has the status of a call that failed, and wrote so many bytes of the replies to all, and no others.
fn is_stopped(outcome: &Outcome, call: u64, whole: &Outcome, written: usize) -> bool {
    let status = if call > 12 {
        Status::Done
    } else {
        Status::DiskFault
    };
    let front = whole.sink.bytes().get(..written);
    outcome.is(status) && front == Some(outcome.sink.bytes())
}

/// Whether this comes of a call that fails.
fn stops(
    alloc: Global,
    whole: &Outcome,
    (call, written, len, want): (u64, usize, usize, [Kept; 3]),
) -> Result<bool, Memory> {
    let outcome = stopped_at(alloc, call)?;
    Ok(
        is_stopped(&outcome, call, whole, written)
            && outcome.disk.bytes().len() == len
            && finds(alloc, &outcome.disk, want)?,
    )
}

#[test]
fn no_change_is_lost_whose_reply_was_begun(rt: HostRuntime) -> Result<(), Fail> {
    let whole = stopped_at(rt.alloc(), 0)?;
    assert!(rt; whole.is(Status::Done) && whole.sink.bytes().len() == BOTH);
    for row in STOPPED {
        let call = row.0;
        assert!(rt; stops(rt.alloc(), &whole, row)?, "at call {call}");
    }
    Ok(())
}
