//! The same over files of the system.
use crate::cases::{
    CART, CART_FILE, LAST_ORDER, OLD_FILE, TWO_CARTS_FILE, clock_of, count_of, left_in,
    requests_of, run, sink_of, source_of, words_of,
};
use shop_app::Status;
use shop_disk::FileDisk;
use shop_edges::BytesOut;
use shop_text::Memory;
use std::alloc::Global;
use std::fs;
use std::test::Fail;

/// What came of a run: its status, what was written, and whether nothing of its input was read.
#[derive(Drop)]
struct Outcome {
    status: Status,
    sink: BytesOut,
    unread: bool,
}

/// Runs words, with a request for a target, over two disks on which no file is open yet.
fn outcome_of(
    alloc: Global,
    line: &str,
    target: &str,
    disks: (FileDisk<HostRuntime>, FileDisk<HostRuntime>),
) -> Result<Outcome, Memory> {
    let words = words_of(alloc, line)?;
    let input = requests_of(alloc, &[target])?;
    let len = input.len();
    let mut source = source_of(alloc, input);
    let mut clock = clock_of(alloc)?;
    let mut sink = sink_of(alloc, 1_000_000);
    let mut faults = sink_of(alloc, 1_000_000);
    let streams = (&mut sink, &mut faults);
    let (status, _, _) = run(alloc, &words, disks, &mut source, streams, &mut clock);
    let unread = left_in(&mut source) == len;
    Ok(Outcome {
        status,
        sink,
        unread,
    })
}

/// Runs words over files of the system.
fn run_line(rt: &HostRuntime, line: &str, target: &str) -> Result<Outcome, Fail> {
    let disks = (FileDisk::new(rt.clone()?), FileDisk::new(rt.clone()?));
    Ok(outcome_of(rt.alloc(), line, target, disks)?)
}

/// Whether a run ends so, and reads nothing of its input.
fn is_refused(rt: &HostRuntime, line: &str, status: Status) -> Result<bool, Fail> {
    let outcome = run_line(rt, line, CART)?;
    Ok(outcome.status == status && outcome.unread)
}

/// Whether a file has these bytes.
fn has(rt: &HostRuntime, name: &str, bytes: &[u8]) -> Result<bool, Fail> {
    Ok(fs::read(rt, name)?.as_slice() == bytes)
}

/// The file of a shop that is made.
const MADE: &str = "made.journal";

#[test]
fn a_file_that_is_made_is_gone_on_with(rt: HostRuntime) -> Result<(), Fail> {
    let line = "keep --journal made.journal";
    let _ = fs::remove_file(&rt, MADE);
    let first = run_line(&rt, line, CART)?.status;
    assert!(rt; first == Status::Done && has(&rt, MADE, CART_FILE)?);
    let second = run_line(&rt, line, CART)?.status;
    assert!(rt; second == Status::Done && has(&rt, MADE, TWO_CARTS_FILE)?);
    assert!(rt;
        is_refused(
            &rt,
            "keep --journal made.journal --seed 1",
            Status::NotThisJournal
        )?
    );
    assert!(rt; has(&rt, MADE, TWO_CARTS_FILE)?);
    fs::remove_file(&rt, MADE)?;
    Ok(())
}

/// The files of a migration.
const OLD: &str = "old.journal";

const MOVED: &str = "moved.journal";

/// Whether a migration tells two entries.
fn is_migrated(rt: &HostRuntime) -> Result<bool, Fail> {
    let outcome = run_line(rt, "migrate --from old.journal --to moved.journal", CART)?;
    Ok(
        outcome.status == Status::Done
            && outcome.unread
            && outcome.sink.bytes() == b"entries 2\n".as_slice(),
    )
}

/// Whether the order that was carried over is shown.
fn is_shown(rt: &HostRuntime) -> Result<bool, Fail> {
    let outcome = run_line(rt, "keep --journal moved.journal", LAST_ORDER)?;
    let totals = b"Subtotal 21.95, tax 1.81, shipping 4.00, total 27.76";
    Ok(outcome.status == Status::Done && count_of(outcome.sink.bytes(), totals) == 1)
}

#[test]
fn a_file_of_the_first_format_is_carried_over_into_another_one(
    rt: HostRuntime,
) -> Result<(), Fail> {
    let _ = fs::remove_file(&rt, MOVED);
    fs::write(&rt, OLD, OLD_FILE)?;
    let same = "migrate --from old.journal --to old.journal";
    assert!(rt; is_refused(&rt, same, Status::NotThisJournal)?);
    assert!(rt; is_migrated(&rt)? && is_shown(&rt)?);
    let again = "migrate --from old.journal --to moved.journal";
    assert!(rt; is_refused(&rt, again, Status::NotThisJournal)?);
    assert!(rt; has(&rt, OLD, OLD_FILE)?);
    fs::remove_file(&rt, OLD)?;
    fs::remove_file(&rt, MOVED)?;
    Ok(())
}

#[test]
fn a_file_in_no_folder_is_a_disk_fault(rt: HostRuntime) -> Result<(), Fail> {
    assert!(rt; is_refused(&rt, "keep --journal no/such/folder", Status::DiskFault)?);
    Ok(())
}
