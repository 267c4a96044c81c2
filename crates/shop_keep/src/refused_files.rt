//! Files that are not the journal that the words ask for, words that are no command, and disks that fail at first.
ghost use Rattle.std.specs.Prelude.{◌≤◌};
ghost use Rattle.shop_model.specs.rows.Limits.{stamp_limit};

use crate::cases::{
    CART, CART_FILE, Case, OLD_FILE, Outcome, TWO_CARTS_FILE, disk_with, outcome_of,
};
use shop_app::Status;
use shop_disk::MemoryDisk;
use shop_history::{Act, Entry};
use shop_journal::{Appended, Created, Journal};
use shop_model::{CartRequest, IdsAsked, Scale};
use shop_text::{Listed, Memory};
use std::alloc::Global;
use std::test::Fail;

/// Whether nothing was read or written, but for the line of this status.
fn is_silent(outcome: &Outcome, status: Status) -> bool {
    outcome.is(status) && outcome.unread && outcome.sink.bytes().is_empty()
}

/// Whether words are refused so over these two files, which stay as they were.
fn is_refused(
    alloc: Global,
    line: &str,
    files: (&[u8], &[u8]),
    status: Status,
) -> Result<bool, Memory> {
    let case = Case {
        files,
        ..Case::of(line, &[CART], &[])
    };
    let outcome = outcome_of(alloc, case)?;
    Ok(
        is_silent(&outcome, status)
            && outcome.disk.bytes() == files.0
            && outcome.other.bytes() == files.1,
    )
}

/// Words, and a file that is not the journal that they ask for: one of the first format, of another seed, of another scale,
/// with more entries than the limit, and some that never were journals.
const REFUSED: [(&str, &[u8]); 6] = [
    ("keep --journal f", OLD_FILE),
    ("keep --journal f --seed 1", CART_FILE),
    ("keep --journal f --scale 1000x1", CART_FILE),
    ("keep --journal f --limit 1", TWO_CARTS_FILE),
    ("keep --journal f", b"x"),
    ("keep --journal f", b"TPCWLOG3"),
];

#[test]
fn a_file_that_is_not_the_journal_asked_for_is_left(rt: HostRuntime) -> Result<(), Fail> {
    for (line, file) in REFUSED {
        let refused = is_refused(rt.alloc(), line, (file, &[]), Status::NotThisJournal)?;
        assert!(rt; refused, "{line}");
    }
    Ok(())
}

/// Whether so many bytes of the front of a journal are none.
fn is_cut(alloc: Global, len: usize) -> Result<bool, Memory> {
    let front = CART_FILE.get(..len).unwrap_or(&[]);
    let files = (front, b"".as_slice());
    is_refused(alloc, "keep --journal f", files, Status::NotThisJournal)
}

#[test]
fn a_journal_that_is_cut_is_left(rt: HostRuntime) -> Result<(), Fail> {
    for len in [1, 8, 32, 37, 91] {
        assert!(rt; is_cut(rt.alloc(), len)?, "of {len} bytes");
    }
    Ok(())
}

/// An entry of a new cart, with this number.
fn cart_entry(alloc: Global, number: u64) -> Entry
    ensures { result.stamp ≤ stamp_limit }
{
    let asked = CartRequest {
        item: None,
        sets: Listed::new(alloc),
        ids: IdsAsked {
            c: None,
            cart: None,
        },
    };
    Entry {
        caller: 1,
        number,
        stamp: 1_000,
        act: Act::Cart(asked, 0x3f75),
    }
}

/// Adds an entry, as far as the disk goes.
fn with_entry(alloc: Global, journal: Journal<MemoryDisk>, entry: &Entry) -> MemoryDisk
    requires { entry.now.stamp ≤ stamp_limit }
{
    match journal.append(alloc, entry) {
        Appended::Done(journal) | Appended::Memory(journal) => journal.into_disk(),
        Appended::Failed(disk) => disk,
    }
}

/// A journal of the desk with an entry of this number.
fn numbered(alloc: Global, number: u64) -> Result<MemoryDisk, Memory> {
    let disk = disk_with(alloc, &[], 0)?;
    Ok(match Journal::create(alloc, disk, 0, &Scale::desk()) {
        Created::Done(journal) => with_entry(alloc, journal, &cart_entry(alloc, number)),
        Created::NotEmpty(disk) | Created::Failed(disk) | Created::Memory(disk) => disk,
    })
}

/// Whether a journal whose first entry has this number is left, since its log is not legal.
fn is_illegal(alloc: Global, number: u64) -> Result<bool, Memory> {
    let disk = numbered(alloc, number)?;
    let files = (disk.bytes(), b"".as_slice());
    let refused = is_refused(alloc, "keep --journal f", files, Status::NotThisJournal)?;
    Ok(refused && disk.bytes().len() == 92)
}

#[test]
fn a_journal_whose_log_is_not_legal_is_left(rt: HostRuntime) -> Result<(), Fail> {
    let legal = numbered(rt.alloc(), 1)?;
    assert!(rt; legal.bytes() == CART_FILE);
    assert!(rt; is_illegal(rt.alloc(), 0)? && is_illegal(rt.alloc(), 2)?);
    Ok(())
}

const MIGRATION: &str = "migrate --from f --to g";

/// Both files of a migration that is refused: one of the second format, one that was not there, one that never was a
/// journal, and one of the first format to a file that has bytes, also where these are the same.
const UNMOVED: [(&[u8], &[u8]); 5] = [
    (CART_FILE, b""),
    (b"", b""),
    (b"x", b""),
    (OLD_FILE, b"x"),
    (OLD_FILE, OLD_FILE),
];

#[test]
fn a_migration_that_is_refused_leaves_both_files(rt: HostRuntime) -> Result<(), Fail> {
    for files in UNMOVED {
        let refused = is_refused(rt.alloc(), MIGRATION, files, Status::NotThisJournal)?;
        assert!(rt; refused);
    }
    Ok(())
}

/// Words that are no command with files.
const BAD: [&str; 8] = [
    "",
    "session",
    "keep",
    "keep --journal -f",
    "keep --journal f --from g",
    "migrate",
    "migrate --from f",
    "migrate --from f --to g --seed 1",
];

/// Whether no disk is called at bad words.
fn is_bad(alloc: Global, line: &str) -> Result<bool, Memory> {
    let outcome = outcome_of(alloc, Case::of(line, &[CART], CART_FILE))?;
    Ok(
        is_silent(&outcome, Status::BadWords)
            && outcome.disk.calls().is_empty()
            && outcome.other.calls().is_empty(),
    )
}

#[test]
fn no_file_is_opened_at_bad_words(rt: HostRuntime) -> Result<(), Fail> {
    for line in BAD {
        assert!(rt; is_bad(rt.alloc(), line)?, "{line}");
    }
    Ok(())
}

/// Words, the first file, and the calls of both disks that fail before anything is read: the opening of a journal and its
/// making, and those of a migration.
const FAILED: [(&str, &[u8], (u64, u64)); 17] = [
    ("keep --journal f", CART_FILE, (1, 0)),
    ("keep --journal f", CART_FILE, (2, 0)),
    ("keep --journal f", CART_FILE, (3, 0)),
    ("keep --journal f", CART_FILE, (4, 0)),
    ("keep --journal f", CART_FILE, (5, 0)),
    ("keep --journal f", b"", (1, 0)),
    ("keep --journal f", b"", (2, 0)),
    ("keep --journal f", b"", (3, 0)),
    ("keep --journal f", b"", (4, 0)),
    (MIGRATION, OLD_FILE, (1, 0)),
    (MIGRATION, OLD_FILE, (2, 0)),
    (MIGRATION, OLD_FILE, (3, 0)),
    (MIGRATION, OLD_FILE, (4, 0)),
    (MIGRATION, OLD_FILE, (0, 1)),
    (MIGRATION, OLD_FILE, (0, 2)),
    (MIGRATION, OLD_FILE, (0, 3)),
    (MIGRATION, OLD_FILE, (0, 4)),
];

/// Whether a call that fails is told, and a first file that has bytes is left as it was.
fn is_failed(alloc: Global, line: &str, file: &[u8], fails: (u64, u64)) -> Result<bool, Memory> {
    let case = Case {
        fails,
        ..Case::of(line, &[CART], file)
    };
    let outcome = outcome_of(alloc, case)?;
    let faults = outcome.disk.faults().saturating_add(outcome.other.faults());
    let left = file.is_empty() || outcome.disk.bytes() == file;
    Ok(is_silent(&outcome, Status::DiskFault) && faults == 1 && left)
}

#[test]
fn a_disk_that_fails_at_first_is_told(rt: HostRuntime) -> Result<(), Fail> {
    for (line, file, fails) in FAILED {
        assert!(rt; is_failed(rt.alloc(), line, file, fails)?, "{line}");
    }
    Ok(())
}

/// Whether a migration whose line is not taken is made, and is told as a fault of the sink.
fn is_untold(alloc: Global) -> Result<bool, Memory> {
    let case = Case {
        piece: 0,
        ..Case::of(MIGRATION, &[], OLD_FILE)
    };
    let outcome = outcome_of(alloc, case)?;
    Ok(is_silent(&outcome, Status::WriteFault) && outcome.other.bytes().len() == 234)
}

#[test]
fn a_migration_whose_line_is_not_taken_is_a_write_fault(rt: HostRuntime) -> Result<(), Fail> {
    assert!(rt; is_untold(rt.alloc())?);
    Ok(())
}
