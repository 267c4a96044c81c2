//! Each call of a disk is stopped in turn, and what is left is opened again.
use crate::cases::{Seen, TITLE, disk_with, opened_in, stopped};
use crate::{Contents, Created, Found, Records};
use shop_disk::{Call, MemoryDisk};
use shop_text::{Memory, Text};
use std::alloc::Global;
use std::test::Fail;

/// For each call that is stopped: what is left without a crash, with a crash that keeps none of the bytes written since
/// the last sync, and with one that keeps all. A file's length stands before the number of its records, or before the
/// place that tells why it keeps none. In the last line none is stopped.
const LEFT: &[u8] = b"\
1 0 at 0, 0 at 0, 0 at 0
2 0 at 0, 0 at 0, 33 has 0
3 33 has 0, 0 at 0, 33 has 0
4 33 has 0, 33 has 0, 99 has 0
5 99 has 0, 33 has 0, 99 has 0
6 99 has 0, 99 has 0, 99 has 1
7 99 has 1, 99 has 0, 99 has 1
8 99 has 1, 99 has 1, 234 has 1
9 234 has 1, 99 has 1, 234 has 1
10 234 has 1, 234 has 1, 234 has 2
11 234 has 2, 234 has 1, 234 has 2
12 234 has 2, 234 has 2, 234 has 2
";

/// Writes what a file is.
fn add_seen(text: &mut Text, seen: Seen) -> Result<(), Memory> {
    match seen {
        Seen::Records(count) => {
            text.push(b" has ")?;
            text.push_decimal(count as u64)
        }
        Seen::NotAJournal(at) => {
            text.push(b" at ")?;
            text.push_decimal(at)
        }
        Seen::Failed => text.push(b" failed"),
        Seen::Memory => text.push(b" memory"),
    }
}

/// Writes a file's length, and what it is.
fn add_left(alloc: Global, text: &mut Text, bytes: &[u8]) -> Result<(), Memory> {
    text.push_decimal(bytes.len() as u64)?;
    add_seen(text, opened_in(alloc, bytes)?)
}

/// Writes what a crash leaves that keeps so many bytes.
fn add_crash(alloc: Global, text: &mut Text, disk: &MemoryDisk, keep: usize) -> Result<(), Memory> {
    let image = disk.after_crash(keep)?;
    add_left(alloc, text, image.bytes())
}

/// Writes what is left of a disk.
fn add_disk(alloc: Global, text: &mut Text, disk: &MemoryDisk) -> Result<(), Memory> {
    text.push(b" ")?;
    add_left(alloc, text, disk.bytes())?;
    text.push(b", ")?;
    add_crash(alloc, text, disk, 0)?;
    text.push(b", ")?;
    add_crash(alloc, text, disk, 1_000)?;
    text.push(b"\n")
}

/// Writes the line of a call.
fn add_line(alloc: Global, text: &mut Text, call: u64) -> Result<(), Memory> {
    text.push_decimal(call)?;
    let disk = stopped(alloc, call)?;
    add_disk(alloc, text, &disk)
}

/// The lines of the calls.
fn lines(alloc: Global) -> Result<Text, Memory> {
    let mut text = Text::new(alloc);
    for call in 1..13 {
        add_line(alloc, &mut text, call)?;
    }
    Ok(text)
}

#[test]
fn a_call_that_is_stopped_loses_nothing_that_was_acknowledged(rt: HostRuntime) -> Result<(), Fail> {
    let lines = lines(rt.alloc())?;
    assert!(rt; lines.bytes() == LEFT);
    Ok(())
}

/// What a crash leaves that keeps so many bytes.
fn crashed(alloc: Global, disk: &MemoryDisk, keep: usize) -> Result<Seen, Memory> {
    let image = disk.after_crash(keep)?;
    opened_in(alloc, image.bytes())
}

/// How many bytes of a crash leave neither what none of them leaves, nor what all of them leave.
fn others(alloc: Global, disk: &MemoryDisk) -> Result<u64, Memory> {
    let none = crashed(alloc, disk, 0)?;
    let all = crashed(alloc, disk, 1_000)?;
    let mut count = 0u64;
    for keep in 0..140 {
        let left = crashed(alloc, disk, keep)?;
        if left != none && left != all {
            count = count.saturating_add(1);
        }
    }
    Ok(count)
}

/// How many do so on a disk that stopped at a call.
fn others_at(alloc: Global, call: u64) -> Result<u64, Memory> {
    let disk = stopped(alloc, call)?;
    others(alloc, &disk)
}

/// Whether there are so many at each call from the first on, up to the end.
fn others_are(alloc: Global, first: u64, end: u64, count: u64) -> Result<bool, Memory> {
    for call in first..end {
        if others_at(alloc, call)? != count {
            return Ok(false);
        }
    }
    Ok(true)
}

#[test]
fn a_crash_that_keeps_some_bytes_leaves_the_records_before_or_one_more(
    rt: HostRuntime,
) -> Result<(), Fail> {
    // While the file is made it may have its header alone, and no gate.
    assert!(rt; others_are(rt.alloc(), 2, 4, 1)?);
    assert!(rt; others_are(rt.alloc(), 4, 13, 0)?);
    Ok(())
}

/// A letter for a call.
fn letter(call: &Call) -> u8 {
    match call {
        Call::Open => b'o',
        Call::Length => b'l',
        Call::Read(_) => b'r',
        Call::Write(_, _, _) => b'w',
        Call::Sync(_) => b's',
    }
}

/// Whether these are the letters of a disk's calls.
fn is_called(disk: &MemoryDisk, letters: &[u8]) -> bool {
    disk.calls().iter().map(letter).eq(letters.iter().copied())
}

/// Whether these are the header and the two records.
fn are_both(alloc: Global, contents: &Contents) -> Result<bool, Memory> {
    let payloads = contents.payloads(alloc)?;
    Ok(match payloads.as_slice() {
        [first, second] => {
            contents.header() == TITLE.as_slice()
                && *first == [7; 61].as_slice()
                && *second == [8; 130].as_slice()
        }
        _ => false,
    })
}

/// Whether opening a file with two records finds them, and syncs first and writes nothing.
fn is_found(alloc: Global, disk: MemoryDisk) -> Result<bool, Memory> {
    let Found::Open(records, contents) = Records::open(alloc, disk) else {
        return Ok(false);
    };
    let disk = records.into_disk();
    let called = is_called(&disk, b"lwswswswswssrr");
    Ok(called && are_both(alloc, &contents)?)
}

#[test]
fn an_append_is_two_writes_and_two_syncs_and_an_opening_writes_nothing(
    rt: HostRuntime,
) -> Result<(), Fail> {
    let disk = stopped(rt.alloc(), 0)?;
    assert!(rt; is_called(&disk, b"lwswswswsws"));
    assert!(rt; is_found(rt.alloc(), disk)?);
    Ok(())
}

/// Whether a file with bytes is not made one of records, and is left as it was.
fn is_left(alloc: Global, disk: MemoryDisk) -> bool {
    match Records::create(alloc, disk, &TITLE) {
        Created::NotEmpty(disk) => disk.bytes() == b"x".as_slice() && is_called(&disk, b"l"),
        Created::Done(_) | Created::Failed(_) | Created::Memory(_) => false,
    }
}

#[test]
fn a_file_that_has_bytes_is_left_as_it_was(rt: HostRuntime) -> Result<(), Fail> {
    let disk = disk_with(rt.alloc(), b"x", 0)?;
    assert!(rt; is_left(rt.alloc(), disk));
    Ok(())
}
