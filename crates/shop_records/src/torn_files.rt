//! Files that are torn behind a gate, or at one, and files that are broken.
use crate::cases::{Seen, TITLE, is_seen, stopped};
use shop_text::Memory;
use std::alloc::Global;
use std::test::Fail;

/// A front of a file, with another byte at one place.
fn changed(
    alloc: Global,
    file: &[u8],
    cut: usize,
    place: usize,
    byte: u8,
) -> Result<Vec<u8>, Memory> {
    let mut image = Vec::from_slice(alloc, &file[..cut.min(file.len())])?;
    if place < image.len() {
        image[place] = byte;
    }
    Ok(image)
}

/// The next of numbers that look as if drawn by chance.
fn next_number(number: &mut u64) -> u8 {
    *number = number
        .wrapping_mul(6_364_136_223_846_793_005)
        .wrapping_add(1_442_695_040_888_963_407);
    number.to_be_bytes()[0]
}

/// The last record of a file: the places of the gate before it and of the one behind it, and how many records there are
/// before it.
#[derive(Clone, Copy)]
struct Last {
    gate: usize,
    end: usize,
    before: usize,
}

/// The two records.
const LAST: [Last; 2] = [
    Last {
        gate: 32,
        end: 98,
        before: 0,
    },
    Last {
        gate: 98,
        end: 233,
        before: 1,
    },
];

/// A front of a file whose last gate is shut, and so many bytes by chance behind it.
fn torn(
    alloc: Global,
    file: &[u8],
    gate: usize,
    cut: usize,
    tail: u8,
    number: &mut u64,
) -> Result<Vec<u8>, Memory> {
    let mut image = changed(alloc, file, cut, gate, 0)?;
    for _ in 0..tail {
        image.push(next_number(number))?;
    }
    Ok(image)
}

/// How many of a front of a file, alone and with up to 20 bytes by chance behind it, keep the records before the last.
fn kept_before(
    alloc: Global,
    file: &[u8],
    last: Last,
    cut: usize,
    number: &mut u64,
) -> Result<u64, Memory> {
    let mut count = 0u64;
    for tail in 0..21 {
        let image = torn(alloc, file, last.gate, cut, tail, number)?;
        if is_seen(alloc, &image, Seen::Records(last.before))? {
            count = count.saturating_add(1);
        }
    }
    Ok(count)
}

/// Whether the last record is one exactly where its gate is open.
fn is_gated(alloc: Global, file: &[u8], last: Last, gate: u8) -> Result<bool, Memory> {
    let image = changed(alloc, file, file.len(), last.gate, gate)?;
    let more = usize::from(gate == 1);
    is_seen(
        alloc,
        &image,
        Seen::Records(last.before.saturating_add(more)),
    )
}

/// How many images of a file whose last record is torn, and how many with any byte for its gate, keep what they should.
fn images_of(alloc: Global, file: &[u8], last: Last, number: &mut u64) -> Result<u64, Memory> {
    let mut count = 0u64;
    for cut in last.gate.saturating_add(1)..last.end.saturating_add(2) {
        count = count.saturating_add(kept_before(alloc, file, last, cut, number)?);
    }
    for gate in 0..=u8::MAX {
        if is_gated(alloc, file, last, gate)? {
            count = count.saturating_add(1);
        }
    }
    Ok(count)
}

/// How many do so of the file up to its first record, and of the whole file.
fn images(alloc: Global, file: &[u8]) -> Result<u64, Memory> {
    let mut count = 0u64;
    let mut number = 1;
    for last in LAST {
        let front = changed(alloc, file, last.end.saturating_add(1), last.end, 0)?;
        count = count.saturating_add(images_of(alloc, &front, last, &mut number)?);
    }
    Ok(count)
}

#[test]
fn a_torn_record_is_none_and_a_gate_alone_opens_it(rt: HostRuntime) -> Result<(), Fail> {
    let disk = stopped(rt.alloc(), 0)?;
    let images = images(rt.alloc(), disk.bytes())?;
    // 67 and 136 fronts, each alone and with 20 tails, and 256 gates twice.
    assert!(rt; images == 4_775);
    Ok(())
}

/// How long the file is cut, a place of it, the byte that is put there, and what it is.
const CUT_AND_CHANGED: [(usize, usize, u8, Seen); 16] = [
    (0, 0, 0, Seen::NotAJournal(0)),
    (7, 0, b'T', Seen::NotAJournal(0)),
    (8, 0, b'T', Seen::NotAJournal(0)),
    (31, 0, b'T', Seen::NotAJournal(0)),
    (32, 0, b'T', Seen::NotAJournal(32)),
    (33, 32, 0, Seen::Records(0)),
    // An open gate, and no length, or a part of it; a payload that lacks a byte; no gate behind one.
    (33, 32, 1, Seen::NotAJournal(32)),
    (36, 32, 1, Seen::NotAJournal(32)),
    (97, 32, 1, Seen::NotAJournal(32)),
    (98, 32, 1, Seen::NotAJournal(98)),
    (233, 32, 1, Seen::NotAJournal(233)),
    // The first length is one more: the gate behind is the last of its payload, and the second length is a gate.
    (234, 36, 62, Seen::Records(1)),
    (234, 101, 0x40, Seen::NotAJournal(98)),
    (234, 98, 2, Seen::Records(1)),
    (234, 32, 0, Seen::Records(0)),
    // A header may be any bytes.
    (234, 0, b'X', Seen::Records(2)),
];

/// Whether each of these files is what it should be.
fn are_seen(alloc: Global, file: &[u8]) -> Result<bool, Memory> {
    for (cut, place, byte, want) in CUT_AND_CHANGED {
        if !is_seen(alloc, &changed(alloc, file, cut, place, byte)?, want)? {
            return Ok(false);
        }
    }
    Ok(true)
}

#[test]
fn a_broken_file_tells_its_place(rt: HostRuntime) -> Result<(), Fail> {
    let disk = stopped(rt.alloc(), 0)?;
    assert!(rt; disk.bytes().len() == 234 && are_seen(rt.alloc(), disk.bytes())?);
    Ok(())
}

/// A file with a record of so many bytes, which a gate follows.
fn one_record(alloc: Global, len: u32) -> Result<Vec<u8>, Memory> {
    let mut file = Vec::from_slice(alloc, &TITLE)?;
    file.push(1)?;
    file.extend_from_slice(&len.to_be_bytes())?;
    for _ in 0..len {
        file.push(9)?;
    }
    file.push(0)?;
    Ok(file)
}

/// Whether a file with a record of so many bytes is this.
fn is_with(alloc: Global, len: u32, want: Seen) -> Result<bool, Memory> {
    is_seen(alloc, &one_record(alloc, len)?, want)
}

#[test]
fn a_payload_has_a_limit(rt: HostRuntime) -> Result<(), Fail> {
    assert!(rt; is_with(rt.alloc(), 0, Seen::Records(1))?);
    assert!(rt; is_with(rt.alloc(), 16_384, Seen::Records(1))?);
    assert!(rt; is_with(rt.alloc(), 16_385, Seen::NotAJournal(32))?);
    Ok(())
}
