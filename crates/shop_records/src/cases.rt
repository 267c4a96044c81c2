//! What the tests share.
use crate::{Appended, Contents, Created, Found, HEADER, Records};
use shop_disk::{Disk, MemoryDisk};
use shop_text::{Listed, Memory, Text};
use std::alloc::Global;

pub(crate) const TITLE: [u8; HEADER] =
    *b"TPCWLOG2\0\0\0\0\0\0\0\x64\0\0\0\x19\0\0\0\x28\0\0\0\x50\0\0\0\x24";

/// What a file was found to be.
#[derive(Clone, Copy, PartialEq, Eq)]
pub(crate) enum Seen {
    /// So many records.
    Records(usize),
    /// None of records, as this place tells.
    NotAJournal(u64),
    Failed,
    Memory,
}

/// How many records there are.
fn counted(alloc: Global, contents: &Contents) -> Seen {
    match contents.payloads(alloc) {
        Ok(payloads) => Seen::Records(payloads.len()),
        Err(Memory) => Seen::Memory,
    }
}

/// Opens a file.
pub(crate) fn opened<D: Disk + Drop>(alloc: Global, disk: D) -> Seen {
    match Records::open(alloc, disk) {
        Found::Open(_, contents) => counted(alloc, &contents),
        Found::NotAJournal(_, at) => Seen::NotAJournal(at),
        Found::Failed(_) => Seen::Failed,
        Found::Memory(_) => Seen::Memory,
    }
}

/// A disk in memory that holds these bytes, and fails at one call, or at none where that is 0.
pub(crate) fn disk_with(alloc: Global, bytes: &[u8], fail: u64) -> Result<MemoryDisk, Memory> {
    let mut fails = Listed::new(alloc);
    fails.push(fail)?;
    MemoryDisk::new(alloc, Text::copy(alloc, bytes)?, fails)
}

/// Opens a file of these bytes.
pub(crate) fn opened_in(alloc: Global, bytes: &[u8]) -> Result<Seen, Memory> {
    Ok(opened(alloc, disk_with(alloc, bytes, 0)?))
}

/// Whether a file of these bytes is found to be this.
pub(crate) fn is_seen(alloc: Global, bytes: &[u8], want: Seen) -> Result<bool, Memory> {
    Ok(opened_in(alloc, bytes)? == want)
}

/// Makes a file and adds records of 61 and of 130 bytes, as far as the disk goes. It gives the disk back.
pub(crate) fn two_records<D: Disk + Drop>(alloc: Global, disk: D) -> D {
    let records = match Records::create(alloc, disk, &TITLE) {
        Created::Done(records) => records,
        Created::NotEmpty(disk) | Created::Failed(disk) | Created::Memory(disk) => return disk,
    };
    let records = match records.append(alloc, &[7; 61]) {
        Appended::Done(records) => records,
        Appended::Failed(disk) => return disk,
        Appended::Memory(records) => return records.into_disk(),
    };
    match records.append(alloc, &[8; 130]) {
        Appended::Done(records) | Appended::Memory(records) => records.into_disk(),
        Appended::Failed(disk) => disk,
    }
}

/// A disk with two records, or with what there is of them where it stopped at a call.
pub(crate) fn stopped(alloc: Global, call: u64) -> Result<MemoryDisk, Memory> {
    Ok(two_records(alloc, disk_with(alloc, &[], call)?))
}
