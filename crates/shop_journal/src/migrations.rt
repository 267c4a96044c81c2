//! Journals of the first format, written anew in the second.
use crate::cases::{Seen, disk_with, opened, purchased};
use crate::{Migrated, migrate};
use shop_disk::MemoryDisk;
use shop_model::TaxRule;
use shop_text::Memory;
use std::alloc::Global;
use std::test::Fail;

/// A journal of the first format, of a cart and its purchase.
const OLD: &[u8] = b"TPCWLOG1\0\0\0\0\0\0\0\x64\0\0\0\x19\0\0\0\x28\0\0\0\x50\0\0\0\x24\
    \x01\0\0\0\x3c\0\0\0\x01\0\0\0\0\0\0\0\x01\0\0\0\0\0\0\x03\xe8\0\0\x3f\x75000000000000000/shopping_cart?item=1\
    \x01\0\0\0\x81\0\0\0\x01\0\0\0\0\0\0\0\x02\0\0\0\0\0\0\x03\xe8\0\0\x3f\x82111225009362787/buy_confirm?\
    c=10&cart=1&card=VISA&number=4111222233334444&name=F&expiry=2027-05&ship=MAIL\0";

/// What the disks of a migration are: the old file's bytes, whether the new one has a byte, and which calls of each fail.
#[derive(Clone, Copy)]
struct Disks<'a> {
    old: &'a [u8],
    has_bytes: bool,
    old_fails: u64,
    new_fails: u64,
}

/// What comes of a migration, and the disk that was written.
fn migrated(alloc: Global, disks: Disks) -> Result<(Migrated, MemoryDisk), Memory> {
    let old = disk_with(alloc, disks.old, disks.old_fails)?;
    let new = if disks.has_bytes {
        disk_with(alloc, b"x", disks.new_fails)?
    } else {
        disk_with(alloc, &[], disks.new_fails)?
    };
    let (migrated, _, new) = migrate(alloc, old, new);
    Ok((migrated, new))
}

/// Whether a crash behind all calls leaves just what is read.
fn is_durable(disk: &MemoryDisk) -> Result<bool, Memory> {
    let none = disk.after_crash(0)?;
    let all = disk.after_crash(1_000)?;
    Ok(none.bytes() == disk.bytes() && all.bytes() == disk.bytes())
}

/// What the migration of a whole file comes to, its disks failing at no call.
fn moved(alloc: Global) -> Result<(Migrated, MemoryDisk), Memory> {
    migrated(
        alloc,
        Disks {
            old: OLD,
            has_bytes: false,
            old_fails: 0,
            new_fails: 0,
        },
    )
}

#[test]
fn a_journal_is_written_anew(rt: HostRuntime) -> Result<(), Fail> {
    let alloc = rt.alloc();
    let kept = purchased(alloc, disk_with(alloc, &[], 0)?, TaxRule::Flat)?;
    let (done, new) = moved(alloc)?;
    assert!(rt; OLD.len() == 232 && done == Migrated::Done(2));
    assert!(rt; new.bytes().len() == 234 && new.bytes() == kept.bytes() && is_durable(&new)?);
    assert!(rt; opened(alloc, new) == Seen::Entries(2));
    Ok(())
}

/// Whether a new file has a byte, which calls of the old and of the new disk fail, and what comes of it.
const REFUSED: [(bool, u64, u64, Migrated); 7] = [
    (true, 0, 0, Migrated::NotEmpty),
    (false, 1, 0, Migrated::Failed),
    (false, 2, 0, Migrated::Failed),
    (false, 3, 0, Migrated::Failed),
    (false, 0, 1, Migrated::Failed),
    (false, 0, 2, Migrated::Failed),
    (false, 0, 3, Migrated::Failed),
];

#[test]
fn a_migration_is_refused(rt: HostRuntime) -> Result<(), Fail> {
    for (has_bytes, old_fails, new_fails, want) in REFUSED {
        let disks = Disks {
            old: OLD,
            has_bytes,
            old_fails,
            new_fails,
        };
        assert!(rt; migrated(rt.alloc(), disks)?.0 == want);
    }
    Ok(())
}

/// Whether a file is none of the first format at this place, whatever the new file is.
fn is_none(alloc: Global, old: &[u8], at: u64) -> Result<bool, Memory> {
    for has_bytes in [false, true] {
        let disks = Disks {
            old,
            has_bytes,
            old_fails: 0,
            new_fails: 0,
        };
        if migrated(alloc, disks)?.0 != Migrated::NotAJournal(at) {
            return Ok(false);
        }
    }
    Ok(true)
}

/// The old file, whose cart has an authorisation.
fn authorised_cart(alloc: Global) -> Result<Vec<u8>, Memory> {
    let mut file = Vec::from_slice(alloc, OLD)?;
    if file.len() == 232 {
        file[61] = b'1';
    }
    Ok(file)
}

#[test]
fn a_file_that_is_none_of_the_first_format_tells_its_place(rt: HostRuntime) -> Result<(), Fail> {
    let alloc = rt.alloc();
    let new = purchased(alloc, disk_with(alloc, &[], 0)?, TaxRule::Flat)?;
    assert!(rt; is_none(alloc, new.bytes(), 0)?);
    assert!(rt; is_none(alloc, &OLD[..231], 231)?);
    let broken = authorised_cart(alloc)?;
    assert!(rt; is_none(alloc, &broken, 32)?);
    Ok(())
}
