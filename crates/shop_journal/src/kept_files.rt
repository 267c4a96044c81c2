//! Journals by their bytes, and what is found of them.
use crate::cases::{CART_FILE, cart_kept, created, disk_of, disk_with, purchased};
use crate::headers::{Format, Head};
use crate::payloads::payload_of;
use crate::{Created, Found, Journal};
use shop_disk::MemoryDisk;
use shop_model::{Scale, TaxRule};
use shop_text::Memory;
use std::alloc::Global;
use std::test::Fail;

/// A journal of the desk without entries.
const MADE: &[u8] = b"TPCWLOG2\0\0\0\0\0\0\0\x64\0\0\0\x19\0\0\0\x28\0\0\0\x50\0\0\0\x24\0";

#[test]
fn a_journal_that_is_made_has_33_bytes(rt: HostRuntime) -> Result<(), Fail> {
    let disk = disk_of(created(rt.alloc(), disk_with(rt.alloc(), &[], 0)?));
    assert!(rt; MADE.len() == 33 && disk.bytes() == MADE);
    Ok(())
}

/// Whether a file is a journal of the desk with the entry of a cart that has nothing.
fn is_found(alloc: Global, disk: MemoryDisk) -> Result<bool, Memory> {
    let Found::Open(_, head, entries) = Journal::open(alloc, disk) else {
        return Ok(false);
    };
    let desk = Head {
        seed: 0,
        scale: Scale::desk(),
    };
    match entries.as_slice() {
        [entry] => {
            let payload = payload_of(alloc, Format::Second, entry)?;
            Ok(head == desk && payload.bytes() == &CART_FILE[37..91])
        }
        _ => Ok(false),
    }
}

#[test]
fn a_journal_of_a_cart_has_92_bytes(rt: HostRuntime) -> Result<(), Fail> {
    let disk = cart_kept(rt.alloc(), disk_with(rt.alloc(), &[], 0)?);
    assert!(rt; CART_FILE.len() == 92 && disk.bytes() == CART_FILE);
    assert!(rt; is_found(rt.alloc(), disk)?);
    Ok(())
}

/// Whether making a journal leaves this file as it was, since it has bytes.
fn is_left(alloc: Global, bytes: &[u8]) -> Result<bool, Memory> {
    let disk = disk_with(alloc, bytes, 0)?;
    Ok(match Journal::create(alloc, disk, 0, &Scale::desk()) {
        Created::NotEmpty(disk) => disk.bytes() == bytes,
        Created::Done(_) | Created::Failed(_) | Created::Memory(_) => false,
    })
}

#[test]
fn no_journal_is_made_of_a_file_that_has_bytes(rt: HostRuntime) -> Result<(), Fail> {
    assert!(rt; is_left(rt.alloc(), CART_FILE)? && is_left(rt.alloc(), b"x")?);
    Ok(())
}

/// Whether a journal of a purchase has its gates at these places, and the lengths of its payloads behind them.
fn has_gates(file: &[u8]) -> bool {
    file.len() == 234
        && file[32..37] == [1, 0, 0, 0, 61]
        && file[98..103] == [1, 0, 0, 0, 130]
        && file[233] == 0
}

#[test]
fn a_journal_of_a_purchase_has_234_bytes(rt: HostRuntime) -> Result<(), Fail> {
    let disk = disk_with(rt.alloc(), &[], 0)?;
    let disk = purchased(rt.alloc(), disk, TaxRule::ByCountry)?;
    assert!(rt; has_gates(disk.bytes()));
    Ok(())
}
