//! Files that are no journal, or one that is cut short.
use crate::cases::{CART_FILE, Seen, disk_with, is_seen, purchased};
use shop_disk::MemoryDisk;
use shop_model::TaxRule;
use shop_text::{Memory, Text};
use std::alloc::Global;
use std::test::Fail;

/// The bytes of a journal of a purchase.
fn whole(alloc: Global) -> Result<MemoryDisk, Memory> {
    purchased(alloc, disk_with(alloc, &[], 0)?, TaxRule::ByCountry)
}

/// A place of the journal, the byte that stands there instead, and what the file is then.
const CHANGED: [(usize, u8, Seen); 12] = [
    (0, b'X', Seen::NotAJournal(0)),
    (7, b'1', Seen::OldFormat),
    (7, b'3', Seen::NotAJournal(0)),
    // The numbers of the header are those of no scale.
    (15, 101, Seen::NotAJournal(0)),
    (31, 37, Seen::NotAJournal(0)),
    // The first length is one more.
    (36, 62, Seen::NotAJournal(32)),
    // A cart has no tax, and no authorisation.
    (61, 1, Seen::NotAJournal(32)),
    (62, b'1', Seen::NotAJournal(32)),
    // The path is none that changes the shop.
    (78, b'S', Seen::NotAJournal(32)),
    (98, 2, Seen::Entries(1)),
    // The second length is above the limit.
    (100, 1, Seen::NotAJournal(98)),
    (233, 1, Seen::NotAJournal(233)),
];

/// Whether a journal with another byte at a place is this.
fn is_changed(
    alloc: Global,
    file: &[u8],
    place: usize,
    byte: u8,
    want: Seen,
) -> Result<bool, Memory> {
    let mut image = Vec::from_slice(alloc, file)?;
    if place < image.len() {
        image[place] = byte;
    }
    is_seen(alloc, &image, want)
}

#[test]
fn a_file_that_is_no_journal_tells_its_place(rt: HostRuntime) -> Result<(), Fail> {
    let disk = whole(rt.alloc())?;
    for (place, byte, want) in CHANGED {
        assert!(rt; is_changed(rt.alloc(), disk.bytes(), place, byte, want)?);
    }
    Ok(())
}

#[test]
fn the_first_record_that_is_none_is_told(rt: HostRuntime) -> Result<(), Fail> {
    let disk = whole(rt.alloc())?;
    let mut image = Vec::from_slice(rt.alloc(), disk.bytes())?;
    // Neither record is one: the first keeps no entry, and the second is too long.
    if image.len() == 234 {
        image[61] = 1;
        image[100] = 1;
    }
    assert!(rt; is_seen(rt.alloc(), &image, Seen::NotAJournal(32))?);
    Ok(())
}

/// So many bytes of the front of a journal, and what they are.
const CUT: [(usize, Seen); 6] = [
    (0, Seen::NotAJournal(0)),
    (7, Seen::NotAJournal(0)),
    (31, Seen::NotAJournal(0)),
    (32, Seen::NotAJournal(32)),
    (98, Seen::NotAJournal(98)),
    (233, Seen::NotAJournal(233)),
];

#[test]
fn a_file_that_is_cut_tells_its_place(rt: HostRuntime) -> Result<(), Fail> {
    let disk = whole(rt.alloc())?;
    assert!(rt; disk.bytes().len() == 234);
    for (len, want) in CUT {
        assert!(rt;
            is_seen(
                rt.alloc(),
                &disk.bytes()[..len.min(disk.bytes().len())],
                want
            )?
        );
    }
    Ok(())
}

/// Targets of a second cart, and what its file is. All but the first ask for a cart in another spelling, for something
/// else, or for nothing.
const TARGETS: [(&[u8], Seen); 9] = [
    (b"/shopping_cart?item=1", Seen::Entries(2)),
    (b"/shopping_cart?item=01", Seen::NotAJournal(91)),
    (b"/shopping_cart?", Seen::NotAJournal(91)),
    (b"/shopping_cart?item=%31", Seen::NotAJournal(91)),
    (b"/shopping_cart?cart=1&c=2", Seen::NotAJournal(91)),
    (b"/shopping_cart?item=1&x=1", Seen::NotAJournal(91)),
    (b"/shopping_cart?item=x", Seen::NotAJournal(91)),
    (b"/home", Seen::NotAJournal(91)),
    (b"", Seen::NotAJournal(91)),
];

/// A journal of a cart, and behind it the record of one with this target.
fn with_target(alloc: Global, target: &[u8]) -> Result<Text, Memory> {
    let len = (target.len().min(200) + 40) as u8;
    let mut file = Text::copy(alloc, &CART_FILE[..91])?;
    file.push(&[1, 0, 0, 0, len])?;
    file.push(&CART_FILE[37..77])?;
    file.push(target)?;
    file.push(&[0])?;
    Ok(file)
}

/// Whether the file with this target is this.
fn is_spelled(alloc: Global, target: &[u8], want: Seen) -> Result<bool, Memory> {
    let file = with_target(alloc, target)?;
    is_seen(alloc, file.bytes(), want)
}

#[test]
fn an_entry_has_one_spelling(rt: HostRuntime) -> Result<(), Fail> {
    for (target, want) in TARGETS {
        assert!(rt; is_spelled(rt.alloc(), target, want)?);
    }
    Ok(())
}
