//! What the tests share.
ghost use Rattle.std.specs.Prelude.{◌≤◌, IfOk};
ghost use Rattle.shop_model.specs.rows.Limits.{stamp_limit};

use crate::headers::Format;
use crate::reading::{Parts, entry_of};
use crate::{Appended, Created, Found, Journal};
use shop_disk::{Disk, MemoryDisk};
use shop_history::{Act, Entry};
use shop_http::Routes;
use shop_model::{CartRequest, IdsAsked, Scale, TaxRule};
use shop_text::{Listed, Memory, Text};
use std::alloc::Global;

pub(crate) const NO_IDS: IdsAsked = IdsAsked {
    c: None,
    cart: None,
};

/// A caller's first change: what Shopping Cart makes of a cart, with an item or without.
pub(crate) fn cart_entry(alloc: Global, item: Option<u32>) -> Entry
    ensures { result.stamp ≤ stamp_limit }
{
    let asked = CartRequest {
        item,
        sets: Listed::new(alloc),
        ids: NO_IDS,
    };
    Entry {
        caller: 1,
        number: 1,
        stamp: 1000,
        act: Act::Cart(asked, 0x3f75),
    }
}

/// The parts of an entry that is not bought and not drawn for, with this target.
pub(crate) fn parts(target: &[u8]) -> Parts<'_> {
    Parts {
        caller: 1,
        number: 2,
        stamp: 1000,
        draw: 0,
        tax: 0,
        auth: b"000000000000000",
        target,
    }
}

/// The purchase of that cart, by what the gateway told of it.
pub(crate) fn purchase_entry(alloc: Global, tax: TaxRule) -> Result<Entry, Memory>
    ensures { IfOk result (λ entry. entry.stamp ≤ stamp_limit) }
{
    let (rule, auth) = match tax {
        TaxRule::Flat => (0, b"111225009362787"),
        TaxRule::ByCountry => (1, b"111224839362277"),
    };
    let parts = Parts {
        draw: 0x3f82,
        tax: rule,
        auth,
        ..parts(
            b"/buy_confirm?c=10&cart=1&card=VISA&number=4111222233334444&name=F&expiry=2027-05&ship=MAIL",
        )
    };
    let routes = Routes::new(alloc)?;
    match entry_of(alloc, &routes, Format::Second, &parts)? {
        Some(entry) => Ok(Entry {
            stamp: 1000,
            ..entry
        }),
        None => Err(Memory),
    }
}

/// A journal of the desk with the entry of a cart that has nothing.
pub(crate) const CART_FILE: &[u8] =
    b"TPCWLOG2\0\0\0\0\0\0\0\x64\0\0\0\x19\0\0\0\x28\0\0\0\x50\0\0\0\x24\
    \x01\0\0\0\x36\0\0\0\x01\0\0\0\0\0\0\0\x01\0\0\0\0\0\0\x03\xe8\0\0\x3f\x75\0000000000000000/shopping_cart\0";

/// What a file was found to be.
#[derive(Clone, Copy, PartialEq, Eq)]
pub(crate) enum Seen {
    /// A journal of so many entries.
    Entries(usize),
    OldFormat,
    NotAJournal(u64),
    Failed,
    Memory,
}

/// Opens a journal.
pub(crate) fn opened<D: Disk + Drop>(alloc: Global, disk: D) -> Seen {
    match Journal::open(alloc, disk) {
        Found::Open(_, _, entries) => Seen::Entries(entries.len()),
        Found::OldFormat(_) => Seen::OldFormat,
        Found::NotAJournal(_, at) => Seen::NotAJournal(at),
        Found::Failed(_) => Seen::Failed,
        Found::Memory(_) => Seen::Memory,
    }
}

/// A disk in memory that holds these bytes, and fails at one call, or at none where that is 0.
pub(crate) fn disk_with(alloc: Global, bytes: &[u8], fail: u64) -> Result<MemoryDisk, Memory> {
    let mut fails = Listed::new(alloc);
    fails.push(fail)?;
    MemoryDisk::new(alloc, Text::copy(alloc, bytes)?, fails)
}

/// Whether a file of these bytes is found to be this.
pub(crate) fn is_seen(alloc: Global, bytes: &[u8], want: Seen) -> Result<bool, Memory> {
    Ok(opened(alloc, disk_with(alloc, bytes, 0)?) == want)
}

/// Adds an entry, as far as the disk goes.
fn appended<D: Disk + Drop>(
    alloc: Global,
    journal: Journal<D>,
    entry: &Entry,
) -> Result<Journal<D>, D>
    requires { entry.now.stamp ≤ stamp_limit }
{
    match journal.append(alloc, entry) {
        Appended::Done(journal) => Ok(journal),
        Appended::Failed(disk) => Err(disk),
        Appended::Memory(journal) => Err(journal.into_disk()),
    }
}

/// Makes a journal of the desk, as far as the disk goes.
pub(crate) fn created<D: Disk + Drop>(alloc: Global, disk: D) -> Result<Journal<D>, D> {
    match Journal::create(alloc, disk, 0, &Scale::desk()) {
        Created::Done(journal) => Ok(journal),
        Created::NotEmpty(disk) | Created::Failed(disk) | Created::Memory(disk) => Err(disk),
    }
}

/// Makes a journal of the desk and adds a cart, as far as the disk goes.
fn with_cart<D: Disk + Drop>(alloc: Global, disk: D, item: Option<u32>) -> Result<Journal<D>, D> {
    match created(alloc, disk) {
        Ok(journal) => appended(alloc, journal, &cart_entry(alloc, item)),
        Err(disk) => Err(disk),
    }
}

/// The disk of a journal, or the one that stopped.
pub(crate) fn disk_of<D: Disk + Drop>(journal: Result<Journal<D>, D>) -> D {
    match journal {
        Ok(journal) => journal.into_disk(),
        Err(disk) => disk,
    }
}

/// Makes a journal of the desk and adds a cart without an item. It gives the disk back.
pub(crate) fn cart_kept<D: Disk + Drop>(alloc: Global, disk: D) -> D {
    disk_of(with_cart(alloc, disk, None))
}

/// Makes a journal of the desk and adds a cart with an item and its purchase, as far as the disk goes. It gives the disk
/// back.
pub(crate) fn purchased<D: Disk + Drop>(alloc: Global, disk: D, tax: TaxRule) -> Result<D, Memory> {
    let purchase = purchase_entry(alloc, tax)?;
    Ok(match with_cart(alloc, disk, Some(1)) {
        Ok(journal) => disk_of(appended(alloc, journal, &purchase)),
        Err(disk) => disk,
    })
}
