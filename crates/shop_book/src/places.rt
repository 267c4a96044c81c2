//! Where the version of a key stands.
ghost use Rattle.std.specs.Prelude.{◌≡◌};
ghost use Rattle.shop_book.specs.Places as spec;

use crate::rows::Rows;
use shop_history::Key;

/// How many columns there are.
pub(crate) const COLUMNS: usize = 11;

/// The column of a key and its place there, counted from 1; none for a key that is a text, and for those
/// of added items. Countries never change: their column stays empty.
#[inline(always)]
pub(crate) fn place_of(key: &Key) -> Option<(usize, u32)>
    ensures { result ≡ spec.place_of key.now }
{
    match key {
        Key::Item(id) => Some((0, *id)),
        Key::Label(_) => None,
        Key::Customer(id) => Some((2, *id)),
        Key::Cart(id) => Some((3, *id)),
        Key::NewIn(subject) => Some((4, u32::from(subject.number()) + 1)),
        Key::BestIn(subject) => Some((5, u32::from(subject.number()) + 1)),
        Key::Buyers(item) => Some((6, *item)),
        Key::Bought(customer) => Some((7, *customer)),
        Key::Name(_) => None,
        Key::Address(id) => Some((8, *id)),
        Key::SameAddress(_) => None,
        Key::Country(id) => Some((9, *id)),
        Key::Order(id) => Some((10, *id)),
        Key::LastOrder(customer) => Some((1, *customer)),
        Key::Count => None,
        Key::Added(_) => None,
    }
}

/// How many places each column needs.
pub(crate) fn sizes(rows: &Rows) -> [usize; COLUMNS]
    ensures { result ≡ spec.sizes rows.now }
{
    [
        rows.items.len(),
        rows.customers.len(),
        rows.customers.len(),
        rows.carts.len(),
        24,
        24,
        rows.items.len(),
        rows.customers.len(),
        rows.addresses.len(),
        0,
        rows.orders.len(),
    ]
}
