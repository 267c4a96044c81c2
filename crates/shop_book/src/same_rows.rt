//! Whether a key still shows a row.
ghost use Rattle.std.specs.Prelude.{◌≡◌, ◌↔◌, IsTrue};
ghost use Rattle.shop_model.specs.rows.Lookups as lookups;
ghost use Rattle.shop_history.specs.Keys.{shown};

use shop_history::Row;
use shop_model::{Address, Cart, Customer, CustomerDetails, Item, ItemDetails, row_numbered};
use shop_text::Shared;

/// Whether what an item is described by is equal.
fn same_descriptions(details: &ItemDetails, other: &ItemDetails) -> bool
    ensures { IsTrue result ↔ (details.now ≡ other.now) }
{
    details.title == other.title
        && details.author == other.author
        && details.subject == other.subject
        && details.publisher == other.publisher
        && details.about == other.about
        && details.related == other.related
        && details.thumb == other.thumb
        && details.image == other.image
        && details.srp == other.srp
        && details.cost == other.cost
        && details.first_stock == other.first_stock
        && details.pages == other.pages
        && details.backing == other.backing
}

/// Whether two items are equal.
fn same_item(item: &Item, other: &Item) -> bool
    ensures { IsTrue result ↔ (item.now ≡ other.now) }
{
    item.id == other.id
        && item.published == other.published
        && item.stock == other.stock
        && item.restocks == other.restocks
        && same_descriptions(item.details.get(), other.details.get())
}

/// Whether a row is that of the item with an id.
pub(crate) fn shows_item(items: &[Item], id: u32, row: &Row) -> bool
    ensures { IsTrue result ↔ (shown Row.Item (lookups.row_numbered items.now id) ≡ row.now) }
{
    match (row_numbered(items, id), row) {
        (Some(item), Row::Item(kept)) => same_item(item, kept),
        (None, Row::Absent) => true,
        _ => false,
    }
}

/// Whether two carts are equal.
fn same_cart(cart: &Cart, other: &Cart) -> bool
    ensures { IsTrue result ↔ (cart.now ≡ other.now) }
{
    cart.id == other.id && cart.lines.get().as_slice() == other.lines.get().as_slice()
}

/// Whether a row is that of the cart with an id.
pub(crate) fn shows_cart(carts: &[Cart], id: u32, row: &Row) -> bool
    ensures { IsTrue result ↔ (shown Row.Cart (lookups.row_numbered carts.now id) ≡ row.now) }
{
    match (row_numbered(carts, id), row) {
        (Some(cart), Row::Cart(kept)) => same_cart(cart, kept),
        (None, Row::Absent) => true,
        _ => false,
    }
}

/// Whether what a login leaves of two customers is equal.
fn same_details(details: &CustomerDetails, other: &CustomerDetails) -> bool
    ensures { IsTrue result ↔ (details.now ≡ other.now) }
{
    details.discount == other.discount
        && details.first == other.first
        && details.last == other.last
        && details.phone == other.phone
        && details.email == other.email
}

/// Whether two customers are equal.
fn same_customer(customer: &Customer, other: &Customer) -> bool
    ensures { IsTrue result ↔ (customer.now ≡ other.now) }
{
    customer.id == other.id
        && customer.address == other.address
        && customer.login == other.login
        && customer.expiry == other.expiry
        && same_details(customer.details.get(), other.details.get())
}

/// Whether a row is that of the customer with an id.
pub(crate) fn shows_customer(customers: &[Customer], id: u32, row: &Row) -> bool
    ensures { IsTrue result ↔ (shown Row.Customer (lookups.row_numbered customers.now id) ≡ row.now) }
{
    match (row_numbered(customers, id), row) {
        (Some(customer), Row::Customer(kept)) => same_customer(customer, kept),
        (None, Row::Absent) => true,
        _ => false,
    }
}

/// Whether two addresses are equal.
fn same_address(address: &Address, other: &Address) -> bool
    ensures { IsTrue result ↔ (address.now ≡ other.now) }
{
    address.id == other.id && address.text == other.text
}

/// Whether a row is that of the address with an id.
pub(crate) fn shows_address(addresses: &[Shared<Address>], id: u32, row: &Row) -> bool
    ensures { IsTrue result ↔ (shown Row.Address (lookups.row_numbered addresses.now id) ≡ row.now) }
{
    match (row_numbered(addresses, id), row) {
        (Some(address), Row::Address(kept)) => same_address(address.get(), kept.get()),
        (None, Row::Absent) => true,
        _ => false,
    }
}

/// Whether a row is this id.
pub(crate) fn shows_id(id: Option<u32>, row: &Row) -> bool
    ensures { IsTrue result ↔ (shown Row.Id id ≡ row.now) }
{
    match (id, row) {
        (Some(id), Row::Id(kept)) => id == *kept,
        (None, Row::Absent) => true,
        _ => false,
    }
}
