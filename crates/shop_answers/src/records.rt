//! How rows, and those that they name, are looked up and printed.
use crate::answers::{answer, text_of};
use crate::done;
use anyhow::{Result, anyhow};
use shop_book::Book;
use shop_history::{Key, Label, Row};
use shop_model::{
    Address, AddressText, Customer, CustomerDetails, Order, SearchKind, Sought, Subject,
};
use shop_text::{Boxed, Text, digsyl, digsyl_lower};
use std::alloc::Global;

/// Which row is looked up.
#[derive(Clone, Copy, Debug)]
pub enum Lookup {
    Item(u32),
    Label(u32),
    Customer(u32),
    Address(u32),
    Country(u32),
    Order(u32),
    LastOrder(u32),
    Cart(u32),
    NewIn(Subject),
    BestIn(Subject),
    Buyers(u32),
    Bought(u32),
    /// The id of the customer with a user name.
    Name(&'static str),
    /// The id of the address that says what the one with this id says.
    SameAs(u32),
    /// How many items there are.
    Count,
    /// The items added since the opening that a search of this kind for a text finds.
    Added(SearchKind, &'static str),
}

/// What a key shows, and its version. Its callers need none of what is promised of it.
fn read(book: &mut Book, key: &Key) -> Result<(Row, u64)> {
    done(book.read(key))
}

fn texts_in(alloc: Global, row: &Row, id: u32) -> Result<AddressText> {
    match row {
        Row::Address(address) => done(address.get().text.copy(alloc)),
        _ => Err(anyhow!("no address {id}")),
    }
}

/// The texts of an address.
fn texts_of(alloc: Global, book: &mut Book, id: u32) -> Result<AddressText> {
    let (row, _) = read(book, &Key::Address(id))?;
    texts_in(alloc, &row, id)
}

/// The key of what says the same as an address.
fn same_as(alloc: Global, book: &mut Book, id: u32) -> Result<Key> {
    let text = texts_of(alloc, book, id)?;
    Ok(Key::SameAddress(done(Boxed::new(alloc, text))?))
}

/// The key of the added items that a search finds.
fn added(alloc: Global, kind: SearchKind, text: &str) -> Result<Key> {
    let sought = done(Sought::of(alloc, kind, text.as_bytes()))?;
    Ok(Key::Added(sought))
}

fn key_of(alloc: Global, book: &mut Book, lookup: Lookup) -> Result<Key> {
    match lookup {
        Lookup::Item(id) => Ok(Key::Item(id)),
        Lookup::Label(id) => Ok(Key::Label(id)),
        Lookup::Customer(id) => Ok(Key::Customer(id)),
        Lookup::Address(id) => Ok(Key::Address(id)),
        Lookup::Country(id) => Ok(Key::Country(id)),
        Lookup::Order(id) => Ok(Key::Order(id)),
        Lookup::LastOrder(customer) => Ok(Key::LastOrder(customer)),
        Lookup::Cart(id) => Ok(Key::Cart(id)),
        Lookup::NewIn(subject) => Ok(Key::NewIn(subject)),
        Lookup::BestIn(subject) => Ok(Key::BestIn(subject)),
        Lookup::Buyers(item) => Ok(Key::Buyers(item)),
        Lookup::Bought(customer) => Ok(Key::Bought(customer)),
        Lookup::Name(user) => Ok(Key::Name(done(Text::copy(alloc, user.as_bytes()))?)),
        Lookup::SameAs(id) => same_as(alloc, book, id),
        Lookup::Count => Ok(Key::Count),
        Lookup::Added(kind, text) => added(alloc, kind, text),
    }
}

/// What is looked up, and its version.
pub fn row_of(alloc: Global, book: &mut Book, lookup: Lookup) -> Result<(Row, u64)> {
    let key = key_of(alloc, book, lookup)?;
    read(book, &key)
}

/// Prints a title, its author's names, and the version.
fn print_label(rt: &impl Print, lookup: Lookup, label: &Label, version: u64) -> Result<()> {
    let author = (
        text_of(label.first().bytes()),
        text_of(label.last().bytes()),
    );
    let title = text_of(label.title().bytes());
    answer(rt, &lookup, &(title, author, version))
}

/// Prints ids, names or how many, or the stock and the restocks of an item, and the version.
fn print_plain(rt: &impl Print, lookup: Lookup, row: &Row, version: u64) -> Result<()> {
    match row {
        Row::Absent => answer(rt, &lookup, &("absent", version)),
        Row::Items(ids) => answer(rt, &lookup, &(ids.get().as_slice(), version)),
        Row::Customers(ids) => answer(rt, &lookup, &(ids.as_slice(), version)),
        Row::Totals(totals) => answer(rt, &lookup, &(totals.as_slice(), version)),
        Row::Item(item) => answer(rt, &lookup, &((item.stock, item.restocks), version)),
        Row::Label(label) => print_label(rt, lookup, label, version),
        Row::Number(number) => answer(rt, &lookup, &(*number, version)),
        _ => answer(rt, &lookup, &("there", version)),
    }
}

/// Prints what a row shows, ids, names or how many, or the stock and the restocks of an item, and its version.
pub fn print_row(rt: &(impl Print + AllocGlobal), book: &mut Book, lookup: Lookup) -> Result<()> {
    let (row, version) = row_of(rt.alloc(), book, lookup)?;
    print_plain(rt, lookup, &row, version)
}

/// Prints the names to log in with, in capitals and not, and the other names and how to reach the customer.
fn print_names(
    rt: &impl Print,
    (user, password): (&Text, &Text),
    details: &CustomerDetails,
) -> Result<()> {
    let login = (text_of(user.bytes()), text_of(password.bytes()));
    let (first, last) = (
        text_of(details.first.bytes()),
        text_of(details.last.bytes()),
    );
    let (phone, email) = (
        text_of(details.phone.bytes()),
        text_of(details.email.bytes()),
    );
    answer(rt, &login, &((first, last), (phone, email)))
}

/// Prints the names of a customer.
fn print_login(rt: &(impl Print + AllocGlobal), customer: &Customer) -> Result<()> {
    let user = done(digsyl(rt.alloc(), customer.id))?;
    let password = done(digsyl_lower(rt.alloc(), customer.id))?;
    print_names(rt, (&user, &password), customer.details.get())
}

/// Prints the names to log in with, the other names, how to reach the customer, and the numbers: address,
/// discount, login and expiry.
fn print_customer(rt: &(impl Print + AllocGlobal), customer: &Customer) -> Result<()> {
    print_login(rt, customer)?;
    let times = (customer.login, customer.expiry);
    answer(
        rt,
        &(customer.address, customer.details.get().discount),
        &times,
    )
}

/// Prints the streets, the rest of an address, and its country.
fn print_address(rt: &impl Print, address: &Address) -> Result<()> {
    let text = &address.text;
    let streets = (text_of(text.street1.bytes()), text_of(text.street2.bytes()));
    let (city, state) = (text_of(text.city.bytes()), text_of(text.state.bytes()));
    let zip = text_of(text.zip.bytes());
    answer(rt, &streets, &((city, state, zip), text.country))
}

/// Prints the customer and the address of an order, when it was placed and is shipped, how far it is, and
/// what was charged for how many lines.
fn print_order(rt: &impl Print, order: &Order) -> Result<()> {
    let times = (order.placed, order.ship_day, order.status);
    let charged = (order.sub, order.tax, order.ship, order.total);
    answer(rt, &(order.customer, order.ship_address), &times)?;
    answer(rt, &order.lines.as_slice().len(), &charged)
}

/// Prints whether a row is there, or what it is, behind its version.
fn print_kind(rt: &impl Print, lookup: Lookup, row: &Row, version: u64) -> Result<()> {
    match row {
        Row::Absent => answer(rt, &lookup, &("absent", version)),
        Row::Id(id) => answer(rt, &lookup, &(*id, version)),
        Row::Country(country) => {
            let name = text_of(country.get().name.bytes());
            answer(rt, &lookup, &(name, version))
        }
        _ => answer(rt, &lookup, &("there", version)),
    }
}

/// Prints what else there is to a customer, an address or an order.
fn print_rest(rt: &(impl Print + AllocGlobal), row: &Row) -> Result<()> {
    match row {
        Row::Customer(customer) => print_customer(rt, customer),
        Row::Address(address) => print_address(rt, address.get()),
        Row::Order(order) => print_order(rt, order.get()),
        _ => Ok(()),
    }
}

/// Prints what a look-up gave, behind its version.
fn print_read(
    rt: &(impl Print + AllocGlobal),
    lookup: Lookup,
    row: &Row,
    version: u64,
) -> Result<()> {
    print_kind(rt, lookup, row, version)?;
    print_rest(rt, row)
}

/// Prints a row, behind its version and what else fits there.
pub fn print_record(
    rt: &(impl Print + AllocGlobal),
    book: &mut Book,
    lookup: Lookup,
) -> Result<()> {
    let (row, version) = row_of(rt.alloc(), book, lookup)?;
    print_read(rt, lookup, &row, version)
}
