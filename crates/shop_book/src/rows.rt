ghost use Rattle.std.specs.Prelude.{◌≡◌, IfOk};
ghost use Rattle.std.specs.Bool.{OnTrue};
ghost use Rattle.shop_history.specs.Keys as keys;
ghost use Rattle.shop_model.specs.declared.tables.Tables.{Tables};
ghost use Rattle.shop_model.specs.rows.Lookups as spec;
ghost use Rattle.shop_model.specs.rows.Sound.{Sound};
ghost use Rattle.shop_book.specs.Named as named;
ghost use Rattle.shop_book.specs.Named.{AreNamed};
ghost use Rattle.shop_book.specs.RowsNow.{tables_with, HasRoom};

use crate::addresses::Addresses;
use crate::copies::copies;
use shop_history::{Key, Label, Row};
use shop_model::{Cart, Country, Customer, Item, Order, Tables, row_numbered};
use shop_text::{Memory, Shared, Text, undigsyl};
use std::alloc::Global;

/// The rows of the tables that writes change.
#[derive(Drop)]
pub(crate) struct Rows {
    pub(crate) items: Vec<Item>,
    pub(crate) customers: Vec<Customer>,
    /// For each customer the id of its last order, if it has one.
    pub(crate) last: Vec<Option<u32>>,
    pub(crate) carts: Vec<Cart>,
    pub(crate) addresses: Addresses,
    pub(crate) orders: Vec<Shared<Order>>,
}

impl Rows {
    /// Copies of the rows of these tables.
    pub(crate) fn copy_of(alloc: Global, tables: &Tables) -> Result<Rows, Memory>
        ensures { IfOk result (λ rows. tables_with tables.now rows ≡ tables.now) }
    {
        Ok(Rows {
            items: copies(alloc, tables.items.as_slice())?,
            customers: copies(alloc, tables.customers.as_slice())?,
            last: copies(alloc, tables.last.as_slice())?,
            carts: copies(alloc, tables.carts.as_slice())?,
            addresses: Addresses::of(alloc, tables.addresses.as_slice())?,
            orders: copies(alloc, tables.orders.as_slice())?,
        })
    }

    /// Makes room for so many more rows in each table; answers whether there is.
    pub(crate) fn make_room(&mut self, more: usize) -> bool
        ensures same { (t : Tables) → tables_with t self.new ≡ tables_with t self.old }
        ensures room { OnTrue result (HasRoom self.new more) }
    {
        self.items.reserve(more).is_ok()
            && self.customers.reserve(more).is_ok()
            && self.last.reserve(more).is_ok()
            && self.carts.reserve(more).is_ok()
            && self.addresses.make_room(more)
            && self.orders.reserve(more).is_ok()
    }

    /// What a key of an item shows.
    pub(crate) fn item_row(&self, id: u32) -> Result<Row, Memory>
        ensures { IfOk result (λ row. row ≡ keys.shown Row.Item (spec.row_numbered self.now.items.items id)) }
    {
        match row_numbered(&self.items, id) {
            None => Ok(Row::Absent),
            Some(item) => Ok(Row::Item(item.share()?)),
        }
    }

    /// What a key of a label shows; authors are those of these tables.
    pub(crate) fn label_row(&self, tables: &Tables, id: u32) -> Result<Row, Memory>
        requires { Sound (tables_with tables.now self.now) }
        ensures { IfOk result (λ row. row ≡ keys.row_of (tables_with tables.now self.now) (Key.Label id)) }
    {
        match row_numbered(&self.items, id) {
            None => Ok(Row::Absent),
            Some(item) => match row_numbered(tables.authors.as_slice(), item.details.get().author) {
                None => unreachable!(),
                Some(author) => Ok(Row::Label(Label {
                    item: item.details.share()?,
                    author: author.share()?,
                })),
            },
        }
    }

    /// What a key of a customer shows.
    pub(crate) fn customer_row(&self, id: u32) -> Result<Row, Memory>
        ensures { IfOk result (λ row. row ≡ keys.shown Row.Customer (spec.row_numbered self.now.customers.items id)) }
    {
        match row_numbered(&self.customers, id) {
            None => Ok(Row::Absent),
            Some(customer) => Ok(Row::Customer(customer.share()?)),
        }
    }

    /// What a key of a cart shows.
    pub(crate) fn cart_row(&self, id: u32) -> Result<Row, Memory>
        ensures { IfOk result (λ row. row ≡ keys.shown Row.Cart (spec.row_numbered self.now.carts.items id)) }
    {
        match row_numbered(&self.carts, id) {
            None => Ok(Row::Absent),
            Some(cart) => Ok(Row::Cart(cart.share()?)),
        }
    }

    /// The id of the customer with a user name.
    pub(crate) fn customer_named(&self, user: &Text) -> Option<u32>
        requires { AreNamed self.now.customers.items }
        ensures { result ≡ named.named_id self.now.customers.items user.now }
    {
        match undigsyl(user.bytes()) {
            None => None,
            Some(id) => match row_numbered(&self.customers, id) {
                None => None,
                Some(_) => Some(id),
            },
        }
    }

    /// What a key of an address shows.
    pub(crate) fn address_row(&self, id: u32) -> Result<Row, Memory>
        ensures { IfOk result (λ row. row ≡ keys.shown Row.Address (spec.row_numbered self.now.addresses.rows id)) }
    {
        match row_numbered(self.addresses.as_slice(), id) {
            None => Ok(Row::Absent),
            Some(address) => Ok(Row::Address(address.share()?)),
        }
    }

    /// What a key of an order shows.
    pub(crate) fn order_row(&self, id: u32) -> Result<Row, Memory>
        ensures { IfOk result (λ row. row ≡ keys.shown Row.Order (spec.row_numbered self.now.orders.items id)) }
    {
        match row_numbered(&self.orders, id) {
            None => Ok(Row::Absent),
            Some(order) => Ok(Row::Order(order.share()?)),
        }
    }

    /// What the key of a customer's last order shows.
    pub(crate) fn last_row(&self, customer: u32) -> Row
        ensures { result ≡ keys.shown Row.Id (spec.joined (spec.row_numbered self.now.last.items customer)) }
    {
        match row_numbered(&self.last, customer) {
            Some(Some(id)) => Row::Id(*id),
            _ => Row::Absent,
        }
    }
}

/// What a key shows that finds a row in another way than by its id.
pub(crate) fn id_row(id: Option<u32>) -> Row
    ensures { result ≡ keys.shown Row.Id id }
{
    match id {
        None => Row::Absent,
        Some(id) => Row::Id(id),
    }
}

/// What a key of a country shows.
pub(crate) fn country_row(countries: &[Shared<Country>], id: u32) -> Result<Row, Memory>
    ensures { IfOk result (λ row. row ≡ keys.shown Row.Country (spec.row_numbered countries.now id)) }
{
    match row_numbered(countries, id) {
        None => Ok(Row::Absent),
        Some(country) => Ok(Row::Country(country.share()?)),
    }
}
