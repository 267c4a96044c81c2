//! Writes that take no more memory: it is taken before the first of them is made.
ghost use Rattle.std.specs.Prelude.{◌≡◌, ℕ, ◌+◌, ◌^◌, ◌<◌, ◌≤◌, IfOk, All, map};
ghost use Rattle.shop_model.specs.declared.tables.Tables.{Tables};
ghost use Rattle.shop_model.specs.rows.Limits.{stamp_limit};
ghost use Rattle.shop_attempt.specs.Writes as write;
ghost use Rattle.shop_attempt.specs.Writes.{written_one, placed};
ghost use Rattle.shop_book.specs.Puts as spec;
ghost use Rattle.shop_book.specs.Readiness.{IsFit, AreFit};
ghost use Rattle.shop_book.specs.RowsNow.{tables_with};

use crate::rows::Rows;
use shop_attempt::{Stock, Write};
use shop_model::{
    Address, AddressText, CardUse, Cart, Customer, DAY_LENGTH, DAY_LIMIT, Item, Order,
};
use shop_text::{Boxed, Memory, Shared};
use std::alloc::Global;

/// A write whose new row is made, with its id, where it is one that is shared.
#[derive(Drop)]
pub(crate) enum Put {
    Cart(Cart),
    Login(u32),
    /// A new address, and the text that it says.
    Address(Shared<Address>, Boxed<AddressText>),
    Customer(Customer),
    /// A new order, and how many days later it is shipped.
    Order(Shared<Order>, u32),
    Stock(Stock),
    Item(Item),
}

/// How many rows there are once the writes before were made.
#[derive(Clone, Copy)]
pub(crate) struct Next {
    addresses: usize,
    orders: usize,
}

/// An id, or, where it is 0, the last one of so many.
pub(crate) fn or_last(id: u32, count: usize) -> u32
    requires { count < 2 ^ 32 }
    ensures { result ≡ write.or_last id count }
{
    if id == 0 { count as u32 } else { id }
}

/// An order placed at a stamp, and shipped so many days later.
fn order_stamped(stamp: u64, days: u32, order: Order) -> Order
    requires { stamp ≤ stamp_limit }
    ensures { result ≡ spec.order_stamped stamp days order }
{
    let day = stamp / DAY_LENGTH + u64::from(days);
    Order {
        placed: stamp,
        ship_day: day.min(u64::from(DAY_LIMIT)) as u32,
        card: CardUse {
            stamp,
            ..order.card
        },
        ..order
    }
}

/// An order in its place among the others.
fn placed_order(next: Next, stamp: u64, days: u32, order: Order) -> Order
    requires addresses { next.addresses < 2 ^ 32 }
    requires orders { next.orders + 1 < 2 ^ 32 }
    requires stamp { stamp ≤ stamp_limit }
    ensures { (t : Tables) → spec.AreCounted t next → result ≡ placed t stamp days order }
{
    let placed = Order {
        id: next.orders as u32 + 1,
        ship_address: or_last(order.ship_address, next.addresses),
        ..order
    };
    order_stamped(stamp, days, placed)
}

impl Next {
    /// How many rows there are.
    fn of(rows: &Rows) -> Next
        ensures { (t : Tables) → spec.AreCounted (tables_with t rows.now) result }
    {
        Next {
            addresses: rows.addresses.len(),
            orders: rows.orders.len(),
        }
    }

    /// An address that comes next.
    fn address(&mut self, alloc: Global, text: Boxed<AddressText>) -> Result<Put, Memory>
        requires { self.old.addresses + 1 < 2 ^ 32 }
        ensures put { IfOk result (λ put. put ≡ Put.Address (record { id = self.old.addresses + 1; text = text }) text) }
        ensures next { self.new ≡ record self.old { addresses = self.old.addresses + 1 } }
    {
        self.addresses += 1;
        let id = self.addresses as u32;
        let row = Address {
            id,
            text: text.get().copy(alloc)?,
        };
        Ok(Put::Address(Shared::new(alloc, row)?, text))
    }

    /// A write, with the memory that it takes.
    fn put(&mut self, alloc: Global, stamp: u64, write: Write) -> Result<Put, Memory>
        requires { IsFit self.old stamp write }
        ensures made { IfOk result (spec.IsPutOf self.old write) }
        ensures stamped { IfOk result (spec.IsStamped stamp) }
        ensures whole { IfOk result spec.IsWhole }
        ensures next { (t : Tables) → (at : ℕ) → spec.AreCounted t self.old → spec.AreCounted (written_one t at write) self.new }
    {
        match write {
            Write::PutCart(cart) => Ok(Put::Cart(cart)),
            Write::Login(id) => Ok(Put::Login(id)),
            Write::AddAddress(text) => self.address(alloc, text),
            Write::AddCustomer(customer) => Ok(Put::Customer(customer)),
            Write::AddOrder(order, days) => {
                let order = placed_order(*self, stamp, days, order.into_inner());
                self.orders += 1;
                Ok(Put::Order(Shared::new(alloc, order)?, days))
            }
            Write::SetStock(stock) => Ok(Put::Stock(stock)),
            Write::PutItem(item) => Ok(Put::Item(item)),
        }
    }
}

impl Put {
    /// The write as it is at another stamp.
    fn stamped(self, alloc: Global, stamp: u64) -> Result<Put, Memory>
        requires { stamp ≤ stamp_limit }
        ensures { IfOk result (λ put. put ≡ spec.stamped stamp self) }
    {
        match self {
            Put::Order(order, days) => {
                let order = order_stamped(stamp, days, order.get().copy(alloc)?);
                Ok(Put::Order(Shared::new(alloc, order)?, days))
            }
            put => Ok(put),
        }
    }
}

/// The writes as they are at another stamp.
#[inline(never)]
fn all_stamped(alloc: Global, stamp: u64, puts: Vec<Put>) -> Result<Vec<Put>, Memory>
    requires { stamp ≤ stamp_limit }
    ensures { IfOk result (λ all. all.items ≡ map (spec.stamped stamp) puts.items) }
{
    let mut all = Vec::with_capacity(alloc, puts.len())?;
    for put in puts {
        all.push(put.stamped(alloc, stamp)?)?;
    }
    Ok(all)
}

/// Writes that are as they are at one stamp, as they are at another.
#[inline(always)]
pub(crate) fn puts_at(
    alloc: Global,
    was: u64,
    stamp: u64,
    puts: Vec<Put>,
) -> Result<Vec<Put>, Memory>
    requires was { All (spec.IsStamped was) puts.items }
    requires stamp { stamp ≤ stamp_limit }
    ensures { IfOk result (λ all. all.items ≡ map (spec.stamped stamp) puts.items) }
{
    if stamp == was {
        return Ok(puts);
    }
    all_stamped(alloc, stamp, puts)
}

/// The writes, with the memory that they take. At another stamp each is as `puts_at` makes it.
pub(crate) fn puts_of(
    alloc: Global,
    rows: &Rows,
    stamp: u64,
    writes: Vec<Write>,
) -> Result<Vec<Put>, Memory>
    requires { AreFit rows.now stamp writes.items }
    ensures made { IfOk result (λ puts. spec.ArePutsOf rows.now writes.items puts.items) }
    ensures stamped { IfOk result (λ puts. All (spec.IsStamped stamp) puts.items) }
    ensures whole { IfOk result (λ puts. All spec.IsWhole puts.items) }
{
    let mut puts = Vec::with_capacity(alloc, writes.len())?;
    let mut next = Next::of(rows);
    for write in writes {
        puts.push(next.put(alloc, stamp, write)?)?;
    }
    Ok(puts)
}
