//! The latest orders, with the units that they have of each item.
ghost use Rattle.std.specs.Prelude.{◌≡◌, ◌+◌, ◌-◌, ◌<◌, ◌≤◌, ◌∷◌, ◌++◌, [], min, length, IfOk, IsOk, OnOk, OnErr};
ghost use Rattle.shop_model.specs.rows.Limits.{recent_orders};
ghost use Rattle.shop_model.specs.lists.Related.{last};
ghost use Rattle.shop_window.specs.Windows.{AreCounted, IsKept, leaving};

use crate::chain::Chain;
use crate::kept::Kept;
use crate::units::{add_lines, take_lines};
use shop_model::Order;
use shop_text::{Listed, Memory};
use std::alloc::Global;
use std::marker::Model;

/// The latest `N` orders at most, of so many items.
#[derive(Drop)]
pub struct OrderWindow<const N: usize> {
    items: u32,
    orders: Chain,
    /// The units of each item in the orders, by its id.
    units: Vec<u64>,
    /// How many orders more there is room for.
    room: usize,
}

impl<const N: usize> Model for OrderWindow<N> {
    ghost use Rattle.shop_window.specs.Windows.{Window, IsWindow};

    ghost Value = { Window };

    ghost view = { λ w. record { items = w.items; kept = w.orders.kept; room = w.room } };

    ghost invariant = { λ w. IsWindow N w.items w.orders.kept w.units.items w.orders.capacity w.orders.spare w.room };
}

/// Takes the oldest order out.
fn release(items: u32, orders: &mut Chain, units: &mut Vec<u64>) -> Kept
    requires some { 0 < length orders.old.kept }
    requires counted { AreCounted items units.old.items orders.old.kept }
    ensures kept { orders.old.kept ≡ result.sold ∷ orders.new.kept }
    ensures counted { AreCounted items units.new.items orders.new.kept }
    ensures room { length orders.new.kept < orders.new.capacity }
    ensures capacity { orders.new.capacity ≡ orders.old.capacity }
    ensures spare { orders.old.spare ≤ orders.new.spare }
{
    let oldest = orders.pop();
    take_lines(units, oldest.lines());
    oldest
}

/// Makes room for one order more, of so many at most; the oldest leaves where there are so many already.
fn make_room(
    most: usize,
    items: u32,
    orders: &mut Chain,
    units: &mut Vec<u64>,
) -> Result<Option<u32>, Memory>
    requires some { 1 ≤ most }
    requires few { length orders.old.kept ≤ most }
    requires counted { AreCounted items units.old.items orders.old.kept }
    ensures kept { OnOk result (orders.new.kept ≡ last (most - 1) orders.old.kept) }
    ensures leaving { IfOk result (λ gone. gone ≡ leaving most orders.old.kept) }
    ensures room { OnOk result (length orders.new.kept < orders.new.capacity) }
    ensures same { OnErr result (orders.new.kept ≡ orders.old.kept) }
    ensures sure { min (length orders.old.kept + 1) most ≤ orders.old.capacity → IsOk result }
    ensures counted { AreCounted items units.new.items orders.new.kept }
    ensures capacity { orders.old.capacity ≤ orders.new.capacity }
    ensures spare { orders.old.spare ≤ orders.new.spare }
{
    if orders.len() < most {
        orders.reserve_orders(1)?;
        return Ok(None);
    }
    let oldest = release(items, orders, units);
    Ok(Some(oldest.id()))
}

/// Takes an order in.
fn join(items: u32, orders: &mut Chain, units: &mut Vec<u64>, order: Kept)
    requires counted { AreCounted items units.old.items orders.old.kept }
    requires few { length orders.old.kept < recent_orders }
    requires order { IsKept items order.sold }
    requires room { length orders.old.kept < orders.old.capacity }
    requires spare { 0 < orders.old.spare }
    ensures kept { orders.new.kept ≡ orders.old.kept ++ order.sold ∷ [] }
    ensures counted { AreCounted items units.new.items orders.new.kept }
    ensures capacity { orders.new.capacity ≡ orders.old.capacity }
    ensures spare { orders.old.spare ≤ orders.new.spare + 1 }
{
    add_lines(units, order.lines());
    orders.push(order);
}

impl<const N: usize> OrderWindow<N> {
    ghost use Rattle.std.specs.Prelude.{◌≡◌, ◌+◌, ◌<◌, ◌≤◌, [], ◌∷◌, ◌++◌, All, filter, length, IfOk, IsOk, OnOk, OnErr};
    ghost use Rattle.shop_model.specs.rows.Limits.{lines_limit, recent_orders};
    ghost use Rattle.shop_model.specs.rows.Sound.{Has};
    ghost use Rattle.shop_model.specs.lists.Related.{last, sold_of, is_of, has_item, units_in_orders, buyers_in, bought_in};
    ghost use Rattle.std.specs.List.{list_any};
    ghost use Rattle.shop_window.specs.Windows.{leaving};

    /// No orders yet, of so many items.
    pub fn new(alloc: Global, items: u32) -> Result<OrderWindow<N>, Memory>
        ensures { IfOk result (λ window. window ≡ record { items = items; kept = []; room = 0 }) }
    {
        Ok(OrderWindow {
            items,
            orders: Chain::new(alloc),
            units: vec![in alloc; 0; items as usize + 1]?,
            room: 0,
        })
    }

    /// Makes room for so many orders more.
    pub fn reserve(&mut self, orders: usize) -> Result<(), Memory>
        ensures items { self.new.items ≡ self.old.items }
        ensures kept { self.new.kept ≡ self.old.kept }
        ensures room { OnOk result (orders ≤ self.new.room) }
        ensures more { self.old.room ≤ self.new.room }
        ensures err { OnErr result (self.new ≡ self.old) }
    {
        self.orders.reserve_customers(orders)?;
        self.orders
            .reserve_orders(orders.min(N - self.orders.len()))?;
        self.room = self.room.max(orders);
        Ok(())
    }

    /// Takes an order in. Where there are `N` already, the oldest leaves, and its id is answered.
    pub fn admit(&mut self, order: &Order) -> Result<Option<u32>, Memory>
        requires some { 1 ≤ N }
        requires few { N ≤ recent_orders }
        requires lines { length order.now.lines ≤ lines_limit }
        requires items { All (λ l. Has self.old.items l.item) order.now.lines }
        ensures items { self.new.items ≡ self.old.items }
        ensures kept { OnOk result (self.new.kept ≡ last N (self.old.kept ++ sold_of order.now ∷ [])) }
        ensures leaving { IfOk result (λ gone. gone ≡ leaving N self.old.kept) }
        ensures sure { 0 < self.old.room → IsOk result }
        ensures room { self.old.room ≤ self.new.room + 1 }
        ensures err { OnErr result (self.new ≡ self.old) }
    {
        self.orders.reserve_customers(1)?;
        let gone = make_room(N, self.items, &mut self.orders, &mut self.units)?;
        join(
            self.items,
            &mut self.orders,
            &mut self.units,
            Kept::of(order),
        );
        self.room = self.room.saturating_sub(1);
        Ok(gone)
    }

    /// The units of an item in the orders; 0 where there is no such item.
    pub fn quantity(&self, item: u32) -> u64
        ensures { result ≡ units_in_orders item self.now.kept }
    {
        match self.units.get(item as usize) {
            Some(units) => *units,
            None => 0,
        }
    }

    /// The customers who ordered the item, rising.
    pub fn buyers(&self, item: u32) -> Result<Listed<u32>, Memory>
        ensures { IfOk result (λ buyers. buyers ≡ buyers_in self.now.kept item) }
    {
        self.orders.buyers(item)
    }

    /// The items that the customer ordered, rising, with their units; goes over the customer's orders alone.
    pub fn bought(&self, customer: u32) -> Result<Listed<(u32, u64)>, Memory>
        ensures { IfOk result (λ bought. bought ≡ bought_in self.now.kept customer) }
    {
        self.orders.bought(customer)
    }

    /// Whether an order of the customer has a line of the item; goes over the customer's orders alone.
    pub fn has(&self, customer: u32, item: u32) -> bool
        ensures { result ≡ list_any (has_item item) (filter (is_of customer) self.now.kept) }
    {
        self.orders.has(customer, item)
    }
}
