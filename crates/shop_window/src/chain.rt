//! The orders of a window, each chained to the one before it of its customer.
ghost use Rattle.std.specs.Prelude.{◌≡◌, nat_eq};
ghost use Rattle.std.specs.HashMap.{get};
ghost use Rattle.shop_window.specs.Chains.{left_of};

use crate::kept::Kept;
use crate::rising::put_once;
use crate::totals::add_all;
use shop_text::{Listed, Memory};
use std::alloc::Global;
use std::collections::{HashMap, VecDeque};
use std::marker::Model;

/// Orders, the oldest first.
#[derive(Drop)]
pub(crate) struct Chain {
    kept: VecDeque<Kept>,
    /// The number of each customer's newest order. Orders are numbered as they come, from 1, and numbers wrap.
    newest: HashMap<u32, u64>,
    /// How many orders are gone, which wraps too.
    gone: u64,
}

impl Model for Chain {
    ghost use Rattle.std.specs.Prelude.{map, nat_eq};
    ghost use Rattle.std.specs.HashMap.{get, spare};
    ghost use Rattle.std.specs.VecDeque.{deque_capacity};
    ghost use Rattle.shop_window.specs.Chains.{ChainValue, IsChain};

    ghost Value = { ChainValue };

    ghost view = { λ c. record { kept = map (λ e. e.sold) c.kept.items; capacity = deque_capacity c.kept; spare = spare c.newest } };

    ghost invariant = { λ c. IsChain c.kept.items (get nat_eq c.newest) c.gone };
}

/// How many orders are left with the customer's newest one the last of them; 0 where it has none.
fn newest_left(newest: &HashMap<u32, u64>, gone: u64, customer: u32) -> usize
    ensures { result ≡ left_of gone (get nat_eq newest.now customer) }
{
    match newest.get(&customer) {
        Some(number) => number.wrapping_sub(gone) as usize,
        None => 0,
    }
}

impl Chain {
    ghost use Rattle.std.specs.Prelude.{◌≡◌, ◌+◌, ◌^◌, ◌<◌, ◌≤◌, [], ◌∷◌, ◌++◌, filter, length, IfOk, IsOk, OnOk};
    ghost use Rattle.std.specs.List.{list_any};
    ghost use Rattle.shop_model.specs.lists.Related.{is_of, has_item, buyers_in, lines_in, bought_in};
    ghost use Rattle.shop_window.specs.Totals.{units_of};

    /// No orders; takes no memory.
    pub(crate) fn new(alloc: Global) -> Chain
        ensures { result.kept ≡ [] }
    {
        Chain {
            kept: VecDeque::new(alloc),
            newest: HashMap::new(alloc),
            gone: 0,
        }
    }

    pub(crate) fn len(&self) -> usize
        ensures { result ≡ length self.now.kept }
    {
        self.kept.len()
    }

    /// Makes room for so many orders more.
    pub(crate) fn reserve_orders(&mut self, orders: usize) -> Result<(), Memory>
        ensures kept { self.new.kept ≡ self.old.kept }
        ensures room { OnOk result (length self.new.kept + orders ≤ self.new.capacity) }
        ensures capacity { self.old.capacity ≤ self.new.capacity }
        ensures succeeds { length self.old.kept + orders ≤ self.old.capacity → IsOk result }
        ensures spare { self.new.spare ≡ self.old.spare }
    {
        self.kept.reserve(orders)?;
        Ok(())
    }

    /// Makes room for the orders of so many customers more.
    pub(crate) fn reserve_customers(&mut self, customers: usize) -> Result<(), Memory>
        ensures kept { self.new.kept ≡ self.old.kept }
        ensures capacity { self.new.capacity ≡ self.old.capacity }
        ensures room { OnOk result (customers ≤ self.new.spare) }
        ensures spare { self.old.spare ≤ self.new.spare }
        ensures succeeds { customers ≤ self.old.spare → IsOk result }
    {
        self.newest.reserve(customers)?;
        Ok(())
    }

    /// Adds an order as the newest one.
    pub(crate) fn push(&mut self, mut kept: Kept)
        requires room { length self.old.kept < self.old.capacity }
        requires spare { 0 < self.old.spare }
        ensures kept { self.new.kept ≡ self.old.kept ++ kept.sold ∷ [] }
        ensures capacity { self.new.capacity ≡ self.old.capacity }
        ensures spare { self.old.spare ≤ self.new.spare + 1 }
    {
        let len = self.kept.len();
        let customer = kept.customer();
        let left = newest_left(&self.newest, self.gone, customer);
        kept.set_back(len + 1 - left);
        self.kept.push_back_reserved(kept);
        let number = self.gone.wrapping_add(len as u64 + 1);
        match self.newest.insert(customer, number) {
            Ok(_) => {}
            Err(_) => unreachable!(),
        }
    }

    /// Takes the oldest order out.
    pub(crate) fn pop(&mut self) -> Kept
        requires { 0 < length self.old.kept }
        ensures kept { self.old.kept ≡ result.sold ∷ self.new.kept }
        ensures room { length self.new.kept < self.new.capacity }
        ensures capacity { self.new.capacity ≡ self.old.capacity }
        ensures spare { self.old.spare ≤ self.new.spare }
    {
        let Some(oldest) = self.kept.pop_front() else {
            unreachable!()
        };
        if newest_left(&self.newest, self.gone, oldest.customer()) == 1 {
            self.newest.remove(&oldest.customer());
        }
        self.gone = self.gone.wrapping_add(1);
        oldest
    }

    /// The customers who ordered the item, rising.
    pub(crate) fn buyers(&self, item: u32) -> Result<Listed<u32>, Memory>
        ensures { IfOk result (λ buyers. buyers ≡ buyers_in self.now.kept item) }
    {
        let mut customers = Vec::new(*self.kept.allocator());
        for place in (0..self.kept.len()).rev() {
            let kept = &self.kept[place];
            if kept.has_item(item) {
                put_once(&mut customers, kept.customer())?;
            }
        }
        Ok(Listed::from_vec(customers))
    }

    /// Whether an order of the customer has a line of the item.
    pub(crate) fn has(&self, customer: u32, item: u32) -> bool
        ensures { result ≡ list_any (has_item item) (filter (is_of customer) self.now.kept) }
    {
        let mut left = newest_left(&self.newest, self.gone, customer);
        while left > 0 {
            let order = &self.kept[left - 1];
            if order.has_item(item) {
                return true;
            }
            left = left.saturating_sub(order.back());
        }
        false
    }

    /// The items that the customer ordered, rising, with their units.
    pub(crate) fn bought(&self, customer: u32) -> Result<Listed<(u32, u64)>, Memory>
        requires { units_of (lines_in self.now.kept customer) < 2 ^ 64 }
        ensures { IfOk result (λ bought. bought ≡ bought_in self.now.kept customer) }
    {
        let mut totals = Vec::new(*self.kept.allocator());
        let mut left = newest_left(&self.newest, self.gone, customer);
        while left > 0 {
            let kept = &self.kept[left - 1];
            add_all(&mut totals, kept.lines())?;
            left = left.saturating_sub(kept.back());
        }
        Ok(Listed::from_vec(totals))
    }
}
