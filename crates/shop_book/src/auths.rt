//! The authorisations that orders have.
ghost use Rattle.std.specs.Prelude.{◌≡◌, ℕ, ◌+◌, ◌≤◌, ◌||◌, List, IfOk, bytes_eq};
ghost use Rattle.std.specs.Bool.{OnTrue};
ghost use Rattle.std.specs.HashSet.{spare};
ghost use Rattle.shop_book.specs.Auths as spec;
ghost use Rattle.shop_book.specs.Auths.{AreAuths};

use crate::copies::SPARE_ROWS;
use shop_model::{AuthId, Order};
use shop_text::{Memory, Shared};
use std::alloc::Global;
use std::collections::HashSet;

/// The authorisations of the orders, by their digits.
#[derive(Drop)]
pub(crate) struct Auths {
    there: HashSet<[u8; 15]>,
}

/// The digits of an authorisation.
fn digits_of(auth: &AuthId) -> [u8; 15]
    ensures { result ≡ auth.now }
{
    let mut digits = [0; 15];
    digits.copy_from_slice(auth.bytes());
    digits
}

impl Auths {
    /// Those of these orders, with room for some more.
    pub(crate) fn of(alloc: Global, orders: &[Shared<Order>]) -> Result<Auths, Memory>
        ensures { IfOk result (AreAuths orders.now) }
    {
        let mut auths = Auths {
            there: HashSet::new(alloc),
        };
        if !auths.make_room(orders.len().saturating_add(SPARE_ROWS)) {
            return Err(Memory);
        }
        for order in orders {
            auths.add(order.get());
        }
        Ok(auths)
    }

    /// Makes room for so many more; answers whether there is.
    pub(crate) fn make_room(&mut self, more: usize) -> bool
        ensures same { (auth : List ℕ) → spec.has_in self.new auth ≡ spec.has_in self.old auth }
        ensures room { OnTrue result (more ≤ spare self.new.there) }
    {
        self.there.reserve(more).is_ok()
    }

    /// Adds the authorisation of an order; takes no memory.
    pub(crate) fn add(&mut self, order: &Order)
        requires { 1 ≤ spare self.old.there }
        ensures added { (other : List ℕ) → spec.has_in self.new other ≡ (spec.has_in self.old other || bytes_eq order.now.card.auth other) }
        ensures room { spare self.old.there ≤ spare self.new.there + 1 }
    {
        match self.there.insert(digits_of(&order.card.auth)) {
            Ok(_) => {}
            Err(_) => unreachable!(),
        }
    }

    /// Whether an order has this authorisation.
    pub(crate) fn has(&self, auth: &AuthId) -> bool
        ensures { result ≡ spec.has_in self.now auth.now }
    {
        self.there.contains(&digits_of(auth))
    }
}
