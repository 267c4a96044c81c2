//! The lines of a cart, and the change of one.
ghost use Rattle.std.specs.Prelude.{◌≡◌, ◌≤◌, false};
ghost use Rattle.shop_model.specs.trade.Carts.{is_too_many};
ghost use Rattle.shop_model.specs.rows.Limits.{quantity_limit};
ghost use Rattle.shop_pricing.specs.Changes.{IsChanged};

use indexmap::IndexMap;
use shop_model::{Cart, LINES_LIMIT};
use shop_text::{Listed, Memory, Shared};
use std::alloc::Global;
use std::marker::Model;

/// The lines of a cart: pairs of an item's id and a quantity, in the order in which the items came.
#[derive(Drop)]
pub struct Lines {
    quantities: IndexMap<u32, u32>,
}

impl Model for Lines {
    ghost use Rattle.std.specs.Prelude.{ℕ, List};
    ghost use Rattle.shop_pricing.specs.Bounds.{AreLines};

    ghost Value = { List (ℕ × ℕ) };

    ghost view = { λ l. l.quantities.entries };

    ghost invariant = { λ l. AreLines l.quantities.entries };
}

impl Lines {
    ghost use Rattle.std.specs.Prelude.{◌≡◌, ◌≤◌, ◌↔◌, [], length, IfOk, IsTrue};
    ghost use Rattle.shop_model.specs.trade.Carts.{quantity_of};
    ghost use Rattle.shop_model.specs.rows.Limits.{quantity_limit};
    ghost use Rattle.shop_model.specs.rows.Sound.{IsFit};
    ghost use Rattle.shop_pricing.specs.Bounds.{AreLines};

    /// No lines; takes no memory.
    pub fn new(alloc: Global) -> Lines
        ensures { result ≡ [] }
    {
        Lines {
            quantities: IndexMap::new(alloc),
        }
    }

    /// The lines of a cart, with room for one more.
    pub fn of(alloc: Global, cart: &Cart) -> Result<Lines, Memory>
        requires { IsFit cart.now }
        ensures { IfOk result (λ lines. lines ≡ cart.now.lines) }
    {
        let pairs = cart.lines.get().as_slice();
        let mut quantities = IndexMap::with_capacity(alloc, pairs.len() + 1)?;
        for (item, quantity) in pairs {
            quantities.insert(*item, *quantity)?;
        }
        Ok(Lines { quantities })
    }

    /// How many lines there are.
    pub fn len(&self) -> usize
        ensures len { result ≡ length self.now }
        ensures kept { AreLines self.now }
    {
        self.quantities.len()
    }

    pub fn is_empty(&self) -> bool
        ensures { IsTrue result ↔ (self.now ≡ []) }
    {
        self.quantities.is_empty()
    }

    /// The units of an item, 0 where it has no line.
    pub fn quantity(&self, item: u32) -> u32
        ensures units { result ≡ quantity_of item self.now }
        ensures most { result ≤ quantity_limit }
    {
        match self.quantities.get(&item) {
            Some(quantity) => *quantity,
            None => 0,
        }
    }

    /// The pairs of an item's id and a quantity, in order.
    pub fn to_pairs(&self, alloc: Global) -> Result<Listed<(u32, u32)>, Memory>
        ensures pairs { IfOk result (λ pairs. pairs ≡ self.now) }
        ensures kept { AreLines self.now }
    {
        let pairs = self
            .quantities
            .iter()
            .map(|(item, quantity)| (*item, *quantity))
            .collect(alloc)?;
        Ok(Listed::from_vec(pairs))
    }

    /// The row of a cart that has these lines.
    pub fn to_cart(&self, alloc: Global, id: u32) -> Result<Cart, Memory>
        ensures { IfOk result (λ cart. cart ≡ record { id = id; lines = self.now }) }
    {
        let lines = Shared::new(alloc, self.to_pairs(alloc)?)?;
        Ok(Cart { id, lines })
    }
}

/// What came of a change.
#[derive(Clone, Copy, Debug, PartialEq, Eq)]
pub enum Changed {
    Done,
    /// There are a hundred lines, and none of the item.
    TooMany,
    Memory,
}

/// Gives an item this quantity: a line that is there takes it in place, or goes at 0 and the lines
/// behind it close up; a new one comes last.
pub fn change(lines: &mut Lines, item: u32, quantity: u32) -> Changed
    requires { quantity ≤ quantity_limit }
    ensures { IsChanged item quantity lines.old lines.new result }
{
    if quantity == 0 {
        lines.quantities.shift_remove(&item);
        return Changed::Done;
    }
    if !lines.quantities.contains_key(&item) && LINES_LIMIT <= lines.quantities.len() {
        return Changed::TooMany;
    }
    put(lines, item, quantity)
}

/// Gives an item a quantity above 0, where there is room for its line.
fn put(lines: &mut Lines, item: u32, quantity: u32) -> Changed
    requires some { 1 ≤ quantity }
    requires few { quantity ≤ quantity_limit }
    requires room { is_too_many item quantity lines.old ≡ false }
    ensures { IsChanged item quantity lines.old lines.new result }
{
    match lines.quantities.insert(item, quantity) {
        Ok(_) => Changed::Done,
        Err(_) => Changed::Memory,
    }
}
