//! An order as it stands in a window.
use shop_model::{LINES_LIMIT, Order};
use std::marker::Model;

/// An order of a fixed size, so that keeping one more takes no memory of its own.
#[derive(Drop)]
pub(crate) struct Kept {
    id: u32,
    customer: u32,
    /// How many orders before this one the one before it of its customer stands.
    back: usize,
    /// How many lines there are.
    len: usize,
    /// Pairs of an item's id and a quantity.
    lines: [(u32, u32); LINES_LIMIT],
}

impl Model for Kept {
    ghost use Rattle.std.specs.Prelude.{◌≤◌, take};
    ghost use Rattle.shop_model.specs.rows.Limits.{lines_limit};
    ghost use Rattle.shop_window.specs.Chains.{Entry};

    ghost Value = { Entry };

    ghost view = { λ k. record { sold = record { id = k.id; customer = k.customer; lines = take k.len k.lines }; back = k.back } };

    ghost invariant = { λ k. k.len ≤ lines_limit };
}

impl Kept {
    ghost use Rattle.std.specs.Prelude.{◌≡◌, ◌≤◌, length, All};
    ghost use Rattle.shop_model.specs.rows.Limits.{lines_limit, quantity_limit};
    ghost use Rattle.shop_model.specs.lists.Related.{sold_of, has_item};

    /// An order that no chain has yet.
    pub(crate) fn of(order: &Order) -> Kept
        requires { length order.now.lines ≤ lines_limit }
        ensures sold { result.sold ≡ sold_of order.now }
        ensures quantities { All (λ l. l.1 ≤ quantity_limit) result.sold.lines }
    {
        let lines = order.lines.as_slice();
        let mut pairs = [(0, 0); LINES_LIMIT];
        for (place, line) in lines.iter().enumerate() {
            pairs[place] = (line.item, line.quantity);
        }
        Kept {
            id: order.id,
            customer: order.customer,
            back: 0,
            len: lines.len(),
            lines: pairs,
        }
    }

    pub(crate) fn id(&self) -> u32
        ensures { result ≡ self.now.sold.id }
    {
        self.id
    }

    pub(crate) fn customer(&self) -> u32
        ensures { result ≡ self.now.sold.customer }
    {
        self.customer
    }

    pub(crate) fn back(&self) -> usize
        ensures { result ≡ self.now.back }
    {
        self.back
    }

    pub(crate) fn set_back(&mut self, back: usize)
        ensures sold { self.new.sold ≡ self.old.sold }
        ensures back { self.new.back ≡ back }
    {
        self.back = back;
    }

    /// Pairs of an item's id and a quantity.
    pub(crate) fn lines(&self) -> &[(u32, u32)]
        ensures { result.now ≡ self.now.sold.lines }
    {
        &self.lines[..self.len]
    }

    /// Whether there is a line of the item.
    pub(crate) fn has_item(&self, item: u32) -> bool
        ensures { result ≡ has_item item self.now.sold }
    {
        self.lines().iter().any(|line| line.0 == item)
    }
}
