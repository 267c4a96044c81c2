ghost use Rattle.std.specs.Prelude.{◌≡◌, IfOk};

use shop_model::{Cart, Customer, Item, Order};
use shop_text::{Memory, Shared};
use std::alloc::Global;

/// How many rows may come before a list of rows is moved.
pub(crate) const SPARE_ROWS: usize = 128;

/// A row of a table.
trait Copied: Sized {
    /// The row again, with what is shared of it; takes no memory.
    fn copied(&self) -> Result<Self, Memory>
        ensures { IfOk result (λ copy. copy ≡ self.now) };
}

impl Copied for Item {
    fn copied(&self) -> Result<Item, Memory> {
        self.share()
    }
}

impl Copied for Customer {
    fn copied(&self) -> Result<Customer, Memory> {
        self.share()
    }
}

impl Copied for Option<u32> {
    fn copied(&self) -> Result<Option<u32>, Memory> {
        Ok(*self)
    }
}

impl Copied for Cart {
    fn copied(&self) -> Result<Cart, Memory> {
        self.share()
    }
}

impl Copied for Shared<Order> {
    fn copied(&self) -> Result<Shared<Order>, Memory> {
        self.share()
    }
}

/// Copies of rows, with room for some more.
pub(crate) fn copies<T: Copied + Drop>(alloc: Global, rows: &[T]) -> Result<Vec<T>, Memory>
    ensures { IfOk result (λ copies. copies.items ≡ rows.now) }
{
    let mut copies = Vec::with_capacity(alloc, rows.len().saturating_add(SPARE_ROWS))?;
    for row in rows {
        copies.push(row.copied()?)?;
    }
    Ok(copies)
}
