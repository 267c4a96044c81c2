ghost use Rattle.std.specs.Prelude.{◌≡◌, IfOk};

use shop_text::{Listed, Memory, Shared};
use std::marker::Model;

/// A shopping cart.
#[derive(Drop)]
pub struct Cart {
    pub id: u32,
    /// Pairs of an item's id and a quantity, 999 at most, in the order in which the items came.
    pub lines: Shared<Listed<(u32, u32)>>,
}

impl Model for Cart {
    ghost use Rattle.shop_model.specs.rows.Rows.{CartRow, IsCart};

    ghost Value = { CartRow };

    ghost use Rattle.shop_model.specs.rows.CartView.{row_of};

    ghost view = { row_of };

    ghost invariant = { λ i. IsCart (row_of i) };
}

impl Cart {
    /// The row again, with the same lines; takes no memory.
    pub fn share(&self) -> Result<Cart, Memory>
        ensures { IfOk result (λ shared. shared ≡ self.now) }
    {
        Ok(Cart {
            id: self.id,
            lines: self.lines.share()?,
        })
    }
}
