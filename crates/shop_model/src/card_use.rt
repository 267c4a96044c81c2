ghost use Rattle.std.specs.Prelude.{◌≡◌, IfOk};

use crate::{AuthId, CardNumber, CardType, Month};
use shop_text::{Memory, Text};
use std::alloc::Global;
use std::marker::Model;

/// The payment of an order by card.
#[derive(Drop)]
pub struct CardUse {
    pub card: CardType,
    pub number: CardNumber,
    /// The holder's name.
    pub name: Text,
    /// When the card expires.
    pub expiry: Month,
    pub auth: AuthId,
    /// What was paid, in cents.
    pub total: u64,
    /// The moment of the payment, in milliseconds since 1970-01-01.
    pub stamp: u64,
    /// The id of the country that the order ships to.
    pub country: u32,
}

impl Model for CardUse {
    ghost use Rattle.shop_model.specs.rows.Rows.{CardUseRow, IsCardUse};

    ghost Value = { CardUseRow };

    ghost use Rattle.shop_model.specs.rows.CardUseView.{row_of};

    ghost view = { row_of };

    ghost invariant = { λ i. IsCardUse (row_of i) };
}

impl CardUse {
    /// A copy of the row.
    pub fn copy(&self, alloc: Global) -> Result<CardUse, Memory>
        ensures { IfOk result (λ copy. copy ≡ self.now) }
    {
        Ok(CardUse {
            card: self.card,
            number: self.number,
            name: Text::copy(alloc, self.name.bytes())?,
            expiry: self.expiry,
            auth: self.auth,
            total: self.total,
            stamp: self.stamp,
            country: self.country,
        })
    }
}
