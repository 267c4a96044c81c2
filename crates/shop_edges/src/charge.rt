ghost use Rattle.std.specs.Prelude.{◌≡◌, ◌↔◌, IsTrue};

use shop_model::{CardNumber, CardType, Month};
use std::marker::Model;

/// A call of a caller: which of its accepted requests, counted from 1.
#[derive(Clone, Copy)]
pub struct Call {
    pub caller: u32,
    pub number: u64,
}

/// What a gateway is to take from a card. Caller, call and cents together are its key.
#[derive(Debug, Drop)]
pub struct Charge {
    /// Who asks for it.
    pub caller: u32,
    /// Which of the caller's calls asks for it.
    pub call: u64,
    pub cents: u64,
    pub card: CardType,
    pub number: CardNumber,
    /// When the card expires.
    pub expiry: Month,
}

impl Model for Charge {
    ghost use Rattle.shop_edges.specs.Charges.{ChargeValue, IsCharge};

    ghost Value = { ChargeValue };

    ghost use Rattle.shop_edges.specs.ChargeView.{charge_of};

    ghost view = { charge_of };

    ghost invariant = { λ i. IsCharge (charge_of i) };
}

impl Charge {
    /// The same charge again; takes no memory.
    pub fn copy(&self) -> Charge
        ensures { result ≡ self.now }
    {
        Charge {
            caller: self.caller,
            call: self.call,
            cents: self.cents,
            card: self.card,
            number: self.number,
            expiry: self.expiry,
        }
    }

    /// Whether the two are equal in all.
    pub fn is_same(&self, other: &Charge) -> bool
        ensures { IsTrue result ↔ (self.now ≡ other.now) }
    {
        self.caller == other.caller
            && self.call == other.call
            && self.cents == other.cents
            && self.card == other.card
            && self.number == other.number
            && self.expiry == other.expiry
    }
}
