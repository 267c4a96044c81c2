//! What tells charges apart.
ghost use Rattle.std.specs.Prelude.{◌≡◌};
ghost use Rattle.shop_gateway.specs.Notes as spec;

use shop_edges::Charge;
use shop_model::{CardNumber, CardType, Month};

/// All of a charge, to find it by.
#[derive(PartialEq, Eq, Hash, Drop)]
pub(crate) struct ChargeKey {
    caller: u32,
    call: u64,
    cents: u64,
    card: u8,
    number: CardNumber,
    expiry: Month,
}

/// The number of a card's type.
fn card_code(card: &CardType) -> u8
    ensures { result ≡ spec.card_code card.now }
{
    match card {
        CardType::Visa => 0,
        CardType::Mastercard => 1,
        CardType::Discover => 2,
        CardType::Amex => 3,
        CardType::Diners => 4,
    }
}

impl ChargeKey {
    /// The key of a charge.
    pub(crate) fn of(charge: &Charge) -> ChargeKey
        ensures { result ≡ spec.charge_key charge.now }
    {
        ChargeKey {
            caller: charge.caller,
            call: charge.call,
            cents: charge.cents,
            card: card_code(&charge.card),
            number: charge.number,
            expiry: charge.expiry,
        }
    }
}
