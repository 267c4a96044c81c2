//! The verdict on a charge whose key is new.
ghost use Rattle.std.specs.Prelude.{◌≡◌, ◌≤◌, length, true};
ghost use Rattle.std.specs.List.{list_all};
ghost use Rattle.std.specs.Char.{is_ascii_digit};
ghost use Rattle.std.specs.Str.Parse.{digits_value};
ghost use Rattle.shop_gateway.specs.Verdicts as spec;
ghost use Rattle.shop_gateway.specs.Emulators.{IsSaid};

use shop_edges::{Charge, Reason, Verdict};
use shop_model::AuthId;

/// The most cents that are approved at once.
const CHARGE_LIMIT: u64 = 1_000_000;

/// The numbers of authorisations are below this: they have 15 digits.
const AUTH_NUMBERS: u128 = 1_000_000_000_000_000;

#[tactic(auto, unfolding(crate::specs::Verdicts::first_verdict))]
pub(crate) fn first_verdict(charge: &Charge) -> Verdict
    ensures verdict { result ≡ spec.first_verdict charge.now }
    ensures said { IsSaid result }
{
    if charge.number.bytes().ends_with(b"0000".as_slice()) {
        return Verdict::Denied(Reason::Stolen);
    }
    if charge.cents > CHARGE_LIMIT {
        return Verdict::Denied(Reason::Limit);
    }
    Verdict::Approved(auth_of(charge))
}

#[tactic(auto, using(shop_model::proofs::cited::Cards::card_number_digits), unfolding(shop_model::specs::rows::AuthIds::auth_number))]
fn auth_of(charge: &Charge) -> AuthId
    ensures { result ≡ spec.auth_of charge.now }
{
    let card = u128::from(number_of(charge.number.bytes()));
    let cents = u128::from(charge.cents);
    let call = u128::from(charge.call);
    let caller = u128::from(charge.caller);
    let sum = card + 1_000_003 * cents + 10_007 * call + caller;
    AuthId::of((sum % AUTH_NUMBERS) as u64)
}

/// The number that at most 19 digits write.
pub(crate) fn number_of(digits: &[u8]) -> u64
    requires few { length digits.now ≤ 19 }
    requires digits { list_all is_ascii_digit digits.now ≡ true }
    ensures { result ≡ digits_value 10 digits.now }
{
    let mut number = 0;
    for digit in digits {
        number = number * 10 + u64::from(*digit - b'0');
    }
    number
}
