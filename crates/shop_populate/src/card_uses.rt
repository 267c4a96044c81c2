ghost use Rattle.std.specs.Prelude.{◌≡◌, ◌≤◌, IfOk, codes};
ghost use Rattle.shop_model.specs.rows.AuthIds as ids;
ghost use Rattle.shop_model.specs.population.Population as spec;

use shop_model::{Address, AuthId, CardNumber, CardType, CardUse, Customer, DAY_LENGTH, Month};
use shop_text::{Memory, Text};
use std::alloc::Global;

const LONGEST_NAME: usize = b"Hugo Parker".len();

/// The authorisation of a populated order: that of caller 0 at the call with the order's number.
#[tactic(auto, unfolding(shop_model::specs::rows::AuthIds::auth_number))]
fn auth_id(number: u64, cents: u64, call: u32) -> AuthId
    requires number { number ≤ 5_000_000_000_000_000 }
    requires cents { cents ≤ 200_000_000_000 }
    ensures { result ≡ ids.auth_id number cents call 0 }
{
    let sum = number + 1_000_003 * cents + 10_007 * call as u64;
    AuthId::of(sum % 1_000_000_000_000_000)
}

/// The customer's first and last name.
#[tactic(auto, unfolding(shop_model::specs::population::Population::card_name))]
fn card_name(alloc: Global, customer: &Customer) -> Result<Text, Memory>
    ensures { IfOk result (λ text. text ≡ spec.card_name customer.now) }
{
    let mut text = Text::with_capacity(alloc, LONGEST_NAME)?;
    let details = customer.details.get();
    text.push(details.first.bytes())?;
    text.push(b" ")?;
    text.push(details.last.bytes())?;
    Ok(text)
}

/// The month in which each card expires.
#[tactic(auto, unfolding(shop_model::specs::asked::Cards::is_month, shop_text::specs::Numbers::number_of))]
fn expiry() -> Month
    ensures { result ≡ codes "2030-01" }
{
    Month::new(*b"2030-01")
}

/// The moment at which an order is placed, in milliseconds since 1970-01-01.
#[tactic(auto, unfolding(shop_model::specs::population::Population::placed))]
pub(crate) fn placed(day: u32) -> u64
    ensures value { result ≡ spec.placed day }
    ensures bound { result ≤ 1_000_000_000_000 }
{
    (11_000 + (day % 60) as u64) * DAY_LENGTH
}

/// The card transaction of an order.
#[tactic(auto, unfolding(shop_model::specs::population::Population::card_of, shop_model::specs::population::Population::card_number))]
pub(crate) fn card_of(
    alloc: Global,
    customer: &Customer,
    address: &Address,
    total: u64,
    id: u32,
    day: u32,
    card: u32,
) -> Result<CardUse, Memory>
    requires { total ≤ 200_000_000_000 }
    ensures { IfOk result (λ row. row ≡ spec.card_of customer.now address.now total id day card) }
{
    let number = 4_000_000_000_000_000 + id as u64;
    Ok(CardUse {
        card: CardType::picked(card),
        number: CardNumber::of_number(number),
        name: card_name(alloc, customer)?,
        expiry: expiry(),
        auth: auth_id(number, total, id),
        total,
        stamp: placed(day),
        country: address.text.country,
    })
}
