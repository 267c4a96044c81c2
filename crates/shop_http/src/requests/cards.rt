//! What is asked for of a payment by card, and of a shipment.
ghost use Rattle.std.specs.Prelude.{IfOk};
ghost use Rattle.std.specs.Option.{ok_or};
ghost use Rattle.shop_model.specs.asked.Cards.{IsCardNumber, IsMonth};
ghost use Rattle.shop_model.specs.declared.parameter.Parameter.{Parameter};
ghost use Rattle.shop_model.specs.rows.Subjects.{card_of, ship_of};
ghost use Rattle.shop_http.specs.Answers.{Reads};
ghost use Rattle.shop_http.specs.Forms as spec;
ghost use Rattle.shop_http.specs.Requests as requests;

use super::decoding::decoded;
use super::fault::Fault;
use super::forms::required_text;
use super::pairs::Pairs;
use shop_model::{Card, CardNumber, CardType, Month, Parameter, ShipType};
use std::alloc::Global;

/// A payment card.
pub(crate) fn card_asked(alloc: Global, pairs: &Pairs) -> Result<Card, Fault>
    ensures { Reads (requests.card_asked pairs.now) result }
{
    let card = required_card(alloc, pairs)?;
    let number = required_card_number(alloc, pairs)?;
    let name = required_text(alloc, pairs, Parameter::Name)?;
    let expiry = required_month(alloc, pairs)?;
    Ok(Card {
        card,
        number,
        name,
        expiry,
    })
}

/// How an order is shipped, which need not be said.
pub(crate) fn ship_asked(alloc: Global, pairs: &Pairs) -> Result<ShipType, Fault>
    ensures { Reads (requests.ship_asked pairs.now) result }
{
    match pairs.value_of(Parameter::Ship) {
        Some(value) => ship_in(alloc, value),
        None => Ok(ShipType::Mail),
    }
}

/// The way of shipping that an encoded value names.
fn ship_in(alloc: Global, encoded: &[u8]) -> Result<ShipType, Fault>
    ensures { Reads (ok_or (ship_of (spec.decoded_text encoded.now)) Parameter.Ship) result }
{
    match ShipType::of(decoded(alloc, encoded)?.as_slice()) {
        Some(ship) => Ok(ship),
        None => Err(Fault::Parameter(Parameter::Ship)),
    }
}

/// The type of card that is named.
fn required_card(alloc: Global, pairs: &Pairs) -> Result<CardType, Fault>
    ensures { Reads (spec.required card_of pairs.now Parameter.Card) result }
{
    let Some(value) = pairs.value_of(Parameter::Card) else {
        return Err(Fault::Parameter(Parameter::Card));
    };
    match CardType::of(decoded(alloc, value)?.as_slice()) {
        Some(card) => Ok(card),
        None => Err(Fault::Parameter(Parameter::Card)),
    }
}

/// The number of a card.
#[tactic(auto, unfolding(crate::specs::Forms::card_number_of))]
fn required_card_number(alloc: Global, pairs: &Pairs) -> Result<CardNumber, Fault>
    ensures value { Reads (spec.required spec.card_number_of pairs.now Parameter.Number) result }
    ensures form { IfOk result IsCardNumber }
{
    let Some(value) = pairs.value_of(Parameter::Number) else {
        return Err(Fault::Parameter(Parameter::Number));
    };
    match CardNumber::of(decoded(alloc, value)?.as_slice()) {
        Some(number) => Ok(number),
        None => Err(Fault::Parameter(Parameter::Number)),
    }
}

/// A month.
#[tactic(auto, unfolding(crate::specs::Forms::month_of))]
fn required_month(alloc: Global, pairs: &Pairs) -> Result<Month, Fault>
    ensures value { Reads (spec.required spec.month_of pairs.now Parameter.Expiry) result }
    ensures form { IfOk result IsMonth }
{
    let Some(value) = pairs.value_of(Parameter::Expiry) else {
        return Err(Fault::Parameter(Parameter::Expiry));
    };
    match Month::of(decoded(alloc, value)?.as_slice()) {
        Some(month) => Ok(month),
        None => Err(Fault::Parameter(Parameter::Expiry)),
    }
}
