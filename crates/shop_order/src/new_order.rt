//! The order of a purchase, before the settle.
ghost use Rattle.std.specs.Prelude.{◌≡◌, ◌≤◌, IfOk};
ghost use Rattle.shop_model.specs.rows.Limits.{charged_rate_limit};
ghost use Rattle.shop_pricing.specs.Totals.{ArePriced};
ghost use Rattle.shop_order.specs.Purchases as spec;

use crate::purchase::{Bill, Purchase};
use shop_history::Row;
use shop_model::{AuthId, Card, CardUse, Line, Order, OrderState};
use shop_text::{Listed, Memory, Text};
use std::alloc::Global;

/// An address and its country.
#[derive(Clone, Copy)]
pub(crate) struct Place {
    /// The id of the address, 0 where it is new.
    address: u32,
    /// The id of the country.
    country: u32,
}

/// Where a purchase ships to.
fn ships_to(purchase: &Purchase) -> Place
    ensures { result ≡ spec.place_of purchase.now.asked.now.address purchase.now.customer.now.address purchase.now.ship.now }
{
    let asked = purchase.asked.get();
    let customer = purchase.customer;
    match (&asked.address, purchase.ship) {
        (None, Row::Address(address)) => Place {
            address: customer.address,
            country: address.get().text.country,
        },
        (None, _) => Place {
            address: customer.address,
            country: 0,
        },
        (Some(text), Row::Id(id)) => Place {
            address: *id,
            country: text.country,
        },
        (Some(text), _) => Place {
            address: 0,
            country: text.country,
        },
    }
}

/// The lines of an order, numbered from 1.
fn order_lines(alloc: Global, priced: &[(u32, u32, u64)]) -> Result<Listed<Line>, Memory>
    requires { ArePriced priced.now }
    ensures { IfOk result (λ lines. lines ≡ spec.numbered 1 priced.now) }
{
    let mut lines = Listed::with_capacity(alloc, priced.len())?;
    for (place, line) in priced.iter().enumerate() {
        lines.push(Line {
            number: place as u32 + 1,
            item: line.0,
            quantity: line.1,
            cost: line.2,
        })?;
    }
    Ok(lines)
}

/// The use of a card that pays a total in cents.
fn card_use(
    alloc: Global,
    payment: &Card,
    auth: AuthId,
    total: u64,
    country: u32,
) -> Result<CardUse, Memory>
    ensures { IfOk result (λ card. card ≡ spec.card_use payment.now auth total country) }
{
    Ok(CardUse {
        card: payment.card,
        number: payment.number,
        name: Text::copy(alloc, payment.name.bytes())?,
        expiry: payment.expiry,
        auth,
        total,
        stamp: 0,
        country,
    })
}

/// The order, with the authorisation of its payment.
pub(crate) fn order(
    alloc: Global,
    purchase: &Purchase,
    bill: &Bill,
    auth: AuthId,
) -> Result<Order, Memory>
    requires priced { ArePriced bill.now.priced }
    requires rate { purchase.now.rate ≤ charged_rate_limit }
    ensures { IfOk result (λ order. order ≡ spec.order_of purchase.now bill.now auth) }
{
    let asked = purchase.asked.get();
    let customer = purchase.customer;
    let totals = bill.totals;
    let place = ships_to(purchase);
    Ok(Order {
        id: 0,
        customer: customer.id,
        placed: 0,
        discount: customer.details.get().discount,
        rate: purchase.rate,
        sub: totals.sub,
        tax: totals.tax,
        ship: totals.ship,
        total: totals.total,
        ship_type: asked.ship,
        ship_day: 0,
        ship_address: place.address,
        status: OrderState::Pending,
        lines: order_lines(alloc, bill.priced.as_slice())?,
        card: card_use(alloc, &asked.payment, auth, totals.total, place.country)?,
    })
}
