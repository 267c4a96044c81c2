ghost use Rattle.std.specs.Prelude.{◌≡◌, ◌≤◌, ◌<◌, IfOk, length};
ghost use Rattle.shop_model.specs.population.Population as spec;

use crate::card_uses::{card_of, placed};
use crate::countries::country_rate;
use crate::lines::{order_lines, size};
use crate::lookups::{address_at, customer_at};
use crate::money::charged;
use shop_model::{Address, Customer, Item, Line, Order, OrderState, Scale, ShipType, drawn};
use shop_text::{Listed, Memory, Shared};
use std::alloc::Global;

/// The table's number in the drawn words.
const ORDERS: u64 = 6;

/// The drawn words that pick what an order is, beside its customer and its lines.
#[derive(Clone, Copy)]
struct Picks {
    day: u32,
    delay: u32,
    card: u32,
    state: u32,
    carrier: u32,
}

/// The day on which an order ships, in days since 1970-01-01: 1 to 7 after it is placed.
#[tactic(auto, unfolding(shop_model::specs::population::Population::ship_day))]
fn ship_day(day: u32, delay: u32) -> u32
    ensures value { result ≡ spec.ship_day day delay }
    ensures bound { result ≤ 12_000 }
{
    11_000 + day % 60 + (1 + delay % 7)
}

/// The order with this id and these lines, of a customer who lives at the address.
fn order_of(
    alloc: Global,
    customer: &Customer,
    address: &Address,
    lines: Listed<Line>,
    id: u32,
    picks: Picks,
) -> Result<Order, Memory>
    requires { length lines ≤ 100 }
    ensures { IfOk result (λ row. row ≡ spec.order_of customer.now address.now lines id
        picks.day picks.delay picks.card picks.state picks.carrier) }
{
    let discount = customer.details.get().discount;
    let rate = country_rate(address.text.country);
    let charge = charged(lines.as_slice(), discount, rate);
    let card = card_of(
        alloc,
        customer,
        address,
        charge.total,
        id,
        picks.day,
        picks.card,
    )?;
    Ok(Order {
        id,
        customer: customer.id,
        placed: placed(picks.day),
        discount,
        rate,
        sub: charge.sub,
        tax: charge.tax,
        ship: charge.ship,
        total: charge.total,
        ship_type: ShipType::picked(picks.carrier),
        ship_day: ship_day(picks.day, picks.delay),
        ship_address: customer.address,
        status: OrderState::picked(picks.state),
        lines,
        card,
    })
}

/// The order with this id, over the tables of the shop.
fn order_row(
    alloc: Global,
    seed: u32,
    scale: &Scale,
    customers: &[Customer],
    addresses: &[Shared<Address>],
    items: &[Item],
    id: u32,
) -> Result<Order, Memory>
    requires customers { customers.now ≡ spec.customers_table seed scale.now }
    requires addresses { addresses.now ≡ spec.addresses_table seed scale.now }
    requires items { items.now ≡ spec.items_table seed scale.now }
    ensures { IfOk result (λ row. row ≡ spec.order_row seed scale.now id) }
{
    let [
        buyer,
        count,
        item_word,
        day,
        quantity_word,
        delay,
        card,
        state,
        carrier,
    ] = drawn::<9>(seed, scale, ORDERS, id);
    let customer = customer_at(seed, scale, customers, 1 + buyer % scale.customers);
    let address = address_at(seed, scale, addresses, customer.address);
    let lines = order_lines(
        alloc,
        seed,
        scale,
        items,
        item_word,
        quantity_word,
        size(count),
    )?;
    let picks = Picks {
        day,
        delay,
        card,
        state,
        carrier,
    };
    let order = order_of(alloc, customer, address, lines, id, picks)?;
    Ok(order)
}

/// The orders of a shop, over its other tables.
#[tactic(auto, using(shop_model::proofs::cited::Lists::rows_push), unfolding(shop_model::specs::population::Population::orders_table))]
pub(crate) fn orders_table(
    alloc: Global,
    seed: u32,
    scale: &Scale,
    customers: &[Customer],
    addresses: &[Shared<Address>],
    items: &[Item],
) -> Result<Listed<Shared<Order>>, Memory>
    requires customers { customers.now ≡ spec.customers_table seed scale.now }
    requires addresses { addresses.now ≡ spec.addresses_table seed scale.now }
    requires items { items.now ≡ spec.items_table seed scale.now }
    ensures { IfOk result (λ table. table ≡ spec.orders_table seed scale.now) }
{
    let mut table = Listed::with_capacity(alloc, scale.orders as usize)?;
    for made in 0..scale.orders {
        let order = order_row(alloc, seed, scale, customers, addresses, items, made + 1)?;
        table.push(Shared::new(alloc, order)?)?;
    }
    Ok(table)
}
