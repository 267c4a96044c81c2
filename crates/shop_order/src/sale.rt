//! The act and the writes of a purchase: the cart is emptied, the address and the order come, and the
//! items are sold.
ghost use Rattle.std.specs.Prelude.{◌≡◌, ◌+◌, ◌%◌, ◌≤◌, ◌++◌, [], IfOk, OnOk};
ghost use Rattle.shop_model.specs.declared.tables.Tables.{Tables};
ghost use Rattle.shop_model.specs.rows.Limits.{quantity_limit};
ghost use Rattle.shop_model.specs.trade.Stocks.{least_stock};
ghost use Rattle.shop_attempt.specs.Reads.{Shows};
ghost use Rattle.shop_order.specs.Purchases as spec;

use crate::purchase::Purchase;
use shop_attempt::{ReadOf, Stock, Write};
use shop_history::{Act, Row};
use shop_model::{AuthId, Cart, Item, Order};
use shop_pricing::restock;
use shop_text::{Boxed, Listed, Memory, Shared};
use std::alloc::Global;

/// How often an item may be restocked.
const RESTOCKS_LIMIT: u64 = 1 << 60;

/// What the sale of a line leaves of the stock of its item.
fn stock_left(line: (u32, u32), item: &Item) -> Stock
    requires stocked { least_stock ≤ item.now.stock }
    requires few { line.1 ≤ quantity_limit }
    ensures { result ≡ spec.stock_left line item.now }
{
    let (stock, times) = restock(item.stock, line.1);
    let restocks = item.restocks + u64::from(times);
    Stock {
        item: line.0,
        stock,
        restocks: restocks.min(RESTOCKS_LIMIT),
    }
}

/// Adds the write by which a line of the item in a row is sold.
fn push_stock(writes: &mut Listed<Write>, line: (u32, u32), row: &Row) -> Result<(), Memory>
    requires stocked { spec.IsStockedRow row.now }
    requires few { line.1 ≤ quantity_limit }
    ensures { OnOk result (writes.new ≡ writes.old ++ spec.stock_writes_in line row.now) }
{
    match row {
        Row::Item(item) => {
            writes.push(Write::SetStock(stock_left(line, item)))?;
        }
        _ => {}
    }
    Ok(())
}

/// Adds the writes by which lines are sold.
fn push_stocks(
    writes: &mut Listed<Write>,
    lines: &[(u32, u32)],
    items: &[ReadOf],
) -> Result<(), Memory>
    requires { spec.AreGoods lines.now items.now }
    ensures { OnOk result ((t : Tables) → Shows t items.now → writes.new ≡ writes.old ++ spec.stock_writes t lines.now) }
{
    for (place, line) in lines.iter().enumerate() {
        push_stock(writes, *line, &items[place].row)?;
    }
    Ok(())
}

/// Adds the address, where none says the text that is given.
fn push_address(
    alloc: Global,
    writes: &mut Listed<Write>,
    purchase: &Purchase,
) -> Result<(), Memory>
    ensures { OnOk result (writes.new ≡ writes.old ++ spec.ship_writes purchase.now.asked.now.address purchase.now.ship.now) }
{
    let asked = purchase.asked.get();
    match (&asked.address, purchase.ship) {
        (None, _) => {}
        (Some(_), Row::Id(_)) => {}
        (Some(text), _) => {
            let text = Boxed::new(alloc, text.copy(alloc)?)?;
            writes.push(Write::AddAddress(text))?;
        }
    }
    Ok(())
}

/// A cart without lines.
fn emptied(alloc: Global, id: u32) -> Result<Cart, Memory>
    ensures { IfOk result (λ cart. cart ≡ record { id = id; lines = [] }) }
{
    Ok(Cart {
        id,
        lines: Shared::new(alloc, Listed::new(alloc))?,
    })
}

/// How many days later an order ships, by the word that was drawn for it.
pub(crate) fn days_later(draw: u32) -> u32
    ensures { result ≡ 1 + draw % 7 }
{
    1 + draw % 7
}

/// The writes of a purchase.
pub(crate) fn purchase_writes(
    alloc: Global,
    purchase: &Purchase,
    order: Order,
    draw: u32,
) -> Result<Listed<Write>, Memory>
    requires { spec.AreGoods purchase.now.lines.now purchase.now.items.now }
    ensures { IfOk result (λ writes. (t : Tables) → Shows t purchase.now.items.now → writes ≡ spec.purchase_writes t purchase.now order (1 + draw % 7)) }
{
    let asked = purchase.asked.get();
    let mut writes = Listed::with_capacity(alloc, purchase.lines.len().saturating_add(3))?;
    writes.push(Write::PutCart(emptied(alloc, asked.cart)?))?;
    push_address(alloc, &mut writes, purchase)?;
    writes.push(Write::AddOrder(Boxed::new(alloc, order)?, days_later(draw)))?;
    push_stocks(&mut writes, purchase.lines, purchase.items)?;
    Ok(writes)
}

/// The act of a purchase, with the word that was drawn and the authorisation of its payment; takes no memory.
pub(crate) fn purchase_act(purchase: &Purchase, draw: u32, auth: AuthId) -> Result<Act, Memory>
    ensures { IfOk result (λ act. act ≡ Act.Confirm purchase.now.asked.now draw auth purchase.now.tax) }
{
    Ok(Act::Confirm(purchase.asked.share()?, draw, auth, purchase.tax))
}
