ghost use Rattle.std.specs.Prelude.{◌≡◌, ◌≤◌, IfOk, length};
ghost use Rattle.shop_model.specs.population.Population as spec;

use crate::lookups::item_at;
use shop_model::{Item, Line, Scale};
use shop_text::{Listed, Memory};
use std::alloc::Global;

/// How many lines an order has.
#[tactic(auto, unfolding(shop_model::specs::population::Population::size))]
pub(crate) fn size(word: u32) -> u32
    ensures value { result ≡ spec.size word }
    ensures few { result ≤ 5 }
{
    1 + word % 5
}

/// The item of a line: every line takes the item 17 places further on.
#[tactic(auto, unfolding(shop_model::specs::population::Population::line_item))]
fn line_item(scale: &Scale, item_word: u32, number: u32) -> u32
    requires { 1 ≤ number }
    ensures value { result ≡ spec.line_item scale.now item_word number }
    ensures low { 1 ≤ result }
    ensures high { result ≤ scale.now.items }
{
    1 + ((item_word as u64 + 17 * (number as u64 - 1)) % scale.items as u64) as u32
}

#[tactic(auto, unfolding(shop_model::specs::population::Population::line_quantity))]
fn line_quantity(quantity_word: u32, number: u32) -> u32
    ensures value { result ≡ spec.line_quantity quantity_word number }
    ensures bound { result ≤ 5 }
{
    1 + ((quantity_word as u64 + number as u64) % 5) as u32
}

/// The line with this number, at the item's cost.
#[tactic(auto, unfolding(shop_model::specs::population::Population::order_line))]
fn order_line(
    seed: u32,
    scale: &Scale,
    items: &[Item],
    item_word: u32,
    quantity_word: u32,
    number: u32,
) -> Line
    requires table { items.now ≡ spec.items_table seed scale.now }
    requires numbered { 1 ≤ number }
    ensures { result ≡ spec.order_line seed scale.now item_word quantity_word number }
{
    let id = line_item(scale, item_word, number);
    let item = item_at(seed, scale, items, id);
    Line {
        number,
        item: id,
        quantity: line_quantity(quantity_word, number),
        cost: item.details.get().cost,
    }
}

/// So many lines of an order.
#[tactic(auto, using(shop_model::proofs::cited::Lists::rows_push))]
pub(crate) fn order_lines(
    alloc: Global,
    seed: u32,
    scale: &Scale,
    items: &[Item],
    item_word: u32,
    quantity_word: u32,
    size: u32,
) -> Result<Listed<Line>, Memory>
    requires table { items.now ≡ spec.items_table seed scale.now }
    ensures value { IfOk result (λ lines.
        lines ≡ spec.rows (spec.order_line seed scale.now item_word quantity_word) size) }
    ensures size { IfOk result (λ lines. length lines ≡ size) }
{
    let mut lines = Listed::with_capacity(alloc, size as usize)?;
    for made in 0..size {
        lines.push(order_line(seed, scale, items, item_word, quantity_word, made + 1))?;
    }
    Ok(lines)
}
