//! What a request for the shopping cart makes of a cart's lines.
ghost use Rattle.std.specs.Prelude.{◌≤◌, [], ◌∷◌};
ghost use Rattle.shop_model.specs.trade.Carts.{one_more, wanted};
ghost use Rattle.shop_pricing.specs.Fills.{AreSet, IsDrawn, IsFilled};

use crate::{Changed, Lines, change};
use shop_model::{CartRequest, QUANTITY_LIMIT, Refusal};

/// What came of a request for lines.
#[derive(Clone, Copy, Debug, PartialEq, Eq)]
pub enum Filled {
    Done,
    /// The request can't be met; the lines may have been changed in part.
    Refused(Refusal),
    /// Memory ran out; the lines may have been changed in part.
    Memory,
}

/// Makes of the lines what a request asks for, in a shop of so many items: one unit more of its
/// item, then its sets in their order, and one unit of an item by the drawn word where no line is
/// left.
pub fn fill(lines: &mut Lines, asked: &CartRequest, items: u32, draw: u32) -> Filled
    requires { 1 ≤ items }
    ensures { IsFilled items asked.now draw lines.old lines.new result }
{
    match set_wanted(lines, asked, items) {
        Filled::Done => add_drawn(lines, items, draw),
        Filled::Refused(refusal) => Filled::Refused(refusal),
        Filled::Memory => Filled::Memory,
    }
}

/// Sets all quantities that a request names.
fn set_wanted(lines: &mut Lines, asked: &CartRequest, items: u32) -> Filled
    ensures { AreSet items (wanted asked.now lines.old) lines.old lines.new result }
{
    match add_asked(lines, asked.item, items) {
        Filled::Done => set_all(lines, asked.sets.as_slice(), items),
        Filled::Refused(refusal) => Filled::Refused(refusal),
        Filled::Memory => Filled::Memory,
    }
}

/// One unit more of an item, where one is named.
#[tactic(auto, unfolding(shop_model::specs::trade::Carts::check_lines, shop_model::specs::trade::Carts::set_lines))]
fn add_asked(lines: &mut Lines, asked: Option<u32>, items: u32) -> Filled
    ensures { AreSet items (one_more asked lines.old) lines.old lines.new result }
{
    match asked {
        None => Filled::Done,
        Some(item) => {
            let quantity = lines.quantity(item) + 1;
            set_one(lines, item, quantity, items)
        }
    }
}

/// Sets quantities one after another, up to the first that can't be set.
#[tactic(auto, unfolding(shop_model::specs::trade::Carts::check_lines, shop_model::specs::trade::Carts::set_lines))]
fn set_all(lines: &mut Lines, sets: &[(u32, u32)], items: u32) -> Filled
    ensures { AreSet items sets.now lines.old lines.new result }
{
    for (item, quantity) in sets {
        match set_one(lines, *item, *quantity, items) {
            Filled::Done => {}
            Filled::Refused(refusal) => return Filled::Refused(refusal),
            Filled::Memory => return Filled::Memory,
        }
    }
    Filled::Done
}

/// Sets one quantity, where an item has this id and the lines can hold it.
#[tactic(auto, unfolding(shop_model::specs::trade::Carts::check_lines, shop_model::specs::trade::Carts::check_line, shop_model::specs::trade::Carts::set_lines))]
fn set_one(lines: &mut Lines, item: u32, quantity: u32, items: u32) -> Filled
    ensures { AreSet items ((item, quantity) ∷ []) lines.old lines.new result }
{
    if item == 0 || items < item {
        return Filled::Refused(Refusal::NoItem);
    }
    if QUANTITY_LIMIT < quantity {
        return Filled::Refused(Refusal::FullLine);
    }
    match change(lines, item, quantity) {
        Changed::Done => Filled::Done,
        Changed::TooMany => Filled::Refused(Refusal::FullCart),
        Changed::Memory => Filled::Memory,
    }
}

/// One unit of an item that a drawn word picks, where there is no line.
#[tactic(auto, unfolding(shop_model::specs::trade::Carts::set_line))]
fn add_drawn(lines: &mut Lines, items: u32, draw: u32) -> Filled
    requires { 1 ≤ items }
    ensures { IsDrawn items draw lines.old lines.new result }
{
    if !lines.is_empty() {
        return Filled::Done;
    }
    match change(lines, 1 + draw % items, 1) {
        Changed::Done => Filled::Done,
        Changed::TooMany => unreachable!(),
        Changed::Memory => Filled::Memory,
    }
}
