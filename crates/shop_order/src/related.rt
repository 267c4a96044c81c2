//! The items that are related to one by what was read of its buyers.
ghost use Rattle.std.specs.Prelude.{◌≡◌, ◌≤◌, ◌↔◌, All, IfOk, IsTrue, MatchOption, map};
ghost use Rattle.shop_model.specs.rows.Sound.{Has};
ghost use Rattle.shop_history.specs.declared.keys.Key.TheVariants as key_kinds;
ghost use Rattle.shop_order.specs.AdminConfirm as spec;

use shop_attempt::ReadOf;
use shop_browse::Next;
use shop_history::{Key, Row};
use shop_text::{Listed, Memory};
use shop_window::five_related;
use std::alloc::Global;

/// The customers in a row; another row has none.
pub(crate) fn customers_in(row: &Row) -> &[u32]
    ensures { result.now ≡ spec.customers_in row.now }
{
    match row {
        Row::Customers(customers) => customers.as_slice(),
        _ => &[],
    }
}

/// The keys of what customers bought.
fn bought_keys(alloc: Global, customers: &[u32]) -> Result<Listed<Key>, Memory>
    ensures { IfOk result (λ keys. keys ≡ map key_kinds.Bought customers.now) }
{
    let mut keys = Vec::with_capacity(alloc, customers.len())?;
    for customer in customers {
        keys.push(Key::Bought(*customer))?;
    }
    Ok(Listed::from_vec(keys))
}

/// The reads of what customers bought; those of one or two need no list.
pub(crate) fn read_bought(alloc: Global, customers: &[u32]) -> Result<Next, Memory>
    ensures { IfOk result (spec.Reads (map key_kinds.Bought customers.now)) }
{
    match customers {
        [one] => Ok(Next::ReadOne(Key::Bought(*one))),
        [one, other] => Ok(Next::ReadTwo(Key::Bought(*one), Key::Bought(*other))),
        _ => Ok(Next::Read(bought_keys(alloc, customers)?)),
    }
}

/// The items in a row, with how many units of each; another row has none.
fn totals_in(row: &Row) -> &[(u32, u64)]
    ensures { result.now ≡ spec.totals_in row.now }
{
    match row {
        Row::Totals(totals) => totals.as_slice(),
        _ => &[],
    }
}

/// What buyers bought, as it was read.
fn lists_in<'a>(alloc: Global, bought: &'a [ReadOf]) -> Result<Vec<&'a [(u32, u64)]>, Memory>
    ensures { IfOk result (λ lists. map (λ l. l.now) lists.items ≡ spec.lists_in bought.now) }
{
    let mut lists = Vec::with_capacity(alloc, bought.len())?;
    for read in bought {
        lists.push(totals_in(&read.row))?;
    }
    Ok(lists)
}

/// Whether this is the id of one of so many items.
fn is_among(items: u32, id: u32) -> bool
    ensures { IsTrue result ↔ Has items id }
{
    1 <= id && id <= items
}

/// Whether all these items are among so many.
fn are_all_among(items: u32, totals: &[(u32, u64)]) -> bool
    ensures { IsTrue result ↔ All (λ p. Has items p.0) totals.now }
{
    for pair in totals {
        if !is_among(items, pair.0) {
            return false;
        }
    }
    true
}

/// Whether an item and all that its buyers bought are among so many items.
fn are_among(items: u32, item: u32, bought: &[ReadOf]) -> bool
    ensures { IsTrue result ↔ spec.AreAmong items item bought.now }
{
    for read in bought {
        if !are_all_among(items, totals_in(&read.row)) {
            return false;
        }
    }
    is_among(items, item)
}

/// The five items, of so many, that are related to one by what was read of each of its buyers; none
/// where one of all these is not among them.
pub(crate) fn related(
    alloc: Global,
    items: u32,
    item: u32,
    bought: &[ReadOf],
) -> Result<Option<[u32; 5]>, Memory>
    requires six { 6 ≤ items }
    requires few { spec.AreFew bought.now }
    ensures { IfOk result (λ five. MatchOption five (spec.AreAmong items item bought.now → ⊥) (spec.AreRelated items item bought.now)) }
{
    if !are_among(items, item, bought) {
        return Ok(None);
    }
    let lists = lists_in(alloc, bought)?;
    Ok(Some(five_related(alloc, &lists, item, items)?))
}
