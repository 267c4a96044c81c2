//! The five items that are related to an item by what its buyers bought.
ghost use Rattle.std.specs.Prelude.{◌≡◌, ◌+◌, ◌^◌, ◌<◌, ◌≤◌, All, length, map, sum_by, take, get_or, nat_eq, IfOk, OnOk};
ghost use Rattle.std.specs.List.{insert, list_any};
ghost use Rattle.std.specs.List.Sorted.{IsNonDecreasingBy};
ghost use Rattle.shop_model.specs.lists.Rankings.{better, in_order, put_among};
ghost use Rattle.shop_model.specs.lists.Related as spec;
ghost use Rattle.shop_model.specs.rows.Sound.{Has};
ghost use Rattle.shop_window.specs.Gathered as gathered;
ghost use Rattle.shop_window.specs.Totals.{units_of};

use shop_text::Memory;
use std::alloc::Global;
use std::cmp::Ordering;
use std::marker::Model;

/// How many items are related to an item.
const RELATED_ITEMS: usize = 5;

/// An item, and its units in what buyers bought.
#[derive(Drop)]
struct Sale {
    id: u32,
    units: u64,
}

impl Model for Sale {
    ghost use Rattle.shop_model.specs.lists.Rankings.{Sale as SaleValue};

    ghost Value = { SaleValue };

    ghost view = { λ s. record { id = s.id; units = s.units } };
}

/// More units come first, then smaller ids.
fn compare(sale: &Sale, other: &Sale) -> Ordering
    ensures { result ≡ better sale.now other.now }
{
    other.units.cmp(&sale.units).then(sale.id.cmp(&other.id))
}

/// The place of the first one that this one does not come after.
fn place_among(sale: &Sale, others: &[Sale]) -> usize
    ensures within { result ≤ length others.now }
    ensures place { insert others.now result sale.now ≡ put_among better sale.now others.now }
{
    for (place, other) in others.iter().enumerate() {
        if !compare(sale, other).is_gt() {
            return place;
        }
    }
    others.len()
}

/// Puts one at its place among the first ones.
fn put(top: &mut Vec<Sale>, sale: Sale) -> Result<(), Memory>
    ensures { OnOk result (top.new.items ≡ take 5 (put_among better sale top.old.items)) }
{
    let place = place_among(&sale, top);
    top.insert(place, sale)?;
    top.truncate(RELATED_ITEMS);
    Ok(())
}

/// The pairs of all lists, rising by item.
fn gather(alloc: Global, lists: &[&[(u32, u64)]]) -> Result<Vec<(u32, u64)>, Memory>
    ensures { IfOk result (λ pairs. gathered.AreGathered (map (λ l. l.now) lists.now) pairs.items) }
{
    let mut pairs = Vec::new(alloc);
    for list in lists {
        pairs.extend_from_slice(list)?;
    }
    pairs.sort_unstable_by_key(|pair| pair.0);
    Ok(pairs)
}

/// Whether some units of an item were bought, and it is another than this one.
fn is_beside(sale: &Sale, item: u32) -> bool
    ensures { result ≡ gathered.is_beside item sale.now }
{
    sale.units > 0 && sale.id != item
}

/// Puts an item among the first ones, where it has units and is another than this one.
fn offer(top: &mut Vec<Sale>, sale: Sale, item: u32) -> Result<(), Memory>
    ensures { OnOk result (top.new.items ≡ gathered.offered item sale top.old.items) }
{
    if is_beside(&sale, item) {
        put(top, sale)?;
    }
    Ok(())
}

/// The items besides this one that have most units, of pairs that rise by item and of so many items.
fn most_bought(
    alloc: Global,
    pairs: &[(u32, u64)],
    item: u32,
    items: u32,
) -> Result<Vec<Sale>, Memory>
    requires some { 1 ≤ items }
    requires rising { IsNonDecreasingBy (λ p. p.0) pairs.now }
    requires names { All (λ p. Has items p.0) pairs.now }
    requires fits { units_of pairs.now < 2 ^ 64 }
    ensures { IfOk result (λ top. top.items ≡ take 5 (in_order better (gathered.besides_from 1 pairs.now item items))) }
{
    let mut top = Vec::with_capacity(alloc, RELATED_ITEMS + 1)?;
    let mut sale = Sale {
        id: items,
        units: 0,
    };
    for place in (0..pairs.len()).rev() {
        let (id, units) = pairs[place];
        if id == sale.id {
            sale.units += units;
        } else {
            offer(&mut top, sale, item)?;
            sale = Sale { id, units };
        }
    }
    offer(&mut top, sale, item)?;
    Ok(top)
}

/// The ids of items.
fn ids(alloc: Global, sales: &[Sale]) -> Result<Vec<u32>, Memory>
    ensures { IfOk result (λ ids. ids.items ≡ map (λ s. s.id) sales.now) }
{
    let mut ids = Vec::with_capacity(alloc, sales.len())?;
    for sale in sales {
        ids.push(sale.id)?;
    }
    Ok(ids)
}

/// The item that follows this one after so many others; after the last item comes the first.
fn following(item: u32, others: u32, items: u32) -> u32
    requires item { Has items item }
    requires others { others + 1 < items }
    ensures { result ≡ get_or (spec.cycle item items) others 0 }
{
    let last = items - item;
    if others < last {
        item + 1 + others
    } else {
        1 + (others - last)
    }
}

/// Whether an item is among those found.
fn is_found(found: &[u32], id: u32) -> bool
    ensures { result ≡ list_any (nat_eq id) found.now }
{
    found.iter().any(|found_id| id == *found_id)
}

/// These items, and then the first of those that follow this one and are not among them, up to five.
fn filled(most: &[u32], item: u32, items: u32) -> [u32; RELATED_ITEMS]
    requires few { length most.now ≤ 5 }
    requires six { 6 ≤ items }
    requires item { Has items item }
    ensures { result ≡ spec.filled most.now (spec.cycle item items) }
{
    let mut five = [0; RELATED_ITEMS];
    five[..most.len()].copy_from_slice(most);
    let mut count = most.len();
    let mut others = 0;
    while count < RELATED_ITEMS {
        let id = following(item, others, items);
        if !is_found(most, id) {
            five[count] = id;
            count += 1;
        }
        others += 1;
    }
    five
}

/// The five items besides this one that its buyers bought most units of, of so many items. Where they
/// bought fewer than five others, those that follow this one fill them up.
pub fn five_related(
    alloc: Global,
    buyers: &[&[(u32, u64)]],
    item: u32,
    items: u32,
) -> Result<[u32; 5], Memory>
    requires six { 6 ≤ items }
    requires item { Has items item }
    requires pairs { All (λ pairs. All (λ p. Has items p.0) pairs) (map (λ b. b.now) buyers.now) }
    requires fits { sum_by (λ pairs. sum_by (λ p. p.1) pairs) (map (λ b. b.now) buyers.now) < 2 ^ 64 }
    ensures { IfOk result (λ five. five ≡ spec.five_of (map (λ b. b.now) buyers.now) item items) }
{
    let pairs = gather(alloc, buyers)?;
    let top = most_bought(alloc, &pairs, item, items)?;
    let most = ids(alloc, &top)?;
    Ok(filled(&most, item, items))
}
