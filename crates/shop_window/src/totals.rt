//! Items with their units, rising by item.
ghost use Rattle.std.specs.Prelude.{◌≡◌, ◌+◌, ◌^◌, ◌<◌, OnOk, nat_lt};
ghost use Rattle.std.specs.List.{prefix_len};
ghost use Rattle.shop_window.specs.Totals as spec;

use shop_text::Memory;

/// How many items at the front are below this one.
fn count_below(totals: &[(u32, u64)], item: u32) -> usize
    ensures { result ≡ prefix_len (λ t. nat_lt t.0 item) totals.now }
{
    totals.iter().take_while(|total| total.0 < item).count()
}

/// Adds a quantity to the units of an item.
fn add_to(totals: &mut Vec<(u32, u64)>, item: u32, quantity: u32) -> Result<(), Memory>
    requires { spec.units_of totals.old.items + quantity < 2 ^ 64 }
    ensures { OnOk result (totals.new.items ≡ spec.add_to (item, quantity) totals.old.items) }
{
    let place = count_below(totals, item);
    if place < totals.len() && totals[place].0 == item {
        totals[place].1 += u64::from(quantity);
        return Ok(());
    }
    totals.insert(place, (item, u64::from(quantity)))?;
    Ok(())
}

/// Adds the quantities of lines to the units of their items.
pub(crate) fn add_all(totals: &mut Vec<(u32, u64)>, lines: &[(u32, u32)]) -> Result<(), Memory>
    requires { spec.units_of totals.old.items + spec.units_of lines.now < 2 ^ 64 }
    ensures { OnOk result (totals.new.items ≡ spec.add_all lines.now totals.old.items) }
{
    for place in (0..lines.len()).rev() {
        let (item, quantity) = lines[place];
        add_to(totals, item, quantity)?;
    }
    Ok(())
}
