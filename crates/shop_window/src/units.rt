//! Units that are added to those of their items, or taken away.
ghost use Rattle.std.specs.Prelude.{◌≡◌, ◌+◌, ◌^◌, ◌<◌, ◌≤◌, length, set, slice_index};
ghost use Rattle.shop_model.specs.lists.Related.{units_in_lines};
ghost use Rattle.shop_window.specs.Units.{Adds, HasRoom, HasUnits};

/// Adds a quantity to the units of an item.
fn add_line(units: &mut Vec<u64>, item: u32, quantity: u64)
    requires item { item < length units.old.items }
    requires fits { slice_index units.old.items item + quantity < 2 ^ 64 }
    ensures { units.new.items ≡ set units.old.items item (slice_index units.old.items item + quantity) }
{
    units[item as usize] += quantity;
}

/// Adds the units of lines to those of their items.
pub(crate) fn add_lines(units: &mut Vec<u64>, lines: &[(u32, u32)])
    requires { HasRoom units.old.items lines.now }
    ensures { Adds units.old.items units.new.items (λ item. units_in_lines item lines.now) }
{
    for (item, quantity) in lines {
        add_line(units, *item, u64::from(*quantity));
    }
}

/// Takes a quantity from the units of an item.
fn take_line(units: &mut Vec<u64>, item: u32, quantity: u32)
    requires item { item < length units.old.items }
    requires some { quantity ≤ slice_index units.old.items item }
    ensures { units.old.items ≡ set units.new.items item (slice_index units.new.items item + quantity) }
{
    units[item as usize] -= u64::from(quantity);
}

/// Takes the units of lines from those of their items.
pub(crate) fn take_lines(units: &mut Vec<u64>, lines: &[(u32, u32)])
    requires { HasUnits units.old.items lines.now }
    ensures { Adds units.new.items units.old.items (λ item. units_in_lines item lines.now) }
{
    for (item, quantity) in lines {
        take_line(units, *item, *quantity);
    }
}
