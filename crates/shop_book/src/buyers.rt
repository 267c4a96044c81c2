//! Who bought an item and what a customer bought lately, where an order comes and one is forgotten.
ghost use Rattle.std.specs.Prelude.{◌≡◌, ℕ, ◌≤◌, ◌<◌, Contains, IfSome, option_map, length, true, false};
ghost use Rattle.shop_model.specs.rows.Limits.{lines_limit};
ghost use Rattle.shop_model.specs.rows.Sound.{Has, HasLines, units_in};
ghost use Rattle.shop_history.specs.MayChange.{items_of};
ghost use Rattle.shop_book.specs.Sales as spec;
ghost use Rattle.shop_book.specs.Stored.{stored, numbers, MorePlaces};

use crate::versions::Versions;
use shop_history::Key;
use shop_model::{Line, Order};
use shop_window::OrderWindow;

/// Gives the buyers of each of an order's items this number as their version, unless its customer has
/// ordered the item in the window.
pub(crate) fn raise_buyers(
    recent: &OrderWindow<10_000>,
    order: &Order,
    versions: &mut Versions,
    number: u64,
)
    requires { spec.AreThere (length (numbers versions.old 6)) order.now }
    ensures raised { spec.RaisesBuyers (spec.has_bought recent.now.kept order.now.customer) (items_of order.now) number (stored versions.old) (stored versions.new) }
    ensures places { MorePlaces versions.old versions.new }
{
    for line in order.lines.as_slice() {
        if !recent.has(order.customer, line.item) {
            versions.raise(Key::Buyers(line.item), number);
        }
    }
}

/// The units of an item in lines.
fn units_of(lines: &[Line], item: u32) -> u64
    requires { length lines.now ≤ lines_limit }
    ensures { result ≡ units_in item lines.now }
{
    let mut units = 0;
    for line in lines {
        if line.item == item {
            units += u64::from(line.quantity);
        }
    }
    units
}

/// Whether another order has as many units of each of an order's items.
fn has_units_of(order: &Order, other: &Order) -> bool
    requires order { HasLines order.now }
    requires other { HasLines other.now }
    ensures all { result ≡ true → (item : ℕ) → Contains (items_of order.now) item → units_in item order.now.lines ≡ units_in item other.now.lines }
    ensures some { result ≡ false → spec.HaveSameUnits order.now other.now → ⊥ }
{
    let (lines, others) = (order.lines.as_slice(), other.lines.as_slice());
    for line in lines {
        if units_of(lines, line.item) != units_of(others, line.item) {
            return false;
        }
    }
    true
}

/// Whether two orders have as many units of each item.
fn have_same_units(order: &Order, other: &Order) -> bool
    requires order { HasLines order.now }
    requires other { HasLines other.now }
    ensures same { result ≡ true → spec.HaveSameUnits order.now other.now }
    ensures differ { result ≡ false → spec.HaveSameUnits order.now other.now → ⊥ }
{
    has_units_of(order, other) && has_units_of(other, order)
}

/// Gives what customers bought this number as its version, for those who buy other things than before,
/// where an order comes and one may be forgotten.
pub(crate) fn raise_bought(
    coming: &Order,
    gone: Option<&Order>,
    versions: &mut Versions,
    number: u64,
)
    requires lines { HasLines coming.now }
    requires customer { Has (length (numbers versions.old 7)) coming.now.customer }
    requires gone { IfSome gone (λ order. HasLines order.now) }
    requires other { IfSome gone (λ order. Has (length (numbers versions.old 7)) order.now.customer) }
    ensures raised { spec.RaisesBought (spec.BuysElse coming.now (option_map (λ order. order.now) gone.entry)) number (stored versions.old) (stored versions.new) }
    ensures places { MorePlaces versions.old versions.new }
{
    let Some(gone) = gone else {
        versions.raise(Key::Bought(coming.customer), number);
        return;
    };
    if gone.customer == coming.customer && have_same_units(coming, gone) {
        return;
    }
    versions.raise(Key::Bought(coming.customer), number);
    versions.raise(Key::Bought(gone.customer), number);
}
