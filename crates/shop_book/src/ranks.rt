//! The ranks of the items of an order that comes or no longer counts.
ghost use Rattle.std.specs.Prelude.{◌≡◌, ◌≤◌, ℕ, ◌++◌, ◌∷◌, [], List, length};
ghost use Rattle.shop_model.specs.declared.subject.Subject.{Subject};
ghost use Rattle.shop_model.specs.lists.Related.{units_in_orders};
ghost use Rattle.shop_model.specs.rows.Subjects.{subjects};
ghost use Rattle.shop_history.specs.declared.keys.Key.{Key};
ghost use Rattle.shop_history.specs.MayChange.{items_of};
ghost use Rattle.shop_ranking.specs.StandingBest.{Units, standing_best};
ghost use Rattle.shop_book.specs.Sales as spec;
ghost use Rattle.shop_book.specs.Stored.{stored, numbers, MorePlaces};

use crate::listing::Listing;
use crate::versions::Versions;
use shop_history::Key;
use shop_model::{Item, Order, Subject};
use shop_ranking::Best;
use shop_window::OrderWindow;

/// Sets the units of an order's items to those that the window has.
pub(crate) fn bump_items(best: &mut Best, sold: &OrderWindow<3_333>, order: &Order)
    requires { spec.AreThere (length best.old.units) order.now }
    ensures { (was : Units) → (done : List ℕ) → spec.Bumps (λ item. units_in_orders item sold.now.kept) was done best.old
        → spec.Bumps (λ item. units_in_orders item sold.now.kept) was (done ++ items_of order.now) best.new }
{
    for line in order.lines.as_slice() {
        best.bump(line.item, sold.quantity(line.item));
    }
}

/// Lists the best sold items of a subject anew. Where they are others, the key that shows them gets this
/// number as its version.
fn renew_list(
    lists: &mut Vec<Listing>,
    best: &Best,
    subject: Subject,
    versions: &mut Versions,
    number: u64,
)
    requires size { length lists.old.items ≡ length subjects }
    requires place { 24 ≤ length (numbers versions.old 5) }
    ensures renewed { (was : Subject → List ℕ) → (old : Key → ℕ) → (done : List Subject) → spec.Renews was (standing_best best.now) number done lists.old.items old (stored versions.old)
        → spec.Renews was (standing_best best.now) number (done ++ subject ∷ []) lists.new.items old (stored versions.new) }
    ensures size { length lists.new.items ≡ length lists.old.items }
    ensures places { MorePlaces versions.old versions.new }
{
    let list = &mut lists[subject.number() as usize];
    if list.renew(best, subject) {
        versions.raise(Key::BestIn(subject), number);
    }
}

/// Lists the best sold items of the subjects of an order's items anew.
pub(crate) fn renew_lists(
    lists: &mut Vec<Listing>,
    best: &Best,
    items: &[Item],
    order: &Order,
    versions: &mut Versions,
    number: u64,
)
    requires size { length lists.old.items ≡ length subjects }
    requires items { spec.AreThere (length items.now) order.now }
    requires place { 24 ≤ length (numbers versions.old 5) }
    ensures renewed { (was : Subject → List ℕ) → (old : Key → ℕ) → (done : List Subject) → spec.Renews was (standing_best best.now) number done lists.old.items old (stored versions.old)
        → spec.Renews was (standing_best best.now) number (done ++ spec.subjects_in items.now order.now) lists.new.items old (stored versions.new) }
    ensures places { MorePlaces versions.old versions.new }
{
    for line in order.lines.as_slice() {
        let item = &items[line.item as usize - 1];
        renew_list(lists, best, item.details.get().subject, versions, number);
    }
}
