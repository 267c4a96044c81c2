//! The lists that are kept, where an order comes: the windows move on, and keys that show something else
//! get a new version.
ghost use Rattle.std.specs.Prelude.{◌≡◌, ℕ, ◌≤◌, ◌++◌, ◌∷◌, [], List, length, IfSome, option_map, option_and_then};
ghost use Rattle.shop_model.specs.declared.subject.Subject.{Subject};
ghost use Rattle.shop_model.specs.declared.tables.Tables.{Tables};
ghost use Rattle.shop_model.specs.lists.Related.{last, sold_of, units_in_orders};
ghost use Rattle.shop_model.specs.rows.Limits.{counted_orders, recent_orders};
ghost use Rattle.shop_model.specs.rows.Lookups as lookups;
ghost use Rattle.shop_model.specs.rows.Rows.{OrderRow};
ghost use Rattle.shop_model.specs.rows.Subjects.{subjects};
ghost use Rattle.shop_model.specs.trade.Sales.{with_order};
ghost use Rattle.shop_history.specs.declared.keys.Key.{Key};
ghost use Rattle.shop_history.specs.MayChange as changes;
ghost use Rattle.shop_history.specs.MayChange.{items_of};
ghost use Rattle.shop_history.proofs.cited.Versions.{RaisedFor};
ghost use Rattle.shop_ranking.specs.StandingBest.{Units, standing_best};
ghost use Rattle.shop_window.specs.Windows as windows;
ghost use Rattle.shop_book.specs.KeptLists.{AreLists, HasRoom, IsAdmitted};
ghost use Rattle.shop_book.specs.Sales as spec;
ghost use Rattle.shop_book.specs.Stored.{stored, numbers, HasPlaces, MorePlaces};

use crate::buyers::{raise_bought, raise_buyers};
use crate::listing::Listing;
use crate::lists::Lists;
use crate::ranks::{bump_items, renew_lists};
use crate::rows::Rows;
use crate::versions::Versions;
use shop_model::{Item, Order, row_numbered};
use shop_ranking::Best;
use shop_text::Shared;
use shop_window::OrderWindow;

/// Takes an order into a window that has room for it; answers the id of the one that leaves.
fn admit<const N: usize>(window: &mut OrderWindow<N>, order: &Order) -> Option<u32>
    requires some { 1 ≤ N }
    requires few { N ≤ recent_orders }
    requires order { IsAdmitted window.old.items order.now }
    requires room { 1 ≤ window.old.room }
    ensures items { window.new.items ≡ window.old.items }
    ensures kept { window.new.kept ≡ last N (window.old.kept ++ sold_of order.now ∷ []) }
    ensures gone { result ≡ windows.leaving N window.old.kept }
{
    match window.admit(order) {
        Ok(gone) => gone,
        Err(_) => unreachable!(),
    }
}

/// The order with an id, where there is an id.
fn order_with(orders: &[Shared<Order>], id: Option<u32>) -> Option<&Order>
    ensures { option_map (λ order. order.now) result ≡ option_and_then (lookups.row_numbered orders.now) id }
{
    match row_numbered(orders, id?) {
        Some(order) => Some(order.get()),
        None => None,
    }
}

/// Sets the units of the items of an order that no longer counts to those that the window has.
fn bump_gone(best: &mut Best, sold: &OrderWindow<3_333>, gone: Option<&Order>)
    requires { IfSome gone (λ order. spec.AreThere (length best.old.units) order.now) }
    ensures { (was : Units) → (done : List ℕ) → spec.Bumps (λ item. units_in_orders item sold.now.kept) was done best.old
        → spec.Bumps (λ item. units_in_orders item sold.now.kept) was (done ++ spec.gone_items (option_map (λ order. order.now) gone.entry)) best.new }
{
    if let Some(order) = gone {
        bump_items(best, sold, order);
    }
}

/// Lists the best sold items of the subjects of those anew.
fn renew_gone(
    lists: &mut Vec<Listing>,
    best: &Best,
    items: &[Item],
    gone: Option<&Order>,
    versions: &mut Versions,
    number: u64,
)
    requires size { length lists.old.items ≡ length subjects }
    requires items { IfSome gone (λ order. spec.AreThere (length items.now) order.now) }
    requires place { 24 ≤ length (numbers versions.old 5) }
    ensures renewed { (was : Subject → List ℕ) → (old : Key → ℕ) → (done : List Subject) → spec.Renews was (standing_best best.now) number done lists.old.items old (stored versions.old)
        → spec.Renews was (standing_best best.now) number (done ++ spec.gone_subjects items.now (option_map (λ order. order.now) gone.entry)) lists.new.items old (stored versions.new) }
    ensures places { MorePlaces versions.old versions.new }
{
    if let Some(order) = gone {
        renew_lists(lists, best, items, order, versions, number);
    }
}

/// Gives the buyers of its items this number as their version, unless its customer is still one of them.
fn raise_gone(
    recent: &OrderWindow<10_000>,
    gone: Option<&Order>,
    versions: &mut Versions,
    number: u64,
)
    requires { IfSome gone (λ order. spec.AreThere (length (numbers versions.old 6)) order.now) }
    ensures raised { spec.RaisesGone recent.now.kept (option_map (λ order. order.now) gone.entry) number (stored versions.old) (stored versions.new) }
    ensures places { MorePlaces versions.old versions.new }
{
    if let Some(order) = gone {
        raise_buyers(recent, order, versions, number);
    }
}

impl Lists {
    /// Moves the orders on that best sold items are counted over, and the ranks with them.
    fn rank(&mut self, rows: &Rows, coming: &Order, versions: &mut Versions, number: u64)
        requires sale { (t : Tables) × spec.IsSale t coming.now rows.now × spec.AreRanked t self.old }
        requires room { 1 ≤ self.old.sold.room }
        requires places { HasPlaces versions.old rows.now }
        ensures ranked { (t : Tables) → spec.IsSale t coming.now rows.now → spec.AreRanked t self.old → spec.AreRanked (with_order t coming.now) self.new }
        ensures rest { self.new ≡ record self.old { sold = self.new.sold; best = self.new.best; best_rows = self.new.best_rows } }
        ensures raised { (t : Tables) → spec.IsSale t coming.now rows.now → spec.AreRanked t self.old
            → RaisedFor t (with_order t coming.now) number (changes.ranks_change t (items_of coming.now) ++ changes.unranked_changes t (changes.leaving counted_orders t.orders)) (stored versions.old) (stored versions.new) }
        ensures places { MorePlaces versions.old versions.new }
    {
        let gone = order_with(&rows.orders, admit(&mut self.sold, coming));
        bump_items(&mut self.best, &self.sold, coming);
        bump_gone(&mut self.best, &self.sold, gone);
        renew_lists(
            &mut self.best_rows,
            &self.best,
            &rows.items,
            coming,
            versions,
            number,
        );
        renew_gone(
            &mut self.best_rows,
            &self.best,
            &rows.items,
            gone,
            versions,
            number,
        );
    }

    /// Moves the orders on that related items are counted over.
    fn remember(&mut self, rows: &Rows, coming: &Order, versions: &mut Versions, number: u64)
        requires sale { (t : Tables) × spec.IsSale t coming.now rows.now × spec.IsRemembered t self.old }
        requires room { 1 ≤ self.old.recent.room }
        requires places { HasPlaces versions.old rows.now }
        ensures remembered { (t : Tables) → spec.IsSale t coming.now rows.now → spec.IsRemembered t self.old → spec.IsRemembered (with_order t coming.now) self.new }
        ensures rest { self.new ≡ record self.old { recent = self.new.recent } }
        ensures raised { (t : Tables) → spec.IsSale t coming.now rows.now → spec.IsRemembered t self.old
            → RaisedFor t (with_order t coming.now) number (changes.buyers_change coming.now.customer (items_of coming.now) ++ changes.forgotten_changes (changes.leaving recent_orders t.orders)) (stored versions.old) (stored versions.new) }
        ensures places { MorePlaces versions.old versions.new }
    {
        raise_buyers(&self.recent, coming, versions, number);
        let gone = order_with(&rows.orders, admit(&mut self.recent, coming));
        raise_gone(&self.recent, gone, versions, number);
        raise_bought(coming, gone, versions, number);
    }

    /// Moves the lists on where the last order of the rows just came. Keys that show something else get
    /// this number as their version.
    pub(crate) fn sell(&mut self, rows: &Rows, versions: &mut Versions, number: u64)
        requires sale { (t : Tables) × (order : OrderRow) × spec.IsSale t order rows.now × AreLists t self.old }
        requires room { HasRoom self.old }
        requires places { HasPlaces versions.old rows.now }
        ensures lists { (t : Tables) → (order : OrderRow) → spec.IsSale t order rows.now → AreLists t self.old → AreLists (with_order t order) self.new }
        ensures raised { (t : Tables) → (order : OrderRow) → spec.IsSale t order rows.now → AreLists t self.old
            → RaisedFor t (with_order t order) number (changes.lists_change t order.customer (items_of order)) (stored versions.old) (stored versions.new) }
        ensures places { MorePlaces versions.old versions.new }
    {
        let coming = rows.orders[rows.orders.len() - 1].get();
        self.rank(rows, coming, versions, number);
        self.remember(rows, coming, versions, number);
        self.auths.add(coming);
    }
}
