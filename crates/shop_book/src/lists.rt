//! What is kept of the latest orders and of the items, so that a list is looked up.
ghost use Rattle.std.specs.Prelude.{◌≡◌, ◌≤◌, IfOk, IfSome, All, length, map};
ghost use Rattle.shop_model.specs.declared.tables.Tables.{Tables};
ghost use Rattle.shop_model.specs.lists.Rankings as spec;
ghost use Rattle.shop_model.specs.lists.Related.{sold_of, last, units_in_orders};
ghost use Rattle.shop_model.specs.rows.Limits.{recent_orders};
ghost use Rattle.shop_model.specs.rows.Sound.{Sound, Runs};
ghost use Rattle.shop_model.specs.rows.Subjects.{subjects};
ghost use Rattle.std.specs.Bool.{OnTrue};
ghost use Rattle.shop_history.specs.Keys.{row_of};
ghost use Rattle.shop_book.specs.KeptLists.{AreLists, HasRoom, IsAdmitted, UnitsAre};
ghost use Rattle.shop_book.specs.Listings.{IsList};

use crate::auths::Auths;
use crate::listing::{Listing, listings};
use shop_history::{Key, Row};
use shop_model::{ITEMS_LIMIT, Item, Order, Subject, Tables};
use shop_ranking::{Best, Newest};
use shop_text::{Memory, Shared};
use shop_window::OrderWindow;
use std::alloc::Global;

/// The latest orders, the units that were sold of each item, and the lists that are made of them.
#[derive(Drop)]
pub(crate) struct Lists {
    /// The orders that best sold items are counted over.
    pub(crate) sold: OrderWindow<3_333>,
    /// The orders that related items are counted over.
    pub(crate) recent: OrderWindow<10_000>,
    pub(crate) best: Best,
    pub(crate) newest: Newest,
    /// The best sold items of each subject, by its number, as they are shown.
    pub(crate) best_rows: Vec<Listing>,
    /// The newest ones.
    pub(crate) newest_rows: Vec<Listing>,
    pub(crate) auths: Auths,
}

/// The latest of these orders.
fn window_of<const N: usize>(
    alloc: Global,
    orders: &[Shared<Order>],
    items: u32,
) -> Result<OrderWindow<N>, Memory>
    requires some { 1 ≤ N }
    requires few { N ≤ recent_orders }
    requires orders { All (IsAdmitted items) orders.now }
    ensures items { IfOk result (λ window. window.items ≡ items) }
    ensures kept { IfOk result (λ window. window.kept ≡ map sold_of (last N orders.now)) }
{
    let mut window = OrderWindow::new(alloc, items)?;
    for order in orders {
        window.admit(order.get())?;
    }
    Ok(window)
}

/// The units of each item in the orders of a window.
pub(crate) fn best_of(
    alloc: Global,
    items: &[Item],
    sold: &OrderWindow<3_333>,
) -> Result<Best, Memory>
    requires { Runs (map (λ i. i.id) items.now) }
    ensures { IfOk result (UnitsAre items.now (λ item. units_in_orders item sold.now.kept)) }
{
    let mut best = Best::new(alloc, items)?;
    for item in items {
        best.bump(item.id, sold.quantity(item.id));
    }
    Ok(best)
}

impl Lists {
    /// Those of these tables.
    pub(crate) fn of(alloc: Global, tables: &Tables) -> Result<Lists, Memory>
        requires { Sound tables.now }
        ensures { IfOk result (AreLists tables.now) }
    {
        let (items, orders) = (tables.items.as_slice(), tables.orders.as_slice());
        // An item may be added without the windows being made anew.
        let size = ITEMS_LIMIT.max(items.len() as u32);
        let sold = window_of(alloc, orders, size)?;
        let recent = window_of(alloc, orders, size)?;
        let best = best_of(alloc, items, &sold)?;
        let newest = Newest::new(alloc, items)?;
        let auths = Auths::of(alloc, orders)?;
        Ok(Lists {
            best_rows: listings(alloc, &best)?,
            newest_rows: listings(alloc, &newest)?,
            sold,
            recent,
            best,
            newest,
            auths,
        })
    }

    /// What the key of the customers who bought an item shows.
    pub(crate) fn buyers_row(&self, item: u32) -> Result<Row, Memory>
        ensures { (t : Tables) → AreLists t self.now → IfOk result (λ row. row ≡ row_of t (Key.Buyers item)) }
    {
        Ok(Row::Customers(self.recent.buyers(item)?))
    }

    /// What the key of what a customer bought shows.
    pub(crate) fn bought_row(&self, customer: u32) -> Result<Row, Memory>
        ensures { (t : Tables) → AreLists t self.now → IfOk result (λ row. row ≡ row_of t (Key.Bought customer)) }
    {
        Ok(Row::Totals(self.recent.bought(customer)?))
    }

    /// What the key of a subject's newest items shows; none where its row has to be made first.
    pub(crate) fn newest_shown(&self, subject: Subject) -> Option<Result<Row, Memory>>
        requires { length self.now.newest_rows.items ≡ length subjects }
        ensures { (t : Tables) → AreLists t self.now → IfSome result (λ looked. IfOk looked (λ row. row ≡ Row.Items (spec.newest t subject))) }
    {
        self.newest_rows[subject.number() as usize].shown()
    }

    /// What the key of a subject's best sold items shows; none where its row has to be made first.
    pub(crate) fn best_shown(&self, subject: Subject) -> Option<Result<Row, Memory>>
        requires { length self.now.best_rows.items ≡ length subjects }
        ensures { (t : Tables) → AreLists t self.now → IfSome result (λ looked. IfOk looked (λ row. row ≡ Row.Items (spec.best t subject))) }
    {
        self.best_rows[subject.number() as usize].shown()
    }

    /// What the key of a subject's newest items shows.
    pub(crate) fn newest_row(&mut self, subject: Subject) -> Result<Row, Memory>
        requires { length self.old.newest_rows.items ≡ length subjects }
        ensures row { (t : Tables) → AreLists t self.old → IfOk result (λ row. row ≡ Row.Items (spec.newest t subject)) }
        ensures lists { (t : Tables) → AreLists t self.old → AreLists t self.new }
        ensures size { length self.new.newest_rows.items ≡ length self.old.newest_rows.items }
    {
        let list = &mut self.newest_rows[subject.number() as usize];
        Ok(Row::Items(list.row()?))
    }

    /// What the key of a subject's best sold items shows.
    pub(crate) fn best_row(&mut self, subject: Subject) -> Result<Row, Memory>
        requires { length self.old.best_rows.items ≡ length subjects }
        ensures row { (t : Tables) → AreLists t self.old → IfOk result (λ row. row ≡ Row.Items (spec.best t subject)) }
        ensures lists { (t : Tables) → AreLists t self.old → AreLists t self.new }
        ensures size { length self.new.best_rows.items ≡ length self.old.best_rows.items }
    {
        let list = &mut self.best_rows[subject.number() as usize];
        Ok(Row::Items(list.row()?))
    }

    /// What the key of a list shows.
    pub(crate) fn list_row(&mut self, key: &Key) -> Result<Row, Memory>
        requires list { IsList key.now }
        requires lists { (t : Tables) × AreLists t self.old }
        ensures row { (t : Tables) → AreLists t self.old → IfOk result (λ row. row ≡ row_of t key.now) }
        ensures lists { (t : Tables) → AreLists t self.old → AreLists t self.new }
    {
        match key {
            Key::NewIn(subject) => self.newest_row(*subject),
            Key::BestIn(subject) => self.best_row(*subject),
            _ => unreachable!(),
        }
    }

    /// Makes room for one order more; answers whether there is.
    pub(crate) fn make_room(&mut self) -> bool
        ensures lists { (t : Tables) → AreLists t self.old → AreLists t self.new }
        ensures room { OnTrue result (HasRoom self.new) }
    {
        let sold = self.sold.reserve(1).is_ok();
        let recent = self.recent.reserve(1).is_ok();
        let auths = self.auths.make_room(1);
        sold && recent && auths
    }
}
