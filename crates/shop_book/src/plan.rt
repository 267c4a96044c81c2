//! What is kept of an act before it is done, to tell afterwards which keys it changed.
ghost use Rattle.std.specs.Prelude.{◌≡◌, IfOk, map};
ghost use Rattle.shop_model.specs.declared.tables.Tables.{Tables};
ghost use Rattle.shop_model.specs.lists.Related.{last, sold_of};
ghost use Rattle.shop_model.specs.rows.Limits.{counted_orders};
ghost use Rattle.shop_history.specs.Acts.{IsInForm};
ghost use Rattle.shop_book.specs.Planning as spec;
ghost use Rattle.shop_book.specs.RowsNow.{tables_with};
ghost use Rattle.shop_book.specs.Watching.{MayCome};

use crate::addition::Addition;
use crate::may_change::{cart_change, certain_changes, login_change, newcomer_changes};
use crate::rows::Rows;
use crate::watching::{Watched, watch, watch_one};
use shop_history::{Act, Key, Row};
use shop_model::Buyer;
use shop_text::{Boxed, Memory};
use shop_window::OrderWindow;
use std::alloc::Global;

#[derive(Drop)]
pub(crate) enum Plan {
    /// The one key that the act may change, with what it shows.
    One(Watched),
    /// Keys that the act may change, with what they show.
    Compare(Vec<Watched>),
    /// Keys that a purchase changes for certain; the lists tell of the rest.
    Sell(Vec<Key>),
    /// An item that is administered, with what its key shows; the lists tell of its subject.
    Mend(u32, Row),
    /// An item that is added, with the ranks that the lists get.
    Add(Boxed<Addition>),
}

impl Plan {
    /// The plan of an act, where these are the orders that best sold items are counted over.
    pub(crate) fn of(
        alloc: Global,
        rows: &Rows,
        sold: &OrderWindow<3_333>,
        act: &Act,
    ) -> Result<Plan, Memory>
        requires rows { MayCome rows.now }
        requires sold { sold.now.kept ≡ map sold_of (last counted_orders rows.now.orders.items) }
        ensures form { IfOk result (λ plan. IsInForm act.now) }
        ensures plan { IfOk result (λ plan. (t : Tables) → spec.IsPlanOf (tables_with t rows.now) act.now plan) }
    {
        match act {
            Act::Cart(asked, _) => Ok(Plan::One(watch_one(rows, cart_change(rows, asked))?)),
            Act::Enter(asked, _) => {
                // A number behind a reference is known to fit its type once it is read.
                let _cart = asked.cart;
                match &asked.buyer {
                    Buyer::Returning(login) => match login_change(rows, login.get()) {
                        Some(key) => Ok(Plan::One(watch_one(rows, key)?)),
                        None => Ok(Plan::Compare(Vec::new(alloc))),
                    },
                    Buyer::Newcomer(newcomer) => {
                        let keys = newcomer_changes(alloc, rows, newcomer.get())?;
                        Ok(Plan::Compare(watch(alloc, rows, keys)?))
                    }
                }
            }
            Act::Confirm(asked, _, _, _) => {
                Ok(Plan::Sell(certain_changes(alloc, rows, asked.get())?))
            }
            Act::Admin(asked) => {
                let item = asked.get().item;
                Ok(Plan::Mend(item, rows.item_row(item)?))
            }
            Act::Add(asked) => {
                let addition = Addition::of(alloc, rows, sold, asked.get())?;
                Ok(Plan::Add(Boxed::new(alloc, addition)?))
            }
        }
    }

    /// How many keys may get a version.
    pub(crate) fn len(&self) -> usize
        ensures { result ≡ spec.keys_in self.now }
    {
        match self {
            Plan::One(_) => 1,
            Plan::Compare(watched) => watched.len(),
            Plan::Sell(keys) => keys.len(),
            Plan::Mend(_, _) | Plan::Add(_) => 1,
        }
    }
}
