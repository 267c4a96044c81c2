//! An item that is to be added, and the ranks of all items with it.
ghost use Rattle.std.specs.Prelude.{◌≡◌, IfOk, map};
ghost use Rattle.shop_model.specs.asked.AddAsked.{IsAddAsked};
ghost use Rattle.shop_model.specs.declared.tables.Tables.{Tables};
ghost use Rattle.shop_model.specs.lists.Related.{last, sold_of};
ghost use Rattle.shop_model.specs.rows.Limits.{counted_orders};
ghost use Rattle.shop_model.specs.trade.Adding.{added_item};
ghost use Rattle.shop_book.specs.Planning.{IsAddition};
ghost use Rattle.shop_book.specs.RowsNow.{tables_with};
ghost use Rattle.shop_book.specs.Watching.{MayCome};

use crate::copies::copies;
use crate::lists::best_of;
use crate::rows::Rows;
use shop_model::{AdminAdd, Item, ItemDetails};
use shop_ranking::{Best, Newest};
use shop_text::{Caption, Memory, Shared};
use shop_window::OrderWindow;
use std::alloc::Global;

/// An item that is to be added, and the ranks of all items with it, so that adding it takes no memory.
#[derive(Drop)]
pub(crate) struct Addition {
    /// It is published on the day of its entry, and until then on day 0.
    pub(crate) item: Item,
    pub(crate) best: Best,
    pub(crate) newest: Newest,
}

/// The item that is asked for, behind the others.
fn new_item(alloc: Global, rows: &Rows, asked: &AdminAdd) -> Result<Item, Memory>
    requires { MayCome rows.now }
    ensures item { IfOk result (λ item. (t : Tables) → item ≡ added_item (tables_with t rows.now) 0 asked.now) }
    ensures form { IfOk result (λ item. IsAddAsked asked.now) }
{
    let details = ItemDetails {
        title: Caption::copy(alloc, asked.title.bytes())?,
        author: asked.author,
        subject: asked.subject,
        publisher: Caption::copy(alloc, asked.publisher.bytes())?,
        about: Caption::copy(alloc, asked.about.bytes())?,
        related: [1, 2, 3, 4, 5],
        thumb: Caption::copy(alloc, asked.thumb.bytes())?,
        image: Caption::copy(alloc, asked.image.bytes())?,
        srp: asked.srp,
        cost: asked.cost,
        first_stock: asked.stock,
        pages: asked.pages,
        backing: asked.backing,
    };
    Ok(Item {
        id: rows.items.len() as u32 + 1,
        published: 0,
        stock: asked.stock,
        restocks: 0,
        details: Shared::new(alloc, details)?,
    })
}

impl Addition {
    /// The item that is asked for, and the ranks of all items with it, of which so many were sold.
    pub(crate) fn of(
        alloc: Global,
        rows: &Rows,
        sold: &OrderWindow<3_333>,
        asked: &AdminAdd,
    ) -> Result<Addition, Memory>
        requires rows { MayCome rows.now }
        requires sold { sold.now.kept ≡ map sold_of (last counted_orders rows.now.orders.items) }
        ensures addition { IfOk result (λ addition. (t : Tables) → IsAddition (tables_with t rows.now) asked.now addition) }
        ensures form { IfOk result (λ addition. IsAddAsked asked.now) }
    {
        let item = new_item(alloc, rows, asked)?;
        let mut items = copies(alloc, &rows.items)?;
        items.push(item.share()?)?;
        let best = best_of(alloc, &items, sold)?;
        let newest = Newest::new(alloc, &items)?;
        Ok(Addition { item, best, newest })
    }
}
