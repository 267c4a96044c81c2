//! A shop that several callers share.
ghost use Rattle.std.specs.Prelude.{◌≡◌, ◌≤◌, IfOk};
ghost use Rattle.std.specs.Arc.{arc_value};
ghost use Rattle.shop_book.specs.Openings.{most_entries};
ghost use Rattle.shop_model.specs.lists.Catalogues.{opened};
ghost use Rattle.shop_model.specs.population.Population.{populated};
ghost use Rattle.shop_turn.specs.Shops.{Opens, most_callers};
ghost use Rattle.shop_app.specs.NewShops.{new_book};

use crate::alone::index_of;
use shop_book::Book;
use shop_populate::populate;
use shop_search::Index;
use shop_text::Memory;
use shop_turn::{Desk, Shop};
use shop_words::Session;
use std::alloc::Global;
use std::sync::{Arc, Wait};

/// The desks of a new shop, and the index of its items.
pub fn open_shop<R: Wait + Clone + Drop>(
    rt: &R,
    alloc: Global,
    asked: Session,
    callers: u32,
) -> Result<(Vec<Desk<R>>, Arc<Index, Global>), Memory>
    requires callers { (1 ≤ callers) × (callers ≤ most_callers) }
    requires limit { asked.limit ≤ most_entries }
    ensures desks { IfOk result (λ opened. Opens (new_book asked) callers opened.0.items) }
    ensures index { IfOk result (λ shop. arc_value shop.1 ≡ opened (populated asked.seed asked.scale)) }
{
    let tables = populate(alloc, asked.seed, &asked.scale)?;
    let index = index_of(alloc, &tables)?;
    let book = Book::open(alloc, tables, asked.limit)?;
    let desks = Shop::open(rt, alloc, book, callers)?;
    Ok((desks, index))
}
