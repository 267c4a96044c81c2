//! What the desk with seed 0 opens with.
ghost use Rattle.std.specs.Prelude.{◌≡◌, IfOk};
ghost use Rattle.shop_model.specs.lists.Catalogues.{opened};
ghost use Rattle.shop_model.specs.population.Population.{populated};

use shop_book::Book;
use shop_draft::{Draft, Template};
use shop_model::Scale;
use shop_populate::populate;
use shop_search::Index;
use shop_text::Memory;
use std::alloc::Global;

/// The index of what the shop opens with.
#[tactic(auto, using(shop_model::proofs::cited::Opened::opened_all))]
pub(crate) fn index_of(alloc: Global, scale: &Scale) -> Result<Index, Memory>
    ensures { IfOk result (λ index. index ≡ opened (populated 0 scale.now)) }
{
    let tables = populate(alloc, 0, scale)?;
    Index::build(alloc, &tables)
}

/// The book before any change, over tables of its own: those of the index would be let go at a refusal.
pub(crate) fn book_of(alloc: Global, scale: &Scale) -> Result<Book, Memory>
    ensures { IfOk result (λ book. book.opening.tables ≡ populated 0 scale.now) }
{
    let tables = populate(alloc, 0, scale)?;
    Book::open(alloc, tables, 100)
}

/// A draft with nothing in it.
pub(crate) fn empty_draft(alloc: Global) -> Result<Draft, Memory> {
    let page = Template::with_room(alloc, 0)?;
    Ok(Draft { status: 0, page })
}
