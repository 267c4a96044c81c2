ghost use Rattle.std.specs.Prelude.{◌≡◌, IfOk};
ghost use Rattle.shop_model.specs.population.Population as spec;

use shop_model::words::{first_name, last_name};
use shop_model::{Author, Scale, drawn};
use shop_text::{Caption, Listed, Memory, Shared};
use std::alloc::Global;

/// The table's number in the drawn words.
const AUTHORS: u64 = 4;

/// The author with this id.
#[tactic(auto, unfolding(shop_model::specs::population::Population::author_row))]
fn author_row(alloc: Global, seed: u32, scale: &Scale, id: u32) -> Result<Author, Memory>
    ensures { IfOk result (λ row. row ≡ spec.author_row seed scale.now id) }
{
    let [first, last] = drawn::<2>(seed, scale, AUTHORS, id);
    Ok(Author {
        id,
        first: Caption::copy(alloc, first_name(first))?,
        last: Caption::copy(alloc, last_name(last))?,
    })
}

/// The authors of a shop.
#[tactic(auto, using(shop_model::proofs::cited::Lists::rows_push), unfolding(shop_model::specs::population::Population::authors_table))]
pub(crate) fn authors_table(
    alloc: Global,
    seed: u32,
    scale: &Scale,
) -> Result<Listed<Shared<Author>>, Memory>
    ensures { IfOk result (λ table. table ≡ spec.authors_table seed scale.now) }
{
    let mut table = Listed::with_capacity(alloc, scale.authors as usize)?;
    for made in 0..scale.authors {
        let author = author_row(alloc, seed, scale, made + 1)?;
        table.push(Shared::new(alloc, author)?)?;
    }
    Ok(table)
}
