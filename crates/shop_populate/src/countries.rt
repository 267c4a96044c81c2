ghost use Rattle.std.specs.Prelude.{◌≡◌, ◌≤◌, IfOk};
ghost use Rattle.shop_model.specs.population.Population as spec;

use shop_model::Country;
use shop_text::{Listed, Memory, Shared, Text};
use std::alloc::Global;

/// How many countries there are, at every scale.
const COUNTRIES: u32 = 92;

const LONGEST_NAME: usize = b"Country NGAL".len();

#[tactic(auto, unfolding(shop_model::specs::population::Population::country_name))]
fn country_name(alloc: Global, id: u32) -> Result<Text, Memory>
    ensures { IfOk result (λ text. text ≡ spec.country_name id) }
{
    let mut text = Text::with_capacity(alloc, LONGEST_NAME)?;
    text.push(b"Country ")?;
    text.push_digsyl(id)?;
    Ok(text)
}

/// The rate of a country's tax, in hundredths of a per cent: up to ten per cent, in steps of a quarter.
#[tactic(auto, unfolding(shop_model::specs::population::Population::country_rate))]
pub(crate) fn country_rate(id: u32) -> u32
    ensures value { result ≡ spec.country_rate id }
    ensures bound { result ≤ 1_000 }
{
    25 * (id % 41)
}

/// The country with this id.
#[tactic(auto, unfolding(shop_model::specs::population::Population::country_row))]
fn country_row(alloc: Global, id: u32) -> Result<Country, Memory>
    ensures { IfOk result (λ row. row ≡ spec.country_row id) }
{
    Ok(Country {
        id,
        name: country_name(alloc, id)?,
        rate: country_rate(id),
    })
}

/// All countries.
#[tactic(auto, using(shop_model::proofs::cited::Lists::rows_push), unfolding(shop_model::specs::population::Population::countries_table))]
pub(crate) fn countries_table(alloc: Global) -> Result<Listed<Shared<Country>>, Memory>
    ensures { IfOk result (λ table. table ≡ spec.countries_table) }
{
    let mut table = Listed::with_capacity(alloc, COUNTRIES as usize)?;
    for made in 0..COUNTRIES {
        let country = country_row(alloc, made + 1)?;
        table.push(Shared::new(alloc, country)?)?;
    }
    Ok(table)
}
