ghost use Rattle.std.specs.Prelude.{◌≡◌, IfOk, length};
ghost use Rattle.shop_model.specs.population.Population as spec;
ghost use Rattle.shop_model.specs.rows.Sound.{Room, Sound};

use crate::addresses::addresses_table;
use crate::authors::authors_table;
use crate::countries::countries_table;
use crate::customers::customers_table;
use crate::items::items_table;
use crate::last_orders::last_orders_table;
use crate::orders::orders_table;
use shop_model::{Scale, Tables};
use shop_text::{Listed, Memory};
use std::alloc::Global;

/// The tables that a shop of this scale opens with, each row drawn from the seed and its own id.
#[tactic(auto, unfolding(shop_model::specs::population::Population::populated))]
pub fn populate(alloc: Global, seed: u32, scale: &Scale) -> Result<Tables, Memory>
    ensures value { IfOk result (λ tables. tables ≡ spec.populated seed scale.now) }
    ensures sound { IfOk result Sound }
    ensures room { IfOk result (λ tables. Room tables 1_000_001) }
    ensures born { IfOk result (λ tables. tables.born_orders ≡ length tables.orders) }
    ensures born_items { IfOk result (λ tables. tables.born_items ≡ length tables.items) }
{
    let countries = countries_table(alloc)?;
    let addresses = addresses_table(alloc, seed, scale)?;
    let customers = customers_table(alloc, seed, scale)?;
    let authors = authors_table(alloc, seed, scale)?;
    let items = items_table(alloc, seed, scale)?;
    let orders = orders_table(
        alloc,
        seed,
        scale,
        customers.as_slice(),
        addresses.as_slice(),
        items.as_slice(),
    )?;
    let last = last_orders_table(alloc, scale.customers, orders.as_slice())?;
    Ok(Tables {
        countries,
        addresses,
        customers,
        authors,
        items,
        orders,
        carts: Listed::new(alloc),
        born_orders: scale.orders,
        born_items: scale.items,
        last,
    })
}
