ghost use Rattle.std.specs.Prelude.{◌≡◌};
ghost use Rattle.shop_model.specs.rows.Sound.{Has};
ghost use Rattle.shop_model.specs.population.Population as spec;

use shop_model::{Address, Customer, Item, Scale};
use shop_text::Shared;

/// The customer with this id among those of the shop.
#[tactic(auto, using(shop_model::proofs::cited::Lists::id_within, shop_model::proofs::cited::Lists::row_at), unfolding(shop_model::specs::population::Population::customers_table))]
pub(crate) fn customer_at<'a>(
    seed: u32,
    scale: &Scale,
    customers: &'a [Customer],
    id: u32,
) -> &'a Customer
    requires table { customers.now ≡ spec.customers_table seed scale.now }
    requires has { Has scale.now.customers id }
    ensures value { result.now ≡ spec.customer_row seed scale.now id }
    ensures known { Has scale.now.addresses result.now.address }
{
    let _addresses = scale.addresses;
    &customers[(id - 1) as usize]
}

/// The address with this id among those of the shop.
#[tactic(auto, using(shop_model::proofs::cited::Lists::id_within, shop_model::proofs::cited::Lists::row_at), unfolding(shop_model::specs::population::Population::addresses_table))]
pub(crate) fn address_at<'a>(
    seed: u32,
    scale: &Scale,
    addresses: &'a [Shared<Address>],
    id: u32,
) -> &'a Address
    requires table { addresses.now ≡ spec.addresses_table seed scale.now }
    requires has { Has scale.now.addresses id }
    ensures { result.now ≡ spec.address_row seed scale.now id }
{
    addresses[(id - 1) as usize].get()
}

/// The item with this id among those of the shop.
#[tactic(auto, using(shop_model::proofs::cited::Lists::id_within, shop_model::proofs::cited::Lists::row_at), unfolding(shop_model::specs::population::Population::items_table))]
pub(crate) fn item_at<'a>(seed: u32, scale: &Scale, items: &'a [Item], id: u32) -> &'a Item
    requires table { items.now ≡ spec.items_table seed scale.now }
    requires has { Has scale.now.items id }
    ensures { result.now ≡ spec.item_row seed scale.now id }
{
    &items[(id - 1) as usize]
}
