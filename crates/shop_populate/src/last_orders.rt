ghost use Rattle.std.specs.Prelude.{◌≡◌, IfOk, map, All};
ghost use Rattle.shop_model.specs.population.Population.{rows};
ghost use Rattle.shop_model.specs.rows.Sound.{Has, Runs, last_of};

use shop_model::Order;
use shop_text::{Listed, Memory, Shared};
use std::alloc::Global;

/// The last order of each of so many customers, in one pass over the orders.
pub(crate) fn last_orders_table(
    alloc: Global,
    customers: u32,
    orders: &[Shared<Order>],
) -> Result<Listed<Option<u32>>, Memory>
    requires run { Runs (map (λ o. o.id) orders.now) }
    requires known { All (λ o. Has customers o.customer) orders.now }
    ensures { IfOk result (λ lasts. lasts ≡ rows (last_of orders.now) customers) }
{
    let mut lasts = Vec::from_elem(alloc, None, customers as usize)?;
    for order in orders {
        let order = order.get();
        lasts[(order.customer - 1) as usize] = Some(order.id);
    }
    Ok(Listed::from_vec(lasts))
}
