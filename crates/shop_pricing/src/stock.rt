//! How a sale lowers the stock of an item.
ghost use Rattle.std.specs.Prelude.{◌≡◌, ◌≤◌};
ghost use Rattle.shop_model.specs.rows.Limits.{stock_limit, quantity_limit};
ghost use Rattle.shop_model.specs.trade.Stocks.{least_stock, times_restocked, stock_after};

/// After a sale so many units have to be left.
const LEAST_STOCK: u32 = 10;

/// So many units come in at once.
const UNITS_MORE: u32 = 21;

/// The stock after a sale of so many units, and how often more came in for it: as seldom as leaves
/// enough.
#[tactic(auto, using(shop_model::proofs::cited::Restocking::times_is), unfolding(shop_model::specs::trade::Stocks::stock_after))]
pub fn restock(stock: u32, units: u32) -> (u32, u32)
    requires enough { least_stock ≤ stock }
    requires stock { stock ≤ stock_limit }
    requires units { units ≤ quantity_limit }
    ensures restocked { result ≡ (stock_after stock units, times_restocked stock units) }
    ensures enough { least_stock ≤ result.0 }
    ensures stock { result.0 ≤ stock_limit }
{
    let missing = (units + LEAST_STOCK).saturating_sub(stock);
    let times = missing.div_ceil(UNITS_MORE);
    (stock + UNITS_MORE * times - units, times)
}
