ghost use Rattle.std.specs.Prelude.{◌≡◌, ◌≤◌, length, All};
ghost use Rattle.std.specs.List.{sum_by};
ghost use Rattle.shop_book.specs.Openings.{most_entries};
ghost use Rattle.shop_book.specs.Summaries.{charge_limit};

use shop_model::Order;
use shop_text::Shared;

/// What these orders were charged together, in cents.
pub(crate) fn cents_of(orders: &[Shared<Order>]) -> u64
    requires few { length orders.now ≤ most_entries }
    requires charges { All (λ o. o.total ≤ charge_limit) orders.now }
    ensures { result ≡ sum_by (λ o. o.total) orders.now }
{
    let mut cents = 0;
    for order in orders {
        cents += order.get().total;
    }
    cents
}
