//! A purchase whose rows are read: who buys what, and what it costs.
ghost use Rattle.std.specs.Prelude.{◌≡◌, ◌≤◌, IfOk};
ghost use Rattle.shop_model.specs.rows.Limits.{charged_rate_limit};
ghost use Rattle.shop_order.specs.Purchases as spec;

use crate::buyer_page::priced;
use shop_attempt::ReadOf;
use shop_history::Row;
use shop_model::{BuyConfirm, Customer, TaxRule};
use shop_pricing::Totals;
use shop_text::{Listed, Memory, Shared};
use std::alloc::Global;

/// Who buys what, as it was read.
#[derive(Clone, Copy)]
pub(crate) struct Purchase<'a> {
    pub(crate) asked: &'a Shared<BuyConfirm>,
    pub(crate) customer: &'a Customer,
    /// The lines of the cart.
    pub(crate) lines: &'a [(u32, u32)],
    /// Where it ships to.
    pub(crate) ship: &'a Row,
    /// The items of the lines.
    pub(crate) items: &'a [ReadOf],
    pub(crate) tax: TaxRule,
    /// The rate by that rule, in hundredths of a per cent.
    pub(crate) rate: u32,
}

/// The rate that every purchase is charged where it is not the country's, in hundredths of a per cent.
const FLAT_RATE: u32 = 825;

/// The rate by what was read behind the items: the country's, if it is there.
fn rate_in(rest: &[ReadOf]) -> u32
    ensures rate { result ≡ spec.rate_in rest.now }
    ensures bound { result ≤ charged_rate_limit }
{
    let Some(read) = rest.first() else {
        return FLAT_RATE;
    };
    match &read.row {
        Row::Country(country) => country.get().rate,
        _ => FLAT_RATE,
    }
}

impl<'a> Purchase<'a> {
    /// The purchase that was read, to be taxed by a rule.
    pub(crate) fn of(
        tax: TaxRule,
        asked: &'a Shared<BuyConfirm>,
        reads: &'a [ReadOf],
    ) -> Purchase<'a>
        requires { spec.IsRead tax asked.now reads.now }
        ensures purchase { spec.IsPurchase asked.now reads.now result }
        ensures tax { result.tax ≡ tax }
    {
        match (&reads[0].row, &reads[1].row) {
            (Row::Customer(customer), Row::Cart(cart)) => {
                let lines = cart.lines.get().as_slice();
                let (items, rest) = reads[3..].split_at(lines.len());
                Purchase {
                    asked,
                    customer,
                    lines,
                    ship: &reads[2].row,
                    items,
                    tax,
                    rate: rate_in(rest),
                }
            }
            _ => unreachable!(),
        }
    }
}

/// What a purchase costs.
#[derive(Drop)]
pub(crate) struct Bill {
    /// The lines, with the cost of one unit each, in cents.
    pub(crate) priced: Listed<(u32, u32, u64)>,
    pub(crate) totals: Totals,
}

impl Bill {
    pub(crate) fn of(alloc: Global, purchase: &Purchase) -> Result<Bill, Memory>
        requires goods { spec.AreGoods purchase.now.lines.now purchase.now.items.now }
        requires rate { purchase.now.rate ≤ charged_rate_limit }
        ensures { IfOk result (spec.IsBill purchase.now) }
    {
        let customer = purchase.customer;
        let discount = customer.details.get().discount;
        let priced = priced(alloc, purchase.lines, purchase.items)?;
        let totals = Totals::of(priced.as_slice(), discount, purchase.rate);
        Ok(Bill { priced, totals })
    }
}
