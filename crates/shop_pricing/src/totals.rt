//! What the lines of an order cost.
ghost use Rattle.std.specs.Prelude.{◌≡◌, ◌+◌, ◌*◌, ◌<◌, ◌≤◌, ◌^◌};
ghost use Rattle.shop_model.specs.rows.Limits.{charged_rate_limit, discount_limit};
ghost use Rattle.shop_model.specs.trade.Money.{half_up, money};
ghost use Rattle.shop_pricing.specs.Totals.{IsPriced, ArePriced, sum_of, units_of, totals_of};

/// What an order costs, in cents.
#[derive(Clone, Copy, Debug, PartialEq, Eq)]
pub struct Totals {
    /// The lines, without the discount.
    pub sum: u64,
    /// The lines, less the discount.
    pub sub: u64,
    pub tax: u64,
    pub ship: u64,
    /// All but `sum`, together.
    pub total: u64,
}

impl Totals {
    /// What lines of an item, a quantity and the cost of one unit in cents cost at a discount in per
    /// cent: a tax on what the discount leaves, at a rate in hundredths of a per cent, and 3.00 and 1.00 a
    /// unit for shipping.
    #[tactic(auto, using(crate::proofs::Bounds::bounds), unfolding(shop_model::specs::trade::Money::money, shop_model::specs::trade::Money::sub_of, shop_model::specs::trade::Money::tax_of, shop_model::specs::trade::Money::ship_of))]
    pub fn of(lines: &[(u32, u32, u64)], discount: u32, rate: u32) -> Totals
        requires lines { ArePriced lines.now }
        requires discount { discount ≤ discount_limit }
        requires rate { rate ≤ charged_rate_limit }
        ensures { result ≡ totals_of lines.now discount rate }
    {
        let sum = sum(lines);
        let sub = half_up(sum * u64::from(100 - discount), 100);
        let tax = half_up(sub * u64::from(rate), 10_000);
        let ship = 300 + 100 * units(lines);
        Totals {
            sum,
            sub,
            tax,
            ship,
            total: sub + tax + ship,
        }
    }
}

/// A quotient to the nearest whole number, halves up.
fn half_up(a: u64, b: u64) -> u64
    requires some { 1 ≤ b }
    requires fits { 2 * a + b < 2 ^ 64 }
    requires twice { 2 * b < 2 ^ 64 }
    ensures { result ≡ half_up a b }
{
    (2 * a + b) / (2 * b)
}

/// What a line costs, in cents.
fn line_cost(line: &(u32, u32, u64)) -> u64
    requires { IsPriced line.now }
    ensures { result ≡ line.now.2 * line.now.1 }
{
    line.2 * u64::from(line.1)
}

/// What lines cost together, in cents.
fn sum(lines: &[(u32, u32, u64)]) -> u64
    requires { ArePriced lines.now }
    ensures { result ≡ sum_of lines.now }
{
    let mut sum = 0;
    for line in lines {
        sum += line_cost(line);
    }
    sum
}

/// How many units lines have together.
fn units(lines: &[(u32, u32, u64)]) -> u64
    requires { ArePriced lines.now }
    ensures { result ≡ units_of lines.now }
{
    lines
        .iter()
        .map(|(_, quantity, _)| u64::from(*quantity))
        .sum()
}
