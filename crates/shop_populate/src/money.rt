ghost use Rattle.std.specs.Prelude.{◌≡◌, ◌≤◌, ◌*◌, length};
ghost use Rattle.shop_model.specs.trade.Money as spec;

use shop_model::Line;
use std::marker::Model;

/// What an order is charged, in cents.
#[derive(Drop)]
pub struct Charge {
    pub sub: u64,
    pub tax: u64,
    pub ship: u64,
    pub total: u64,
}

impl Model for Charge {
    ghost use Rattle.shop_model.specs.trade.Money.{Money};

    ghost Value = { Money };

    ghost view = { λ c. record { sub = c.sub; tax = c.tax; ship = c.ship; total = c.total } };
}

/// The costs of all units, in cents.
#[tactic(auto, unfolding(shop_model::specs::trade::Money::sum_of))]
fn sum_of(lines: &[Line]) -> u64
    requires { length lines.now ≤ 100 }
    ensures value { result ≡ spec.sum_of lines.now }
    ensures bound { result ≤ 100 * 999_000_000 }
{
    let mut sum: u64 = 0;
    for line in lines {
        sum += line.cost * line.quantity as u64;
    }
    sum
}

#[tactic(auto, unfolding(shop_model::specs::trade::Money::units_of))]
fn units_of(lines: &[Line]) -> u64
    requires { length lines.now ≤ 100 }
    ensures value { result ≡ spec.units_of lines.now }
    ensures bound { result ≤ 99_900 }
{
    let mut units: u64 = 0;
    for line in lines {
        units += line.quantity as u64;
    }
    units
}

/// The charge for lines at a discount, in per cent, and a rate of tax, in hundredths of a per cent.
#[tactic(auto, unfolding(shop_model::specs::trade::Money::money, shop_model::specs::trade::Money::sub_of, shop_model::specs::trade::Money::tax_of, shop_model::specs::trade::Money::ship_of))]
pub(crate) fn charged(lines: &[Line], discount: u32, rate: u32) -> Charge
    requires few { length lines.now ≤ 100 }
    requires discount { discount ≤ 50 }
    requires rate { rate ≤ 1_000 }
    ensures value { result ≡ spec.totals lines.now discount rate }
    ensures bound { result.total ≤ 200_000_000_000 }
{
    let sum = sum_of(lines);
    let sub = (2 * sum * (100 - discount as u64) + 100) / 200;
    let tax = (2 * sub * rate as u64 + 10_000) / 20_000;
    let ship = 300 + 100 * units_of(lines);
    Charge {
        sub,
        tax,
        ship,
        total: sub + tax + ship,
    }
}
