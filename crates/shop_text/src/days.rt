ghost use Rattle.std.specs.Prelude.{◌≡◌, ◌≤◌, ◌<◌, ◌++◌, IfOk, OnOk, OnErr, pos};
ghost use Rattle.jiff_core.specs.Date.{epoch_day};
ghost use Rattle.shop_text.specs.Days as spec;
ghost use Rattle.shop_text.specs.Escape.{escape};

use crate::money::two_digits;
use crate::{Memory, Text};
use jiff_core::civil::Date;
use std::alloc::Global;

/// The date of a day counted from 1970-01-01.
fn date_of(day: u32) -> Date
    requires { day ≤ 2_932_896 }
    ensures { epoch_day result ≡ pos day }
{
    Date::from_unix_epoch_day(i64::from(day)).unwrap()
}

/// A date as `YYYY-MM-DD`.
fn date_bytes(year: u16, month: u8, day: u8) -> [u8; 10]
    requires { (year < 10_000) × (month < 100) × (day < 100) }
    ensures value { result ≡ spec.date_text year month day }
    ensures plain { escape result ≡ result }
{
    let hundreds = two_digits((year / 100) as u8);
    let rest = two_digits((year % 100) as u8);
    let month = two_digits(month);
    let day = two_digits(day);
    [
        hundreds[0],
        hundreds[1],
        rest[0],
        rest[1],
        b'-',
        month[0],
        month[1],
        b'-',
        day[0],
        day[1],
    ]
}

/// A day counted from 1970-01-01 as `YYYY-MM-DD`; the last one is 9999-12-31. In a page each byte
/// stands for itself.
pub fn day_bytes(day: u32) -> [u8; 10]
    requires { day ≤ 2_932_896 }
    ensures value { result ≡ spec.day_text day }
    ensures plain { escape result ≡ result }
{
    let date = date_of(day);
    date_bytes(date.year.unsigned_abs(), date.month, date.day)
}

impl Text {
    /// Adds a day counted from 1970-01-01 as `YYYY-MM-DD`; the last one is 9999-12-31.
    pub fn push_day(&mut self, day: u32) -> Result<(), Memory>
        requires { day ≤ 2_932_896 }
        ensures ok { OnOk result (self.new ≡ self.old ++ spec.day_text day) }
        ensures err { OnErr result (self.new ≡ self.old) }
    {
        self.push(&day_bytes(day))
    }
}

/// A day counted from 1970-01-01 as `YYYY-MM-DD`; the last one is 9999-12-31.
pub fn day_text(alloc: Global, day: u32) -> Result<Text, Memory>
    requires { day ≤ 2_932_896 }
    ensures { IfOk result (λ text. text ≡ spec.day_text day) }
{
    let mut text = Text::new(alloc);
    text.push_day(day)?;
    Ok(text)
}
