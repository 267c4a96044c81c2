ghost use Rattle.std.specs.Prelude.{◌≡◌, ◌<◌, ◌++◌, IfOk, OnOk, OnErr};
ghost use Rattle.shop_text.specs.Money as spec;

use crate::{Memory, Text};
use itoa::write_digits;
use std::alloc::Global;

/// A number below 100 in two digits.
pub(crate) fn two_digits(number: u8) -> [u8; 2]
    requires { number < 100 }
    ensures { result ≡ spec.two_digits number }
{
    [b'0' + number / 10, b'0' + number % 10]
}

impl Text {
    /// Adds an amount in cents as whole units, a point and two digits.
    pub fn push_cents(&mut self, cents: u64) -> Result<(), Memory>
        ensures ok { OnOk result (self.new ≡ self.old ++ spec.cents_text cents) }
        ensures err { OnErr result (self.new ≡ self.old) }
    {
        let [tens, ones] = two_digits((cents % 100) as u8);
        let mut buffer = [0; 23];
        buffer[20] = b'.';
        buffer[21] = tens;
        buffer[22] = ones;
        let start = write_digits(cents / 100, &mut buffer, 20);
        self.push(&buffer[start..])
    }
}

/// An amount in cents as whole units, a point and two digits.
pub fn cents_text(alloc: Global, cents: u64) -> Result<Text, Memory>
    ensures { IfOk result (λ text. text ≡ spec.cents_text cents) }
{
    let mut text = Text::new(alloc);
    text.push_cents(cents)?;
    Ok(text)
}
