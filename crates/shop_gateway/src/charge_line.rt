//! The line that asks a gateway for a charge.
ghost use Rattle.std.specs.Prelude.{◌≡◌, OnOk};
ghost use Rattle.std.specs.List.{list_all};
ghost use Rattle.std.specs.Char.{is_ascii_digit};
ghost use Rattle.shop_gateway.specs.Protocol as spec;

use crate::first::number_of;
use memchr::memchr;
use shop_edges::Charge;
use shop_model::{CardNumber, CardType, Month};
use shop_text::{Memory, Text};

/// The most digits of a call and of cents in a line.
const LONG_DIGITS: usize = 18;

/// What stands before the first such byte, and what follows it.
fn cut(bytes: &[u8], byte: u8) -> (&[u8], &[u8])
    ensures before { result.0.now ≡ spec.before byte bytes.now }
    ensures after { result.1.now ≡ spec.after byte bytes.now }
{
    match memchr(byte, bytes) {
        Some(at) => (&bytes[..at], &bytes[at + 1..]),
        None => (bytes, &bytes[bytes.len()..]),
    }
}

pub(crate) fn all_digits(bytes: &[u8]) -> bool
    ensures { result ≡ list_all is_ascii_digit bytes.now }
{
    bytes.iter().all(|byte| byte.is_ascii_digit())
}

/// Whether the bytes are a number without leading zeros.
#[tactic(auto, unfolding(crate::specs::Protocol::is_plain))]
fn is_plain(digits: &[u8]) -> bool
    ensures { result ≡ spec.is_plain digits.now }
{
    (digits.len() == 1 || digits.len() > 1 && digits[0] > b'0') && all_digits(digits)
}

/// A number of at most 18 digits.
#[tactic(auto, unfolding(crate::specs::Protocol::is_plain, crate::specs::Protocol::long_number))]
fn long_number(digits: &[u8]) -> Option<u64>
    ensures { result ≡ spec.long_number digits.now }
{
    if is_plain(digits) && digits.len() <= LONG_DIGITS {
        Some(number_of(digits))
    } else {
        None
    }
}

/// A number of at most 10 digits, below 2^32.
#[tactic(auto, unfolding(crate::specs::Protocol::short_number))]
fn short_number(digits: &[u8]) -> Option<u32>
    ensures { result ≡ spec.short_number digits.now }
{
    if is_plain(digits) {
        shop_text::number_of(digits)
    } else {
        None
    }
}

/// The charge of these parts, where each is there.
fn charge_of(
    caller: Option<u32>,
    call: Option<u64>,
    cents: Option<u64>,
    card: Option<CardType>,
    number: Option<CardNumber>,
    expiry: Option<Month>,
) -> Option<Charge>
    ensures { result ≡ spec.charge_of caller call cents card number expiry }
{
    Some(Charge {
        caller: caller?,
        call: call?,
        cents: cents?,
        card: card?,
        number: number?,
        expiry: expiry?,
    })
}

/// The charge whose parts stand between hyphens and spaces.
#[tactic(auto, unfolding(crate::specs::Protocol::charge_in))]
fn charge_in(bytes: &[u8]) -> Option<Charge>
    ensures { result ≡ spec.charge_in bytes.now }
{
    let (caller, rest) = cut(bytes, b'-');
    let (call, rest) = cut(rest, b'-');
    let (cents, rest) = cut(rest, b' ');
    let (card, rest) = cut(rest, b' ');
    let (number, rest) = cut(rest, b' ');
    let (expiry, again) = cut(rest, b' ');
    if cents != again {
        return None;
    }
    charge_of(
        short_number(caller),
        long_number(call),
        long_number(cents),
        CardType::of(card),
        CardNumber::of(number),
        Month::of(expiry),
    )
}

/// The charge that a line asks for, if it is in the grammar.
#[tactic(auto, unfolding(crate::specs::Protocol::charge_asked))]
pub(crate) fn charge_asked(line: &[u8]) -> Option<Charge>
    ensures { result ≡ spec.charge_asked line.now }
{
    if line.starts_with(b"AUTH ".as_slice()) {
        charge_in(&line[5..])
    } else {
        None
    }
}

/// Makes the text the line that asks for a charge, with its line feed.
#[tactic(auto, unfolding(crate::specs::Protocol::charge_line))]
pub(crate) fn set_charge_line(text: &mut Text, charge: &Charge) -> Result<(), Memory>
    ensures { OnOk result (text.new ≡ spec.ended (spec.charge_line charge.now)) }
{
    text.clear();
    text.push(b"AUTH ")?;
    text.push_decimal(u64::from(charge.caller))?;
    text.push(b"-")?;
    text.push_decimal(charge.call)?;
    text.push(b"-")?;
    text.push_decimal(charge.cents)?;
    text.push(b" ")?;
    text.push(charge.card.name())?;
    text.push(b" ")?;
    text.push(charge.number.bytes())?;
    text.push(b" ")?;
    text.push(charge.expiry.bytes())?;
    text.push(b" ")?;
    text.push_decimal(charge.cents)?;
    text.push(b"\n")
}
