//! The number of a payment card, and the month in which it expires.
ghost use Rattle.std.specs.Cmp.Lexicographic.{pointwise, nat_list_eq_equiv};
ghost use Rattle.std.specs.Cmp.Rules.{hashing};
ghost use Rattle.std.specs.Cmp.{partial_equiv_from_equiv};
ghost use Rattle.std.specs.Hash as fed;
ghost use Rattle.std.specs.Prelude.{◌≡◌, ◌≤◌, ◌<◌, ◌^◌, decimal, nat_eq, IfSome, if◌then◌else◌};
ghost use Rattle.std.specs.List.{list_all};
ghost use Rattle.std.specs.Char.{is_ascii_digit};
ghost use Rattle.std.proofs.Common.{rules};
ghost use Rattle.shop_model.specs.asked.Cards as spec;

use itoa::Buffer;
use shop_text::number_of;
use std::hash::{Hash, Hasher};
use std::marker::Model;

/// The most digits that a card's number has.
const LONGEST: usize = 19;

/// The number of a card: 12 to 19 decimal digits. A contract sees the list of their bytes.
#[derive(Clone, Copy, Debug)]
pub struct CardNumber {
    /// The digits, and zero bytes behind them.
    digits: [u8; LONGEST],
    len: u8,
}

impl Model for CardNumber {
    ghost use Rattle.std.specs.Prelude.{◌-◌, ◌++◌, ℕ, List, length, replicate};
    ghost use Rattle.shop_model.specs.asked.Padded.{padded, padded_len};

    ghost Value = { List ℕ };

    ghost use Rattle.shop_model.specs.asked.CardNumberView.{digits_of, IsKept};

    ghost view = { digits_of };

    ghost invariant = { IsKept };

    ghost inverse = { λ digits. record { digits = digits ++ replicate (19 - length digits) 0; len = length digits } };

    ghost inverse_ok = { λ n h i. record {
      digits = padded n.len n.digits h.size h.within h.zeros i;
      len = padded_len n.len n.digits h.size h.within i;
    } };
}

impl PartialEq for CardNumber {
    ghost eq = { pointwise nat_eq };

    ghost laws = { partial_equiv_from_equiv nat_list_eq_equiv };

    fn eq(&self, other: &CardNumber) -> bool {
        self.bytes() == other.bytes()
    }
}

impl Eq for CardNumber {
    ghost laws = { nat_list_eq_equiv };
}

impl Hash for CardNumber {
    ghost hash_input = { fed.slice fed.u8 };

    ghost respects_eq = { Prim.search (hashing, rules) };

    fn hash<H: Hasher>(&self, state: &mut H) {
        self.bytes().hash(state);
    }
}

impl CardNumber {
    /// The number that these digits are.
    pub fn new(bytes: &[u8]) -> CardNumber
        requires { spec.IsCardNumber bytes.now }
        ensures { result ≡ bytes.now }
    {
        let mut digits = [0; LONGEST];
        digits[..bytes.len()].copy_from_slice(bytes);
        CardNumber {
            digits,
            len: bytes.len() as u8,
        }
    }

    /// A number of 12 to 19 digits, in decimal.
    pub fn of_number(number: u64) -> CardNumber
        requires long { 10 ^ 11 ≤ number }
        requires short { number < 10 ^ 19 }
        ensures value { result ≡ decimal number }
        ensures form { spec.IsCardNumber result }
    {
        let mut buffer = Buffer::new();
        CardNumber::new(buffer.format(number).as_bytes())
    }

    /// The number that the bytes are, if they are one.
    pub fn of(bytes: &[u8]) -> Option<CardNumber>
        ensures value { result ≡ (if spec.is_card_number bytes.now then Some bytes.now else None) }
        ensures form { IfSome result spec.IsCardNumber }
    {
        if is_card_number(bytes) {
            Some(CardNumber::new(bytes))
        } else {
            None
        }
    }

    /// The ASCII codes of the digits.
    pub fn bytes(&self) -> &[u8]
        ensures value { result.now ≡ self.now }
        ensures form { spec.IsCardNumber self.now }
    {
        &self.digits[..self.len as usize]
    }
}

/// A month, as `YYYY-MM`. A contract sees the list of its bytes.
#[derive(Clone, Copy, Debug)]
pub struct Month {
    text: [u8; 7],
}

impl Model for Month {
    ghost use Rattle.std.specs.Prelude.{ℕ, List};
    ghost use Rattle.shop_model.specs.asked.Cards.{IsMonth};

    ghost Value = { List ℕ };

    ghost view = { λ m. m.text };

    ghost inverse = { λ text. record { text = text } };

    ghost invariant = { λ m. IsMonth m.text };
}

impl PartialEq for Month {
    ghost eq = { pointwise nat_eq };

    ghost laws = { partial_equiv_from_equiv nat_list_eq_equiv };

    fn eq(&self, other: &Month) -> bool {
        self.text == other.text
    }
}

impl Eq for Month {
    ghost laws = { nat_list_eq_equiv };
}

impl Hash for Month {
    ghost hash_input = { fed.slice fed.u8 };

    ghost respects_eq = { Prim.search (hashing, rules) };

    fn hash<H: Hasher>(&self, state: &mut H) {
        self.bytes().hash(state);
    }
}

impl Month {
    /// The month that this text is.
    pub fn new(text: [u8; 7]) -> Month
        requires { spec.IsMonth text }
        ensures { result ≡ text }
    {
        Month { text }
    }

    /// The month that the bytes are, if they are one.
    pub fn of(bytes: &[u8]) -> Option<Month>
        ensures value { result ≡ (if spec.is_month bytes.now then Some bytes.now else None) }
        ensures form { IfSome result spec.IsMonth }
    {
        if !is_month(bytes) {
            return None;
        }
        let mut text = [0; 7];
        text.copy_from_slice(bytes);
        Some(Month::new(text))
    }

    /// The ASCII codes of the text.
    pub fn bytes(&self) -> &[u8]
        ensures value { result.now ≡ self.now }
        ensures form { spec.IsMonth self.now }
    {
        &self.text
    }
}

/// Whether the bytes are the number of a card: 12 to 19 digits.
#[tactic(auto, unfolding(crate::specs::asked::Cards::is_card_number))]
fn is_card_number(bytes: &[u8]) -> bool
    ensures { result ≡ spec.is_card_number bytes.now }
{
    12 <= bytes.len() && bytes.len() <= LONGEST && all_digits(bytes)
}

/// Whether the bytes are a month as `YYYY-MM`.
#[tactic(auto, using(std::proofs::lemmas::List::take_rest), unfolding(crate::specs::asked::Cards::is_month))]
fn is_month(bytes: &[u8]) -> bool
    ensures { result ≡ spec.is_month bytes.now }
{
    bytes.len() == 7
        && all_digits(&bytes[..4])
        && bytes[4] == b'-'
        && is_month_number(number_of(&bytes[5..]))
}

fn is_month_number(number: Option<u32>) -> bool
    ensures { result ≡ spec.is_month_number number }
{
    match number {
        Some(number) => 1 <= number && number <= 12,
        None => false,
    }
}

fn all_digits(bytes: &[u8]) -> bool
    ensures { result ≡ list_all is_ascii_digit bytes.now }
{
    bytes.iter().all(|byte| byte.is_ascii_digit())
}
