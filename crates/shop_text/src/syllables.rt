ghost use Rattle.std.specs.Prelude.{◌≡◌, ◌≢◌, ℕ, ◌<◌, ◌^◌, ◌↔◌, ◌++◌, IsTrue, IfSome, IfNone, IfOk, OnOk, OnErr, map};
ghost use Rattle.shop_text.specs.Extends.{Extends};
ghost use Rattle.shop_text.specs.Fold.{lower};
ghost use Rattle.shop_text.specs.Syllables as spec;

use crate::{Memory, Text};
use itoa::Buffer;
use std::alloc::Global;

/// The syllable of a digit; that of 9 for a larger number.
pub fn syllable(digit: u8) -> &'static [u8]
    ensures { result.now ≡ spec.syllable digit }
{
    match digit {
        0 => b"BA",
        1 => b"OG",
        2 => b"AL",
        3 => b"RI",
        4 => b"RE",
        5 => b"SE",
        6 => b"AT",
        7 => b"UL",
        8 => b"IN",
        _ => b"NG",
    }
}

/// Makes room, and adds the syllable of each digit; a refusal may come after some of them.
fn add_syllables(text: &mut Text, number: u32) -> Result<(), Memory>
    ensures ok { OnOk result (text.new ≡ text.old ++ spec.digsyl number) }
    ensures err { OnErr result (Extends text.old text.new) }
{
    let mut buffer = Buffer::new();
    let digits = buffer.format(number).as_bytes();
    text.reserve(digits.len().saturating_mul(2))?;
    for code in digits {
        text.push(syllable(code.saturating_sub(b'0')))?;
    }
    Ok(())
}

impl Text {
    /// Adds each decimal digit of the number as its syllable.
    pub fn push_digsyl(&mut self, number: u32) -> Result<(), Memory>
        ensures ok { OnOk result (self.new ≡ self.old ++ spec.digsyl number) }
        ensures err { OnErr result (self.new ≡ self.old) }
    {
        let len = self.len();
        match add_syllables(self, number) {
            Ok(()) => Ok(()),
            Err(Memory) => {
                self.truncate(len);
                Err(Memory)
            }
        }
    }

    /// Adds each decimal digit of the number as its syllable in lower case.
    pub fn push_digsyl_lower(&mut self, number: u32) -> Result<(), Memory>
        ensures ok { OnOk result (self.new ≡ self.old ++ spec.digsyl_lower number) }
        ensures err { OnErr result (self.new ≡ self.old) }
    {
        let len = self.len();
        self.push_digsyl(number)?;
        self.make_lower_from(len);
        Ok(())
    }
}

/// Each decimal digit of the number as its syllable.
pub fn digsyl(alloc: Global, number: u32) -> Result<Text, Memory>
    ensures { IfOk result (λ text. text ≡ spec.digsyl number) }
{
    let mut text = Text::new(alloc);
    text.push_digsyl(number)?;
    Ok(text)
}

/// Each decimal digit of the number as its syllable in lower case.
pub fn digsyl_lower(alloc: Global, number: u32) -> Result<Text, Memory>
    ensures { IfOk result (λ text. text ≡ spec.digsyl_lower number) }
{
    let mut text = Text::new(alloc);
    text.push_digsyl_lower(number)?;
    Ok(text)
}

/// The digit of a syllable; 9 for what is none.
fn digit_of(syllable: &[u8]) -> u8
    ensures { (digit : ℕ) → digit < 10 → syllable.now ≡ spec.syllable digit → result ≡ digit }
{
    match syllable {
        b"BA" => 0,
        b"OG" => 1,
        b"AL" => 2,
        b"RI" => 3,
        b"RE" => 4,
        b"SE" => 5,
        b"AT" => 6,
        b"UL" => 7,
        b"IN" => 8,
        _ => 9,
    }
}

/// The only number that a text may spell.
fn candidate(text: &[u8]) -> u32
    ensures { (n : ℕ) → n < 2 ^ 32 → text.now ≡ spec.digsyl n → result ≡ n }
{
    let mut number = 0u32;
    for syllable in text.chunks_exact(2) {
        number = number
            .saturating_mul(10)
            .saturating_add(u32::from(digit_of(syllable)));
    }
    number
}

/// Whether a text is the number's syllables.
fn is_digsyl(text: &[u8], number: u32) -> bool
    ensures { IsTrue result ↔ (text.now ≡ spec.digsyl number) }
{
    let mut buffer = Buffer::new();
    let mut rest = text;
    for code in buffer.format(number).as_bytes() {
        match rest.strip_prefix(syllable(code.saturating_sub(b'0'))) {
            Some(after) => rest = after,
            None => return false,
        }
    }
    rest.is_empty()
}

/// The syllable of a digit in lower case; that of 9 for a larger number.
fn syllable_lower(digit: u8) -> &'static [u8]
    ensures { result.now ≡ map lower (spec.syllable digit) }
{
    match digit {
        0 => b"ba",
        1 => b"og",
        2 => b"al",
        3 => b"ri",
        4 => b"re",
        5 => b"se",
        6 => b"at",
        7 => b"ul",
        8 => b"in",
        _ => b"ng",
    }
}

/// Whether a text is the number's syllables in lower case; takes no memory.
pub fn is_digsyl_lower(text: &[u8], number: u32) -> bool
    ensures { IsTrue result ↔ (text.now ≡ spec.digsyl_lower number) }
{
    let mut buffer = Buffer::new();
    let mut rest = text;
    for code in buffer.format(number).as_bytes() {
        match rest.strip_prefix(syllable_lower(code.saturating_sub(b'0'))) {
            Some(after) => rest = after,
            None => return false,
        }
    }
    rest.is_empty()
}

/// The number below 2^32 whose syllables are this text.
pub fn undigsyl(text: &[u8]) -> Option<u32>
    ensures some { IfSome result (λ number. text.now ≡ spec.digsyl number) }
    ensures none { IfNone result ((n : ℕ) → n < 2 ^ 32 → text.now ≢ spec.digsyl n) }
{
    let number = candidate(text);
    is_digsyl(text, number).then_some(number)
}
