//! The headers of journals.
ghost use Rattle.std.specs.Prelude.{◌≡◌, ◌++◌, ◌+◌, ◌≤◌, IfOk, IfSome, OnOk, length, take, drop};
ghost use Rattle.std.specs.Int.{from_be_bytes, w32};
ghost use Rattle.shop_journal.specs.declared.headers.Head.{Head};
ghost use Rattle.shop_model.specs.population.Scales.{ScaleRow, IsScale};
ghost use Rattle.shop_journal.specs.Headers as spec;

use shop_model::Scale;
use shop_records::HEADER;
use shop_text::{Memory, Text};
use std::alloc::Global;

/// How entries are kept.
#[derive(Clone, Copy, PartialEq, Eq)]
pub enum Format {
    /// Purchases are taxed by one rate for all.
    First,
    /// A byte tells the rule of a purchase's tax, and items may be added.
    Second,
}

/// The shop whose log a journal is.
#[derive(Clone, Copy, Debug, PartialEq, Eq)]
pub struct Head {
    /// What its tables were drawn from.
    pub seed: u32,
    pub scale: Scale,
}

/// Adds a number, the highest byte first.
fn push_word(text: &mut Text, number: u32) -> Result<(), Memory>
    ensures { OnOk result (text.new ≡ text.old ++ spec.word number) }
{
    text.push(&number.to_be_bytes())
}

impl Format {
    /// What a journal begins with.
    pub(crate) fn magic(&self) -> &'static [u8]
        ensures { result.now ≡ spec.magic self.now }
    {
        match self {
            Format::First => b"TPCWLOG1",
            Format::Second => b"TPCWLOG2",
        }
    }
}

/// The bytes of a header.
fn header_text(alloc: Global, format: Format, head: &Head) -> Result<Text, Memory>
    ensures header { IfOk result (λ text. text ≡ spec.header_of format head.now) }
    ensures head { IfOk result (λ text. spec.IsHead head.now) }
{
    let mut text = Text::copy(alloc, format.magic())?;
    push_word(&mut text, head.seed)?;
    push_word(&mut text, head.scale.items)?;
    push_word(&mut text, head.scale.authors)?;
    push_word(&mut text, head.scale.customers)?;
    push_word(&mut text, head.scale.addresses)?;
    push_word(&mut text, head.scale.orders)?;
    Ok(text)
}

/// The header of a journal of this shop.
pub(crate) fn header_of(alloc: Global, format: Format, head: &Head) -> Result<[u8; HEADER], Memory>
    ensures header { IfOk result (λ header. header ≡ spec.header_of format head.now) }
    ensures head { IfOk result (λ header. spec.IsHead head.now) }
{
    let text = header_text(alloc, format, head)?;
    let mut header = [0; HEADER];
    header.copy_from_slice(text.bytes());
    Ok(header)
}

/// The number of four bytes, the highest first.
pub(crate) fn word_at(bytes: &[u8], at: usize) -> u32
    requires { at + 4 ≤ length bytes.now }
    ensures { result ≡ from_be_bytes w32 (take 4 (drop at bytes.now)) }
{
    let mut word = [0; 4];
    word.copy_from_slice(&bytes[at..at + 4]);
    u32::from_be_bytes(word)
}

/// The scale with so many items and customers, where there is one with so many items.
fn scale_of(items: u32, customers: u32) -> Option<Scale>
    ensures { (scale : ScaleRow) → IsScale scale → scale.items ≡ items → scale.customers ≡ customers → result ≡ Some scale }
{
    if items == 100 {
        return Some(Scale::desk());
    }
    Scale::of(items, customers / 2880)
}

/// The shop that a header tells, where it is one of this format.
pub(crate) fn head_in(alloc: Global, format: Format, header: &[u8]) -> Result<Option<Head>, Memory>
    requires { length header.now ≡ 32 }
    ensures some { IfOk result (λ found. IfSome found (λ head. spec.IsHead head × (header.now ≡ spec.header_of format head))) }
    ensures kept { (head : Head) → spec.IsHead head → header.now ≡ spec.header_of format head → IfOk result (λ found. found ≡ Some head) }
{
    let Some(scale) = scale_of(word_at(header, 12), word_at(header, 20)) else {
        return Ok(None);
    };
    let head = Head {
        seed: word_at(header, 8),
        scale,
    };
    if header_text(alloc, format, &head)?.bytes() == header {
        Ok(Some(head))
    } else {
        Ok(None)
    }
}
