ghost use Rattle.std.specs.Prelude.{◌≡◌, ◌<◌, ◌++◌, ◌∷◌, [], length, IfOk, OnOk, OnErr, IfSome, MatchOption};
ghost use Rattle.std.specs.Option.{option_map};
ghost use Rattle.shop_text.specs.Escape as spec;
ghost use Rattle.shop_text.specs.Extends.{Extends};

use crate::{Memory, Text};
use std::alloc::Global;

/// The entity for a byte that does not stand for itself in a page.
pub fn entity(byte: u8) -> Option<&'static [u8]>
    ensures value { MatchOption result (spec.escape_byte byte ≡ byte ∷ []) (λ name. spec.escape_byte byte ≡ name.now) }
    ensures long { IfSome result (λ name. 0 < length name.now) }
{
    match byte {
        b'&' => Some(b"&amp;"),
        b'<' => Some(b"&lt;"),
        b'>' => Some(b"&gt;"),
        b'"' => Some(b"&quot;"),
        _ => None,
    }
}

/// Adds whole runs of plain bytes, and an entity for each other byte; a refusal may come after some
/// of them.
fn add_escaped(text: &mut Text, bytes: &[u8]) -> Result<(), Memory>
    ensures ok { OnOk result (text.new ≡ text.old ++ spec.escape bytes.now) }
    ensures err { OnErr result (Extends text.old text.new) }
{
    let mut start = 0;
    for (at, byte) in bytes.iter().enumerate() {
        if let Some(name) = entity(*byte) {
            text.push(&bytes[start..at])?;
            text.push(name)?;
            start = at + 1;
        }
    }
    text.push(&bytes[start..])
}

impl Text {
    /// Adds the bytes as they stand in the text of a page.
    pub fn push_escaped(&mut self, bytes: &[u8]) -> Result<(), Memory>
        ensures ok { OnOk result (self.new ≡ self.old ++ spec.escape bytes.now) }
        ensures err { OnErr result (self.new ≡ self.old) }
    {
        let len = self.len();
        match add_escaped(self, bytes) {
            Ok(()) => Ok(()),
            Err(Memory) => {
                self.truncate(len);
                Err(Memory)
            }
        }
    }
}

/// The bytes as they stand in the text of a page.
pub fn escape(alloc: Global, bytes: &[u8]) -> Result<Text, Memory>
    ensures { IfOk result (λ text. text ≡ spec.escape bytes.now) }
{
    let mut text = Text::new(alloc);
    text.push_escaped(bytes)?;
    Ok(text)
}

/// The first byte of a text that stands escaped, and what follows it. None where the text ends, and where `&`
/// begins no entity of [`entity`].
#[tactic(auto, unfolding(crate::specs::Escape::first_read))]
pub fn unescaped(bytes: &[u8]) -> Option<(u8, &[u8])>
    ensures value { option_map (λ both. (both.0, both.1.now)) result ≡ spec.first_read bytes.now }
    ensures shorter { IfSome result (λ both. length both.1.now < length bytes.now) }
{
    match bytes {
        [] => None,
        [b'&', ..] => after_entity(bytes),
        [byte, rest @ ..] => Some((*byte, rest)),
    }
}

/// The byte that an entity in front stands for, and what follows it.
#[tactic(auto, unfolding(crate::specs::Escape::entity_read))]
fn after_entity(bytes: &[u8]) -> Option<(u8, &[u8])>
    ensures value { option_map (λ both. (both.0, both.1.now)) result ≡ spec.entity_read bytes.now }
    ensures shorter { IfSome result (λ both. length both.1.now < length bytes.now) }
{
    if bytes.starts_with(b"&amp;") {
        return Some((b'&', &bytes[5..]));
    }
    if bytes.starts_with(b"&lt;") {
        return Some((b'<', &bytes[4..]));
    }
    if bytes.starts_with(b"&gt;") {
        return Some((b'>', &bytes[4..]));
    }
    if bytes.starts_with(b"&quot;") {
        return Some((b'"', &bytes[6..]));
    }
    None
}
