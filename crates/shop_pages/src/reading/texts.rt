//! Escaped texts, read back.
ghost use Rattle.std.specs.Prelude.{◌≡◌, ◌<◌, ◌≤◌, ◌+◌, ◌++◌, ℕ, List, length, IfOk, IfSome};
ghost use Rattle.std.specs.Option.{option_map};
ghost use Rattle.shop_text.specs.Texts.{escape};
ghost use Rattle.shop_pages.specs.Parts as spec;

use super::unread::Unread;
use shop_text::{Text, unescaped};
use std::alloc::Global;

/// The first byte of an escaped text, and what follows it; none where the text ends.
#[tactic(auto, unfolding(crate::specs::Parts::text_read))]
fn first_of(bytes: &[u8]) -> Option<(u8, &[u8])>
    ensures value { option_map (λ both. (both.0, both.1.now)) result ≡ spec.text_read bytes.now }
    ensures shorter { IfSome result (λ both. length both.1.now < length bytes.now) }
{
    match bytes {
        [] | [b'<' | b'"', ..] => None,
        _ => unescaped(bytes),
    }
}

/// An escaped text up to its end, and what follows it.
fn read_text<'a>(alloc: Global, bytes: &'a [u8]) -> Result<(Text, &'a [u8]), Unread>
    ensures read { (text rest : List ℕ) → spec.Ends rest → bytes.now ≡ escape text ++ rest → spec.ReadAs text rest result }
    ensures within { IfOk result (λ both. length both.1.now ≤ length bytes.now) }
{
    let mut text = Text::new(alloc);
    let mut rest = bytes;
    while let Some((byte, after)) = first_of(rest) {
        text.push(&[byte])?;
        rest = after;
    }
    Ok((text, rest))
}

/// What follows this front.
pub(crate) fn behind<'a>(bytes: &'a [u8], front: &[u8]) -> Result<&'a [u8], Unread>
    ensures read { (rest : List ℕ) → bytes.now ≡ front.now ++ rest → spec.IsRest rest result }
    ensures within { IfOk result (λ rest. length rest.now + length front.now ≡ length bytes.now) }
{
    match bytes.strip_prefix(front) {
        Some(rest) => Ok(rest),
        None => Err(Unread::NotAPage),
    }
}

/// A text between two tags, and what follows.
pub(crate) fn read_tagged<'a>(
    alloc: Global,
    bytes: &'a [u8],
    front: &[u8],
    end: &[u8],
) -> Result<(Text, &'a [u8]), Unread>
    requires { spec.Ends end.now }
    ensures read { spec.ReadsBack (λ text. front.now ++ escape text ++ end.now) bytes.now result }
    ensures shorter { IfOk result (λ both. length both.1.now < length bytes.now) }
{
    let rest = behind(bytes, front)?;
    let (text, rest) = read_text(alloc, rest)?;
    let rest = behind(rest, end)?;
    Ok((text, rest))
}
