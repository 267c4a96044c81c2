//! How answers are printed. All printing is here, so that it is proved once.
use crate::stop::Stop;
use shop_text::{Memory, Text};
use std::fmt::Debug;

/// A heading of its own line.
pub fn heading(rt: &impl Print, what: &str) -> Result<(), Stop> {
    println!(rt; "{what}")?;
    Ok(())
}

/// What was asked, and what was answered.
pub fn answer(rt: &impl Print, asked: &impl Debug, answered: &impl Debug) -> Result<(), Stop> {
    println!(rt; "  {asked:?}: {answered:?}")?;
    Ok(())
}

/// The text that was made, on lines of its own.
pub fn made(rt: &impl Print, text: Result<Text, Memory>) -> Result<(), Stop> {
    heading(rt, text_of(text?.bytes()))
}

/// The bytes as text.
pub fn text_of(bytes: &[u8]) -> &str {
    std::str::from_utf8(bytes).unwrap_or("(no text)")
}
