//! How answers are printed. All printing is here, so that it is proved once.
use anyhow::Result;
use std::fmt::Debug;

/// What was asked, and what was answered.
pub fn answer(rt: &impl Print, asked: &impl Debug, answered: &impl Debug) -> Result<()> {
    println!(rt; "{asked:?}: {answered:?}")?;
    Ok(())
}

/// The bytes as text.
pub fn text_of(bytes: &[u8]) -> &str {
    std::str::from_utf8(bytes).unwrap_or("(no text)")
}
