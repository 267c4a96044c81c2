//! Owned bytes, lists that contracts see as lists, and the texts that pages are made of.
//!
//! Each text has two forms: a push that appends it to a [`Text`], and a function that makes a new one.
//! A push that is refused for want of memory leaves the text as it was.
#![tactic(auto)]

mod boxed;
mod caption;
mod days;
mod fold;
mod listed;
mod markup;
mod memory;
mod money;
mod numbers;
mod shared;
mod syllables;
mod text;

pub use boxed::Boxed;
pub use caption::Caption;
pub use days::{day_bytes, day_text};
pub use fold::{fold_begins, fold_eq};
pub use listed::Listed;
pub use markup::{entity, escape, unescaped};
pub use memory::Memory;
pub use money::cents_text;
pub use numbers::number_of;
pub use shared::Shared;
pub use syllables::{digsyl, digsyl_lower, is_digsyl_lower, syllable, undigsyl};
pub use text::Text;
