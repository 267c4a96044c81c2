//! What requests read and change: keys and what they show, acts and what they make of the tables,
//! and the log of entries that a shop is.
#![tactic(auto)]

mod acts;
mod keys;

pub use acts::{Act, Drawn, Entry, Ids};
pub use keys::{Key, Label, Row};
