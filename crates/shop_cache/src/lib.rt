//! Lists of items that are kept for a while, by what was asked for.
#![tactic(auto)]

mod cache;
mod keys;
mod lines;

pub use cache::{Kept, ListCache};
pub use keys::ListKey;
pub use lines::{ListLine, ListLines};
