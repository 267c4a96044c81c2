//! Searches over what never changes of the items, prepared so that an answer costs its matches.
#![tactic(auto)]

mod filed;
mod filing;
mod growing;
mod index;
mod keys;
mod lists;
mod naming;
mod order;
mod titled;

pub use growing::GrowingIndex;
pub use index::Index;
pub use titled::{Titled, merge};
