//! Emulated browsers driven over one worker of a shop: they take turns, and each takes what the page of its
//! last request shows.
#![tactic(auto)]

mod tally;
mod turns;

pub use tally::Tally;
pub use turns::drive;
