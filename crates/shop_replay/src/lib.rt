//! A shop from its log: each entry is attempted and settled again, as it was when it was made.
#![tactic(auto)]

mod approver;
mod asks;
#[cfg(test)]
mod cases;
mod payments;
mod replaying;
mod stops;
#[cfg(test)]
mod tests;
mod tries;

pub use replaying::{Replayed, replay};
