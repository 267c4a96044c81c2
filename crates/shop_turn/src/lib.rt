//! A book that several callers share: they read it beside each other, and change it one after another.
#![tactic(auto)]

mod desk;
mod laid;
mod rule;
mod seats;
mod share;
mod shop;
mod sleepers;
mod turns;
mod visits;

pub use desk::Desk;
pub use shop::Shop;
