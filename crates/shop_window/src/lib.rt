//! A window of the latest orders: the units that it has of each item, who bought an item, and what a customer bought.
#![tactic(auto)]

mod chain;
mod kept;
mod related;
mod rising;
mod totals;
mod units;
mod window;

pub use related::five_related;
pub use window::OrderWindow;
