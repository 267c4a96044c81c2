//! The lines of carts, what requests make of them, what orders cost, and how a sale lowers stocks.
#![tactic(auto)]

mod filling;
mod lines;
mod stock;
mod totals;

pub use filling::{Filled, fill};
pub use lines::{Changed, Lines, change};
pub use stock::restock;
pub use totals::Totals;
