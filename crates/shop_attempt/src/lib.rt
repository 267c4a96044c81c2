//! Attempts: what a request read and would write, and the store that settles it.
#![tactic(auto)]

mod attempts;
mod reading;
mod stock;
mod store;

pub use attempts::{Attempt, Conflict, ReadOf, Settle, Write};
pub use reading::read;
pub use stock::Stock;
pub use store::Store;
