//! Emulated browsers, the load of the shop: each draws by a mix of interactions what it asks for next, and takes
//! its customer and its cart from the pages that it gets.
#![tactic(auto)]

mod browser;
mod mix;
mod requests;
mod shown;

pub use browser::{Browser, Taken};
pub use mix::Mix;
