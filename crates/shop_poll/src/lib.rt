//! Many connections of one shop, served by workers on one thread: the command `poll`.
//!
//! A station that is polled serves a link as a connection that is polled, by a worker at a desk with a gateway of its
//! own. A runner polls the lanes of such stations to their end; then the shop is closed, and what its log came to is
//! told.
#![tactic(auto)]

mod lanes;
mod run;
mod serving;
mod station;
mod workers;

pub use lanes::{ShopLanes, lanes_over};
pub use run::run_polled;
pub use serving::Serving;
pub use station::PolledStation;
