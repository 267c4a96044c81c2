//! Workers at the desks of one shop: each made in a job of its own, in which it serves a browser, or at rest at a station,
//! which serves one connection after another.
#![tactic(auto)]

mod closing;
mod job;
mod running;
mod station;
mod task;
mod till;

pub use closing::close;
pub use running::{Ran, race};
pub use station::Station;
pub use task::{Errand, Raced, Task};
pub use till::Till;
