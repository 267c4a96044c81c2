//! Lanes: many links are served at once on one thread, each without ever blocking on it, one link after another at each
//! lane.
//!
//! A lane is a place with a berth. The berth takes a link and becomes what serves it, which is polled; at its end this
//! gives back the berth, the link and a report. `Lanes` is a future: each of its polls accepts links for free lanes, and
//! then polls each lane that is busy once.
#![tactic(auto)]

mod accepting;
mod berth;
mod lanes;
mod listener;
mod polled_links;
mod polling;
mod pool;
mod runner;
mod trace;

pub use berth::{Berth, Completed};
pub use lanes::{Landed, Lanes, LanesOf};
pub use listener::PolledListener;
pub use polled_links::PolledLinks;
pub use pool::LanesEnd;
pub use runner::{BlockOn, Ran, Runner};
