//! Places at which links are served, one link after another at each, every link by a job of its own.
//!
//! A place has a station, which serves a link of a listener in a job that a spawner starts. The job takes the station
//! and the link, tells over a channel that it is done, and gives both back when it is joined: the station goes on at its
//! place, and the link goes back to the listener under its number.
#![tactic(auto)]

mod job;
mod places;
mod serving;
mod spot;
mod starts;
mod station;

pub use job::{JobOf, Served, ServedBy, Serving, SpotOf};
pub use serving::{Stop, serve};
pub use spot::Spot;
pub use station::Station;
