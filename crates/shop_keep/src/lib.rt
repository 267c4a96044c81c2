//! A shop that survives a crash: its log is in a journal, and each change is on the disk before the first byte of its
//! reply is written.
#![tactic(auto)]

#[cfg(test)]
mod cases;
mod connection;
mod files;
mod kept;
#[cfg(test)]
mod kept_shops;
mod moving;
mod noting;
#[cfg(test)]
mod ordered_calls;
#[cfg(test)]
mod real_files;
#[cfg(test)]
mod refused_files;
mod run;
mod session;
#[cfg(test)]
mod stopped_purchases;
mod workers;

pub use connection::serve_kept;
pub use kept::{Kept, KeptEnd};
pub use run::run_kept;
