//! Links over TCP with peers on this machine, at 127.0.0.1, which are polled, and the runtime that waits for them: those
//! of `tokio`, on one thread.
//!
//! Each side of a link is a stream of `shop_polled` that tells nothing of its bytes. A read, or a write, that is put off
//! for 5 seconds is a fault, as is every error of the system.
//!
//! Trusted: that the system's sockets carry the bytes of one side to the other.
#![tactic(auto)]

mod halves;
mod links;
mod patience;
mod runner;

pub use halves::{TokioIn, TokioOut};
pub use links::TokioLinks;
pub use runner::TokioRunner;
