//! Links over TCP with peers on this machine, at 127.0.0.1.
//!
//! Each side of a link is a stream of `shop_edges` that tells nothing of its bytes. A read, or a write, that waits longer
//! than 5 seconds is a fault, as is every error of the system.
//!
//! Trusted: that the system's sockets carry the bytes of one side to the other.
#![tactic(auto)]

mod links;
#[cfg(test)]
mod loopback;
mod streams;

pub use links::TcpLinks;
pub use streams::{TcpIn, TcpOut};
