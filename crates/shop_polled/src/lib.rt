//! A connection of the shop that is served without ever blocking on its streams: a future, each poll of which goes on as
//! far as the source and the sink let it.
//!
//! A polled source and a polled sink mean what a source and a sink of `shop_edges` mean; beside the count of faults each
//! has one of waits. Both have an implementation in memory, which waits at listed polls.
#![tactic(auto)]

mod bytes_in;
mod bytes_out;
mod connection;
mod finished;
mod live;
mod reading;
mod sink;
mod source;
mod telling;

pub use bytes_in::PolledBytesIn;
pub use bytes_out::PolledBytesOut;
pub use connection::Connection;
pub use finished::Finished;
pub use sink::PolledSink;
pub use source::PolledSource;
