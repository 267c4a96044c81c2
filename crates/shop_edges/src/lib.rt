//! What the shop meets of the outside: bytes that come and go, the time, who takes payments, who dials,
//! and threads.
//!
//! Each but the last is a trait, which says what is owed where the content is known, and that a call
//! fails only where a count of faults rose. Streams and clocks have an implementation in memory, whose
//! every answer is known, and an adapter over std, the trusted edge, which knows no more of the content
//! than std tells. A spawner runs jobs in threads or at once, and what is joined keeps its job's promise.
#![tactic(auto)]

mod bytes_in;
mod bytes_out;
mod charge;
mod clock;
mod gateway;
mod job;
mod link;
mod list_clock;
mod listener;
mod no_listener;
mod reader_source;
mod sink;
mod source;
mod spawner;
mod standard_output;
mod system_clock;
mod ticket;
mod writer_sink;

pub use bytes_in::BytesIn;
pub use bytes_out::BytesOut;
pub use charge::{Call, Charge};
pub use clock::Clock;
pub use gateway::{Answer, Gateway, Reason, Verdict};
pub use job::Job;
pub use link::{LinkIn, LinkOut};
pub use list_clock::ListClock;
pub use listener::{Linked, Listener, Opened};
pub use no_listener::NoListener;
pub use reader_source::{FIRST_READS, ReaderSource};
pub use sink::{Sink, Took, write_all};
pub use source::{Got, Source};
pub use spawner::{Spawner, Start, Way};
pub use standard_output::StandardOutput;
pub use system_clock::SystemClock;
pub use ticket::{Begun, Running, Ticket};
pub use writer_sink::WriterSink;
