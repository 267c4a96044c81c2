//! The messages of a connection, read in pieces: heads by the grammar of RFC 9112, and bodies by
//! their `Content-Length`. What is refused, and the limits, are this project's own.
#![tactic(auto)]

mod buffer;
mod found;
mod frames;
mod gather;
mod heads;
mod laws;
mod messages;

pub use gather::{Gather, Gathered};
pub use laws::{beginnings_are_one, messages_are_one, more_is_undecided};
pub use messages::{Message, Next, next_message};
