//! What the messages of a connection ask for.
#![tactic(auto)]

mod constants;
mod requests;
mod router;

pub use requests::{Asked, Refusal, asked_of, request};
pub use router::Routes;
pub use shop_message::{Gather, Gathered, Message, Next, next_message};
