//! Serves a connection: messages in, pages out.
#![tactic(auto)]

mod calls;
mod connection;
mod laws;
mod replies;
mod report;
mod resting;
mod serve;
mod settles;
mod tries;
mod worker;

pub use connection::{ANSWERS, answer_next, refuse, refuse_next, refuse_reading};
pub use laws::one_order_for_a_cart;
pub use report::{Answered, Ended, Point, PointKind, Report};
pub use resting::Resting;
pub use serve::{serve_connection, serve_message};
pub use tries::TRIES;
pub use worker::Worker;
