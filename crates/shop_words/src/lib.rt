//! The words of the program: which command they give, and with what options.
#![tactic(auto)]

mod choices;
mod command;
mod kept;
mod options;
mod polled;
mod values;

pub use command::{Command, Drive, Parsed, Race, Serve, Session, command_of};
pub use kept::{Keep, KeptCommand, Migrate, is_kept, kept_command_of};
pub use polled::{Poll, is_polled, poll_of};
