//! Payment gateways: one in memory that decides by a ledger, one that fails at listed calls, and one that notes what
//! another one answers.
#![tactic(auto)]

mod charge_key;
mod charge_line;
mod emulator;
mod first;
mod given_back;
mod line_reader;
mod notes;
mod noting;
mod remote;
mod reply_line;
mod script_gateway;
mod served;

pub use emulator::Emulator;
pub use given_back::GivenBack;
pub use noting::{Noting, Told};
pub use remote::Remote;
pub use script_gateway::ScriptGateway;
pub use served::{Served, serve_gateway};
