//! The top calls: what the words of the program say is done here.
#![tactic(auto)]

mod alone;
mod driven;
mod gateway;
mod raced;
mod served;
mod shared;
mod shops;
mod status;
mod summary;

pub use alone::{first_worker, index_of, run_alone};
pub use shared::{is_shared, print_lines, run_shared};
pub use shops::open_shop;
pub use status::Status;
pub use summary::{authorised_only, race_lines};
