//! The lists of new and of best sold items.
#![tactic(auto)]

mod best;
mod newest;
mod ranked;
mod ranking;
mod subjects;

pub use best::Best;
pub use newest::Newest;
pub use ranked::{Ranked, first_ids};
pub use ranking::put_in;
