//! The page of a request, written in place before its settle: its text, with gaps for what the settle
//! draws, and words that add to it what pages are made of.
//!
//! A word that is refused for want of memory leaves a page that was only added to; `begin` drops it.
#![tactic(auto)]

mod administration;
mod blocks;
mod customers;
mod digits;
mod draft;
mod flat;
mod forms;
mod holes;
mod ids;
mod item_links;
mod links;
mod orders;
mod out;
mod over;
mod short;
mod tables;
mod tail;
mod template;
mod words;

pub use draft::{Draft, refusal};
pub use holes::Hole;
pub use ids::{Id, PageIds};
pub use item_links::ItemLinks;
pub use out::Out;
pub use template::{Gap, HEAD_ROOM, Template};
