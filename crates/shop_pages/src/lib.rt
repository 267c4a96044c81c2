//! The text of a page, and the reply that carries it; and what a page links to, read back from its text.
#![tactic(auto)]

mod blocks;
mod head;
mod page;
mod reading;
mod reply;

pub use page::{page_bytes, push_page};
pub use reading::{Links, read_links};
pub use reply::{Form, Reply};
