//! Attempts at the interactions that only read: each is a function of the rows that it has read, which
//! writes its page, and the driver, which has the store, reads the rows that it asks for.
#![tactic(auto)]

pub mod admin_request;
mod attempted;
mod counting;
mod driver;
pub mod home;
mod item_pages;
mod known;
mod lines;
mod lists;
pub mod login_pages;
mod names;
pub mod order_display;
mod order_page;
pub mod product_detail;
mod related;
pub mod search_request;
pub mod search_results;
pub mod subject_lists;

pub use attempted::{Ask, Attempted};
pub use counting::count_in;
pub use driver::{Interaction, Next, attempt_by, attempt_counted};
pub use lists::write_list;
pub use names::{Names, unread_labels};
pub use related::promotion;
