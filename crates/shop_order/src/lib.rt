//! Attempts at the interactions that change rows, beside those that only read: each is a function of
//! the rows that it has read, which makes of them the act and its writes, and writes its page.
#![tactic(auto)]

mod added_page;
pub mod admin_add;
pub mod admin_confirm;
mod basket;
pub mod buy_confirm;
pub mod buy_request;
mod buyer_page;
mod calls;
mod confirm_page;
mod decision;
mod entries;
mod mended_page;
mod mending;
mod new_order;
mod page;
mod payment;
mod purchase;
mod related;
mod sale;
pub mod shopping_cart;
mod stops;
mod table;

pub use calls::attempt;
