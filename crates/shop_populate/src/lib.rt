//! The tables that a shop opens with, drawn from a seed.
//!
//! Each row comes from its id and its own drawn words. The tables are made in one pass each, with their
//! size reserved; an order looks up its customer, address and items in the tables made before it.
#![tactic(auto)]

mod addresses;
mod authors;
mod card_uses;
mod countries;
mod customers;
mod items;
mod last_orders;
mod lines;
mod lookups;
mod money;
mod orders;
mod population;

pub use population::populate;
