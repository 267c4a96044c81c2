//! The plain book of a shop: its opening tables, the log of changes, and the rows with their
//! versions; and the store of a caller who has the book for now.
#![tactic(auto)]

mod adding;
mod addition;
mod additions;
mod addresses;
mod auths;
mod book;
mod buyers;
mod changes;
mod columns;
mod copies;
mod counts;
mod ids;
mod listing;
mod lists;
mod may_change;
mod mending;
mod opening;
mod orders;
mod places;
mod plan;
mod prepared;
mod puts;
mod ranks;
mod rows;
mod sales;
mod same_rows;
mod shown;
mod solo;
mod summary;
mod versions;
mod visitor;
mod watching;
mod writes;

pub use book::Book;
pub use opening::Opening;
pub use prepared::Prepared;
pub use solo::Solo;
pub use summary::Summary;
pub use visitor::Visitor;
