//! Prints rows of books, the points of connections, and what comes of streams that fail. The file
//! `stdout` has what is wanted.
#![tactic(auto)]

mod additions;
mod answers;
mod books;
mod connections;
mod customers;
mod drives;
mod faults;
mod faulty;
mod kept_lists;
mod records;
mod runs;
mod sales;
mod sessions;
mod shops;
mod streams;
mod twins;
mod windows;

use anyhow::{Context, Result};
use shop_text::Memory;

/// What a call answers, where there is memory for it.
pub fn done<T>(answer: Result<T, Memory>) -> Result<T> {
    answer.ok().context("no memory")
}

fn main(rt: HostRuntime) -> Result<()> {
    books::print(&rt)?;
    connections::print(&rt)?;
    connections::print_messages(&rt)?;
    customers::print(&rt)?;
    sales::print(&rt)?;
    windows::print(&rt)?;
    additions::print(&rt)?;
    drives::print(&rt)?;
    kept_lists::print(&rt)?;
    sessions::print(&rt)?;
    faults::print(&rt)
}
