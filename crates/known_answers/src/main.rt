//! Asks the libraries what was worked out by hand or by other programs, and prints what they answer.
//!
//! The file `stdout` has the answers that are wanted. Each line of `stdin` has the words of a command or,
//! behind `> `, a message.
#![tactic(auto)]

mod answers;
mod browsers;
mod catalogue;
mod drafts;
mod edges;
mod links;
mod listing;
mod model;
mod pages;
mod populate;
mod pricing;
mod replies;
mod requests;
mod search;
mod stop;
mod words;

use answers::heading;
use shop_http::Routes;
use stop::Stop;

/// Prints what each line of the input says or asks for.
fn print_lines(rt: &(impl Print + Input + AllocGlobal), routes: &Routes) -> Result<(), Stop> {
    heading(
        rt,
        "words give a command or are bad, and messages ask for a page or are refused",
    )?;
    for line in rt.lines(rt.alloc()) {
        print_line(rt, routes, line?.as_str())?;
    }
    Ok(())
}

/// Prints what a line of the input says or asks for.
fn print_line(rt: &(impl Print + AllocGlobal), routes: &Routes, line: &str) -> Result<(), Stop> {
    match line.strip_prefix("> ") {
        Some(message) => requests::print_line(rt, routes, message),
        None => words::print_line(rt, line),
    }
}

/// Prints what the input says or asks for, and what a target asks for that is not text.
fn print_input(rt: &(impl Print + Input + AllocGlobal), routes: &Routes) -> Result<(), Stop> {
    print_lines(rt, routes)?;
    requests::print_no_text(rt, routes)
}

fn main(rt: HostRuntime) -> Result<(), Stop> {
    model::print(&rt)?;
    edges::print(&rt)?;
    edges::print_standard(rt)?;
    pricing::print(&rt)?;
    populate::print(&rt)?;
    search::print(&rt)?;
    drafts::print(&rt)?;
    pages::print(&rt)?;
    replies::print(&rt)?;
    links::print(&rt)?;
    browsers::print(&rt)?;
    print_input(&rt, &Routes::new(rt.alloc())?)?;
    words::print_no_words(&rt)?;
    words::print_kept(&rt)?;
    words::print_polled(&rt)
}
