//! What books of populated tables show when they open. What is best sold comes from a model in Python,
//! with a PCG32 of its own.
use crate::answers::answer;
use crate::done;
use crate::records::{Lookup, print_row, row_of};
use anyhow::{Context, Result};
use shop_book::Book;
use shop_history::Row;
use shop_model::{AuthId, Scale, Subject, Tables};
use shop_populate::populate;
use shop_text::Memory;
use std::alloc::Global;
use std::boxed::Box;

/// The authorisation of the first order.
fn first_auth(tables: &Tables) -> Option<AuthId> {
    let order = tables.orders.as_slice().first()?;
    Some(order.get().card.auth)
}

/// The open book of this scale with seed 0, and the authorisation of its first order.
fn opened(alloc: Global, scale: &Scale) -> Result<(Box<Book>, Option<AuthId>), Memory> {
    let tables = populate(alloc, 0, scale)?;
    let auth = first_auth(&tables);
    let book = Book::open(alloc, tables, 10)?;
    Ok((Box::new(alloc, book)?, auth))
}

const LOOKUPS: [Lookup; 9] = [
    Lookup::NewIn(Subject::NonFiction),
    Lookup::BestIn(Subject::NonFiction),
    Lookup::BestIn(Subject::Literature),
    Lookup::BestIn(Subject::Religion),
    Lookup::Label(25),
    Lookup::Item(100),
    Lookup::Item(101),
    Lookup::Item(0),
    Lookup::Cart(1),
];

/// Prints what rows of the book of the desk show.
fn print_rows(
    rt: &(impl Print + AllocGlobal),
    book: &mut Book,
    auth: Option<AuthId>,
) -> Result<()> {
    let auth = auth.context("no order 1")?;
    let known = (book.has_auth(&auth), book.has_auth(&AuthId::of(0)));
    answer(rt, &"authorisations of order 1 and of none", &known)?;
    for lookup in &LOOKUPS {
        print_row(rt, book, *lookup)?;
    }
    Ok(())
}

fn print_list(rt: &impl Print, lookup: Lookup, row: &Row, version: u64) -> Result<()> {
    match row {
        Row::Items(list) => {
            let ids = list.get().as_slice();
            answer(rt, &lookup, &(ids.len(), ids.first(), ids.last(), version))
        }
        _ => Ok(()),
    }
}

/// Prints how many items a list has, the first and the last.
fn print_ends_of(rt: &(impl Print + AllocGlobal), book: &mut Book, lookup: Lookup) -> Result<()> {
    let (row, version) = row_of(rt.alloc(), book, lookup)?;
    print_list(rt, lookup, &row, version)
}

/// Prints how many items of Arts are new and best sold, the first and the last.
fn print_ends(rt: &(impl Print + AllocGlobal), book: &mut Book) -> Result<()> {
    print_ends_of(rt, book, Lookup::NewIn(Subject::Arts))?;
    print_ends_of(rt, book, Lookup::BestIn(Subject::Arts))
}

fn print_desk(rt: &(impl Print + AllocGlobal)) -> Result<()> {
    let (mut book, auth) = done(opened(rt.alloc(), &Scale::desk()))?;
    print_rows(rt, &mut book, auth)
}

/// Among 10,000 items some subjects have more than fifty.
fn print_larger(rt: &(impl Print + AllocGlobal)) -> Result<()> {
    let scale = Scale::of(10_000, 1).context("no scale")?;
    let (mut book, _) = done(opened(rt.alloc(), &scale))?;
    print_ends(rt, &mut book)
}

pub fn print(rt: &(impl Print + AllocGlobal)) -> Result<()> {
    print_desk(rt)?;
    print_larger(rt)
}
