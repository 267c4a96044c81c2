//! Searches over six items of three authors, and over sixty items of one title.
use crate::answers::{answer, heading};
use crate::catalogue::{author, item, sixty_items, tables_of};
use crate::listing::list;
use crate::stop::Stop;
use shop_model::{Author, Item, SearchKind, Subject};
use shop_search::Index;
use shop_text::{Listed, Memory, Shared};
use std::alloc::Global;
use std::fmt::Debug;

pub fn print(rt: &(impl Print + AllocGlobal)) -> Result<(), Stop> {
    print_six(rt, &six(rt.alloc())?)?;
    print_sixty(rt, &sixty(rt.alloc())?)
}

fn authors(alloc: Global) -> Result<Listed<Shared<Author>>, Memory> {
    let authors = [
        author(alloc, 1, "Keller"),
        author(alloc, 2, "Kent"),
        author(alloc, 3, "Hale"),
    ];
    list(alloc, authors)
}

fn items(alloc: Global) -> Result<Listed<Item>, Memory> {
    let items = [
        item(alloc, 1, "The Lost River", 1, Subject::Arts, 0),
        item(alloc, 2, "A River  of River Sand", 2, Subject::Travel, 0),
        item(alloc, 3, "Riverside", 3, Subject::Arts, 0),
        item(alloc, 4, "Night", 3, Subject::Home, 0),
        item(alloc, 5, "Night", 1, Subject::Arts, 0),
        item(alloc, 6, "lost", 9, Subject::Sports, 0),
    ];
    list(alloc, items)
}

/// An index over six items of three authors.
fn six(alloc: Global) -> Result<Index, Memory> {
    Index::build(alloc, &tables_of(alloc, authors(alloc)?, items(alloc)?))
}

/// An index over sixty items of one title.
fn sixty(alloc: Global) -> Result<Index, Memory> {
    let tables = tables_of(alloc, Listed::new(alloc), sixty_items(alloc)?);
    Index::build(alloc, &tables)
}

/// Prints the items that are found.
fn print_found(
    rt: &impl Print,
    asked: &impl Debug,
    found: Result<Listed<u32>, Memory>,
) -> Result<(), Stop> {
    answer(rt, asked, &found?.as_slice())
}

fn print_six(rt: &impl Print, index: &Index) -> Result<(), Stop> {
    heading(rt, "titles are found by whole words without case")?;
    for text in ["rIVER", "LOST", "night", "River Sand", ""] {
        print_found(rt, &text, index.by_title(text.as_bytes()))?;
    }
    heading(rt, "authors are found by the front of their last name")?;
    for text in ["ke", "KELLER", "", "eller", "Kellers"] {
        print_found(rt, &text, index.by_author(text.as_bytes()))?;
    }
    heading(rt, "subjects are found by their names")?;
    for text in ["ARTS", "Arts", "YOUTH"] {
        print_found(rt, &text, index.by_subject(text.as_bytes()))?;
    }
    print_kinds(rt, index)
}

fn print_kinds(rt: &impl Print, index: &Index) -> Result<(), Stop> {
    heading(rt, "a search looks at its kind")?;
    for (kind, text) in [
        (SearchKind::Title, "sand"),
        (SearchKind::Author, "h"),
        (SearchKind::Subject, "HOME"),
    ] {
        print_found(rt, &(kind, text), index.search(kind, text.as_bytes()))?;
    }
    Ok(())
}

fn print_sixty(rt: &impl Print, index: &Index) -> Result<(), Stop> {
    heading(rt, "no more than fifty are found")?;
    let found = index.by_title(b"night")?;
    let ids = found.as_slice();
    answer(rt, &ids.len(), &(ids.first(), ids.last()))
}
