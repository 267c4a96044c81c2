//! Searches among items that come one by one after item 100, and of two lists merged.
ghost use Rattle.std.specs.Prelude.{◌≤◌};

use shop_model::{Author, Backing, Item, ItemDetails, SearchKind, Sought, Subject};
use shop_search::{GrowingIndex, Titled, merge};
use shop_text::{Caption, Listed, Memory, Shared, Text};
use std::alloc::Global;
use std::test::Fail;

/// The author with an id.
fn author(alloc: Global, id: u32, last: &[u8]) -> Result<Shared<Author>, Memory> {
    let author = Author {
        id,
        first: Caption::copy(alloc, b"Dan")?,
        last: Caption::copy(alloc, last)?,
    };
    Shared::new(alloc, author)
}

/// An item of History.
fn item(alloc: Global, id: u32, title: &[u8], author: u32) -> Result<Item, Memory> {
    let details = ItemDetails {
        title: Caption::copy(alloc, title)?,
        author,
        subject: Subject::History,
        publisher: Caption::of(Text::new(alloc)),
        about: Caption::of(Text::new(alloc)),
        related: [1, 2, 3, 4, 5],
        thumb: Caption::of(Text::new(alloc)),
        image: Caption::of(Text::new(alloc)),
        srp: 0,
        cost: 0,
        first_stock: 10,
        pages: 1,
        backing: Backing::Used,
    };
    Ok(Item {
        id,
        published: 0,
        stock: 10,
        restocks: 0,
        details: Shared::new(alloc, details)?,
    })
}

/// No items yet, of the authors Abbot and Mason.
fn empty(alloc: Global) -> Result<GrowingIndex, Memory> {
    let authors = [author(alloc, 1, b"Abbot")?, author(alloc, 2, b"Mason")?];
    GrowingIndex::empty(alloc, authors.as_slice())
}

/// Texts that are looked for, with the items that are found.
type Cases<'a> = &'a [(&'a [u8], &'a [u32])];

/// Whether just these items are found.
fn finds(
    alloc: Global,
    index: &GrowingIndex,
    kind: SearchKind,
    text: &[u8],
    want: &[u32],
) -> Result<bool, Memory> {
    let sought = Sought::of(alloc, kind, text)?;
    let found = index.sought(&sought)?;
    Ok(found.as_slice() == want)
}

/// Whether just these items are found in each case.
fn finds_all(
    alloc: Global,
    index: &GrowingIndex,
    kind: SearchKind,
    cases: Cases<'_>,
) -> Result<bool, Memory> {
    for (text, want) in cases {
        if !finds(alloc, index, kind, text, want)? {
            return Ok(false);
        }
    }
    Ok(true)
}

/// The id of the item that came last among those of whose titles some word is the text.
fn last(alloc: Global, index: &GrowingIndex, text: &[u8]) -> Result<Option<u32>, Memory> {
    Ok(index.last(&Sought::of(alloc, SearchKind::Title, text)?))
}

#[test]
fn an_empty_index_finds_nothing(rt: HostRuntime) -> Result<(), Fail> {
    let index = empty(rt.alloc())?;
    assert!(rt; finds(rt.alloc(), &index, SearchKind::Author, b"", &[])?);
    assert!(rt; last(rt.alloc(), &index, b"harbour")? == None);
    Ok(())
}

/// Four items, of which two have one title.
fn four(alloc: Global) -> Result<GrowingIndex, Memory> {
    let mut index = empty(alloc)?;
    index.add(&item(alloc, 101, b"Quiet Harbour", 1)?)?;
    index.add(&item(alloc, 102, b"Amber  Harbour harbour", 2)?)?;
    index.add(&item(alloc, 103, b"Quiet Harbour", 2)?)?;
    index.add(&item(alloc, 104, b"Amber", 9)?)?;
    Ok(index)
}

/// Titles that tie stand by their ids.
fn finds_titles(alloc: Global, index: &GrowingIndex) -> Result<bool, Memory> {
    let cases: Cases<'_> = &[
        (b"HARBOUR", &[102, 101, 103]),
        (b"amber", &[104, 102]),
        (b"", &[]),
    ];
    finds_all(alloc, index, SearchKind::Title, cases)
}

fn finds_authors(alloc: Global, index: &GrowingIndex) -> Result<bool, Memory> {
    let cases: Cases<'_> = &[
        (b"mAs", &[102, 103]),
        (b"Abbots", &[]),
        (b"", &[104, 102, 101, 103]),
    ];
    finds_all(alloc, index, SearchKind::Author, cases)
}

fn finds_subjects(alloc: Global, index: &GrowingIndex) -> Result<bool, Memory> {
    let cases: Cases<'_> = &[(b"HISTORY", &[104, 102, 101, 103]), (b"history", &[])];
    finds_all(alloc, index, SearchKind::Subject, cases)
}

#[test]
fn added_items_are_found(rt: HostRuntime) -> Result<(), Fail> {
    let index = four(rt.alloc())?;
    assert!(rt; finds_titles(rt.alloc(), &index)?);
    assert!(rt; finds_authors(rt.alloc(), &index)?);
    assert!(rt; finds_subjects(rt.alloc(), &index)?);
    assert!(rt; last(rt.alloc(), &index, b"harbour")? == Some(103));
    Ok(())
}

/// Fifty items of one title.
fn fifty(alloc: Global) -> Result<GrowingIndex, Memory> {
    let mut index = empty(alloc)?;
    for id in 101..151 {
        index.add(&item(alloc, id, b"Amber Harbour", 1)?)?;
    }
    Ok(index)
}

/// The first and the last of fifty items that are found, and the one that came last.
fn ends(alloc: Global, index: &GrowingIndex) -> Result<(u32, u32, Option<u32>), Memory> {
    let sought = Sought::of(alloc, SearchKind::Title, b"harbour")?;
    let found = index.sought(&sought)?;
    match found.as_slice() {
        [first, middle @ .., end] if middle.len() == 48 => Ok((*first, *end, index.last(&sought))),
        _ => Ok((0, 0, None)),
    }
}

/// An item that comes late is not among fifty, and the next one comes first.
#[test]
fn the_fifty_first_is_not_listed(rt: HostRuntime) -> Result<(), Fail> {
    let mut index = fifty(rt.alloc())?;
    index.add(&item(rt.alloc(), 151, b"Zinc Harbour", 1)?)?;
    assert!(rt; ends(rt.alloc(), &index)? == (101, 150, Some(150)));
    index.add(&item(rt.alloc(), 152, b"Aaa Harbour", 1)?)?;
    assert!(rt; ends(rt.alloc(), &index)? == (152, 149, Some(152)));
    Ok(())
}

#[test]
fn an_item_is_found_once_it_is_taken(rt: HostRuntime) -> Result<(), Fail> {
    let mut index = four(rt.alloc())?;
    index.make_room(&item(rt.alloc(), 105, b"Amber", 1)?)?;
    assert!(rt; last(rt.alloc(), &index, b"amber")? == Some(104));
    index.add(&item(rt.alloc(), 105, b"Amber Bay", 1)?)?;
    assert!(rt;
        finds(
            rt.alloc(),
            &index,
            SearchKind::Title,
            b"amber",
            &[104, 102, 105]
        )?
    );
    Ok(())
}

/// Whether these are the ids of two lists merged.
fn merges(
    alloc: Global,
    first: &[Titled<'_>],
    second: &[Titled<'_>],
    want: &[u32],
) -> Result<bool, Memory> {
    Ok(merge(alloc, first, second)?.as_slice() == want)
}

fn titled(id: u32, title: &[u8]) -> Titled<'_> {
    Titled { id, title }
}

fn born() -> [Titled<'static>; 3] {
    [
        titled(65, b"Kind Harbour ATSE"),
        titled(1, b"Kind Harbour OG"),
        titled(33, b"Kind Harbour RIRI"),
    ]
}

fn added() -> [Titled<'static>; 3] {
    [
        titled(103, b"Amber Harbour"),
        titled(104, b"Kind Harbour OG"),
        titled(102, b"Zinc Harbour"),
    ]
}

/// Items of both lists stand by their titles, and those that tie by their ids.
#[test]
fn two_lists_are_merged(rt: HostRuntime) -> Result<(), Fail> {
    let (born, added) = (born(), added());
    assert!(rt; merges(rt.alloc(), &born, &added, &[103, 65, 1, 104, 33, 102])?);
    assert!(rt; merges(rt.alloc(), &born, &[], &[65, 1, 33])?);
    Ok(())
}

/// Fifty items of one title, from this id on.
fn fifty_titled(alloc: Global, id: u32) -> Result<Listed<Titled<'static>>, Memory>
    requires { id ≤ 1000 }
{
    let mut list = Listed::new(alloc);
    for more in 0..50 {
        list.push(Titled {
            id: id + more,
            title: b"Harbour",
        })?;
    }
    Ok(list)
}

/// Whether of twice fifty items of one title those with the smaller ids are found.
fn merges_fifty(alloc: Global) -> Result<bool, Memory> {
    let born = fifty_titled(alloc, 1)?;
    let added = fifty_titled(alloc, 101)?;
    let merged = merge(alloc, added.as_slice(), born.as_slice())?;
    let ids = merged.as_slice();
    Ok(ids.len() == 50 && ids.first() == Some(&1) && ids.last() == Some(&50))
}

#[test]
fn the_first_fifty_of_both_are_merged(rt: HostRuntime) -> Result<(), Fail> {
    assert!(rt; merges_fifty(rt.alloc())?);
    Ok(())
}

/// Whether a text is looked for in this form.
fn is_sought(alloc: Global, kind: SearchKind, text: &[u8], form: &[u8]) -> Result<bool, Memory> {
    let sought = Sought::of(alloc, kind, text)?;
    Ok(sought.kind() == kind && sought.text().bytes() == form)
}

#[test]
fn texts_are_looked_for_in_small_letters(rt: HostRuntime) -> Result<(), Fail> {
    assert!(rt; is_sought(rt.alloc(), SearchKind::Title, b"HarBour Z", b"harbour z")?);
    assert!(rt; is_sought(rt.alloc(), SearchKind::Author, b"AB", b"ab")?);
    assert!(rt; is_sought(rt.alloc(), SearchKind::Subject, b"HISTORY", b"HISTORY")?);
    Ok(())
}
