//! The book of a log's entries.
ghost use Rattle.std.specs.Prelude.{◌≡◌, List, [], Some, Decides, IfOk, length};
ghost use Rattle.shop_model.specs.lists.Catalogues.{opened};
ghost use Rattle.shop_model.specs.rows.Lookups.{row_numbered};
ghost use Rattle.shop_history.specs.declared.acts.Entry.{Entry as EntryValue};
ghost use Rattle.shop_attempt.specs.Seats.{IsSeat};
ghost use Rattle.shop_book.specs.declared.opening.Opening.{Opening as OpeningValue};
ghost use Rattle.shop_book.specs.Books.{BookValue, IsBook};
ghost use Rattle.shop_book.specs.Openings.{IsOpening};
ghost use Rattle.shop_book.specs.Solos.{seat_of};
ghost use Rattle.shop_replay.specs.Again.{GivesAgain};
ghost use Rattle.shop_replay.specs.Replays.{AddsAs, AreAdded, IsInTime, ReplayedAs, book_of};
ghost use Rattle.shop_replay.specs.Tries.{MaySettle};

use crate::stops::Stop;
use crate::tries::try_entry;
use shop_attempt::{Attempt, Settle, Store};
use shop_book::{Book, Solo, Visitor};
use shop_draft::{Draft, Template};
use shop_history::Entry;
use shop_model::{STAMP_LIMIT, Tables};
use shop_search::Index;
use shop_text::Memory;
use std::alloc::Global;

/// What a replay of entries gives.
#[derive(Drop)]
pub enum Replayed {
    /// The book whose log they are.
    Book(Book),
    /// The entry with this number, from 1, is the first that may not follow those before it, or that the log has no room for.
    Illegal(u64),
    Memory,
}

/// The bytes that pages have room for from the start.
const PAGE_ROOM: usize = 4_096;

/// Whether an entry may come behind the latest stamp.
fn is_in_time(latest: u64, entry: &Entry) -> bool
    ensures { Decides result (IsInTime latest entry.now) }
{
    entry.stamp >= latest && entry.stamp <= STAMP_LIMIT
}

/// Whether the last entry of the log has this number.
fn is_numbered(solo: &Solo, front: u64, number: u64) -> bool
    ensures { (entry : EntryValue) → row_numbered solo.now.book.log front ≡ Some entry → Decides result (entry.number ≡ number) }
{
    match solo.entry(front) {
        Some(entry) => entry.number == number,
        None => false,
    }
}

/// Settles the attempt at an entry for its caller, whose next change has to have this number.
fn settle_entry(solo: &mut Solo, number: u64, attempt: Attempt) -> Result<(), Stop>
    requires { (entry : EntryValue) × MaySettle solo.old entry attempt }
    ensures adds { (entry : EntryValue) → MaySettle solo.old entry attempt → entry.number ≡ number → AddsAs solo.old.book solo.new.book entry result }
    ensures valid { IsSeat (seat_of solo.new) }
{
    match solo.settle(attempt) {
        Settle::Done(drawn) => {
            if is_numbered(solo, drawn.front, number) {
                Ok(())
            } else {
                Err(Stop::Illegal)
            }
        }
        Settle::Full(_) => Err(Stop::Illegal),
        Settle::Memory => Err(Stop::Memory),
        // Nobody else changes the book.
        Settle::Stale(_) => unreachable!(),
    }
}

/// Adds one entry to a log whose last stamp is this one.
fn add(
    alloc: Global,
    solo: &mut Solo,
    index: &Index,
    latest: u64,
    entry: &Entry,
    draft: &mut Draft,
) -> Result<(), Stop>
    requires valid { IsSeat (seat_of solo.old) }
    requires book { solo.old.book ≡ book_of solo.old.book.opening solo.old.book.log }
    requires latest { latest ≡ solo.old.book.latest }
    requires index { index.now ≡ opened solo.old.book.opening.tables }
    ensures adds { AddsAs solo.old.book solo.new.book entry.now result }
    ensures valid { IfOk result (λ _. IsSeat (seat_of solo.new)) }
{
    if !is_in_time(latest, entry) {
        return Err(Stop::Illegal);
    }
    solo.turn(Visitor {
        caller: entry.caller,
        calls: 0,
        settles: 0,
        greatest: 0,
    });
    match try_entry(alloc, solo, index, entry, draft) {
        Ok(attempt) => settle_entry(solo, entry.number, attempt),
        Err(stop) => Err(stop),
    }
}

/// Adds the entries to the log of a book that has none, up to the first that is illegal; answers how many were added.
fn add_all(
    alloc: Global,
    solo: &mut Solo,
    index: &Index,
    entries: &[Entry],
) -> Result<usize, Memory>
    requires valid { IsSeat (seat_of solo.old) }
    requires book { solo.old.book ≡ book_of solo.old.book.opening [] }
    requires index { index.now ≡ opened solo.old.book.opening.tables }
    ensures { IfOk result (AreAdded solo.old.book.opening entries.now solo.new.book) }
{
    let page = Template::with_room(alloc, PAGE_ROOM)?;
    let mut draft = Draft { status: 0, page };
    let mut latest = 0;
    for count in 0..entries.len() {
        let entry = &entries[count];
        match add(alloc, solo, index, latest, entry, &mut draft) {
            Ok(()) => latest = entry.stamp,
            Err(Stop::Illegal) => return Ok(count),
            Err(Stop::Memory) => return Err(Memory),
        }
    }
    Ok(entries.len())
}

/// The book, where so many of all entries were added to it that none is left, or else the number of the next one.
fn replayed_by(book: Book, added: usize, all: usize) -> Replayed
    ensures { (opening : OpeningValue) → (entries : List EntryValue) → AreAdded opening entries book added → all ≡ length entries → ReplayedAs opening entries result }
{
    if added < all {
        return Replayed::Illegal(added as u64 + 1);
    }
    Replayed::Book(book)
}

/// The book over these tables whose log is the entries, or the first of them that is illegal. Each is attempted and
/// settled as when it was made: for its caller, at its stamp, with its draw, and a purchase by its authorisation and its
/// rule of the tax. The index is of the tables.
pub fn replay(
    alloc: Global,
    tables: Tables,
    index: &Index,
    limit: u64,
    entries: &[Entry],
) -> Replayed
    requires opening { IsOpening (record { tables = tables; limit = limit }) }
    requires index { index.now ≡ opened tables }
    ensures replayed { ReplayedAs (record { tables = tables; limit = limit }) entries.now result }
    // The log of a book is never illegal.
    ensures again { (b : BookValue) → IsBook b → b.opening ≡ record { tables = tables; limit = limit } → b.log ≡ entries.now → GivesAgain b result }
{
    let Ok(book) = Book::open(alloc, tables, limit) else {
        return Replayed::Memory;
    };
    let mut solo = Solo::new(book);
    match add_all(alloc, &mut solo, index, entries) {
        Ok(added) => replayed_by(solo.into_book(), added, entries.len()),
        Err(Memory) => Replayed::Memory,
    }
}
