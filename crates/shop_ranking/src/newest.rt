//! The newest items of each subject, in order as days of publication change.
ghost use Rattle.std.specs.Prelude.{◌≡◌, ◌≢◌, ◌-◌, ◌≤◌, true, false, IfOk, OnOk, length, map, set, vec_capacity};
ghost use Rattle.shop_model.specs.rows.Limits.{list_limit};
ghost use Rattle.shop_model.specs.rows.Sound.{Has, Runs};
ghost use Rattle.shop_ranking.specs.Order.{IsInOrder};
ghost use Rattle.shop_ranking.specs.Standing.{AreNew, AreKept, always};
ghost use Rattle.shop_ranking.specs.StandingNewest.{book_of, later, standing_books, standing_newest};

use crate::ranked::{Ranked, first_ids, renew_ids};
use crate::ranking::{put_in, take_out};
use crate::subjects::{new_lists, subjects_of};
use shop_model::{Item, ItemDetails, Subject};
use shop_text::{Listed, Memory, Shared};
use std::alloc::Global;
use std::cmp::Ordering;
use std::marker::Model;

/// A book with the day of its publication, in the order of new ones.
#[derive(Drop)]
struct Dated {
    id: u32,
    published: u32,
    details: Shared<ItemDetails>,
}

impl Model for Dated {
    ghost use Rattle.shop_ranking.specs.StandingNewest.{Book};

    ghost Value = { Book };

    ghost view = { λ d. record { id = d.id; title = d.details.title; published = d.published } };
}

impl Ranked for Dated {
    ghost use Rattle.shop_ranking.specs.StandingNewest.{later};

    ghost order = { later };

    ghost id_of = { λ b. b.id };

    fn compare(&self, other: &Self) -> Ordering {
        let days = other.published.cmp(&self.published);
        let title = self.details.get().title.bytes();
        let titles = title.cmp(other.details.get().title.bytes());
        days.then(titles.then(self.id.cmp(&other.id)))
    }

    fn id(&self) -> u32 {
        self.id
    }
}

impl Dated {
    /// The book again, with the same details; takes no memory.
    fn share(&self) -> Result<Dated, Memory>
        ensures { IfOk result (λ shared. shared ≡ self.now) }
    {
        Ok(Dated {
            id: self.id,
            published: self.published,
            details: self.details.share()?,
        })
    }
}

/// The books of the items.
fn books_of(alloc: Global, items: &[Item]) -> Result<Vec<Dated>, Memory>
    ensures { IfOk result (λ books. books.items ≡ map book_of items.now) }
{
    let mut books = Vec::with_capacity(alloc, items.len())?;
    for item in items {
        books.push(Dated {
            id: item.id,
            published: item.published,
            details: item.details.share()?,
        })?;
    }
    Ok(books)
}

/// Puts each book into the list of its subject.
fn fill(lists: &mut Vec<Vec<Dated>>, subjects: &[Subject], books: &[Dated]) -> Result<(), Memory>
    requires same { length books.now ≡ length subjects.now }
    requires new { AreNew subjects.now lists.old.items }
    ensures { OnOk result (AreKept always later subjects.now books.now lists.new.items) }
{
    for place in (0..books.len()).rev() {
        let book = books[place].share()?;
        let number = subjects[place].number() as usize;
        put_in(&mut lists[number], book);
    }
    Ok(())
}

/// The day of publication that stands of each item, and for each subject its items in the order of new
/// ones. Each list has room for all items of its subject, so that no change takes memory.
#[derive(Drop)]
pub struct Newest {
    subjects: Vec<Subject>,
    books: Vec<Dated>,
    /// By the numbers of the subjects.
    lists: Vec<Vec<Dated>>,
}

impl Model for Newest {
    ghost use Rattle.std.specs.Prelude.{map};
    ghost use Rattle.shop_ranking.specs.StandingNewest.{Days, AreKeptBooks};

    ghost Value = { Days };

    ghost view = { λ n. record {
      subjects = n.subjects.items;
      titles = map (λ b. b.title) n.books.items;
      days = map (λ b. b.published) n.books.items;
    } };

    ghost invariant = { λ n. AreKeptBooks n.subjects.items n.books.items n.lists.items };
}

impl Newest {
    /// The items as they are; their details get two more owners each.
    pub fn new(alloc: Global, items: &[Item]) -> Result<Newest, Memory>
        requires { Runs (map (λ i. i.id) items.now) }
        ensures subjects { IfOk result (λ newest. newest.subjects ≡ map (λ i. i.subject) items.now) }
        ensures titles { IfOk result (λ newest. newest.titles ≡ map (λ i. i.title) items.now) }
        ensures days { IfOk result (λ newest. newest.days ≡ map (λ i. i.published) items.now) }
    {
        let subjects = subjects_of(alloc, items)?;
        let books = books_of(alloc, items)?;
        let mut lists = new_lists(alloc, &subjects)?;
        fill(&mut lists, &subjects, &books)?;
        Ok(Newest {
            subjects,
            books,
            lists,
        })
    }

    /// Sets the day of publication of an item; takes no memory.
    pub fn redate(&mut self, item: u32, day: u32)
        requires { Has (length self.old.days) item }
        ensures { self.new ≡ record self.old { days = set self.old.days (item - 1) day } }
    {
        let place = item as usize - 1;
        let number = self.subjects[place].number() as usize;
        let book = &mut self.books[place];
        let list = &mut self.lists[number];
        let mut moved = take_out(list, book);
        moved.published = day;
        put_in(list, moved);
        book.published = day;
    }

    /// The ids of the newest items of a subject, 50 at most.
    pub fn top50(&self, alloc: Global, subject: Subject) -> Result<Listed<u32>, Memory>
        ensures ids { IfOk result (λ ids. ids ≡ standing_newest self.now subject) }
        ensures order { OnOk result (IsInOrder later (standing_books self.now subject)) }
    {
        first_ids(alloc, &self.lists[subject.number() as usize])
    }
    /// Writes the ids of the newest items of a subject, 50 at most, over those that were the newest
    /// before; answers whether they differ. Takes no memory.
    pub fn renew(&self, subject: Subject, ids: &mut Vec<u32>) -> bool
        requires { list_limit ≤ vec_capacity ids.old }
        ensures ids { ids.new.items ≡ standing_newest self.now subject }
        ensures same { result ≡ false → ids.new.items ≡ ids.old.items }
        ensures other { result ≡ true → ids.new.items ≢ ids.old.items }
        ensures capacity { vec_capacity ids.new ≡ vec_capacity ids.old }
    {
        renew_ids(&self.lists[subject.number() as usize], ids)
    }
}
