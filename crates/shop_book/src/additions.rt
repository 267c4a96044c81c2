//! The items that were added since the opening.
ghost use Rattle.std.specs.Prelude.{◌≡◌, [], Some, None, IsSome, IfOk};
ghost use Rattle.std.specs.Bool.{OnTrue};
ghost use Rattle.shop_model.specs.lists.Catalogues.{Naming, found, naming};
ghost use Rattle.shop_book.specs.Additions as spec;

use shop_history::Row;
use shop_model::{Author, Item, Sought, row_numbered};
use shop_search::GrowingIndex;
use shop_text::{Listed, Memory, Shared};
use std::alloc::Global;
use std::marker::Model;

/// The items that were added since the opening: which entry added each, and what searches find of them.
#[derive(Drop)]
pub(crate) struct Additions {
    /// How many items there were before.
    opened: u32,
    /// The numbers of the entries that added them.
    numbers: Vec<u64>,
    index: GrowingIndex,
    /// The row of each search that finds none.
    none: Shared<Listed<u32>>,
}

impl Model for Additions {
    ghost use Rattle.shop_book.specs.Additions.{AddedItems, IsAdditions};

    ghost Value = { AddedItems };

    ghost view = { λ a. record { opened = a.opened; numbers = a.numbers.items; contents = a.index.contents; room = a.index.room } };

    ghost invariant = { λ a. IsAdditions a.numbers a.index a.none };
}

impl Additions {
    /// No items yet, beside so many of these authors.
    pub(crate) fn new(
        alloc: Global,
        opened: u32,
        authors: &[Shared<Author>],
    ) -> Result<Additions, Memory>
        ensures { IfOk result (λ additions. additions ≡ record { opened = opened; numbers = []; contents = record { items = []; authors = authors.now }; room = None }) }
    {
        Ok(Additions {
            opened,
            numbers: Vec::new(alloc),
            index: GrowingIndex::empty(alloc, authors)?,
            none: Shared::new(alloc, Listed::new(alloc))?,
        })
    }

    /// Makes room for an item, in place of one that there was room for; answers whether there is.
    pub(crate) fn make_room(&mut self, item: &Item) -> bool
        ensures same { self.new ≡ record self.old { room = self.new.room } }
        ensures room { OnTrue result (self.new.room ≡ Some (naming item.now)) }
    {
        self.numbers.reserve(1).is_ok() && self.index.make_room(item).is_ok()
    }

    /// Takes the item that there is room for, as added by the entry with this number; takes no memory.
    pub(crate) fn take(&mut self, number: u64)
        requires { IsSome self.old.room }
        ensures { (item : Naming) → self.old.room ≡ Some item → self.new ≡ spec.with_addition self.old item number }
    {
        self.numbers.push_reserved(number);
        self.index.take();
    }

    /// The number of the entry that added an item, or 0.
    pub(crate) fn number_of(&self, id: u32) -> u64
        ensures { result ≡ spec.number_of self.now id }
    {
        match row_numbered(&self.numbers, id.saturating_sub(self.opened)) {
            Some(number) => *number,
            None => 0,
        }
    }

    /// The number of the last such entry, or 0.
    pub(crate) fn last_number(&self) -> u64
        ensures { result ≡ spec.last_number self.now }
    {
        match self.numbers.last() {
            Some(number) => *number,
            None => 0,
        }
    }

    /// That of the entry that added the item which came last among those that a search finds, or 0.
    pub(crate) fn found_number(&self, sought: &Sought) -> u64
        ensures { result ≡ spec.found_number self.now sought.now }
    {
        match self.index.last(sought) {
            Some(id) => self.number_of(id),
            None => 0,
        }
    }

    /// What the key of a search shows. It takes memory where the search finds some.
    pub(crate) fn row(&self, sought: &Sought) -> Result<Row, Memory>
        ensures { IfOk result (λ row. row ≡ Row.Items (found self.now.contents sought.now.kind sought.now.text)) }
    {
        let ids = self.index.sought(sought)?;
        if ids.as_slice().is_empty() {
            return Ok(Row::Items(self.none.share()?));
        }
        Ok(Row::Items(Shared::new(*self.numbers.allocator(), ids)?))
    }
}
