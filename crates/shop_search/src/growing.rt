ghost use Rattle.std.specs.Prelude.{◌≡◌, List, ℕ, [], map, Some, None, IsSome, IfOk, OnOk, OnErr};
ghost use Rattle.shop_model.specs.lists.Catalogues.{Naming, found, naming};
ghost use Rattle.shop_search.specs.Filings.{AreReadyFor, IsReadyRoom};
ghost use Rattle.shop_search.specs.Growing.{greatest, held_at, with_item};
ghost use Rattle.shop_search.specs.Keys as spec;
ghost use Rattle.shop_search.specs.Titles.{firsts_found, titled};

use crate::filed::Filed;
use crate::filing::{Filing, Room, file_all, filings, held};
use crate::keys::keys_of;
use crate::naming::{Named, share_authors};
use shop_model::{Author, Item, SearchKind, Sought};
use shop_ranking::{Ranked, first_ids};
use shop_text::{Listed, Memory, Shared, Text};
use std::alloc::Global;
use std::collections::HashMap;
use std::marker::Model;

/// What searches find among items that come one by one. A contract sees the catalogue of these items,
/// and the one that there is room for.
#[derive(Drop)]
pub struct GrowingIndex {
    alloc: Global,
    items: Vec<Named>,
    authors: Listed<Shared<Author>>,
    title_lists: HashMap<Text, Vec<Filed>>,
    author_lists: HashMap<Text, Vec<Filed>>,
    subject_lists: HashMap<Text, Vec<Filed>>,
    room: Option<Room>,
}

impl Model for GrowingIndex {
    ghost use Rattle.std.specs.Prelude.{option_map};
    ghost use Rattle.shop_search.specs.Filings.{IsGrowing};
    ghost use Rattle.shop_search.specs.Growing.{Growth};

    ghost Value = { Growth };

    ghost view = { λ i. record {
      contents = record { items = i.items.items; authors = i.authors };
      room = option_map (λ r. r.named) i.room;
    } };

    ghost invariant = { λ i. IsGrowing i.authors i.items i.title_lists i.author_lists i.subject_lists i.room };
}

/// The greatest id of the items.
fn greatest_id(items: &[Filed]) -> Option<u32>
    ensures { result ≡ greatest (map (λ f. f.id) items.now) }
{
    let mut greatest = None;
    for item in items {
        greatest = Some(item.id().max(greatest.unwrap_or(0)));
    }
    greatest
}

/// What is ready for the item in the lists of a kind.
fn filings_of(
    alloc: Global,
    authors: &[Shared<Author>],
    kind: SearchKind,
    lists: &mut HashMap<Text, Vec<Filed>>,
    item: &Item,
) -> Result<Vec<Filing>, Memory>
    ensures same { (q : List ℕ) → held_at lists.new q ≡ held_at lists.old q }
    ensures ready { IfOk result (λ filings. AreReadyFor lists.new (titled (naming item.now)) (spec.keys_of authors.now kind (naming item.now)) filings.items) }
{
    let keys = keys_of(alloc, authors, kind, item)?;
    filings(alloc, lists, &keys, item)
}

/// Makes room for the item in the lists of each kind.
fn room_for(
    alloc: Global,
    authors: &[Shared<Author>],
    title_lists: &mut HashMap<Text, Vec<Filed>>,
    author_lists: &mut HashMap<Text, Vec<Filed>>,
    subject_lists: &mut HashMap<Text, Vec<Filed>>,
    item: &Item,
) -> Result<Room, Memory>
    ensures titles { (q : List ℕ) → held_at title_lists.new q ≡ held_at title_lists.old q }
    ensures authors { (q : List ℕ) → held_at author_lists.new q ≡ held_at author_lists.old q }
    ensures subjects { (q : List ℕ) → held_at subject_lists.new q ≡ held_at subject_lists.old q }
    ensures named { IfOk result (λ room. room.named ≡ naming item.now) }
    ensures ready { IfOk result (IsReadyRoom authors.now title_lists.new author_lists.new subject_lists.new) }
{
    let named = Named::of(item)?;
    let titles = filings_of(alloc, authors, SearchKind::Title, title_lists, item)?;
    let fronts = filings_of(alloc, authors, SearchKind::Author, author_lists, item)?;
    let subjects = filings_of(alloc, authors, SearchKind::Subject, subject_lists, item)?;
    Ok(Room {
        named,
        titles,
        authors: fronts,
        subjects,
    })
}

impl GrowingIndex {
    /// An index over no items of these authors.
    pub fn empty(alloc: Global, authors: &[Shared<Author>]) -> Result<GrowingIndex, Memory>
        ensures { IfOk result (λ index. index ≡ record { contents = record { items = []; authors = authors.now }; room = None }) }
    {
        Ok(GrowingIndex {
            alloc,
            items: Vec::new(alloc),
            authors: share_authors(alloc, authors)?,
            title_lists: HashMap::new(alloc),
            author_lists: HashMap::new(alloc),
            subject_lists: HashMap::new(alloc),
            room: None,
        })
    }

    /// Makes room for an item, in place of one that there was room for.
    pub fn make_room(&mut self, item: &Item) -> Result<(), Memory>
        ensures contents { self.new.contents ≡ self.old.contents }
        ensures room { OnOk result (self.new.room ≡ Some (naming item.now)) }
    {
        self.room = None;
        self.items.reserve(1)?;
        let room = room_for(
            self.alloc,
            self.authors.as_slice(),
            &mut self.title_lists,
            &mut self.author_lists,
            &mut self.subject_lists,
            item,
        )?;
        self.room = Some(room);
        Ok(())
    }

    /// Adds the item that there is room for; takes no memory.
    pub fn take(&mut self)
        requires { IsSome self.old.room }
        ensures { (item : Naming) → self.old.room ≡ Some item → self.new ≡ record { contents = with_item self.old.contents item; room = None } }
    {
        let Some(room) = self.room.take() else {
            unreachable!()
        };
        let Room {
            named,
            titles,
            authors,
            subjects,
        } = room;
        file_all(&mut self.title_lists, titles);
        file_all(&mut self.author_lists, authors);
        file_all(&mut self.subject_lists, subjects);
        self.items.push_reserved(named);
    }

    /// Adds an item.
    pub fn add(&mut self, item: &Item) -> Result<(), Memory>
        ensures ok { OnOk result (self.new.contents ≡ with_item self.old.contents (naming item.now)) }
        ensures err { OnErr result (self.new.contents ≡ self.old.contents) }
    {
        self.make_room(item)?;
        self.take();
        Ok(())
    }

    /// The first items that are found.
    fn held(&self, sought: &Sought) -> &[Filed]
        ensures { result.now ≡ firsts_found self.now.contents sought.now.kind sought.now.text }
    {
        let text = sought.text();
        match sought.kind() {
            SearchKind::Title => held(&self.title_lists, text),
            SearchKind::Author => held(&self.author_lists, text),
            SearchKind::Subject => held(&self.subject_lists, text),
        }
    }

    /// The ids of the first items that are found, 50 at most, in the order of their titles.
    pub fn sought(&self, sought: &Sought) -> Result<Listed<u32>, Memory>
        ensures { IfOk result (λ ids. ids ≡ found self.now.contents sought.now.kind sought.now.text) }
    {
        first_ids(self.alloc, self.held(sought))
    }

    /// The greatest of these ids: that of the item that came among them last.
    pub fn last(&self, sought: &Sought) -> Option<u32>
        ensures { result ≡ greatest (found self.now.contents sought.now.kind sought.now.text) }
    {
        greatest_id(self.held(sought))
    }
}
