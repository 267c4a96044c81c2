ghost use Rattle.std.specs.Prelude.{◌≡◌, IfOk, None, MatchOption};
ghost use Rattle.std.specs.Option.{option_map};
ghost use Rattle.shop_model.specs.declared.requests.SearchKind.TheVariants as kinds;
ghost use Rattle.shop_model.specs.lists.Catalogues.{catalogue, found};
ghost use Rattle.shop_model.specs.rows.Lookups as lookups;
ghost use Rattle.shop_search.specs.Namings.{IsNamedBy};

use crate::lists::{at, lists_of};
use crate::naming::{Named, namings, share_authors};
use crate::order::in_list_order;
use shop_model::{Author, ItemDetails, SearchKind, Sought, Tables, row_numbered};
use shop_text::{Listed, Memory, Shared, Text};
use std::alloc::Global;
use std::collections::HashMap;
use std::marker::Model;

/// What searches find in a catalogue, by what they ask for: an answer takes no time over what it
/// does not find.
#[derive(Drop)]
pub struct Index {
    alloc: Global,
    items: Listed<Named>,
    authors: Listed<Shared<Author>>,
    /// By the words of titles, in small letters.
    title_lists: HashMap<Text, Listed<u32>>,
    /// By the fronts of authors' last names, in small letters.
    author_lists: HashMap<Text, Listed<u32>>,
    /// By the names of subjects.
    subject_lists: HashMap<Text, Listed<u32>>,
}

impl Model for Index {
    ghost use Rattle.shop_model.specs.lists.Catalogues.{Catalogue};
    ghost use Rattle.shop_search.specs.Lists.{IsIndex};

    ghost Value = { Catalogue };

    ghost view = { λ i. record { items = i.items; authors = i.authors } };

    ghost invariant = { λ i. IsIndex (record { items = i.items; authors = i.authors }) i.title_lists i.author_lists i.subject_lists };
}

impl Index {
    /// The index over the items and the authors of these tables.
    pub fn build(alloc: Global, tables: &Tables) -> Result<Index, Memory>
        ensures { IfOk result (λ index. index ≡ catalogue tables.now) }
    {
        let items = namings(alloc, tables.items.as_slice())?;
        let authors = share_authors(alloc, tables.authors.as_slice())?;
        let listed = in_list_order(alloc, tables.items.as_slice())?;
        let title_lists = lists_of(alloc, authors.as_slice(), SearchKind::Title, &listed)?;
        let author_lists = lists_of(alloc, authors.as_slice(), SearchKind::Author, &listed)?;
        let subject_lists = lists_of(alloc, authors.as_slice(), SearchKind::Subject, &listed)?;
        Ok(Index {
            alloc,
            items,
            authors,
            title_lists,
            author_lists,
            subject_lists,
        })
    }

    /// The ids of the first items, 50 at most, in the order of their titles, of whose titles some
    /// word is the text, without the case of ASCII letters.
    pub fn by_title(&self, text: &[u8]) -> Result<Listed<u32>, Memory>
        ensures { IfOk result (λ ids. ids ≡ found self.now kinds.Title text.now) }
    {
        self.search(SearchKind::Title, text)
    }

    /// The same of items whose author's last name begins with the text.
    pub fn by_author(&self, text: &[u8]) -> Result<Listed<u32>, Memory>
        ensures { IfOk result (λ ids. ids ≡ found self.now kinds.Author text.now) }
    {
        self.search(SearchKind::Author, text)
    }

    /// The same of items whose subject has this name, with its case.
    pub fn by_subject(&self, text: &[u8]) -> Result<Listed<u32>, Memory>
        ensures { IfOk result (λ ids. ids ≡ found self.now kinds.Subject text.now) }
    {
        self.search(SearchKind::Subject, text)
    }

    /// What a search of this kind finds.
    pub fn search(&self, kind: SearchKind, text: &[u8]) -> Result<Listed<u32>, Memory>
        ensures { IfOk result (λ ids. ids ≡ found self.now kind text.now) }
    {
        self.sought(&Sought::of(self.alloc, kind, text)?)
    }

    /// What is found of what is looked for.
    pub fn sought(&self, sought: &Sought) -> Result<Listed<u32>, Memory>
        ensures { IfOk result (λ ids. ids ≡ found self.now sought.now.kind sought.now.text) }
    {
        let text = sought.text();
        match sought.kind() {
            SearchKind::Title => at(self.alloc, &self.title_lists, text),
            SearchKind::Author => at(self.alloc, &self.author_lists, text),
            SearchKind::Subject => at(self.alloc, &self.subject_lists, text),
        }
    }

    /// Details of the item with an id, which tell what never changes of it.
    pub fn details(&self, item: u32) -> Option<&Shared<ItemDetails>>
        ensures { MatchOption result (lookups.row_numbered self.now.items item ≡ None) (λ details. IsNamedBy (lookups.row_numbered self.now.items item) details.now) }
    {
        match row_numbered(self.items.as_slice(), item) {
            None => None,
            Some(named) => Some(named.details()),
        }
    }

    /// The author with an id.
    pub fn author(&self, id: u32) -> Option<&Shared<Author>>
        ensures { option_map (λ author. author.now) result ≡ lookups.row_numbered self.now.authors id }
    {
        row_numbered(self.authors.as_slice(), id)
    }
}
