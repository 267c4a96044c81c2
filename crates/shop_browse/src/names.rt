//! How items are named: by an index of those of the opening, and by labels that were read of others.
ghost use Rattle.std.specs.Prelude.{◌≡◌, ◌++◌, ◌∷◌, [], IfOk, OnOk, MatchOption, option_map};
ghost use Rattle.shop_browse.specs.Names as spec;

use shop_attempt::ReadOf;
use shop_history::{Key, Label, Row};
use shop_model::ItemDetails;
use shop_search::Index;
use shop_text::{Caption, Listed, Memory, Shared};
use std::alloc::Global;

/// What is known of items: what an index has, and labels that were read of others.
#[derive(Clone, Copy)]
pub struct Names<'a> {
    pub index: &'a Index,
    pub labels: &'a [ReadOf],
}

/// The label of an item, if this read is of it.
fn label_at(read: &ReadOf, item: u32) -> Option<&Label>
    ensures { option_map (λ label. label.now) result ≡ spec.label_at item read.now.key read.now.row }
{
    match (&read.key, &read.row) {
        (Key::Label(other), Row::Label(label)) => {
            if *other == item { Some(label) } else { None }
        }
        _ => None,
    }
}

/// The first label of an item that was read.
fn label_read(labels: &[ReadOf], item: u32) -> Option<&Label>
    ensures { option_map (λ label. label.now) result ≡ spec.label_read item labels.now }
{
    for read in labels {
        if let Some(label) = label_at(read, item) {
            return Some(label);
        }
    }
    None
}

impl<'a> Names<'a> {
    /// How an item is named, in parts that stay shared; none where it is not known.
    pub(crate) fn label_of(self, item: u32) -> Result<Option<Label>, Memory>
        ensures { IfOk result (λ label. label ≡ spec.label_in self.entry item) }
    {
        match self.index.details(item) {
            Some(details) => match self.index.author(details.get().author) {
                Some(author) => Ok(Some(Label {
                    item: details.share()?,
                    author: author.share()?,
                })),
                None => Ok(None),
            },
            None => match label_read(self.labels, item) {
                Some(label) => Ok(Some(label.share()?)),
                None => Ok(None),
            },
        }
    }

    /// The title of an item; none where it is not known.
    pub(crate) fn title_of(self, item: u32) -> Option<&'a Caption>
        ensures { option_map (λ title. title.now) result ≡ spec.known_title self.entry item }
    {
        match self.index.details(item) {
            Some(details) => Some(&details.get().title),
            None => match label_read(self.labels, item) {
                Some(label) => Some(label.title()),
                None => None,
            },
        }
    }
}

/// Adds the key of the label of an item that an index doesn't have.
pub(crate) fn add_label_key(keys: &mut Listed<Key>, index: &Index, item: u32) -> Result<(), Memory>
    ensures { OnOk result (keys.new ≡ keys.old ++ spec.label_keys index.now (item ∷ [])) }
{
    if index.details(item).is_none() {
        keys.push(Key::Label(item))?;
    }
    Ok(())
}

/// The keys of the labels of those of these items that an index doesn't have.
pub(crate) fn label_keys(alloc: Global, index: &Index, items: &[u32]) -> Result<Listed<Key>, Memory>
    ensures { IfOk result (λ keys. keys ≡ spec.label_keys index.now items.now) }
{
    let mut keys = Listed::new(alloc);
    for item in items {
        add_label_key(&mut keys, index, *item)?;
    }
    Ok(keys)
}

/// The same, if there is any.
pub(crate) fn some_labels(
    alloc: Global,
    index: &Index,
    items: &[u32],
) -> Result<Option<Listed<Key>>, Memory>
    ensures { IfOk result (λ unread. MatchOption unread (spec.label_keys index.now items.now ≡ []) (λ keys. keys ≡ spec.label_keys index.now items.now)) }
{
    let keys = label_keys(alloc, index, items)?;
    if keys.as_slice().is_empty() {
        Ok(None)
    } else {
        Ok(Some(keys))
    }
}

/// The same, of items of a shop with so many: where an index has the last of these, it has them all.
#[inline(always)]
pub fn unread_labels(
    alloc: Global,
    index: &Index,
    count: u32,
    items: &[u32],
) -> Result<Option<Listed<Key>>, Memory>
    ensures { IfOk result (λ unread. MatchOption unread (spec.NoneUnread index.now count items.now) (λ keys. keys ≡ spec.label_keys index.now items.now)) }
{
    if index.details(count).is_some() {
        return Ok(None);
    }
    some_labels(alloc, index, items)
}
