//! The ids that searches find, by the keys that they ask for.
ghost use Rattle.std.specs.Prelude.{◌≡◌, IfOk, OnOk};
ghost use Rattle.shop_search.specs.Lists.{ids_at, Adds, AddsAll, Lists};

use crate::keys::keys_of;
use crate::order::Ranked;
use shop_model::{Author, SearchKind};
use shop_text::{Listed, Memory, Shared, Text};
use std::alloc::Global;
use std::collections::HashMap;

/// The most ids of a list.
const LIST_LIMIT: usize = 50;

/// Adds the id at the key, unless the list there is full.
fn add(
    alloc: Global,
    lists: &mut HashMap<Text, Listed<u32>>,
    key: Text,
    id: u32,
) -> Result<(), Memory>
    ensures { OnOk result (Adds lists.old lists.new key id) }
{
    let mut ids = match lists.remove(&key) {
        Some(ids) => ids,
        None => Listed::new(alloc),
    };
    if ids.as_slice().len() < LIST_LIMIT {
        ids.push(id)?;
    }
    lists.insert(key, ids)?;
    Ok(())
}

/// Adds the id at each of the keys, once where a key comes twice.
fn add_all(
    alloc: Global,
    lists: &mut HashMap<Text, Listed<u32>>,
    keys: &[Text],
    id: u32,
) -> Result<(), Memory>
    ensures { OnOk result (AddsAll lists.old lists.new keys.now id) }
{
    for (place, key) in keys.iter().enumerate() {
        if !keys[..place].contains(key) {
            let copy = Text::copy(alloc, key.bytes())?;
            add(alloc, lists, copy, id)?;
        }
    }
    Ok(())
}

/// The ids of the items, which are in the order of lists, by the keys of searches of this kind.
pub(crate) fn lists_of(
    alloc: Global,
    authors: &[Shared<Author>],
    kind: SearchKind,
    listed: &[Ranked],
) -> Result<HashMap<Text, Listed<u32>>, Memory>
    ensures { IfOk result (λ lists. Lists authors.now kind listed.now lists) }
{
    let mut lists = HashMap::new(alloc);
    for ranked in listed {
        let item = ranked.item;
        let keys = keys_of(alloc, authors, kind, item)?;
        add_all(alloc, &mut lists, &keys, item.id)?;
    }
    Ok(lists)
}

/// The ids at the key.
pub(crate) fn at(
    alloc: Global,
    lists: &HashMap<Text, Listed<u32>>,
    key: &Text,
) -> Result<Listed<u32>, Memory>
    ensures { IfOk result (λ ids. ids ≡ ids_at lists.now key.now) }
{
    match lists.get(key) {
        Some(ids) => ids.copy(),
        None => Ok(Listed::new(alloc)),
    }
}
