//! Items that come into lists by their keys, and what is made for it before.
ghost use Rattle.std.specs.Prelude.{◌≡◌, ◌<◌, List, ℕ, IsSome, IfOk, OnOk, vec_len, vec_capacity};
ghost use Rattle.std.specs.HashMap.{get};
ghost use Rattle.std.specs.List.Sorted.{IsSorted};
ghost use Rattle.std.specs.Str.{bytes_eq};
ghost use Rattle.shop_model.specs.lists.Catalogues.{naming};
ghost use Rattle.shop_search.specs.Filings.{filed_keys, AreReady, AreReadyFor};
ghost use Rattle.shop_search.specs.Growing.{held_at, with_held, Files, FilesAll, HasRoomAt, Widens};
ghost use Rattle.shop_search.specs.Titles.{TitledItem, by_titled, titled};

use crate::filed::Filed;
use crate::naming::Named;
use shop_model::Item;
use shop_ranking::put_in;
use shop_text::{Memory, Text};
use std::alloc::Global;
use std::collections::HashMap;

/// The most items of a list.
const LIST_LIMIT: usize = 50;

/// An item that is ready to come into the list at a key.
#[derive(Drop)]
pub(crate) struct Filing {
    key: Text,
    item: Filed,
}

/// An item that there is room for in the lists of each kind.
#[derive(Drop)]
pub(crate) struct Room {
    pub(crate) named: Named,
    pub(crate) titles: Vec<Filing>,
    pub(crate) authors: Vec<Filing>,
    pub(crate) subjects: Vec<Filing>,
}

/// Opens a list at the key, unless there is one.
fn open(alloc: Global, lists: &mut HashMap<Text, Vec<Filed>>, key: &Text) -> Result<(), Memory>
    ensures widens { Widens lists.old lists.new key.now }
    ensures there { OnOk result (IsSome (get bytes_eq lists.new key.now)) }
{
    if lists.contains_key(key) {
        return Ok(());
    }
    let copy = Text::copy(alloc, key.bytes())?;
    lists.insert(copy, Vec::new(alloc))?;
    Ok(())
}

/// Makes room for one item more in the list at the key.
fn widen(lists: &mut HashMap<Text, Vec<Filed>>, key: &Text) -> Result<(), Memory>
    requires there { IsSome (get bytes_eq lists.old key.now) }
    ensures widens { Widens lists.old lists.new key.now }
    ensures room { OnOk result (HasRoomAt lists.new key.now) }
{
    match lists.get_mut(key) {
        Some(list) => list.reserve(1)?,
        None => unreachable!(),
    }
    Ok(())
}

/// Makes the item ready to come into the list at the key.
fn prepare(
    alloc: Global,
    lists: &mut HashMap<Text, Vec<Filed>>,
    key: &Text,
    item: &Item,
) -> Result<Filing, Memory>
    ensures widens { Widens lists.old lists.new key.now }
    ensures room { OnOk result (HasRoomAt lists.new key.now) }
    ensures filing { IfOk result (λ filing. filing ≡ record { key = key.now; item = titled (naming item.now) }) }
{
    let item = Filed::of(item)?;
    let copy = Text::copy(alloc, key.bytes())?;
    open(alloc, lists, key)?;
    widen(lists, key)?;
    Ok(Filing { key: copy, item })
}

/// Makes the item ready to come into the lists at these keys, once where a key comes twice.
pub(crate) fn filings(
    alloc: Global,
    lists: &mut HashMap<Text, Vec<Filed>>,
    keys: &[Text],
    item: &Item,
) -> Result<Vec<Filing>, Memory>
    ensures same { (q : List ℕ) → held_at lists.new q ≡ held_at lists.old q }
    ensures ready { IfOk result (λ filings. AreReadyFor lists.new (titled (naming item.now)) keys.now filings.items) }
{
    let mut filings = Vec::with_capacity(alloc, keys.len())?;
    for (place, key) in keys.iter().enumerate() {
        if !keys[..place].contains(key) {
            let filing = prepare(alloc, lists, key, item)?;
            filings.push(filing)?;
        }
    }
    Ok(filings)
}

/// Puts the item at its place among the first ones.
fn put(list: &mut Vec<Filed>, item: Filed)
    requires sorted { IsSorted by_titled list.old.items }
    requires room { vec_len list.old < vec_capacity list.old }
    ensures { list.new.items ≡ with_held item list.old.items }
{
    put_in(list, item);
    list.truncate(LIST_LIMIT);
}

/// Takes the item into the list at its key.
fn file(lists: &mut HashMap<Text, Vec<Filed>>, filing: Filing)
    requires sorted { IsSorted by_titled (held_at lists.old filing.key) }
    requires room { HasRoomAt lists.old filing.key }
    ensures { Files lists.old lists.new filing.key filing.item }
{
    let Filing { key, item } = filing;
    match lists.get_mut(&key) {
        Some(list) => put(list, item),
        None => unreachable!(),
    }
}

/// Takes an item into the lists at its keys; takes no memory.
pub(crate) fn file_all(lists: &mut HashMap<Text, Vec<Filed>>, filings: Vec<Filing>)
    requires sorted { (q : List ℕ) → IsSorted by_titled (held_at lists.old q) }
    requires ready { (item : TitledItem) × AreReady lists.old item filings.items }
    ensures { (item : TitledItem) → AreReady lists.old item filings.items → FilesAll lists.old lists.new (filed_keys filings.items) item }
{
    for filing in filings {
        file(lists, filing);
    }
}

/// The items at the key.
pub(crate) fn held<'a>(lists: &'a HashMap<Text, Vec<Filed>>, key: &Text) -> &'a [Filed]
    ensures { result.now ≡ held_at lists.now key.now }
{
    match lists.get(key) {
        Some(list) => list.as_slice(),
        None => &[],
    }
}
