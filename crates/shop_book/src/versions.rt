//! The versions of all keys.
ghost use Rattle.std.specs.Prelude.{◌≡◌, ◌≢◌, ◌+◌, ◌<◌, ◌≤◌, length, Some, IfOk, unwrap_or};
ghost use Rattle.std.specs.HashMap.{get, spare, Updates};
ghost use Rattle.std.specs.Bool.{OnTrue};
ghost use Rattle.shop_history.specs.declared.keys.Key.{Key};
ghost use Rattle.shop_book.specs.Additions.{AreAdded};
ghost use Rattle.shop_book.specs.Stored as spec;

use crate::additions::Additions;
use crate::columns::Column;
use crate::places::{COLUMNS, place_of, sizes};
use crate::puts::Put;
use crate::rows::Rows;
use shop_history::Key;
use shop_model::{AddressText, Tables};
use shop_text::{Memory, Text};
use std::alloc::Global;
use std::collections::HashMap;
use std::hash::Hash;

/// The versions of all keys. One that has no place here has version 0.
#[derive(Drop)]
pub(crate) struct Versions {
    columns: Vec<Column>,
    /// Of the user names that came since the opening.
    names: HashMap<Text, u64>,
    /// Of the texts that addresses came to say since.
    said: HashMap<AddressText, u64>,
    /// The items that were added since, with the numbers that are their versions.
    pub(crate) added: Additions,
}

/// The version of a text, or 0.
#[inline(never)]
fn version_at<K: Eq + Hash>(versions: &HashMap<K, u64>, key: &K) -> u64
    ensures { result ≡ unwrap_or (get K.eq versions.now key.now) 0 }
{
    if versions.is_empty() {
        return 0;
    }
    match versions.get(key) {
        Some(version) => *version,
        None => 0,
    }
}

/// Gives a text this version; takes no memory.
fn set_version<K: Eq + Hash + Drop>(versions: &mut HashMap<K, u64>, key: K, version: u64)
    requires { 0 < spare versions.old }
    ensures updates { Updates K.eq versions.old versions.new key (Some version) }
    ensures spare { spare versions.old ≤ spare versions.new + 1 }
{
    match versions.insert(key, version) {
        Ok(_) => {}
        Err(_) => unreachable!(),
    }
}

impl Versions {
    /// Version 0 for each row of these tables.
    pub(crate) fn new(alloc: Global, tables: &Tables, rows: &Rows) -> Result<Versions, Memory>
        requires { tables.now.born_items ≡ length tables.now.items }
        ensures places { IfOk result (λ versions. spec.HasPlaces versions rows.now) }
        ensures none { IfOk result (λ versions. (key : Key) → spec.stored versions key ≡ 0) }
        ensures added { IfOk result (λ versions. AreAdded tables.now versions.added) }
    {
        let mut columns = Vec::with_capacity(alloc, COLUMNS)?;
        for size in sizes(rows) {
            columns.push(Column::zeros(alloc, size)?)?;
        }
        Ok(Versions {
            columns,
            names: HashMap::new(alloc),
            said: HashMap::new(alloc),
            added: Additions::new(alloc, tables.born_items, tables.authors.as_slice())?,
        })
    }

    /// The version of a key that has no place in a column.
    fn of_apart(&self, key: &Key) -> u64
        ensures { result ≡ spec.stored_apart self.now key.now }
    {
        match key {
            Key::Name(user) => version_at(&self.names, user),
            Key::SameAddress(text) => version_at(&self.said, text.get()),
            Key::Label(id) => self.added.number_of(*id),
            Key::Count => self.added.last_number(),
            Key::Added(sought) => self.added.found_number(sought),
            _ => 0,
        }
    }

    /// The version of a key.
    #[inline(always)]
    pub(crate) fn of(&self, key: &Key) -> u64
        ensures { result ≡ spec.stored self.now key.now }
    {
        match place_of(key) {
            Some((column, id)) => match self.columns.get(column) {
                Some(column) => column.at(id),
                None => 0,
            },
            None => self.of_apart(key),
        }
    }

    /// Gives a key that is a text this version, and leaves all others; takes no memory.
    fn raise_text(&mut self, key: Key, version: u64)
        requires text { spec.IsText key }
        requires spare { spec.SpareFor key self.old }
        ensures here { spec.stored self.new key ≡ version }
        ensures others { (other : Key) → other ≢ key → spec.stored self.new other ≡ spec.stored self.old other }
        ensures places { spec.MorePlaces self.old self.new }
        ensures spare { spec.SparesOne self.old self.new }
    {
        match key {
            Key::Name(user) => set_version(&mut self.names, user, version),
            Key::SameAddress(text) => set_version(&mut self.said, text.into_inner(), version),
            _other => unreachable!(),
        }
    }

    /// Gives a key this version, and leaves all others; takes no memory.
    pub(crate) fn raise(&mut self, key: Key, version: u64)
        requires place { spec.HasPlace self.old key }
        requires spare { spec.SpareFor key self.old }
        ensures here { spec.stored self.new key ≡ version }
        ensures others { (other : Key) → other ≢ key → spec.stored self.new other ≡ spec.stored self.old other }
        ensures places { spec.MorePlaces self.old self.new }
        ensures spare { spec.SparesOne self.old self.new }
    {
        match place_of(&key) {
            Some((column, id)) => self.columns[column].set(id, version),
            None => self.raise_text(key, version),
        }
    }

    /// Gives each of so many rows of a column, and so many more, a place; answers whether it has one.
    fn grow(&mut self, column: usize, rows: usize, more: usize) -> bool
        requires { column < length self.old.columns.items }
        ensures long { OnTrue result (rows + more ≤ length (spec.numbers self.new column)) }
        ensures places { spec.MorePlaces self.old self.new }
        ensures same { (key : Key) → spec.stored self.new key ≡ spec.stored self.old key }
    {
        self.columns[column].grow(rows, more)
    }

    /// Gives so many rows that come into the table of a write a place; answers whether they have one.
    fn make_room_for(&mut self, rows: &Rows, put: &Put, more: usize) -> bool
        requires { length self.old.columns.items ≡ 11 }
        ensures room { OnTrue result (spec.HasRoomFor self.new rows.now more put.now) }
        ensures places { spec.MorePlaces self.old self.new }
        ensures same { (key : Key) → spec.stored self.new key ≡ spec.stored self.old key }
    {
        match put {
            Put::Item(_) => {
                let items = rows.items.len();
                self.grow(0, items, more) && self.grow(6, items, more)
            }
            Put::Customer(_) => {
                let customers = rows.customers.len();
                self.grow(1, customers, more)
                    && self.grow(2, customers, more)
                    && self.grow(7, customers, more)
            }
            Put::Cart(_) => self.grow(3, rows.carts.len(), more),
            Put::Address(_, _) => self.grow(8, rows.addresses.len(), more),
            Put::Order(_, _) => self.grow(10, rows.orders.len(), more),
            Put::Login(_) | Put::Stock(_) => true,
        }
    }

    /// Gives each row that these writes may add a place, and makes room for so many keys that are texts;
    /// answers whether there is.
    pub(crate) fn make_room(&mut self, rows: &Rows, puts: &[Put], keys: usize) -> bool
        requires { spec.HasPlaces self.old rows.now }
        ensures same { (key : Key) → spec.stored self.new key ≡ spec.stored self.old key }
        ensures places { spec.MorePlaces self.old self.new }
        ensures room { OnTrue result (spec.HasRoom self.new rows.now puts.now) }
        ensures spare { OnTrue result (spec.HasSpare self.new keys) }
    {
        let mut rooms = true;
        for put in puts {
            rooms = self.make_room_for(rows, put, puts.len()) && rooms;
        }
        let names = self.names.reserve(keys).is_ok();
        let said = self.said.reserve(keys).is_ok();
        rooms && names && said
    }
}
