//! The addresses, and which of them says a text.
ghost use Rattle.std.specs.Prelude.{◌≡◌, ◌∷◌, ◌++◌, [], ◌+◌, ◌<◌, ◌≤◌, IfOk, length};
ghost use Rattle.std.specs.Bool.{OnTrue};
ghost use Rattle.shop_book.specs.Said as spec;

use crate::copies::SPARE_ROWS;
use shop_model::{Address, AddressText};
use shop_text::{Memory, Shared};
use std::alloc::Global;
use std::collections::HashMap;
use std::marker::Model;

/// The addresses, and for each text that one of them says the smallest id.
#[derive(Drop)]
pub(crate) struct Addresses {
    rows: Vec<Shared<Address>>,
    said: HashMap<AddressText, u32>,
}

impl Model for Addresses {
    ghost use Rattle.std.specs.Prelude.{◌-◌, min, vec_len, vec_capacity};
    ghost use Rattle.std.specs.HashMap.{get, spare};
    ghost use Rattle.shop_book.specs.Said.{AddressesValue, AreSaid, alike};

    ghost Value = { AddressesValue };

    ghost view = { λ a. record { rows = a.rows.items; room = min (vec_capacity a.rows - vec_len a.rows) (spare a.said) } };

    ghost invariant = { λ a. AreSaid a.rows.items (get alike a.said) };
}

impl Addresses {
    /// These addresses, which stay shared, with room for some more.
    pub(crate) fn of(alloc: Global, rows: &[Shared<Address>]) -> Result<Addresses, Memory>
        ensures { IfOk result (λ addresses. addresses.rows ≡ rows.now) }
    {
        let mut addresses = Addresses {
            rows: Vec::new(alloc),
            said: HashMap::new(alloc),
        };
        if !addresses.make_room(rows.len().saturating_add(SPARE_ROWS)) {
            return Err(Memory);
        }
        for row in rows {
            let text = row.get().text.copy(alloc)?;
            addresses.push(row.share()?, text);
        }
        Ok(addresses)
    }

    /// Makes room for so many more; answers whether there is.
    pub(crate) fn make_room(&mut self, more: usize) -> bool
        ensures rows { self.new.rows ≡ self.old.rows }
        ensures room { OnTrue result (more ≤ self.new.room) }
    {
        let rows = self.rows.reserve(more).is_ok();
        let said = self.said.reserve(more).is_ok();
        rows && said
    }

    /// Adds an address, with the text that it says; takes no memory.
    pub(crate) fn push(&mut self, row: Shared<Address>, text: AddressText)
        requires room { 0 < self.old.room }
        requires text { row.text ≡ text }
        ensures rows { self.new.rows ≡ self.old.rows ++ row ∷ [] }
        ensures room { self.old.room ≤ self.new.room + 1 }
    {
        if !self.said.contains_key(&text) {
            match self.said.insert(text, row.get().id) {
                Ok(_) => {}
                Err(_) => unreachable!(),
            }
        }
        self.rows.push_reserved(row);
    }

    /// The id of the address that says this, the smallest where there are several.
    pub(crate) fn saying(&self, text: &AddressText) -> Option<u32>
        ensures { result ≡ spec.said_id self.now.rows text.now }
    {
        match self.said.get(text) {
            Some(id) => Some(*id),
            None => None,
        }
    }

    pub(crate) fn as_slice(&self) -> &[Shared<Address>]
        ensures { result.now ≡ self.now.rows }
    {
        &self.rows
    }

    pub(crate) fn len(&self) -> usize
        ensures { result ≡ length self.now.rows }
    {
        self.rows.len()
    }
}
