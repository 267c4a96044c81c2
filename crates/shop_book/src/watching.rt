ghost use Rattle.std.specs.Prelude.{◌≡◌, ◌↔◌, IsTrue, All, IfOk, length};
ghost use Rattle.shop_model.specs.declared.tables.Tables.{Tables};
ghost use Rattle.shop_history.specs.Keys.{row_of};
ghost use Rattle.shop_history.proofs.cited.Versions.{RaisedFor};
ghost use Rattle.shop_book.specs.RowsNow.{tables_with};
ghost use Rattle.shop_book.specs.Named.{AreNamed};
ghost use Rattle.shop_book.specs.Stored.{stored, HasPlaces, MorePlaces, HasSpare, SparesOne};
ghost use Rattle.shop_book.specs.Watching as spec;

use crate::rows::{Rows, id_row};
use crate::same_rows::{shows_address, shows_cart, shows_customer, shows_id, shows_item};
use crate::versions::Versions;
use shop_history::{Key, Row};
use shop_text::Memory;
use std::alloc::Global;

/// A key, and what it showed before a change.
#[derive(Drop)]
pub(crate) struct Watched {
    pub(crate) key: Key,
    pub(crate) row: Row,
}

/// What a key that is watched shows.
fn row_now(rows: &Rows, key: &Key) -> Result<Row, Memory>
    requires watchable { spec.IsWatchable key.now }
    requires named { AreNamed rows.now.customers.items }
    ensures { IfOk result (λ row. (t : Tables) → row ≡ row_of (tables_with t rows.now) key.now) }
{
    match key {
        Key::Item(id) => rows.item_row(*id),
        Key::Customer(id) => rows.customer_row(*id),
        Key::Cart(id) => rows.cart_row(*id),
        Key::Name(user) => Ok(id_row(rows.customer_named(user))),
        Key::Address(id) => rows.address_row(*id),
        Key::SameAddress(text) => Ok(id_row(rows.addresses.saying(text.get()))),
        _ => unreachable!(),
    }
}

/// A key, with what it shows.
pub(crate) fn watch_one(rows: &Rows, key: Key) -> Result<Watched, Memory>
    requires kind { spec.IsWatchable key }
    requires named { AreNamed rows.now.customers.items }
    ensures key { IfOk result (λ watched. watched.key ≡ key) }
    ensures row { IfOk result (λ watched. (t : Tables) → watched.row ≡ row_of (tables_with t rows.now) key) }
{
    let row = row_now(rows, &key)?;
    Ok(Watched { key, row })
}

/// These keys, with what they show.
pub(crate) fn watch(alloc: Global, rows: &Rows, keys: Vec<Key>) -> Result<Vec<Watched>, Memory>
    requires kinds { All spec.IsWatchable keys.items }
    requires named { AreNamed rows.now.customers.items }
    ensures keys { IfOk result (λ watched. spec.keys_of watched.items ≡ keys.items) }
    ensures rows { IfOk result (λ watched. (t : Tables) → spec.AreOf (tables_with t rows.now) watched.items) }
    ensures kinds { IfOk result (λ watched. All (λ w. spec.IsWatchable w.key) watched.items) }
{
    let mut watched = Vec::with_capacity(alloc, keys.len())?;
    for key in keys {
        let row = row_now(rows, &key)?;
        watched.push(Watched { key, row })?;
    }
    Ok(watched)
}

/// Whether a key still shows a row.
fn shows(rows: &Rows, key: &Key, row: &Row) -> bool
    requires watchable { spec.IsWatchable key.now }
    requires named { AreNamed rows.now.customers.items }
    ensures { (t : Tables) → (IsTrue result ↔ (row_of (tables_with t rows.now) key.now ≡ row.now)) }
{
    match key {
        Key::Item(id) => shows_item(&rows.items, *id, row),
        Key::Customer(id) => shows_customer(&rows.customers, *id, row),
        Key::Cart(id) => shows_cart(&rows.carts, *id, row),
        Key::Name(user) => shows_id(rows.customer_named(user), row),
        Key::Address(id) => shows_address(rows.addresses.as_slice(), *id, row),
        Key::SameAddress(text) => shows_id(rows.addresses.saying(text.get()), row),
        _ => unreachable!(),
    }
}

/// Gives a watched key this number as its version, if its row is no longer the one kept.
pub(crate) fn raise_if_changed(versions: &mut Versions, rows: &Rows, kept: Watched, number: u64)
    requires watchable { spec.CanWatch versions.old kept }
    requires places { HasPlaces versions.old rows.now }
    requires spare { HasSpare versions.old 1 }
    requires named { AreNamed rows.now.customers.items }
    ensures raised { spec.RaisesOne rows.now number kept versions.old versions.new }
    ensures places { MorePlaces versions.old versions.new }
    ensures spare { SparesOne versions.old versions.new }
{
    let Watched { key, row } = kept;
    if !shows(rows, &key, &row) {
        versions.raise(key, number);
    }
}

/// Gives each watched key whose row is no longer the one kept this number as its version.
pub(crate) fn raise_changed(
    versions: &mut Versions,
    rows: &Rows,
    watched: Vec<Watched>,
    number: u64,
)
    requires watchable { All (spec.CanWatch versions.old) watched.items }
    requires places { HasPlaces versions.old rows.now }
    requires spare { HasSpare versions.old (length watched.items) }
    requires named { AreNamed rows.now.customers.items }
    ensures raised { (before t : Tables) → spec.AreOf before watched.items → RaisedFor before (tables_with t rows.now) number (spec.keys_of watched.items) (stored versions.old) (stored versions.new) }
    ensures places { HasPlaces versions.new rows.now }
    ensures added { versions.new.added ≡ versions.old.added }
{
    for kept in watched {
        raise_if_changed(versions, rows, kept, number);
    }
}
