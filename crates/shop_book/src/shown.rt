ghost use Rattle.std.specs.Prelude.{◌≡◌, None, IfOk, IfSome};
ghost use Rattle.shop_model.specs.lists.Catalogues as catalogues;
ghost use Rattle.shop_model.specs.rows.Sound.{Sound};
ghost use Rattle.shop_history.specs.Keys.{row_of};
ghost use Rattle.shop_book.specs.KeptLists.{AreLists};
ghost use Rattle.shop_book.specs.Listings.{IsList};
ghost use Rattle.shop_book.specs.RowsNow.{tables_with};

use crate::additions::Additions;
use crate::lists::Lists;
use crate::rows::{Rows, country_row, id_row};
use shop_history::{Key, Row};
use shop_model::Tables;
use shop_text::Memory;

/// What a key shows in the tables with these rows and lists; none where a list's row has to be made first.
#[inline(always)]
pub(crate) fn shown(
    tables: &Tables,
    rows: &Rows,
    lists: &Lists,
    added: &Additions,
    key: &Key,
) -> Option<Result<Row, Memory>>
    requires sound { Sound (tables_with tables.now rows.now) }
    requires lists { AreLists (tables_with tables.now rows.now) lists.now }
    requires added { added.now.contents ≡ catalogues.added (tables_with tables.now rows.now) }
    ensures row { IfSome result (λ looked. IfOk looked (λ row. row ≡ row_of (tables_with tables.now rows.now) key.now)) }
    ensures list { result ≡ None → IsList key.now }
{
    match key {
        Key::Item(id) => Some(rows.item_row(*id)),
        Key::Label(id) => Some(rows.label_row(tables, *id)),
        Key::Customer(id) => Some(rows.customer_row(*id)),
        Key::Cart(id) => Some(rows.cart_row(*id)),
        Key::NewIn(subject) => lists.newest_shown(*subject),
        Key::BestIn(subject) => lists.best_shown(*subject),
        Key::Buyers(item) => Some(lists.buyers_row(*item)),
        Key::Bought(customer) => Some(lists.bought_row(*customer)),
        Key::Name(user) => Some(Ok(id_row(rows.customer_named(user)))),
        Key::Address(id) => Some(rows.address_row(*id)),
        Key::SameAddress(text) => Some(Ok(id_row(rows.addresses.saying(text.get())))),
        Key::Country(id) => Some(country_row(tables.countries.as_slice(), *id)),
        Key::Order(id) => Some(rows.order_row(*id)),
        Key::LastOrder(customer) => Some(Ok(rows.last_row(*customer))),
        Key::Count => Some(Ok(Row::Number(rows.items.len() as u32))),
        Key::Added(sought) => Some(added.row(sought)),
    }
}
