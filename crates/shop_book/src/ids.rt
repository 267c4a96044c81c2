ghost use Rattle.std.specs.Prelude.{◌≡◌, ◌^◌, ◌<◌};
ghost use Rattle.shop_model.specs.declared.tables.Tables.{Tables};
ghost use Rattle.shop_book.specs.Readiness.{IdsFit};
ghost use Rattle.shop_book.specs.RowsNow.{tables_with};
ghost use Rattle.shop_book.specs.Sizes as spec;

use crate::rows::Rows;
use shop_history::Ids;

/// How many rows there are of those whose ids are told.
#[derive(Clone, Copy)]
pub(crate) struct Sizes {
    pub(crate) carts: usize,
    pub(crate) customers: usize,
    pub(crate) addresses: usize,
    pub(crate) orders: usize,
}

/// The id of the first row that came, if one did.
fn new_id(before: usize, after: usize) -> Option<u32>
    requires { after < 2 ^ 32 }
    ensures { result ≡ spec.id_behind before after }
{
    if before < after {
        Some(before as u32 + 1)
    } else {
        None
    }
}

impl Sizes {
    /// How many rows there are.
    pub(crate) fn of(rows: &Rows) -> Sizes
        ensures { result ≡ spec.sizes_of rows.now }
    {
        Sizes {
            carts: rows.carts.len(),
            customers: rows.customers.len(),
            addresses: rows.addresses.len(),
            orders: rows.orders.len(),
        }
    }

    /// The ids of the rows that came since.
    pub(crate) fn new_ids(self, rows: &Rows) -> Ids
        requires { (t : Tables) × IdsFit (tables_with t rows.now) }
        ensures { result ≡ spec.ids_behind self rows.now }
    {
        Ids {
            cart: new_id(self.carts, rows.carts.len()),
            customer: new_id(self.customers, rows.customers.len()),
            address: new_id(self.addresses, rows.addresses.len()),
            order: new_id(self.orders, rows.orders.len()),
        }
    }
}
