//! The keys that an act may change.
ghost use Rattle.std.specs.Prelude.{◌≡◌, ◌+◌, ◌^◌, ◌<◌, [], Some, length, unwrap_or, option_to_list, IfOk, IfSome};
ghost use Rattle.shop_text.specs.Texts.{digsyl};
ghost use Rattle.shop_model.specs.asked.CustomersAsked.{IsLoginAsked, IsNewcomerAsked};
ghost use Rattle.shop_model.specs.declared.buying.Buyer.TheVariants as buyer_kinds;
ghost use Rattle.shop_model.specs.declared.tables.Tables.{Tables};
ghost use Rattle.shop_model.specs.trade.Buyers.{customer_named, address_saying};
ghost use Rattle.shop_model.specs.trade.Carts as shopping;
ghost use Rattle.shop_model.specs.asked.CartAsked.{IsCartAsked};
ghost use Rattle.shop_model.specs.asked.PurchaseAsked.{IsPurchaseAsked};
ghost use Rattle.shop_history.specs.declared.keys.Key.TheVariants as key;
ghost use Rattle.shop_history.specs.MayChange as spec;
ghost use Rattle.shop_book.specs.Named.{AreNamed};
ghost use Rattle.shop_book.specs.Planning.{certain_changes};
ghost use Rattle.shop_book.specs.RowsNow.{tables_with};
ghost use Rattle.shop_book.specs.Watching.{IsWatchable, MayCome};

use crate::rows::Rows;
use shop_history::Key;
use shop_model::{AddressText, BuyConfirm, Cart, CartRequest, Login, Newcomer, row_numbered};
use shop_text::{Boxed, Memory, digsyl};
use std::alloc::Global;

/// The id of the cart that a request is about: the one that it names, or the next.
fn cart_meant(carts: &[Cart], named: Option<u32>) -> u32
    requires { length carts.now + 1 < 2 ^ 32 }
    ensures { result ≡ shopping.cart_meant carts.now named }
{
    match named {
        Some(id) => id,
        None => carts.len() as u32 + 1,
    }
}

/// That of the customer who logs in, where there is one.
pub(crate) fn login_change(rows: &Rows, login: &Login) -> Option<Key>
    requires { AreNamed rows.now.customers.items }
    ensures form { IsLoginAsked login.now }
    ensures kind { IfSome result IsWatchable }
    ensures key { (t : Tables) → option_to_list result ≡ spec.login_changes (customer_named (tables_with t rows.now) login.now.user) }
{
    match rows.customer_named(&login.user) {
        None => None,
        Some(id) => Some(Key::Customer(id)),
    }
}

/// Those of an address that is new.
fn address_changes(alloc: Global, rows: &Rows, text: &AddressText) -> Result<Vec<Key>, Memory>
    requires { length rows.now.addresses.rows + 1 < 2 ^ 32 }
    ensures { IfOk result (λ keys. (t : Tables) → keys.items ≡ spec.address_changes (tables_with t rows.now) text.now (address_saying (tables_with t rows.now) text.now)) }
{
    match rows.addresses.saying(text) {
        Some(_) => Ok(Vec::new(alloc)),
        None => {
            let id = rows.addresses.len() as u32 + 1;
            let text = Boxed::new(alloc, text.copy(alloc)?)?;
            Ok(vec![in alloc; Key::Address(id), Key::SameAddress(text)]?)
        }
    }
}

/// Those of a new customer.
pub(crate) fn newcomer_changes(
    alloc: Global,
    rows: &Rows,
    newcomer: &Newcomer,
) -> Result<Vec<Key>, Memory>
    requires { MayCome rows.now }
    ensures form { IfOk result (λ keys. IsNewcomerAsked newcomer.now) }
    ensures keys { IfOk result (λ keys. (t : Tables) → keys.items ≡ spec.buyer_changes (tables_with t rows.now) (buyer_kinds.Newcomer newcomer.now)) }
{
    let id = rows.customers.len() as u32 + 1;
    let name = digsyl(alloc, id)?;
    let mut keys = vec![in alloc; Key::Customer(id), Key::Name(name)]?;
    let mut more = address_changes(alloc, rows, &newcomer.address)?;
    keys.append(&mut more)?;
    Ok(keys)
}

/// That of the cart that a request is about.
pub(crate) fn cart_change(rows: &Rows, asked: &CartRequest) -> Key
    requires { MayCome rows.now }
    ensures form { IsCartAsked asked.now }
    ensures key { result ≡ key.Cart (shopping.cart_meant rows.now.carts.items asked.now.ids.cart) }
{
    Key::Cart(cart_meant(&rows.carts, asked.ids.cart))
}

/// The lines of the cart with an id; none where there is no such cart.
fn lines_in(carts: &[Cart], id: u32) -> &[(u32, u32)]
    ensures { result.now ≡ unwrap_or (shopping.lines_named carts.now (Some id)) [] }
{
    match row_numbered(carts, id) {
        Some(cart) => cart.lines.get().as_slice(),
        None => &[],
    }
}

/// Those of an address that an order ships to, if it is new.
fn ship_changes(
    alloc: Global,
    rows: &Rows,
    address: &Option<AddressText>,
) -> Result<Vec<Key>, Memory>
    requires { MayCome rows.now }
    ensures { IfOk result (λ keys. (t : Tables) → keys.items ≡ spec.ship_changes (tables_with t rows.now) address.now) }
{
    match address {
        Some(text) => address_changes(alloc, rows, text),
        None => Ok(Vec::new(alloc)),
    }
}

/// Those that a purchase changes for certain, beside the lists.
pub(crate) fn certain_changes(
    alloc: Global,
    rows: &Rows,
    asked: &BuyConfirm,
) -> Result<Vec<Key>, Memory>
    requires { MayCome rows.now }
    ensures form { IfOk result (λ keys. IsPurchaseAsked asked.now) }
    ensures keys { IfOk result (λ keys. (t : Tables) → keys.items ≡ certain_changes (tables_with t rows.now) asked.now) }
{
    let lines = lines_in(&rows.carts, asked.cart);
    let mut ship = ship_changes(alloc, rows, &asked.address)?;
    let mut keys = Vec::with_capacity(alloc, lines.len().saturating_add(5))?;
    keys.push(Key::Cart(asked.cart))?;
    keys.push(Key::Order(rows.orders.len() as u32 + 1))?;
    keys.push(Key::LastOrder(asked.c))?;
    for line in lines {
        keys.push(Key::Item(line.0))?;
    }
    keys.append(&mut ship)?;
    Ok(keys)
}
