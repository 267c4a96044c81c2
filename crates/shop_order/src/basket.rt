//! What a purchase reads: its customer and its cart, where it ships to, and the items of the lines.
ghost use Rattle.std.specs.Prelude.{◌≡◌, ◌∷◌, [], IfOk, IfErr};
ghost use Rattle.shop_model.specs.declared.requests.Request.TheVariants as request_kinds;
ghost use Rattle.shop_model.specs.trade.Sales.{check_known};
ghost use Rattle.shop_history.specs.declared.keys.Key.TheVariants as key_kinds;
ghost use Rattle.shop_history.specs.declared.keys.Row.TheVariants as row_kinds;
ghost use Rattle.shop_attempt.specs.Reads.{Shows};
ghost use Rattle.shop_browse.specs.Baskets.{country_read};
ghost use Rattle.shop_order.specs.BuyConfirm as spec;
ghost use Rattle.shop_order.specs.ShoppingCart.{IsFitRow};
ghost use Rattle.shop_order.specs.Stops.{StopsBy, IsStop};

use crate::shopping_cart::add_item_keys;
use crate::stops::{Stop, lines_in};
use shop_attempt::ReadOf;
use shop_history::{Key, Row};
use shop_model::{AddressText, BuyConfirm, Customer, Refusal};
use shop_text::{Boxed, Listed, Memory};
use std::alloc::Global;

/// Who buys, and the lines of the cart.
#[derive(Clone, Copy)]
pub(crate) struct Basket<'a> {
    pub(crate) customer: &'a Customer,
    pub(crate) lines: &'a [(u32, u32)],
}

/// The customer in a row.
fn customer_in(row: &Row) -> Result<&Customer, Stop>
    ensures ok { IfOk result (λ customer. row.now ≡ row_kinds.Customer customer.now) }
    ensures err { IfErr result (StopsBy row_kinds.Customer check_known row.now) }
{
    match row {
        Row::Absent => Err(Stop::Refused(Refusal::NoCustomer)),
        Row::Customer(customer) => Ok(customer),
        _ => Err(Stop::Never),
    }
}

/// What the reads of the customer and of the cart come to.
pub(crate) fn begin<'a>(
    asked: &BuyConfirm,
    buyer: &'a ReadOf,
    cart: &'a ReadOf,
) -> Result<Basket<'a>, Stop>
    requires buyer { buyer.now.key ≡ key_kinds.Customer asked.now.c }
    requires cart { cart.now.key ≡ key_kinds.Cart asked.now.cart }
    requires fit { IsFitRow cart.now.row }
    ensures ok { IfOk result (spec.Begins buyer.now.row cart.now.row) }
    ensures err { IfErr result (IsStop (λ t. Shows t (buyer.now ∷ cart.now ∷ [])) (request_kinds.BuyConfirm asked.now)) }
{
    let customer = customer_in(&buyer.row)?;
    let lines = lines_in(&cart.row)?;
    Ok(Basket { customer, lines })
}

/// The customer and the cart come first, and then the address that says the text, where one is given.
pub(crate) fn first_keys(alloc: Global, asked: &BuyConfirm) -> Result<Listed<Key>, Memory>
    ensures { IfOk result (λ keys. keys ≡ spec.first_keys asked.now) }
{
    let mut keys = Vec::with_capacity(alloc, 3)?;
    keys.push(Key::Customer(asked.c))?;
    keys.push(Key::Cart(asked.cart))?;
    if let Some(text) = &asked.address {
        let text = text.copy(alloc)?;
        keys.push(Key::SameAddress(Boxed::new(alloc, text)?))?;
    }
    Ok(Listed::from_vec(keys))
}

/// The customer's address comes first, where no text is given, and then the items of the lines.
pub(crate) fn second_keys(
    alloc: Global,
    text: &Option<AddressText>,
    basket: &Basket,
) -> Result<Listed<Key>, Memory>
    ensures { IfOk result (λ keys. keys ≡ spec.second_keys text.now basket.now.customer.now.address basket.now.lines.now) }
{
    let mut keys = Vec::with_capacity(alloc, basket.lines.len().saturating_add(1))?;
    if text.is_none() {
        let customer = basket.customer;
        keys.push(Key::Address(customer.address))?;
    }
    add_item_keys(&mut keys, basket.lines)?;
    Ok(Listed::from_vec(keys))
}

/// Whether a row tells where a purchase ships to.
pub(crate) fn is_ship(text: &Option<AddressText>, row: &Row) -> bool
    ensures { result ≡ spec.is_ship text.now row.now }
{
    match (text, row) {
        (None, Row::Address(_)) => true,
        (Some(_), Row::Id(_)) => true,
        (Some(_), Row::Absent) => true,
        _ => false,
    }
}

/// The key of the country to which a purchase ships: that of the text, or of the address in a row.
pub(crate) fn country_key(text: &Option<AddressText>, row: &Row) -> Key
    ensures { result ≡ key_kinds.Country (country_read text.now row.now) }
{
    let country = match (text, row) {
        (Some(text), _) => text.country,
        (None, Row::Address(address)) => address.get().text.country,
        _ => 0,
    };
    Key::Country(country)
}

/// Whether a row is a country.
pub(crate) fn is_country(row: &Row) -> bool
    ensures { result ≡ spec.is_country row.now }
{
    matches!(row, Row::Country(_))
}
