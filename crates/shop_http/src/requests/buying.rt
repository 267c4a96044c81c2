ghost use Rattle.std.specs.Prelude.{IfOk, IfSome};
ghost use Rattle.shop_model.specs.asked.CustomersAsked.{IsAddressAsked};
ghost use Rattle.shop_http.specs.Answers.{Reads};
ghost use Rattle.shop_http.specs.Requests as spec;

use super::cards::{card_asked, ship_asked};
use super::fault::Fault;
use super::forms::{
    ids_asked, required_country, required_number, required_short_text, required_text,
    short_text_or_empty,
};
use super::pairs::Pairs;
use shop_model::{
    AddressText, BuyConfirm, BuyRequest, Buyer, CustomerRegistration, Login, Newcomer,
    OrderDisplay, OrderInquiry, Parameter, Request,
};
use shop_text::Shared;
use std::alloc::Global;

pub(crate) fn customer_registration(alloc: Global, pairs: &Pairs) -> Result<Request, Fault>
    ensures { Reads (spec.customer_registration pairs.now) result }
{
    let ids = ids_asked(alloc, pairs)?;
    Ok(Request::CustomerRegistration(CustomerRegistration { ids }))
}

pub(crate) fn buy_request(alloc: Global, pairs: &Pairs) -> Result<Request, Fault>
    ensures { Reads (spec.buy_request pairs.now) result }
{
    let cart = required_number(alloc, pairs, Parameter::Cart)?;
    let buyer = buyer_asked(alloc, pairs)?;
    Ok(Request::BuyRequest(BuyRequest { cart, buyer }))
}

#[inline(never)]
pub(crate) fn buy_confirm(alloc: Global, pairs: &Pairs) -> Result<Request, Fault>
    ensures { Reads (spec.buy_confirm pairs.now) result }
{
    let purchase = purchase_asked(alloc, pairs)?;
    Ok(Request::BuyConfirm(Shared::new(alloc, purchase)?))
}

pub(crate) fn order_inquiry(alloc: Global, pairs: &Pairs) -> Result<Request, Fault>
    ensures { Reads (spec.order_inquiry pairs.now) result }
{
    let ids = ids_asked(alloc, pairs)?;
    Ok(Request::OrderInquiry(OrderInquiry { ids }))
}

pub(crate) fn order_display(alloc: Global, pairs: &Pairs) -> Result<Request, Fault>
    ensures { Reads (spec.order_display pairs.now) result }
{
    let login = login_asked(alloc, pairs)?;
    let ids = ids_asked(alloc, pairs)?;
    Ok(Request::OrderDisplay(OrderDisplay { login, ids }))
}

/// Who buys: a customer where one is named.
fn buyer_asked(alloc: Global, pairs: &Pairs) -> Result<Buyer, Fault>
    ensures { Reads (spec.buyer_asked pairs.now) result }
{
    if pairs.value_of(Parameter::User).is_some() {
        let login = login_asked(alloc, pairs)?;
        Ok(Buyer::Returning(Shared::new(alloc, login)?))
    } else {
        let newcomer = newcomer_asked(alloc, pairs)?;
        Ok(Buyer::Newcomer(Shared::new(alloc, newcomer)?))
    }
}

fn login_asked(alloc: Global, pairs: &Pairs) -> Result<Login, Fault>
    ensures { Reads (spec.login_asked pairs.now) result }
{
    let user = required_text(alloc, pairs, Parameter::User)?;
    let pass = required_short_text(alloc, pairs, Parameter::Pass)?;
    Ok(Login { user, pass })
}

fn newcomer_asked(alloc: Global, pairs: &Pairs) -> Result<Newcomer, Fault>
    ensures { Reads (spec.newcomer_asked pairs.now) result }
{
    let first = required_text(alloc, pairs, Parameter::FirstName)?;
    let last = required_text(alloc, pairs, Parameter::LastName)?;
    let address = address_asked(alloc, pairs)?;
    let phone = required_text(alloc, pairs, Parameter::Phone)?;
    let email = required_text(alloc, pairs, Parameter::Email)?;
    Ok(Newcomer {
        first,
        last,
        address,
        phone,
        email,
    })
}

/// Who buys which cart, and how.
fn purchase_asked(alloc: Global, pairs: &Pairs) -> Result<BuyConfirm, Fault>
    ensures { Reads (spec.purchase_asked pairs.now) result }
{
    let c = required_number(alloc, pairs, Parameter::C)?;
    let cart = required_number(alloc, pairs, Parameter::Cart)?;
    let payment = card_asked(alloc, pairs)?;
    let ship = ship_asked(alloc, pairs)?;
    let address = ship_address_asked(alloc, pairs)?;
    Ok(BuyConfirm {
        c,
        cart,
        payment,
        ship,
        address,
    })
}

/// Where an order ships to, if not to its customer's address.
fn ship_address_asked(alloc: Global, pairs: &Pairs) -> Result<Option<AddressText>, Fault>
    ensures value { Reads (spec.ship_address_asked pairs.now) result }
    ensures form { IfOk result (λ address. IfSome address IsAddressAsked) }
{
    if pairs.value_of(Parameter::Street1).is_some() {
        Ok(Some(address_asked(alloc, pairs)?))
    } else {
        Ok(None)
    }
}

fn address_asked(alloc: Global, pairs: &Pairs) -> Result<AddressText, Fault>
    ensures value { Reads (spec.address_asked pairs.now) result }
    ensures form { IfOk result IsAddressAsked }
{
    let street1 = required_text(alloc, pairs, Parameter::Street1)?;
    let street2 = short_text_or_empty(alloc, pairs, Parameter::Street2)?;
    let city = required_text(alloc, pairs, Parameter::City)?;
    let state = short_text_or_empty(alloc, pairs, Parameter::State)?;
    let zip = required_text(alloc, pairs, Parameter::Zip)?;
    let country = required_country(alloc, pairs)?;
    Ok(AddressText {
        street1,
        street2,
        city,
        state,
        zip,
        country,
    })
}
