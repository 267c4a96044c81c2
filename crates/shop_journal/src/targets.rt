//! Requests that change the shop, as the targets by which they are kept.
ghost use Rattle.std.specs.Prelude.{◌≡◌, ◌++◌, ◌∷◌, [], decimal, IfOk, OnOk, map, codes};
ghost use Rattle.form_urlencoded.specs.Form as form;
ghost use Rattle.shop_model.specs.asked.AddAsked.{IsAddAsked};
ghost use Rattle.shop_model.specs.asked.AdminAsked.{IsAdminAsked};
ghost use Rattle.shop_model.specs.asked.CartAsked.{IsCartAsked};
ghost use Rattle.shop_model.specs.asked.CustomersAsked.{IsId, IsLoginAsked, IsNewcomerAsked};
ghost use Rattle.shop_model.specs.asked.PurchaseAsked.{IsPurchaseAsked};
ghost use Rattle.shop_history.specs.Acts.{IsBuyer};
ghost use Rattle.shop_journal.specs.Pairs.{Adds};
ghost use Rattle.shop_journal.specs.Targets as spec;

use crate::target::{Target, add_serialized};
use itoa::Buffer;
use shop_model::{
    AddressText, AdminAdd, AdminConfirm, BuyConfirm, BuyRequest, Buyer, Card, CartRequest,
    IdsAsked, Interaction, Login, Newcomer, Parameter, Request,
};
use shop_text::{Memory, Text};
use std::alloc::Global;

/// Adds the name of what sets a quantity of this item.
#[tactic(auto, using(crate::proofs::Marks::set_name))]
fn add_set_name(text: &mut Text, item: u32) -> Result<(), Memory>
    ensures { OnOk result (text.new ≡ text.old ++ form.byte_serialize (codes "qty_" ++ decimal item)) }
{
    text.push(b"qty_")?;
    let mut buffer = Buffer::new();
    add_serialized(text, buffer.format(item).as_bytes())?;
    Ok(())
}

/// Adds one quantity that is set.
fn add_set(target: &mut Target, item: u32, quantity: u32) -> Result<(), Memory>
    ensures { OnOk result (Adds (spec.set_pair (item, quantity) ∷ []) target.old target.new) }
{
    target.text.push(&[target.mark])?;
    add_set_name(&mut target.text, item)?;
    target.text.push(b"=")?;
    let mut buffer = Buffer::new();
    add_serialized(&mut target.text, buffer.format(quantity).as_bytes())?;
    target.mark = b'&';
    Ok(())
}

/// Adds all quantities that are set.
fn add_sets(target: &mut Target, sets: &[(u32, u32)]) -> Result<(), Memory>
    ensures { OnOk result (Adds (map spec.set_pair sets.now) target.old target.new) }
{
    for set in sets {
        add_set(target, set.0, set.1)?;
    }
    Ok(())
}

/// Adds the ids that a request carries along.
fn add_ids(target: &mut Target, ids: &IdsAsked) -> Result<(), Memory>
    ensures { OnOk result (Adds (spec.ids_pairs ids.now) target.old target.new) }
{
    target.add_optional(Parameter::C, ids.c)?;
    target.add_optional(Parameter::Cart, ids.cart)
}

/// The target of a request for a cart.
pub(crate) fn cart_target(alloc: Global, asked: &CartRequest) -> Result<Text, Memory>
    ensures target { IfOk result (λ text. text ≡ spec.cart_target asked.now) }
    ensures form { IfOk result (λ text. IsCartAsked asked.now) }
{
    let mut target = Target::new(alloc, Interaction::ShoppingCart)?;
    target.add_optional(Parameter::Item, asked.item)?;
    add_sets(&mut target, asked.sets.as_slice())?;
    add_ids(&mut target, &asked.ids)?;
    Ok(target.text)
}

/// Adds where in a city an address is.
fn add_streets(target: &mut Target, text: &AddressText) -> Result<(), Memory>
    ensures { OnOk result (Adds (spec.street_pairs text.now) target.old target.new) }
{
    target.add_text(Parameter::Street1, &text.street1)?;
    target.add_text(Parameter::Street2, &text.street2)?;
    target.add_text(Parameter::City, &text.city)
}

/// Adds where that city is.
fn add_region(target: &mut Target, text: &AddressText) -> Result<(), Memory>
    ensures { OnOk result (Adds (spec.region_pairs text.now) target.old target.new) }
{
    target.add_text(Parameter::State, &text.state)?;
    target.add_text(Parameter::Zip, &text.zip)?;
    target.add_number(Parameter::Country, u64::from(text.country))
}

/// Adds the pairs of an address.
fn add_address(target: &mut Target, text: &AddressText) -> Result<(), Memory>
    ensures { OnOk result (Adds (spec.address_pairs text.now) target.old target.new) }
{
    add_streets(target, text)?;
    add_region(target, text)?;
    Ok(())
}

/// Adds the pairs of who is no customer yet.
fn add_newcomer(target: &mut Target, newcomer: &Newcomer) -> Result<(), Memory>
    ensures target { OnOk result (Adds (spec.newcomer_pairs newcomer.now) target.old target.new) }
    ensures form { OnOk result (IsNewcomerAsked newcomer.now) }
{
    target.add_text(Parameter::FirstName, &newcomer.first)?;
    target.add_text(Parameter::LastName, &newcomer.last)?;
    add_address(target, &newcomer.address)?;
    target.add_text(Parameter::Phone, &newcomer.phone)?;
    target.add_text(Parameter::Email, &newcomer.email)?;
    Ok(())
}

/// Adds the pairs of a customer who logs in.
fn add_login(target: &mut Target, login: &Login) -> Result<(), Memory>
    ensures target { OnOk result (Adds (spec.login_pairs login.now) target.old target.new) }
    ensures form { OnOk result (IsLoginAsked login.now) }
{
    target.add_text(Parameter::User, &login.user)?;
    target.add_text(Parameter::Pass, &login.pass)
}

/// Adds the pairs of who buys.
fn add_buyer(target: &mut Target, buyer: &Buyer) -> Result<(), Memory>
    ensures target { OnOk result (Adds (spec.buyer_pairs buyer.now) target.old target.new) }
    ensures form { OnOk result (IsBuyer buyer.now) }
{
    match buyer {
        Buyer::Returning(login) => add_login(target, login.get()),
        Buyer::Newcomer(newcomer) => add_newcomer(target, newcomer.get()),
    }
}

/// The target of a request to buy a cart.
pub(crate) fn buy_target(alloc: Global, asked: &BuyRequest) -> Result<Text, Memory>
    ensures target { IfOk result (λ text. text ≡ spec.buy_target asked.now) }
    ensures form { IfOk result (λ text. IsId asked.now.cart × IsBuyer asked.now.buyer) }
{
    let mut target = Target::new(alloc, Interaction::BuyRequest)?;
    target.add_number(Parameter::Cart, u64::from(asked.cart))?;
    add_buyer(&mut target, &asked.buyer)?;
    Ok(target.text)
}

/// Adds the pairs of a payment card.
fn add_payment(target: &mut Target, payment: &Card) -> Result<(), Memory>
    ensures { OnOk result (Adds (spec.payment_pairs payment.now) target.old target.new) }
{
    target.add_bytes(Parameter::Card, payment.card.name())?;
    target.add_bytes(Parameter::Number, payment.number.bytes())?;
    target.add_text(Parameter::Name, &payment.name)?;
    target.add_bytes(Parameter::Expiry, payment.expiry.bytes())
}

/// Adds the pairs of an address that may be absent.
fn add_optional_address(target: &mut Target, text: &Option<AddressText>) -> Result<(), Memory>
    ensures { OnOk result (Adds (spec.optional_address_pairs text.now) target.old target.new) }
{
    match text {
        Some(text) => add_address(target, text),
        None => Ok(()),
    }
}

/// The target of a purchase.
pub(crate) fn purchase_target(alloc: Global, asked: &BuyConfirm) -> Result<Text, Memory>
    ensures target { IfOk result (λ text. text ≡ spec.purchase_target asked.now) }
    ensures form { IfOk result (λ text. IsPurchaseAsked asked.now) }
{
    let mut target = Target::new(alloc, Interaction::BuyConfirm)?;
    target.add_number(Parameter::C, u64::from(asked.c))?;
    target.add_number(Parameter::Cart, u64::from(asked.cart))?;
    add_payment(&mut target, &asked.payment)?;
    target.add_bytes(Parameter::Ship, asked.ship.name())?;
    add_optional_address(&mut target, &asked.address)?;
    Ok(target.text)
}

/// The target of the change of an item.
pub(crate) fn admin_target(alloc: Global, asked: &AdminConfirm) -> Result<Text, Memory>
    ensures target { IfOk result (λ text. text ≡ spec.admin_target asked.now) }
    ensures form { IfOk result (λ text. IsAdminAsked asked.now) }
{
    let mut target = Target::new(alloc, Interaction::AdminConfirm)?;
    target.add_number(Parameter::Item, u64::from(asked.item))?;
    target.add_number(Parameter::Cost, asked.cost)?;
    target.add_text(Parameter::Image, &asked.image)?;
    target.add_text(Parameter::Thumb, &asked.thumb)?;
    add_ids(&mut target, &asked.ids)?;
    Ok(target.text)
}

/// Adds what an item that is added is called, and by whom it is.
fn add_titled(target: &mut Target, asked: &AdminAdd) -> Result<(), Memory>
    ensures { OnOk result (Adds (spec.titled_pairs asked.now) target.old target.new) }
{
    target.add_text(Parameter::Title, &asked.title)?;
    target.add_number(Parameter::Author, u64::from(asked.author))?;
    target.add_bytes(Parameter::Subject, asked.subject.name())?;
    target.add_text(Parameter::Publisher, &asked.publisher)
}

/// Adds what it is about, and its pictures.
fn add_described(target: &mut Target, asked: &AdminAdd) -> Result<(), Memory>
    ensures { OnOk result (Adds (spec.described_pairs asked.now) target.old target.new) }
{
    target.add_text(Parameter::About, &asked.about)?;
    target.add_text(Parameter::Image, &asked.image)?;
    target.add_text(Parameter::Thumb, &asked.thumb)
}

/// Adds what it costs, and how much there is of it.
fn add_priced(target: &mut Target, asked: &AdminAdd) -> Result<(), Memory>
    ensures { OnOk result (Adds (spec.priced_pairs asked.now) target.old target.new) }
{
    target.add_number(Parameter::Srp, asked.srp)?;
    target.add_number(Parameter::Cost, asked.cost)?;
    target.add_number(Parameter::Stock, u64::from(asked.stock))?;
    target.add_number(Parameter::Pages, u64::from(asked.pages))?;
    target.add_bytes(Parameter::Backing, asked.backing.name())
}

/// The target of an item that is added.
pub(crate) fn add_target(alloc: Global, asked: &AdminAdd) -> Result<Text, Memory>
    ensures target { IfOk result (λ text. text ≡ spec.add_target asked.now) }
    ensures form { IfOk result (λ text. IsAddAsked asked.now) }
{
    let mut target = Target::new(alloc, Interaction::AdminAdd)?;
    add_titled(&mut target, asked)?;
    add_described(&mut target, asked)?;
    add_priced(&mut target, asked)?;
    add_ids(&mut target, &asked.ids)?;
    Ok(target.text)
}

/// The target that spells a request that changes the shop; nothing for one that reads.
pub fn target_of(alloc: Global, request: &Request) -> Result<Text, Memory>
    ensures { IfOk result (λ text. text ≡ spec.target_of request.now) }
{
    match request {
        Request::CartRequest(asked) => cart_target(alloc, asked),
        Request::BuyRequest(asked) => buy_target(alloc, asked),
        Request::BuyConfirm(asked) => purchase_target(alloc, asked.get()),
        Request::AdminConfirm(asked) => admin_target(alloc, asked.get()),
        Request::AdminAdd(asked) => add_target(alloc, asked.get()),
        _ => Ok(Text::new(alloc)),
    }
}
