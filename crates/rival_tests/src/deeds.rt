//! What caller 2 does at a book that caller 1 has too.
ghost use Rattle.std.specs.Prelude.{◌≡◌, ◌≤◌, IfOk, IfSome};
ghost use Rattle.shop_model.specs.asked.AdminAsked.{IsCost};
ghost use Rattle.shop_model.specs.asked.CustomersAsked.{IsAddressAsked, IsFilled};
ghost use Rattle.shop_model.specs.rows.Limits.{stamp_limit};
ghost use Rattle.shop_model.specs.rows.Sound.{Has};
ghost use Rattle.shop_attempt.specs.Faithful.{Faithful};
ghost use Rattle.shop_attempt.specs.Marks.{KeepsMarks, Looks};
ghost use Rattle.shop_attempt.specs.Seats.{Follows};
ghost use Rattle.shop_browse.specs.Attempts.{Suits};
ghost use Rattle.rival_tests.specs.Rivals.{LeavesOthers};

use shop_attempt::{Attempt, Settle, Store};
use shop_browse::{Ask, Attempted};
use shop_draft::Draft;
use shop_edges::Call;
use shop_gateway::Emulator;
use shop_history::{Act, Drawn, Key};
use shop_model::{
    AddressText, AdminAdd, AdminConfirm, Backing, BuyConfirm, Card, CardNumber, CardType,
    CartRequest, IdsAsked, Month, ShipType, Subject,
};
use shop_order::admin_add::admin_add;
use shop_order::admin_confirm::admin_confirm;
use shop_order::buy_confirm::{Paid, Paying, buy_confirm, pay};
use shop_order::shopping_cart::shopping_cart;
use shop_text::{Listed, Memory, Shared, Text};
use std::alloc::Global;

/// What caller 2 does before a settle of caller 1.
#[derive(Clone, Copy)]
pub(crate) enum Deed {
    /// It adds a unit of item 2 to cart 1, if there is this cart.
    AddUnit,
    /// It buys a unit of this item for customer 11, where caller 1 is about to buy or to administer an item.
    Buy(u32),
    /// It does the same with item 7, which it has shipped to an address in country 41.
    Ship,
    /// It lets item 1 cost 20.00, where caller 1 is about to buy, or shows the newest items of a subject.
    Reprice,
    /// From caller 1's settle of this number on, counted from 1, it lets item 1 cost 20.00, and a cent more each time: a
    /// cost that stays is no change of the item.
    Raise(u32),
    /// It adds an item titled Amber Harbour.
    AddItem,
}

impl Deed {
    /// Whether its time is before a settle of this attempt, which is caller 1's of this number.
    pub(crate) fn is_before(self, attempt: &Attempt, settle: u32) -> bool {
        match self {
            Deed::AddUnit | Deed::AddItem => true,
            Deed::Buy(_) | Deed::Ship => matches!(
                attempt.act,
                Some(Act::Confirm(_, _, _, _)) | Some(Act::Admin(_))
            ),
            Deed::Reprice => {
                matches!(attempt.act, Some(Act::Confirm(_, _, _, _))) || reads_newest(attempt)
            }
            Deed::Raise(from) => from <= settle,
        }
    }
}

/// Whether the first row that was read is the newest items of a subject.
fn reads_newest(attempt: &Attempt) -> bool {
    match attempt.reads.as_slice().first() {
        Some(read) => matches!(read.key, Key::NewIn(_)),
        None => false,
    }
}

/// A cent more than 20.00 for each settle behind the first that has its change.
fn raised(settle: u32, first: u32) -> u64
    ensures { IsCost result }
{
    2_000 + u64::from(settle.saturating_sub(first).min(1_000))
}

/// The deed of whoever has the seat, before a settle of this number of caller 1; whether it was done.
pub(crate) fn does<St: Store>(
    alloc: Global,
    store: &mut St,
    ask: &Ask,
    timed: (Deed, u32),
    draft: &mut Draft,
) -> bool
    requires suits { Suits ask.now (St.seat store.old) }
    requires moment { ask.now.moment ≤ stamp_limit }
    ensures follows { Follows (St.seat store.old) (St.seat store.new) }
    ensures others { LeavesOthers (St.seat store.old) (St.seat store.new) }
    ensures marks { KeepsMarks (St.marked store.old) (St.marked store.new) (St.seat store.old) (St.seat store.new) }
{
    let (deed, settle) = timed;
    match deed {
        Deed::AddUnit => add_unit(alloc, store, ask, draft),
        Deed::Buy(item) => buy_item(alloc, store, ask, item, None, draft),
        Deed::Ship => buy_item(alloc, store, ask, 7, Some(41), draft),
        Deed::Reprice => reprice(alloc, store, ask, 2_000, draft),
        Deed::Raise(from) => reprice(alloc, store, ask, raised(settle, from), draft),
        Deed::AddItem => add_item(alloc, store, ask, draft),
    }
}

/// One more unit of item 2 into cart 1; whether that was done.
#[tactic(auto, using(shop_attempt::proofs::cited::Looks::follows_trans))]
fn add_unit<St: Store>(alloc: Global, store: &mut St, ask: &Ask, draft: &mut Draft) -> bool
    requires suits { Suits ask.now (St.seat store.old) }
    requires moment { ask.now.moment ≤ stamp_limit }
    ensures follows { Follows (St.seat store.old) (St.seat store.new) }
    ensures others { LeavesOthers (St.seat store.old) (St.seat store.new) }
    ensures marks { KeepsMarks (St.marked store.old) (St.marked store.new) (St.seat store.old) (St.seat store.new) }
{
    match adding(alloc, store, ask, Some(1), 2, draft) {
        Some(attempt) => {
            let changes = attempt.act.is_some();
            settles(store, attempt).is_some() && changes
        }
        None => false,
    }
}

/// A unit of an item into a new cart, which is then bought, and shipped to a country where one is told; whether that was
/// done.
fn buy_item<St: Store>(
    alloc: Global,
    store: &mut St,
    ask: &Ask,
    item: u32,
    country: Option<u32>,
    draft: &mut Draft,
) -> bool
    requires country { IfSome country (Has 92) }
    requires suits { Suits ask.now (St.seat store.old) }
    requires moment { ask.now.moment ≤ stamp_limit }
    ensures follows { Follows (St.seat store.old) (St.seat store.new) }
    ensures others { LeavesOthers (St.seat store.old) (St.seat store.new) }
    ensures marks { KeepsMarks (St.marked store.old) (St.marked store.new) (St.seat store.old) (St.seat store.new) }
{
    match new_cart(alloc, store, ask, item, draft) {
        Some(cart) => buy(alloc, store, ask, cart, country, draft),
        None => false,
    }
}

/// The id of a new cart with a unit of an item.
#[tactic(auto, using(shop_attempt::proofs::cited::Looks::follows_trans))]
pub(crate) fn new_cart<St: Store>(
    alloc: Global,
    store: &mut St,
    ask: &Ask,
    item: u32,
    draft: &mut Draft,
) -> Option<u32>
    requires suits { Suits ask.now (St.seat store.old) }
    requires moment { ask.now.moment ≤ stamp_limit }
    ensures follows { Follows (St.seat store.old) (St.seat store.new) }
    ensures others { LeavesOthers (St.seat store.old) (St.seat store.new) }
    ensures marks { KeepsMarks (St.marked store.old) (St.marked store.new) (St.seat store.old) (St.seat store.new) }
{
    match adding(alloc, store, ask, None, item, draft) {
        Some(attempt) => settles(store, attempt)?.ids.cart,
        None => None,
    }
}

/// A cart, bought by customer 11; whether that was done.
#[tactic(auto, using(shop_attempt::proofs::cited::Looks::follows_trans))]
fn buy<St: Store>(
    alloc: Global,
    store: &mut St,
    ask: &Ask,
    cart: u32,
    country: Option<u32>,
    draft: &mut Draft,
) -> bool
    requires country { IfSome country (Has 92) }
    requires suits { Suits ask.now (St.seat store.old) }
    requires moment { ask.now.moment ≤ stamp_limit }
    ensures follows { Follows (St.seat store.old) (St.seat store.new) }
    ensures others { LeavesOthers (St.seat store.old) (St.seat store.new) }
    ensures marks { KeepsMarks (St.marked store.old) (St.marked store.new) (St.seat store.old) (St.seat store.new) }
{
    let Ok(asked) = purchase(alloc, 11, cart, country) else {
        return false;
    };
    match buying(alloc, store, ask, &asked, draft) {
        Some(attempt) => settles(store, attempt).is_some(),
        None => false,
    }
}

/// Item 1 at another cost; whether that was done.
#[tactic(auto, using(shop_attempt::proofs::cited::Looks::follows_trans))]
fn reprice<St: Store>(
    alloc: Global,
    store: &mut St,
    ask: &Ask,
    cost: u64,
    draft: &mut Draft,
) -> bool
    requires cost { IsCost cost }
    requires suits { Suits ask.now (St.seat store.old) }
    requires moment { ask.now.moment ≤ stamp_limit }
    ensures follows { Follows (St.seat store.old) (St.seat store.new) }
    ensures others { LeavesOthers (St.seat store.old) (St.seat store.new) }
    ensures marks { KeepsMarks (St.marked store.old) (St.marked store.new) (St.seat store.old) (St.seat store.new) }
{
    match repricing(alloc, store, ask, cost, draft) {
        Some(attempt) => settles(store, attempt).is_some(),
        None => false,
    }
}

/// A new item; whether that was done.
#[tactic(auto, using(shop_attempt::proofs::cited::Looks::follows_trans))]
fn add_item<St: Store>(alloc: Global, store: &mut St, ask: &Ask, draft: &mut Draft) -> bool
    requires suits { Suits ask.now (St.seat store.old) }
    requires moment { ask.now.moment ≤ stamp_limit }
    ensures follows { Follows (St.seat store.old) (St.seat store.new) }
    ensures others { LeavesOthers (St.seat store.old) (St.seat store.new) }
    ensures marks { KeepsMarks (St.marked store.old) (St.marked store.new) (St.seat store.old) (St.seat store.new) }
{
    match adding_item(alloc, store, ask, draft) {
        Some(attempt) => settles(store, attempt).is_some(),
        None => false,
    }
}

/// The attempt that a request for a cart makes.
pub(crate) fn changing<St: Store>(
    alloc: Global,
    store: &mut St,
    ask: &Ask,
    asked: &CartRequest,
    draft: &mut Draft,
) -> Option<Attempt>
    requires suits { Suits ask.now (St.seat store.old) }
    ensures looks { Looks St.seat St.marked store.old store.new }
    ensures faithful { IfSome result (Faithful (St.seat store.new).opening (St.seat store.new).seen) }
    ensures moment { IfSome result (λ attempt. attempt.moment ≡ ask.now.moment) }
{
    match shopping_cart(alloc, store, ask, asked, draft) {
        Attempted::Ready(attempt) => Some(attempt),
        Attempted::Listed(_, _) => None,
        Attempted::Pay(_) => None,
        Attempted::Contradiction(_) => None,
        Attempted::Memory => None,
    }
}

/// The attempt to add a unit of an item to a cart, or to a new one.
fn adding<St: Store>(
    alloc: Global,
    store: &mut St,
    ask: &Ask,
    cart: Option<u32>,
    item: u32,
    draft: &mut Draft,
) -> Option<Attempt>
    requires suits { Suits ask.now (St.seat store.old) }
    ensures looks { Looks St.seat St.marked store.old store.new }
    ensures faithful { IfSome result (Faithful (St.seat store.new).opening (St.seat store.new).seen) }
    ensures moment { IfSome result (λ attempt. attempt.moment ≡ ask.now.moment) }
{
    let asked = CartRequest {
        item: Some(item),
        sets: Listed::new(alloc),
        ids: IdsAsked { c: None, cart },
    };
    changing(alloc, store, ask, &asked, draft)
}

/// A text of a form.
pub(crate) fn filled(alloc: Global, text: &[u8]) -> Result<Text, Memory>
    requires { IsFilled text.now }
    ensures { IfOk result IsFilled }
{
    Text::copy(alloc, text)
}

/// What item 1 is to cost.
fn repriced(alloc: Global, cost: u64) -> Result<Shared<AdminConfirm>, Memory>
    requires { IsCost cost }
{
    let asked = AdminConfirm {
        item: 1,
        cost,
        image: filled(alloc, b"/i.gif")?,
        thumb: filled(alloc, b"/t.gif")?,
        ids: IdsAsked {
            c: None,
            cart: None,
        },
    };
    Shared::new(alloc, asked)
}

/// The attempt to let item 1 cost this.
fn repricing<St: Store>(
    alloc: Global,
    store: &mut St,
    ask: &Ask,
    cost: u64,
    draft: &mut Draft,
) -> Option<Attempt>
    requires cost { IsCost cost }
    requires suits { Suits ask.now (St.seat store.old) }
    ensures looks { Looks St.seat St.marked store.old store.new }
    ensures faithful { IfSome result (Faithful (St.seat store.new).opening (St.seat store.new).seen) }
    ensures moment { IfSome result (λ attempt. attempt.moment ≡ ask.now.moment) }
{
    let Ok(asked) = repriced(alloc, cost) else {
        return None;
    };
    match admin_confirm(alloc, store, ask, &asked, draft) {
        Attempted::Ready(attempt) => Some(attempt),
        Attempted::Listed(_, _) => None,
        Attempted::Pay(_) => None,
        Attempted::Contradiction(_) => None,
        Attempted::Memory => None,
    }
}

/// An item, whose title has a word that searches look for.
fn item(alloc: Global) -> Result<AdminAdd, Memory> {
    Ok(AdminAdd {
        title: filled(alloc, b"Amber Harbour")?,
        author: 3,
        subject: Subject::NonFiction,
        publisher: filled(alloc, b"Elm Press")?,
        about: filled(alloc, b"New.")?,
        image: filled(alloc, b"/i.gif")?,
        thumb: filled(alloc, b"/t.gif")?,
        srp: 2_000,
        cost: 1_500,
        stock: 20,
        pages: 100,
        backing: Backing::Audio,
        ids: IdsAsked {
            c: None,
            cart: None,
        },
    })
}

/// That this item is added.
fn addition(alloc: Global) -> Result<Shared<AdminAdd>, Memory> {
    Shared::new(alloc, item(alloc)?)
}

/// The attempt to add it.
fn adding_item<St: Store>(
    alloc: Global,
    store: &mut St,
    ask: &Ask,
    draft: &mut Draft,
) -> Option<Attempt>
    requires suits { Suits ask.now (St.seat store.old) }
    ensures looks { Looks St.seat St.marked store.old store.new }
    ensures faithful { IfSome result (Faithful (St.seat store.new).opening (St.seat store.new).seen) }
    ensures moment { IfSome result (λ attempt. attempt.moment ≡ ask.now.moment) }
{
    let Ok(asked) = addition(alloc) else {
        return None;
    };
    match admin_add(alloc, store, ask, &asked, draft) {
        Attempted::Ready(attempt) => Some(attempt),
        Attempted::Listed(_, _) => None,
        Attempted::Pay(_) => None,
        Attempted::Contradiction(_) => None,
        Attempted::Memory => None,
    }
}

/// The card of whoever buys.
fn card(alloc: Global) -> Result<Card, Memory> {
    Ok(Card {
        card: CardType::Visa,
        number: CardNumber::of_number(4_111_222_233_334_444),
        name: filled(alloc, b"G")?,
        expiry: Month::new(*b"2027-05"),
    })
}

/// An address in a country.
pub(crate) fn address_in(alloc: Global, country: u32) -> Result<AddressText, Memory>
    requires { Has 92 country }
    ensures { IfOk result IsAddressAsked }
{
    Ok(AddressText {
        street1: filled(alloc, b"1 Way")?,
        street2: Text::new(alloc),
        city: filled(alloc, b"Ulm")?,
        state: Text::new(alloc),
        zip: filled(alloc, b"89073")?,
        country,
    })
}

/// The same where a country is told.
fn address_to(alloc: Global, country: Option<u32>) -> Result<Option<AddressText>, Memory>
    requires { IfSome country (Has 92) }
    ensures { IfOk result (λ address. IfSome address IsAddressAsked) }
{
    match country {
        Some(country) => Ok(Some(address_in(alloc, country)?)),
        None => Ok(None),
    }
}

/// That a customer buys a cart, and has it shipped to a country where one is told.
pub(crate) fn purchase(
    alloc: Global,
    customer: u32,
    cart: u32,
    country: Option<u32>,
) -> Result<Shared<BuyConfirm>, Memory>
    requires { IfSome country (Has 92) }
{
    let asked = BuyConfirm {
        c: customer,
        cart,
        payment: card(alloc)?,
        ship: ShipType::Mail,
        address: address_to(alloc, country)?,
    };
    Shared::new(alloc, asked)
}

/// The attempt at a purchase, paid by caller 2 at a gateway of its own.
pub(crate) fn buying<St: Store>(
    alloc: Global,
    store: &mut St,
    ask: &Ask,
    asked: &Shared<BuyConfirm>,
    draft: &mut Draft,
) -> Option<Attempt>
    requires suits { Suits ask.now (St.seat store.old) }
    ensures looks { Looks St.seat St.marked store.old store.new }
    ensures faithful { IfSome result (Faithful (St.seat store.new).opening (St.seat store.new).seen) }
    ensures moment { IfSome result (λ attempt. attempt.moment ≡ ask.now.moment) }
{
    let Attempted::Pay(attempt) = buy_confirm(alloc, store, ask, asked.get(), draft) else {
        return None;
    };
    let call = Call {
        caller: 2,
        number: 2,
    };
    let mut kept = None;
    let mut gateway = Emulator::new(alloc);
    let paying = Paying { ask, asked, call };
    match pay(alloc, &paying, attempt, &mut kept, &mut gateway, draft) {
        Paid::Approved(attempt) => Some(attempt),
        Paid::Denied(_, _) => None,
        Paid::Failed => None,
        Paid::Memory => None,
    }
}

/// Settles an attempt; what was drawn, where that was done.
pub(crate) fn settles<St: Store>(store: &mut St, attempt: Attempt) -> Option<Drawn>
    requires faithful { Faithful (St.seat store.old).opening (St.seat store.old).seen attempt }
    requires moment { attempt.moment ≤ stamp_limit }
    ensures follows { Follows (St.seat store.old) (St.seat store.new) }
    ensures others { LeavesOthers (St.seat store.old) (St.seat store.new) }
    ensures marks { KeepsMarks (St.marked store.old) (St.marked store.new) (St.seat store.old) (St.seat store.new) }
{
    match store.settle(attempt) {
        Settle::Done(drawn) => Some(drawn),
        Settle::Stale(_) => None,
        Settle::Full(_) => None,
        Settle::Memory => None,
    }
}
