ghost use Rattle.std.specs.Prelude.{◌≡◌, ◌∷◌, [], ◌↔◌, ℕ, IfOk, IsTrue};
ghost use Rattle.shop_history.specs.declared.keys.Key.TheVariants as key_kinds;
ghost use Rattle.shop_attempt.specs.Marks.{Looks};
ghost use Rattle.shop_draft.specs.declared.draft.Draft.{Draft};
ghost use Rattle.shop_model.specs.lists.Catalogues.{Catalogue};
ghost use Rattle.shop_browse.specs.Attempts.{AttemptedAs, Suits, asking_of};
ghost use Rattle.shop_browse.specs.Names.{label_keys};
ghost use Rattle.shop_browse.specs.OrderDisplay.{DisplaysNext, FollowsDisplay, HasAll, ReachesAddress, ReachesCustomer, ReachesLast, ReachesName, ReachesOrder, items_of};

use crate::driver::{Interaction, Next, attempt_by};
use crate::names::{Names, add_label_key};
use crate::order_page::{no_order_page, order_page};
use crate::{Ask, Attempted};
use shop_attempt::{ReadOf, Store};
use shop_draft::{Draft, PageIds, refusal};
use shop_history::{Key, Row};
use shop_model::{Customer, Line, OrderDisplay, Refusal, Request};
use shop_search::Index;
use shop_text::{Listed, Memory, Text, is_digsyl_lower};
use std::alloc::Global;

/// Whether this is the password of a customer.
fn is_password(customer: &Customer, pass: &Text) -> bool
    ensures { IsTrue result ↔ (pass.now ≡ customer.now.password) }
{
    is_digsyl_lower(pass.bytes(), customer.id)
}

/// The key of the user name.
fn name_key(alloc: Global, asked: &OrderDisplay) -> Result<Key, Memory>
    ensures { IfOk result (λ key. key ≡ key_kinds.Name asked.now.login.user) }
{
    Ok(Key::Name(Text::copy(alloc, asked.login.user.bytes())?))
}

/// What is done next by what was read of the user name.
fn by_name(asked: &OrderDisplay, reads: &[ReadOf], draft: &mut Draft) -> Result<Next, Memory>
    requires { ReachesName asked.now.login reads.now }
    ensures { IfOk result (λ next. (c : Catalogue) → DisplaysNext c asked.now 1 reads.now draft.new next) }
{
    match &reads[0].row {
        Row::Absent => {
            refusal(draft, Refusal::NoUserName)?;
            Ok(Next::Show)
        }
        Row::Id(id) => Ok(Next::ReadOne(Key::Customer(*id))),
        _ => Ok(Next::Never),
    }
}

/// What is done next by what was read of the user name and of its customer.
fn by_customer(asked: &OrderDisplay, reads: &[ReadOf], draft: &mut Draft) -> Result<Next, Memory>
    requires { ReachesCustomer asked.now.login reads.now }
    ensures { IfOk result (λ next. (c : Catalogue) → DisplaysNext c asked.now 2 reads.now draft.new next) }
{
    match (&reads[0].row, &reads[1].row) {
        (Row::Id(id), Row::Customer(customer)) => {
            if is_password(customer, &asked.login.pass) {
                Ok(Next::ReadOne(Key::LastOrder(*id)))
            } else {
                refusal(draft, Refusal::WrongPassword)?;
                Ok(Next::Show)
            }
        }
        _ => Ok(Next::Never),
    }
}

/// What is done next for a customer who logs in, by what was read of its last order's id.
fn by_last(asked: &OrderDisplay, reads: &[ReadOf], draft: &mut Draft) -> Result<Next, Memory>
    requires { ReachesLast asked.now.login reads.now }
    ensures { IfOk result (λ next. (c : Catalogue) → DisplaysNext c asked.now 3 reads.now draft.new next) }
{
    match &reads[2].row {
        Row::Absent => {
            no_order_page(draft, PageIds::of(asked.ids))?;
            Ok(Next::Show)
        }
        Row::Id(order) => Ok(Next::ReadOne(Key::Order(*order))),
        _ => Ok(Next::Never),
    }
}

/// What is done next by what was read of the order.
fn by_order(asked: &OrderDisplay, reads: &[ReadOf]) -> Next
    requires { ReachesOrder asked.now.login reads.now }
    ensures { (c : Catalogue) (draft : Draft) → DisplaysNext c asked.now 4 reads.now draft result }
{
    match &reads[3].row {
        Row::Order(order) => Next::ReadOne(Key::Address(order.get().ship_address)),
        _ => Next::Never,
    }
}

/// The keys of a country, and of the labels of the items of lines that an index doesn't have.
fn last_keys(
    alloc: Global,
    index: &Index,
    country: u32,
    lines: &[Line],
) -> Result<Listed<Key>, Memory>
    ensures { IfOk result (λ keys. keys ≡ key_kinds.Country country ∷ label_keys index.now (items_of lines.now)) }
{
    let mut keys = Listed::with_capacity(alloc, 1)?;
    keys.push(Key::Country(country))?;
    for line in lines {
        add_label_key(&mut keys, index, line.item)?;
    }
    Ok(keys)
}

/// Whether an index has the items of all these lines.
fn has_items(index: &Index, lines: &[Line]) -> bool
    ensures { IsTrue result → label_keys index.now (items_of lines.now) ≡ [] }
{
    for line in lines {
        if index.details(line.item).is_none() {
            return false;
        }
    }
    true
}

/// What is done next by what was read of the order and of its address.
fn by_address(
    alloc: Global,
    index: &Index,
    asked: &OrderDisplay,
    reads: &[ReadOf],
) -> Result<Next, Memory>
    requires { ReachesAddress asked.now.login reads.now }
    ensures { IfOk result (λ next. (draft : Draft) → DisplaysNext index.now asked.now 5 reads.now draft next) }
{
    match (&reads[3].row, &reads[4].row) {
        (Row::Order(order), Row::Address(address)) => {
            let country = address.get().text.country;
            let lines = order.get().lines.as_slice();
            if has_items(index, lines) {
                return Ok(Next::ReadOne(Key::Country(country)));
            }
            Ok(Next::Read(last_keys(alloc, index, country, lines)?))
        }
        _ => Ok(Next::Never),
    }
}

/// What is done by all that was read.
fn by_all(
    index: &Index,
    asked: &OrderDisplay,
    reads: &[ReadOf],
    draft: &mut Draft,
) -> Result<Next, Memory>
    requires { HasAll asked.now.login index.now reads.now }
    ensures { IfOk result (λ next. (round : ℕ) → DisplaysNext index.now asked.now round reads.now draft.new next) }
{
    match (&reads[3].row, &reads[4].row, &reads[5].row) {
        (Row::Order(order), Row::Address(address), Row::Country(country)) => {
            let names = Names {
                index,
                labels: &reads[6..],
            };
            let city = address.get().text.city.bytes();
            let country = country.get().name.bytes();
            let ids = PageIds::of(asked.ids);
            order_page(draft, ids, names, order.get(), city, country)?;
            Ok(Next::Show)
        }
        _ => Ok(Next::Never),
    }
}

impl<'a> Interaction for &'a OrderDisplay {
    ghost use Rattle.shop_model.specs.declared.requests.Request.TheVariants as request_kinds;

    ghost request = { λ asked. request_kinds.OrderDisplay asked.now };

    ghost follows = { λ asked ask. FollowsDisplay asked.now ask.index.now };

    fn next(
        &mut self,
        alloc: Global,
        ask: &Ask,
        round: u32,
        reads: &[ReadOf],
        draft: &mut Draft,
    ) -> Result<Next, Memory> {
        match round {
            0 => Ok(Next::ReadOne(name_key(alloc, *self)?)),
            1 => by_name(*self, reads, draft),
            2 => by_customer(*self, reads, draft),
            3 => by_last(*self, reads, draft),
            4 => Ok(by_order(*self, reads)),
            5 => by_address(alloc, ask.index, *self, reads),
            _ => by_all(ask.index, *self, reads, draft),
        }
    }
}

/// The last order of the customer who logs in.
#[inline(never)]
pub fn order_display<St: Store>(
    alloc: Global,
    store: &mut St,
    ask: &Ask,
    asked: &OrderDisplay,
    draft: &mut Draft,
) -> Attempted
    requires suits { Suits ask.now (St.seat store.old) }
    ensures looks { Looks St.seat St.marked store.old store.new }
    ensures attempted { AttemptedAs (St.seat store.old) (St.seat store.new) (asking_of ask.now (Request.OrderDisplay asked.now)) draft.new result }
{
    attempt_by(alloc, store, ask, asked, draft)
}
