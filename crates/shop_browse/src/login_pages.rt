//! Customer Registration and Order Inquiry: pages on which a customer logs in.
ghost use Rattle.std.specs.Prelude.{◌≡◌, OnOk, option_copied};
ghost use Rattle.shop_draft.specs.Drawing.{ids_at};
ghost use Rattle.shop_draft.specs.Pages.{Shows};
ghost use Rattle.shop_attempt.specs.Marks.{Looks};
ghost use Rattle.shop_browse.specs.Attempts.{AttemptedAs, Suits, asking_of};
ghost use Rattle.shop_browse.specs.Known.{FollowsKnown};
ghost use Rattle.shop_browse.specs.LoginPages as spec;

use crate::driver::{Interaction, Next, attempt_by};
use crate::known::{Known, customer_known, id_of};
use crate::{Ask, Attempted};
use shop_attempt::{ReadOf, Store};
use shop_draft::{Draft, PageIds, refusal};
use shop_history::Key;
use shop_model::{Customer, CustomerRegistration, IdsAsked, OrderInquiry, Refusal, Request};
use shop_text::Memory;
use std::alloc::Global;

/// A request for a page on which a customer logs in.
#[derive(Clone, Copy)]
enum LoginPage<'a> {
    Registration(&'a CustomerRegistration),
    Inquiry(&'a OrderInquiry),
}

/// The ids that a request carries along.
fn ids_of(asked: LoginPage) -> IdsAsked
    ensures { result ≡ spec.ids_of asked.entry }
{
    match asked {
        LoginPage::Registration(asked) => asked.ids,
        LoginPage::Inquiry(asked) => asked.ids,
    }
}

/// Writes the page for a customer or for anyone.
fn write_page(
    draft: &mut Draft,
    asked: LoginPage,
    ids: PageIds,
    customer: Option<&Customer>,
) -> Result<(), Memory>
    ensures { OnOk result (Shows draft.new (λ drawn. spec.page_with asked.entry (ids_at drawn ids) (option_copied customer.entry))) }
{
    draft.status = 200;
    let page = &mut draft.page;
    let user = id_of(customer);
    match asked {
        LoginPage::Registration(_) => {
            page.begin(b"Customer Registration")?;
            page.put(b"<h1>Your details</h1>\n")?;
            page.login_form(b"/buy_request", user, ids)?;
            page.newcomer_form(ids)?;
            page.nav(ids)?;
            page.end()
        }
        LoginPage::Inquiry(_) => {
            page.begin(b"Order Inquiry")?;
            page.put(b"<h1>Order inquiry</h1>\n")?;
            page.login_form(b"/order_display", user, ids)?;
            page.nav(ids)?;
            page.end()
        }
    }
}

impl<'a> Interaction for LoginPage<'a> {
    ghost request = { spec.request_of };

    ghost follows = { λ asked ask. FollowsKnown (spec.ids_of asked).c };

    fn next(
        &mut self,
        alloc: Global,
        ask: &Ask,
        round: u32,
        reads: &[ReadOf],
        draft: &mut Draft,
    ) -> Result<Next, Memory> {
        let _ = alloc;
        let _ = ask;
        let ids = ids_of(*self);
        match customer_known(ids.c, round, reads) {
            Known::Unread(number) => Ok(Next::ReadOne(Key::Customer(number))),
            Known::Is(customer) => {
                write_page(draft, *self, PageIds::of(ids), customer)?;
                Ok(Next::Show)
            }
            Known::Missing => {
                refusal(draft, Refusal::NoCustomer)?;
                Ok(Next::Show)
            }
            Known::Never => Ok(Next::Never),
        }
    }
}

/// The forms of a customer who returns, whose number may be given, and of a new one.
#[inline(never)]
pub fn customer_registration<St: Store>(
    alloc: Global,
    store: &mut St,
    ask: &Ask,
    asked: &CustomerRegistration,
    draft: &mut Draft,
) -> Attempted
    requires suits { Suits ask.now (St.seat store.old) }
    ensures looks { Looks St.seat St.marked store.old store.new }
    ensures attempted { AttemptedAs (St.seat store.old) (St.seat store.new) (asking_of ask.now (Request.CustomerRegistration asked.now)) draft.new result }
{
    attempt_by(alloc, store, ask, LoginPage::Registration(asked), draft)
}

/// The form in which a customer, whose number may be given, asks for its last order.
#[inline(never)]
pub fn order_inquiry<St: Store>(
    alloc: Global,
    store: &mut St,
    ask: &Ask,
    asked: &OrderInquiry,
    draft: &mut Draft,
) -> Attempted
    requires suits { Suits ask.now (St.seat store.old) }
    ensures looks { Looks St.seat St.marked store.old store.new }
    ensures attempted { AttemptedAs (St.seat store.old) (St.seat store.new) (asking_of ask.now (Request.OrderInquiry asked.now)) draft.new result }
{
    attempt_by(alloc, store, ask, LoginPage::Inquiry(asked), draft)
}
