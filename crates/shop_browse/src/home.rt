ghost use Rattle.std.specs.Prelude.{Some, IfOk, OnOk, codes, option_copied};
ghost use Rattle.std.specs.List.{flat_map};
ghost use Rattle.shop_model.specs.pages.PageText.{block_line};
ghost use Rattle.shop_model.specs.declared.page.Block.TheVariants as block;
ghost use Rattle.shop_draft.specs.Drawing.{ids_at};
ghost use Rattle.shop_draft.specs.Pages.{Shows};
ghost use Rattle.shop_draft.specs.Templates.{Adds, Says};
ghost use Rattle.shop_model.specs.pages.Home as spec;
ghost use Rattle.shop_attempt.specs.Marks.{Looks};
ghost use Rattle.shop_browse.specs.Attempts.{AttemptedAs, Suits, asking_of};
ghost use Rattle.shop_browse.specs.Home.{FollowsHome, IsGreeting, home_in};

use crate::counting::{count_in, drawn_key};
use crate::driver::{Interaction, Next, attempt_counted};
use crate::names::{Names, unread_labels};
use crate::related::{promotion, related_in};
use crate::{Ask, Attempted};
use shop_attempt::{ReadOf, Store};
use shop_draft::{Draft, PageIds, Template, refusal};
use shop_history::{Key, Row};
use shop_model::{Customer, Home, IdsAsked, Refusal, Request, Subject};
use shop_text::Memory;
use std::alloc::Global;

/// Adds the heading.
#[tactic(auto, unfolding(shop_model::specs::pages::PageText::block_text))]
fn heading(page: &mut Template) -> Result<(), Memory>
    ensures { OnOk result (Says page.old page.new (block_line (block.Heading (codes "Welcome")))) }
{
    page.put(b"<h1>Welcome</h1>\n")?;
    Ok(())
}

#[tactic(auto, using(shop_text::proofs::cited::Plain::escape_append), unfolding(shop_model::specs::pages::PageText::block_text, shop_model::specs::pages::Home::greeting))]
fn greeting(page: &mut Template, customer: &Customer) -> Result<(), Memory>
    ensures { OnOk result (Says page.old page.new (block_line (block.Para (spec.greeting customer.now)))) }
{
    let details = customer.details.get();
    page.text(b"<p>Hello ", &details.first)?;
    page.text(b" ", &details.last)?;
    page.put(b"</p>\n")?;
    Ok(())
}

/// Adds the greeting, where a customer is known.
fn greetings(page: &mut Template, customer: Option<&Customer>) -> Result<(), Memory>
    ensures { OnOk result (Says page.old page.new (flat_map block_line (spec.greetings (option_copied customer.entry)))) }
{
    match customer {
        None => {}
        Some(customer) => greeting(page, customer)?,
    }
    Ok(())
}

/// Adds the ways to the new and the best sold items of a subject.
#[tactic(auto, unfolding(shop_model::specs::pages::Home::subject_links))]
fn subject_links(page: &mut Template, subject: Subject, ids: PageIds) -> Result<(), Memory>
    ensures { OnOk result (Adds page.old page.new (λ drawn. flat_map block_line (spec.subject_links subject (ids_at drawn ids)))) }
{
    page.subject_link(b"/new_products", subject, ids, b"New ")?;
    page.subject_link(b"/best_sellers", subject, ids, b"Best ")?;
    Ok(())
}

/// Writes the page for a customer or for anyone, with a promotion of these items.
fn write_page(
    draft: &mut Draft,
    draw: u32,
    names: Names,
    ids: PageIds,
    customer: Option<&Customer>,
    items: &[u32],
) -> Result<(), Memory>
    ensures { OnOk result (Shows draft.new (λ drawn. home_in names.entry draw (ids_at drawn ids) (option_copied customer.entry) items.now)) }
{
    draft.status = 200;
    let page = &mut draft.page;
    page.begin(b"Home")?;
    heading(page)?;
    greetings(page, customer)?;
    promotion(page, ids, names, items)?;
    subject_links(page, Subject::picked(draw), ids)?;
    page.nav(ids)?;
    page.end()?;
    Ok(())
}

/// Writes the page by what was read of the customer whose number is given, with a promotion of these items.
fn greet(
    draw: u32,
    names: Names,
    ids: IdsAsked,
    known: &Row,
    items: &[u32],
    draft: &mut Draft,
) -> Result<Next, Memory>
    ensures { IfOk result (IsGreeting names.entry draw ids known.now items.now draft.new) }
{
    match known {
        Row::Absent => {
            refusal(draft, Refusal::NoCustomer)?;
            Ok(Next::Show)
        }
        Row::Customer(customer) => {
            write_page(draft, draw, names, PageIds::of(ids), Some(customer), items)?;
            Ok(Next::Show)
        }
        _ => Ok(Next::Never),
    }
}

impl<'a> Interaction for &'a Home {
    ghost use Rattle.shop_model.specs.declared.requests.Request.TheVariants as request_kinds;

    ghost request = { λ asked. request_kinds.Home asked.now };

    ghost follows = { λ asked. FollowsHome asked.now.ids.c };

    fn next(
        &mut self,
        alloc: Global,
        ask: &Ask,
        round: u32,
        reads: &[ReadOf],
        draft: &mut Draft,
    ) -> Result<Next, Memory> {
        let items = count_in(&reads[0]);
        match self.ids.c {
            None => {
                if round == 0 {
                    return Ok(Next::ReadOne(drawn_key(ask.draw, items)));
                }
                let related = related_in(&reads[1].row);
                if round == 1 {
                    if let Some(keys) = unread_labels(alloc, ask.index, items, related)? {
                        return Ok(Next::Read(keys));
                    }
                }
                let names = Names {
                    index: ask.index,
                    labels: &reads[2..],
                };
                write_page(draft, ask.draw, names, PageIds::of(self.ids), None, related)?;
                Ok(Next::Show)
            }
            Some(number) => {
                if round == 0 {
                    let drawn = drawn_key(ask.draw, items);
                    return Ok(Next::ReadTwo(Key::Customer(number), drawn));
                }
                let related = related_in(&reads[2].row);
                if round == 1 {
                    if let Some(keys) = unread_labels(alloc, ask.index, items, related)? {
                        return Ok(Next::Read(keys));
                    }
                }
                let names = Names {
                    index: ask.index,
                    labels: &reads[3..],
                };
                greet(ask.draw, names, self.ids, &reads[1].row, related, draft)
            }
        }
    }
}

/// The promotion, and a greeting for the customer whose number was given.
#[inline(never)]
pub fn home<St: Store>(
    alloc: Global,
    store: &mut St,
    ask: &Ask,
    asked: &Home,
    draft: &mut Draft,
) -> Attempted
    requires suits { Suits ask.now (St.seat store.old) }
    ensures looks { Looks St.seat St.marked store.old store.new }
    ensures attempted { AttemptedAs (St.seat store.old) (St.seat store.new) (asking_of ask.now (Request.Home asked.now)) draft.new result }
{
    attempt_counted(alloc, store, ask, asked, draft)
}
