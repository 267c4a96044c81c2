ghost use Rattle.std.specs.Prelude.{OnOk, codes};
ghost use Rattle.shop_model.specs.pages.PageText.{block_line};
ghost use Rattle.shop_model.specs.declared.page.Block.TheVariants as block;
ghost use Rattle.shop_draft.specs.Drawing.{ids_at};
ghost use Rattle.shop_draft.specs.Pages.{Shows};
ghost use Rattle.shop_draft.specs.Templates.{Says};
ghost use Rattle.shop_attempt.specs.Marks.{Looks};
ghost use Rattle.shop_browse.specs.Attempts.{AttemptedAs, Suits, asking_of};
ghost use Rattle.shop_browse.specs.SearchRequest.{FollowsSearch, search_in};

use crate::counting::{count_in, drawn_key};
use crate::driver::{Interaction, Next, attempt_counted};
use crate::names::{Names, unread_labels};
use crate::related::{promotion, related_in};
use crate::{Ask, Attempted};
use shop_attempt::{ReadOf, Store};
use shop_draft::{Draft, PageIds, Template};
use shop_model::{Request, SearchRequest};
use shop_text::Memory;
use std::alloc::Global;

/// Adds the heading.
#[tactic(auto, unfolding(shop_model::specs::pages::PageText::block_text))]
fn heading(page: &mut Template) -> Result<(), Memory>
    ensures { OnOk result (Says page.old page.new (block_line (block.Heading (codes "Search")))) }
{
    page.put(b"<h1>Search</h1>\n")?;
    Ok(())
}

/// Writes the form of a search, with a promotion of these items.
fn write_page(draft: &mut Draft, ids: PageIds, names: Names, items: &[u32]) -> Result<(), Memory>
    ensures { OnOk result (Shows draft.new (λ drawn. search_in names.entry (ids_at drawn ids) items.now)) }
{
    draft.status = 200;
    let page = &mut draft.page;
    page.begin(b"Search Request")?;
    heading(page)?;
    promotion(page, ids, names, items)?;
    page.search_form(ids)?;
    page.nav(ids)?;
    page.end()?;
    Ok(())
}

impl<'a> Interaction for &'a SearchRequest {
    ghost use Rattle.shop_model.specs.declared.requests.Request.TheVariants as request_kinds;

    ghost request = { λ asked. request_kinds.SearchRequest asked.now };

    ghost follows = { λ asked. FollowsSearch };

    fn next(
        &mut self,
        alloc: Global,
        ask: &Ask,
        round: u32,
        reads: &[ReadOf],
        draft: &mut Draft,
    ) -> Result<Next, Memory> {
        let items = count_in(&reads[0]);
        if round == 0 {
            return Ok(Next::ReadOne(drawn_key(ask.draw, items)));
        }
        let related = related_in(&reads[1].row);
        if round == 1 {
            if let Some(keys) = unread_labels(alloc, ask.index, items, related)? {
                return Ok(Next::Read(keys));
            }
        }
        let names = Names {
            index: ask.index,
            labels: &reads[2..],
        };
        write_page(draft, PageIds::of(self.ids), names, related)?;
        Ok(Next::Show)
    }
}

/// The promotion and a form to search with; the customer isn't looked at.
#[inline(never)]
pub fn search_request<St: Store>(
    alloc: Global,
    store: &mut St,
    ask: &Ask,
    asked: &SearchRequest,
    draft: &mut Draft,
) -> Attempted
    requires suits { Suits ask.now (St.seat store.old) }
    ensures looks { Looks St.seat St.marked store.old store.new }
    ensures attempted { AttemptedAs (St.seat store.old) (St.seat store.new) (asking_of ask.now (Request.SearchRequest asked.now)) draft.new result }
{
    attempt_counted(alloc, store, ask, asked, draft)
}
