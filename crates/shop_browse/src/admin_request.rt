ghost use Rattle.std.specs.Prelude.{◌++◌, OnOk, codes, decimal};
ghost use Rattle.shop_model.specs.pages.PageText.{block_line};
ghost use Rattle.shop_model.specs.pages.AdminRequest as spec;
ghost use Rattle.shop_model.specs.declared.page.Block.TheVariants as block;
ghost use Rattle.shop_draft.specs.Drawing.{ids_at};
ghost use Rattle.shop_draft.specs.Pages.{Shows};
ghost use Rattle.shop_draft.specs.Templates.{Says};
ghost use Rattle.shop_attempt.specs.Marks.{Looks};
ghost use Rattle.shop_browse.specs.Attempts.{AttemptedAs, Suits, asking_of};

use crate::driver::attempt_by;
use crate::item_pages::ItemPage;
use crate::product_detail::picture;
use crate::{Ask, Attempted};
use shop_attempt::Store;
use shop_draft::{Draft, PageIds, Template};
use shop_model::{AdminRequest, Item, Request};
use shop_text::Memory;
use std::alloc::Global;

#[tactic(auto, unfolding(shop_model::specs::pages::PageText::block_text))]
fn heading(page: &mut Template, item: &Item) -> Result<(), Memory>
    ensures { OnOk result (Says page.old page.new (block_line (block.Heading (codes "Item " ++ decimal item.now.id)))) }
{
    page.number(b"<h1>Item ", u64::from(item.id))?;
    page.put(b"</h1>\n")?;
    Ok(())
}

fn title(page: &mut Template, item: &Item) -> Result<(), Memory>
    ensures { OnOk result (Says page.old page.new (block_line (block.Para item.now.title))) }
{
    page.para(&item.details.get().title)?;
    Ok(())
}

/// Writes the page of an item.
pub(crate) fn write_page(draft: &mut Draft, item: &Item, ids: PageIds) -> Result<(), Memory>
    ensures { OnOk result (Shows draft.new (λ drawn. spec.admin_page item.now (ids_at drawn ids))) }
{
    draft.status = 200;
    let page = &mut draft.page;
    page.begin(b"Admin Request")?;
    heading(page, item)?;
    title(page, item)?;
    picture(page, item)?;
    page.admin_form(item, ids)?;
    page.nav(ids)?;
    page.end()?;
    Ok(())
}

/// The form in which the item with this number is changed.
#[inline(never)]
pub fn admin_request<St: Store>(
    alloc: Global,
    store: &mut St,
    ask: &Ask,
    asked: &AdminRequest,
    draft: &mut Draft,
) -> Attempted
    requires suits { Suits ask.now (St.seat store.old) }
    ensures looks { Looks St.seat St.marked store.old store.new }
    ensures attempted { AttemptedAs (St.seat store.old) (St.seat store.new) (asking_of ask.now (Request.AdminRequest asked.now)) draft.new result }
{
    attempt_by(alloc, store, ask, ItemPage::Admin(asked), draft)
}
