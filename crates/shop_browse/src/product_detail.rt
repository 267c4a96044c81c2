ghost use Rattle.std.specs.Prelude.{OnOk};
ghost use Rattle.std.specs.List.{flat_map};
ghost use Rattle.shop_model.specs.pages.PageText.{block_line};
ghost use Rattle.shop_model.specs.pages.ProductDetail as spec;
ghost use Rattle.shop_model.specs.declared.page.Block.TheVariants as block;
ghost use Rattle.shop_draft.specs.Drawing.{ids_at};
ghost use Rattle.shop_draft.specs.Pages.{Shows};
ghost use Rattle.shop_draft.specs.Templates.{Adds, Says};
ghost use Rattle.shop_attempt.specs.Marks.{Looks};
ghost use Rattle.shop_browse.specs.Attempts.{AttemptedAs, Suits, asking_of};

use crate::driver::attempt_by;
use crate::item_pages::ItemPage;
use crate::{Ask, Attempted};
use shop_attempt::Store;
use shop_draft::{Draft, PageIds, Template};
use shop_model::{Author, Item, ProductDetail, Request};
use shop_text::Memory;
use std::alloc::Global;

fn heading(page: &mut Template, item: &Item) -> Result<(), Memory>
    ensures { OnOk result (Says page.old page.new (block_line (block.Heading item.now.title))) }
{
    page.heading(&item.details.get().title)?;
    Ok(())
}

#[tactic(auto, using(shop_text::proofs::cited::Plain::escape_append), unfolding(shop_model::specs::pages::PageText::block_text, shop_model::specs::pages::ProductDetail::author_line))]
fn author_line(page: &mut Template, author: &Author) -> Result<(), Memory>
    ensures { OnOk result (Says page.old page.new (block_line (block.Para (spec.author_line author.now)))) }
{
    page.text(b"<p>By ", &author.first)?;
    page.text(b" ", &author.last)?;
    page.put(b"</p>\n")?;
    Ok(())
}

#[tactic(auto, unfolding(shop_model::specs::pages::PageText::block_text, shop_model::specs::pages::ProductDetail::subject_line))]
fn subject_line(page: &mut Template, item: &Item) -> Result<(), Memory>
    ensures { OnOk result (Says page.old page.new (block_line (block.Para (spec.subject_line item.now)))) }
{
    let details = item.details.get();
    page.plain(b"<p>Subject ", details.subject.name())?;
    page.day(b", published ", item.published)?;
    page.text(b" by ", &details.publisher)?;
    page.put(b"</p>\n")?;
    Ok(())
}

fn about_line(page: &mut Template, item: &Item) -> Result<(), Memory>
    ensures { OnOk result (Says page.old page.new (block_line (block.Para item.now.about))) }
{
    page.para(&item.details.get().about)?;
    Ok(())
}

pub(crate) fn picture(page: &mut Template, item: &Item) -> Result<(), Memory>
    ensures { OnOk result (Says page.old page.new (block_line (block.Picture item.now.image item.now.title))) }
{
    let details = item.details.get();
    page.picture(&details.image, &details.title)?;
    Ok(())
}

#[tactic(auto, using(shop_text::proofs::cited::Plain::escape_append), unfolding(shop_model::specs::pages::PageText::block_text, shop_model::specs::pages::ProductDetail::pages_line))]
fn pages_line(page: &mut Template, item: &Item) -> Result<(), Memory>
    ensures { OnOk result (Says page.old page.new (block_line (block.Para (spec.pages_line item.now)))) }
{
    let details = item.details.get();
    page.plain(b"<p>", details.backing.name())?;
    page.number(b", ", u64::from(details.pages))?;
    page.put(b" pages</p>\n")?;
    Ok(())
}

#[tactic(auto, unfolding(shop_model::specs::pages::PageText::block_text, shop_model::specs::pages::ProductDetail::price_line))]
fn price_line(page: &mut Template, item: &Item) -> Result<(), Memory>
    ensures { OnOk result (Says page.old page.new (block_line (block.Para (spec.price_line item.now)))) }
{
    let details = item.details.get();
    page.money(b"<p>List ", details.srp)?;
    page.money(b", our price ", details.cost)?;
    page.number(b", in stock ", u64::from(item.stock))?;
    page.put(b"</p>\n")?;
    Ok(())
}

/// Adds the picture, the pages, the prices and the way into the cart.
#[tactic(auto, unfolding(shop_model::specs::pages::ProductDetail::details))]
fn details(page: &mut Template, item: &Item, ids: PageIds) -> Result<(), Memory>
    ensures { OnOk result (Adds page.old page.new (λ drawn. flat_map block_line (spec.details item.now (ids_at drawn ids)))) }
{
    picture(page, item)?;
    pages_line(page, item)?;
    price_line(page, item)?;
    page.item_link(b"/shopping_cart", item.id, ids, b"Add to cart")?;
    Ok(())
}

/// Writes the page of an item and its author.
#[tactic(auto, unfolding(shop_model::specs::pages::PageText::page_text, shop_model::specs::pages::ProductDetail::product_page))]
pub(crate) fn write_page(
    draft: &mut Draft,
    item: &Item,
    author: &Author,
    ids: PageIds,
) -> Result<(), Memory>
    ensures { OnOk result (Shows draft.new (λ drawn. spec.product_page item.now author.now (ids_at drawn ids))) }
{
    draft.status = 200;
    let page = &mut draft.page;
    page.begin(b"Product Detail")?;
    heading(page, item)?;
    author_line(page, author)?;
    subject_line(page, item)?;
    about_line(page, item)?;
    details(page, item, ids)?;
    page.nav(ids)?;
    page.end()?;
    Ok(())
}

/// An attempt at the page of the item with this number, which it writes into the draft.
#[inline(never)]
pub fn product_detail<St: Store>(
    alloc: Global,
    store: &mut St,
    ask: &Ask,
    asked: &ProductDetail,
    draft: &mut Draft,
) -> Attempted
    requires suits { Suits ask.now (St.seat store.old) }
    ensures looks { Looks St.seat St.marked store.old store.new }
    ensures attempted { AttemptedAs (St.seat store.old) (St.seat store.new) (asking_of ask.now (Request.ProductDetail asked.now)) draft.new result }
{
    attempt_by(alloc, store, ask, ItemPage::Detail(asked), draft)
}
