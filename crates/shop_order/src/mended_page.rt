//! The page of an item that was just administered.
ghost use Rattle.std.specs.Prelude.{◌++◌, OnOk, codes, decimal};
ghost use Rattle.shop_model.specs.declared.page.Block.TheVariants as block;
ghost use Rattle.shop_model.specs.pages.AdminConfirm.{mended_text};
ghost use Rattle.shop_model.specs.pages.PageText.{block_line};
ghost use Rattle.shop_draft.specs.Drawing.{day_after};
ghost use Rattle.shop_draft.specs.Templates.{Adds, Says};
ghost use Rattle.shop_order.specs.AdminConfirm as spec;

use shop_browse::{Names, promotion};
use shop_draft::{Draft, PageIds, Template};
use shop_model::{IdsAsked, Item};
use shop_text::Memory;

#[tactic(auto, unfolding(shop_model::specs::pages::PageText::block_text))]
fn heading(page: &mut Template, item: &Item) -> Result<(), Memory>
    ensures { OnOk result (Says page.old page.new (block_line (block.Heading (codes "Item " ++ decimal item.now.id)))) }
{
    page.number(b"<h1>Item ", u64::from(item.id))?;
    page.put(b"</h1>\n")?;
    Ok(())
}

/// Adds what it costs, and the day of the settle.
fn cost(page: &mut Template, item: &Item) -> Result<(), Memory>
    ensures { OnOk result (Adds page.old page.new (λ drawn. block_line (block.Para (mended_text item.now.cost (day_after drawn.stamp 0))))) }
{
    page.mended(item.details.get().cost)?;
    Ok(())
}

fn image(page: &mut Template, item: &Item) -> Result<(), Memory>
    ensures { OnOk result (Says page.old page.new (block_line (block.Picture item.now.image item.now.title))) }
{
    let details = item.details.get();
    page.picture(&details.image, &details.title)?;
    Ok(())
}

fn thumb(page: &mut Template, item: &Item) -> Result<(), Memory>
    ensures { OnOk result (Says page.old page.new (block_line (block.Picture item.now.thumb item.now.title))) }
{
    let details = item.details.get();
    page.picture(&details.thumb, &details.title)?;
    Ok(())
}

/// Writes the page of an item, with the titles of the related ones that are known.
pub(crate) fn write_page(
    draft: &mut Draft,
    names: Names,
    item: &Item,
    ids: IdsAsked,
) -> Result<(), Memory>
    ensures { OnOk result (spec.IsMendedPage names.entry ids item.now draft.new) }
{
    let ids = PageIds::of(ids);
    draft.status = 200;
    let page = &mut draft.page;
    page.begin(b"Admin Confirm")?;
    heading(page, item)?;
    cost(page, item)?;
    image(page, item)?;
    thumb(page, item)?;
    promotion(page, ids, names, &item.details.get().related)?;
    page.nav(ids)?;
    page.end()?;
    Ok(())
}
