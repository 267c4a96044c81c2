//! The page of an item that was just added.
ghost use Rattle.std.specs.Prelude.{◌++◌, OnOk, codes, decimal};
ghost use Rattle.shop_model.specs.declared.page.Block.TheVariants as block;
ghost use Rattle.shop_model.specs.pages.AdminAdd.{added_page};
ghost use Rattle.shop_model.specs.pages.PageText.{block_line};
ghost use Rattle.shop_draft.specs.Pages.{Shows};
ghost use Rattle.shop_draft.specs.Templates.{Says};

use shop_draft::{Draft, PageIds, Template};
use shop_model::AdminAdd;
use shop_text::Memory;

#[tactic(auto, unfolding(shop_model::specs::pages::PageText::block_text))]
fn heading(page: &mut Template, id: u32) -> Result<(), Memory>
    ensures { OnOk result (Says page.old page.new (block_line (block.Heading (codes "Item " ++ decimal id)))) }
{
    page.number(b"<h1>Item ", u64::from(id))?;
    page.put(b"</h1>\n")?;
    Ok(())
}

#[tactic(auto, unfolding(shop_model::specs::pages::PageText::block_text))]
fn title(page: &mut Template, asked: &AdminAdd) -> Result<(), Memory>
    ensures { OnOk result (Says page.old page.new (block_line (block.Para asked.now.title))) }
{
    page.escaped(b"<p>", asked.title.bytes())?;
    page.put(b"</p>\n")?;
    Ok(())
}

/// Writes the page of the item with an id, as it is asked for.
pub(crate) fn write_page(draft: &mut Draft, asked: &AdminAdd, id: u32) -> Result<(), Memory>
    ensures { OnOk result (Shows draft.new (λ drawn. added_page asked.now.ids id asked.now.title)) }
{
    let ids = PageIds::of(asked.ids);
    draft.status = 200;
    let page = &mut draft.page;
    page.begin(b"Admin Add")?;
    heading(page, id)?;
    title(page, asked)?;
    page.item_link(b"/product_detail", id, ids, b"See it")?;
    page.nav(ids)?;
    page.end()?;
    Ok(())
}
