//! The page of an order, and that of who has none.
ghost use Rattle.std.specs.Prelude.{◌++◌, ◌∷◌, [], ◌≡◌, Some, OnOk, codes, decimal, map};
ghost use Rattle.std.specs.List.{flat_map};
ghost use Rattle.shop_model.specs.declared.page.Block.TheVariants as block;
ghost use Rattle.shop_model.specs.declared.tables.Tables.{Tables};
ghost use Rattle.shop_model.specs.pages.OrderDisplay as spec;
ghost use Rattle.shop_model.specs.pages.PageText.{block_line, row_text};
ghost use Rattle.shop_model.specs.rows.Lookups.{title_of};
ghost use Rattle.shop_model.specs.pages.Priced.{line_cells, lines_table, totals_text};
ghost use Rattle.shop_model.specs.trade.Money.{charged};
ghost use Rattle.shop_browse.specs.Names.{known_title};
ghost use Rattle.shop_draft.specs.Drawing.{ids_at};
ghost use Rattle.shop_draft.specs.Pages.{Shows};
ghost use Rattle.shop_draft.specs.Templates.{Says};
ghost use Rattle.shop_browse.specs.OrderDisplay.{HaveItems, ShipsTo};

use crate::names::Names;
use shop_draft::{Draft, PageIds, Template};
use shop_model::{Line, Order};
use shop_text::Memory;

/// Adds the row of a line; in every shop the title of its item is known.
fn row(page: &mut Template, names: Names, line: &Line) -> Result<(), Memory>
    ensures { OnOk result ((t : Tables) → known_title names.entry line.now.item ≡ Some (title_of t line.now.item) → Says page.old page.new (row_text (line_cells t line.now))) }
{
    match names.title_of(line.item) {
        Some(title) => page.line_row(line.item, title, line.quantity, line.cost)?,
        None => {}
    }
    Ok(())
}

fn rows(page: &mut Template, names: Names, lines: &[Line]) -> Result<(), Memory>
    ensures { OnOk result ((t : Tables) → HaveItems t names.entry lines.now → Says page.old page.new (flat_map row_text (map (line_cells t) lines.now))) }
{
    for line in lines {
        row(page, names, line)?;
    }
    Ok(())
}

/// Adds the table of lines.
#[tactic(auto, unfolding(shop_model::specs::pages::PageText::block_text, shop_model::specs::pages::Priced::lines_table))]
fn table(page: &mut Template, names: Names, lines: &[Line]) -> Result<(), Memory>
    ensures { OnOk result ((t : Tables) → HaveItems t names.entry lines.now → Says page.old page.new (block_line (lines_table t lines.now))) }
{
    page.put(b"<table>")?;
    rows(page, names, lines)?;
    page.put(b"</table>\n")?;
    Ok(())
}

#[tactic(auto, unfolding(shop_model::specs::pages::PageText::block_text))]
fn heading(page: &mut Template, order: &Order) -> Result<(), Memory>
    ensures { OnOk result (Says page.old page.new (block_line (block.Heading (codes "Order " ++ decimal order.now.id)))) }
{
    page.number(b"<h1>Order ", u64::from(order.id))?;
    page.put(b"</h1>\n")?;
    Ok(())
}

/// Adds the paragraph of what the order comes to.
fn totals(page: &mut Template, order: &Order) -> Result<(), Memory>
    ensures { OnOk result (Says page.old page.new (block_line (block.Para (totals_text (charged order.now))))) }
{
    page.totals(order.sub, order.tax, order.ship, order.total)?;
    Ok(())
}

/// Writes the page of an order, by its city and the name of its country, with the titles that are known.
pub(crate) fn order_page(
    draft: &mut Draft,
    ids: PageIds,
    names: Names,
    order: &Order,
    city: &[u8],
    country: &[u8],
) -> Result<(), Memory>
    ensures { OnOk result ((t : Tables) → ShipsTo t order.now.ship_address city.now country.now → HaveItems t names.entry order.now.lines
        → Shows draft.new (λ drawn. spec.order_page t (ids_at drawn ids) order.now)) }
{
    draft.status = 200;
    let page = &mut draft.page;
    page.begin(b"Order Display")?;
    heading(page, order)?;
    page.placed(order)?;
    table(page, names, order.lines.as_slice())?;
    totals(page, order)?;
    page.ship_to(city, country)?;
    page.paid(&order.card)?;
    page.nav(ids)?;
    page.end()?;
    Ok(())
}

/// Adds a heading, and that there is no order.
#[tactic(auto, unfolding(shop_model::specs::pages::PageText::block_text))]
fn none(page: &mut Template) -> Result<(), Memory>
    ensures { OnOk result (Says page.old page.new (flat_map block_line (block.Heading (codes "Orders") ∷ block.Para (codes "No order yet.") ∷ []))) }
{
    page.put(b"<h1>Orders</h1>\n<p>No order yet.</p>\n")?;
    Ok(())
}

/// Writes the page of who has no order.
pub(crate) fn no_order_page(draft: &mut Draft, ids: PageIds) -> Result<(), Memory>
    ensures { OnOk result (Shows draft.new (λ drawn. spec.no_order_page (ids_at drawn ids))) }
{
    draft.status = 200;
    let page = &mut draft.page;
    page.begin(b"Order Display")?;
    none(page)?;
    page.nav(ids)?;
    page.end()?;
    Ok(())
}
