//! The table of a cart's lines, and their sum.
ghost use Rattle.std.specs.Prelude.{◌≡◌, ◌*◌, ◌≤◌, ◌++◌, OnOk, codes, map};
ghost use Rattle.std.specs.List.{flat_map};
ghost use Rattle.shop_text.specs.Texts.{escape};
ghost use Rattle.shop_model.specs.declared.page.Block.TheVariants as block;
ghost use Rattle.shop_model.specs.declared.tables.Tables.{Tables};
ghost use Rattle.shop_model.specs.pages.ShoppingCart.{line_cells};
ghost use Rattle.shop_model.specs.rows.Limits.{price_limit, quantity_limit};
ghost use Rattle.shop_model.specs.pages.PageText.{block_line, row_text};
ghost use Rattle.shop_draft.specs.Templates.{Says};
ghost use Rattle.shop_attempt.specs.Reads.{Shows};
ghost use Rattle.shop_pricing.specs.Bounds.{AreLines};
ghost use Rattle.shop_order.specs.ShoppingCart.{AreItems};
ghost use Rattle.shop_order.specs.Table as spec;

use shop_attempt::ReadOf;
use shop_draft::Template;
use shop_history::Row;
use shop_text::Memory;

/// Adds a cell's front, and the title of the item in a row; another row has none.
fn title(page: &mut Template, row: &Row) -> Result<(), Memory>
    ensures { OnOk result (Says page.old page.new (codes "</td><td>" ++ escape (spec.title_in row.now))) }
{
    match row {
        Row::Item(item) => page.text(b"</td><td>", &item.details.get().title)?,
        _ => page.put(b"</td><td>")?,
    }
    Ok(())
}

/// The cost of one unit of the item in a row, in cents.
pub(crate) fn cost(row: &Row) -> u64
    ensures value { result ≡ spec.cost_in row.now }
    ensures most { result ≤ price_limit }
{
    match row {
        Row::Item(item) => item.details.get().cost,
        _ => 0,
    }
}

/// What a line costs, in cents.
#[tactic(auto, using(crate::proofs::TableLemmas::cost_bound))]
fn line_cost(line: (u32, u32), row: &Row) -> u64
    requires { line.1 ≤ quantity_limit }
    ensures value { result ≡ spec.cost_in row.now * line.1 }
    ensures most { result ≤ 998_999_001 }
{
    cost(row) * u64::from(line.1)
}

/// Adds item, title, quantity, cost of one, cost of all.
fn row(page: &mut Template, line: (u32, u32), row: &Row) -> Result<(), Memory>
    requires { line.1 ≤ quantity_limit }
    ensures { OnOk result (Says page.old page.new (row_text (spec.cells_in line row.now))) }
{
    page.number(b"<tr><td>", u64::from(line.0))?;
    title(page, row)?;
    page.number(b"</td><td>", u64::from(line.1))?;
    page.money(b"</td><td>", cost(row))?;
    page.money(b"</td><td>", line_cost(line, row))?;
    page.put(b"</td></tr>")?;
    Ok(())
}

fn rows(page: &mut Template, lines: &[(u32, u32)], items: &[ReadOf]) -> Result<(), Memory>
    requires items { AreItems lines.now items.now }
    requires lines { AreLines lines.now }
    ensures { OnOk result ((t : Tables) → Shows t items.now → Says page.old page.new (flat_map row_text (map (line_cells t) lines.now))) }
{
    for (place, line) in lines.iter().enumerate() {
        row(page, *line, &items[place].row)?;
    }
    Ok(())
}

/// Adds the table.
#[tactic(auto, unfolding(shop_model::specs::pages::PageText::block_text))]
pub(crate) fn table(
    page: &mut Template,
    lines: &[(u32, u32)],
    items: &[ReadOf],
) -> Result<(), Memory>
    requires items { AreItems lines.now items.now }
    requires lines { AreLines lines.now }
    ensures { OnOk result ((t : Tables) → Shows t items.now → Says page.old page.new (block_line (block.Table (map (line_cells t) lines.now)))) }
{
    page.put(b"<table>")?;
    rows(page, lines, items)?;
    page.put(b"</table>\n")?;
    Ok(())
}

/// What lines cost together, in cents.
pub(crate) fn sum(lines: &[(u32, u32)], items: &[ReadOf]) -> u64
    requires items { AreItems lines.now items.now }
    requires lines { AreLines lines.now }
    ensures { spec.IsSumOf lines.now items.now result }
{
    let mut sum = 0;
    for (place, line) in lines.iter().enumerate() {
        sum += line_cost(*line, &items[place].row);
    }
    sum
}
