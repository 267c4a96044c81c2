//! Links to the items that are related to one.
ghost use Rattle.std.specs.Prelude.{◌≡◌, OnOk, map};
ghost use Rattle.std.specs.List.{flat_map};
ghost use Rattle.shop_model.specs.pages.PageText.{block_line};
ghost use Rattle.shop_draft.specs.Drawing.{ids_at};
ghost use Rattle.shop_draft.specs.Templates.{Adds};
ghost use Rattle.shop_browse.specs.Related as spec;

use crate::names::Names;
use shop_draft::{PageIds, Template};
use shop_history::Row;
use shop_text::Memory;

/// The items that are related to the one in a row.
pub(crate) fn related_in(row: &Row) -> &[u32]
    ensures { result.now ≡ spec.related_in row.now }
{
    match row {
        Row::Item(item) => &item.details.get().related,
        _ => &[],
    }
}

/// Adds a link to the page of an item, labelled with its title.
fn promoted(page: &mut Template, ids: PageIds, names: Names, item: u32) -> Result<(), Memory>
    ensures { OnOk result (Adds page.old page.new (λ drawn. block_line (spec.promoted_in names.entry (ids_at drawn ids) item))) }
{
    match names.title_of(item) {
        Some(title) => page.title_link(item, ids, title)?,
        None => page.item_link(b"/product_detail", item, ids, b"")?,
    }
    Ok(())
}

/// Adds a link to the page of each of these items, labelled with its title.
pub fn promotion(
    page: &mut Template,
    ids: PageIds,
    names: Names,
    items: &[u32],
) -> Result<(), Memory>
    ensures { OnOk result (Adds page.old page.new (λ drawn. flat_map block_line (map (spec.promoted_in names.entry (ids_at drawn ids)) items.now))) }
{
    for item in items {
        promoted(page, ids, names, *item)?;
    }
    Ok(())
}
