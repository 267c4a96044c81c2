//! The lines of a list, by what is known of its items.
ghost use Rattle.std.specs.Prelude.{◌≡◌, IfOk};
ghost use Rattle.shop_browse.specs.Lines as spec;

use crate::names::Names;
use shop_cache::{ListLine, ListLines};
use shop_history::Row;
use shop_text::{Listed, Memory};
use std::alloc::Global;

/// The items on the list in a row.
pub(crate) fn items_in(row: &Row) -> &[u32]
    ensures { result.now ≡ spec.items_in row.now }
{
    match row {
        Row::Items(items) => items.get().as_slice(),
        _ => &[],
    }
}

/// The lines of these items; none where one is not known.
pub(crate) fn lines_of(
    alloc: Global,
    names: Names,
    items: &[u32],
) -> Result<Option<ListLines>, Memory>
    ensures { IfOk result (spec.AreLinesOf names.entry items.now) }
{
    let mut lines = Listed::with_capacity(alloc, items.len())?;
    for item in items {
        let Some(label) = names.label_of(*item)? else {
            return Ok(None);
        };
        lines.push(ListLine { item: *item, label })?;
    }
    Ok(Some(ListLines::of(alloc, lines)?))
}
