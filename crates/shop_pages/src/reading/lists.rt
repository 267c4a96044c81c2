//! The rows of a table and the fields of a form, read back.
ghost use Rattle.std.specs.Prelude.{◌<◌, ◌≤◌, length, codes, IfOk};
ghost use Rattle.shop_model.specs.pages.PageText.{cell_text, row_text, field_text};
ghost use Rattle.shop_pages.specs.Parts as spec;

use super::texts::{behind, read_tagged};
use super::unread::Unread;
use shop_model::Field;
use shop_text::{Listed, Text};
use std::alloc::Global;

fn read_cell<'a>(alloc: Global, bytes: &'a [u8]) -> Result<(Text, &'a [u8]), Unread>
    ensures read { spec.ReadsBack cell_text bytes.now result }
    ensures shorter { IfOk result (λ both. length both.1.now < length bytes.now) }
{
    read_tagged(alloc, bytes, b"<td>", b"</td>")
}

/// The cells up to the end of their row, and what follows them.
fn read_cells<'a>(alloc: Global, bytes: &'a [u8]) -> Result<(Listed<Text>, &'a [u8]), Unread>
    ensures read { spec.ReadsAll cell_text (codes "</tr>") bytes.now result }
    ensures within { IfOk result (λ both. length both.1.now ≤ length bytes.now) }
{
    let mut cells = Listed::new(alloc);
    let mut rest = bytes;
    while !rest.starts_with(b"</tr>") {
        let (cell, after) = read_cell(alloc, rest)?;
        cells.push(cell)?;
        rest = after;
    }
    Ok((cells, rest))
}

fn read_row<'a>(alloc: Global, bytes: &'a [u8]) -> Result<(Listed<Text>, &'a [u8]), Unread>
    ensures read { spec.ReadsBack row_text bytes.now result }
    ensures shorter { IfOk result (λ both. length both.1.now < length bytes.now) }
{
    let rest = behind(bytes, b"<tr>")?;
    let (cells, rest) = read_cells(alloc, rest)?;
    let rest = behind(rest, b"</tr>")?;
    Ok((cells, rest))
}

/// The rows up to the end of their table, and what follows them.
pub(crate) fn read_rows<'a>(
    alloc: Global,
    bytes: &'a [u8],
) -> Result<(Listed<Listed<Text>>, &'a [u8]), Unread>
    ensures read { spec.ReadsAll row_text (codes "</table>") bytes.now result }
    ensures within { IfOk result (λ both. length both.1.now ≤ length bytes.now) }
{
    let mut rows = Listed::new(alloc);
    let mut rest = bytes;
    while !rest.starts_with(b"</table>") {
        let (row, after) = read_row(alloc, rest)?;
        rows.push(row)?;
        rest = after;
    }
    Ok((rows, rest))
}

#[tactic(auto, unfolding(shop_model::specs::pages::PageText::field_text))]
fn read_field<'a>(alloc: Global, bytes: &'a [u8]) -> Result<(Field, &'a [u8]), Unread>
    ensures read { spec.ReadsBack field_text bytes.now result }
    ensures shorter { IfOk result (λ both. length both.1.now < length bytes.now) }
{
    let (name, rest) = read_tagged(alloc, bytes, b"<input name=\"", b"\" value=\"")?;
    let (value, rest) = read_tagged(alloc, rest, b"", b"\">")?;
    Ok((Field { name, value }, rest))
}

/// The fields up to the end of their form, and what follows them.
pub(crate) fn read_fields<'a>(
    alloc: Global,
    bytes: &'a [u8],
) -> Result<(Listed<Field>, &'a [u8]), Unread>
    ensures read { spec.ReadsAll field_text (codes "</form>") bytes.now result }
    ensures within { IfOk result (λ both. length both.1.now ≤ length bytes.now) }
{
    let mut fields = Listed::new(alloc);
    let mut rest = bytes;
    while !rest.starts_with(b"</form>") {
        let (field, after) = read_field(alloc, rest)?;
        fields.push(field)?;
        rest = after;
    }
    Ok((fields, rest))
}
