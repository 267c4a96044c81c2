//! The parts of a page. A refusal may come after some pieces of a part, so it leaves a text that was
//! only added to.
ghost use Rattle.std.specs.Prelude.{◌≡◌, ◌++◌, OnOk, OnErr};
ghost use Rattle.std.specs.List.{flat_map};
ghost use Rattle.shop_text.specs.Extends.{Extends};
ghost use Rattle.shop_text.specs.Texts.{escape};
ghost use Rattle.shop_model.specs.pages.PageText as spec;

use shop_model::{Block, Field};
use shop_text::{Listed, Memory, Text};

/// Adds a text between two tags.
pub(crate) fn push_tagged(
    text: &mut Text,
    front: &[u8],
    shown: &Text,
    end: &[u8],
) -> Result<(), Memory>
    ensures ok { OnOk result (text.new ≡ text.old ++ (front.now ++ escape shown.now ++ end.now)) }
    ensures err { OnErr result (Extends text.old text.new) }
{
    text.push(front)?;
    text.push_escaped(shown.bytes())?;
    text.push(end)
}

/// Adds two texts with their tags.
fn push_pair(
    text: &mut Text,
    front: &[u8],
    first: &Text,
    middle: &[u8],
    second: &Text,
    end: &[u8],
) -> Result<(), Memory>
    ensures ok { OnOk result (text.new ≡ text.old
        ++ (front.now ++ escape first.now ++ middle.now ++ escape second.now ++ end.now)) }
    ensures err { OnErr result (Extends text.old text.new) }
{
    push_tagged(text, front, first, middle)?;
    text.push_escaped(second.bytes())?;
    text.push(end)
}

fn push_row(text: &mut Text, cells: &[Text]) -> Result<(), Memory>
    ensures ok { OnOk result (text.new ≡ text.old ++ spec.row_text cells.now) }
    ensures err { OnErr result (Extends text.old text.new) }
{
    text.push(b"<tr>")?;
    for cell in cells {
        push_tagged(text, b"<td>", cell, b"</td>")?;
    }
    text.push(b"</tr>")
}

fn push_rows(text: &mut Text, rows: &[Listed<Text>]) -> Result<(), Memory>
    ensures ok { OnOk result (text.new ≡ text.old ++ flat_map spec.row_text rows.now) }
    ensures err { OnErr result (Extends text.old text.new) }
{
    for row in rows {
        push_row(text, row.as_slice())?;
    }
    Ok(())
}

#[tactic(auto, unfolding(shop_model::specs::pages::PageText::field_text))]
fn push_field(text: &mut Text, field: &Field) -> Result<(), Memory>
    ensures ok { OnOk result (text.new ≡ text.old ++ spec.field_text field.now) }
    ensures err { OnErr result (Extends text.old text.new) }
{
    let Field { name, value } = field;
    push_pair(text, b"<input name=\"", name, b"\" value=\"", value, b"\">")
}

fn push_fields(text: &mut Text, fields: &[Field]) -> Result<(), Memory>
    ensures ok { OnOk result (text.new ≡ text.old ++ flat_map spec.field_text fields.now) }
    ensures err { OnErr result (Extends text.old text.new) }
{
    for field in fields {
        push_field(text, field)?;
    }
    Ok(())
}

#[tactic(auto, unfolding(shop_model::specs::pages::PageText::block_text))]
pub(crate) fn push_block(text: &mut Text, block: &Block) -> Result<(), Memory>
    ensures ok { OnOk result (text.new ≡ text.old ++ spec.block_text block.now) }
    ensures err { OnErr result (Extends text.old text.new) }
{
    match block {
        Block::Heading(shown) => push_tagged(text, b"<h1>", shown, b"</h1>"),
        Block::Para(shown) => push_tagged(text, b"<p>", shown, b"</p>"),
        Block::Link { target, label } => {
            push_pair(text, b"<a href=\"", target, b"\">", label, b"</a>")
        }
        Block::Picture { target, label } => {
            push_pair(text, b"<img src=\"", target, b"\" alt=\"", label, b"\">")
        }
        Block::Table(rows) => {
            text.push(b"<table>")?;
            push_rows(text, rows.as_slice())?;
            text.push(b"</table>")
        }
        Block::Form { target, fields } => {
            push_tagged(text, b"<form action=\"", target, b"\">")?;
            push_fields(text, fields.as_slice())?;
            text.push(b"</form>")
        }
    }
}

/// Adds each block and a line feed after it.
pub(crate) fn push_blocks(text: &mut Text, blocks: &[Block]) -> Result<(), Memory>
    ensures ok { OnOk result (text.new ≡ text.old ++ flat_map spec.block_line blocks.now) }
    ensures err { OnErr result (Extends text.old text.new) }
{
    for block in blocks {
        push_block(text, block)?;
        text.push(b"\n")?;
    }
    Ok(())
}
