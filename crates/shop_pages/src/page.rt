ghost use Rattle.std.specs.Prelude.{◌≡◌, ◌++◌, IfOk, OnOk, OnErr};
ghost use Rattle.shop_text.specs.Extends.{Extends};
ghost use Rattle.shop_model.specs.pages.PageText as spec;

use crate::blocks::{push_blocks, push_tagged};
use shop_model::Page;
use shop_text::{Memory, Text};
use std::alloc::Global;

/// The bytes for which room is made at first: those around the blocks.
const FRAME_ROOM: usize = 128;

/// The same for each block; most are links.
const BLOCK_ROOM: usize = 96;

/// Adds the text of the page; a refusal may come after some of it.
#[tactic(auto, unfolding(shop_model::specs::pages::PageText::page_text))]
fn add_page(text: &mut Text, page: &Page) -> Result<(), Memory>
    ensures ok { OnOk result (text.new ≡ text.old ++ spec.page_text page.now) }
    ensures err { OnErr result (Extends text.old text.new) }
{
    push_tagged(
        text,
        b"<html><head><title>",
        &page.title,
        b"</title></head><body>\n",
    )?;
    push_blocks(text, page.blocks.as_slice())?;
    text.push(b"</body></html>\n")
}

/// Adds the text of the page.
pub fn push_page(text: &mut Text, page: &Page) -> Result<(), Memory>
    ensures ok { OnOk result (text.new ≡ text.old ++ spec.page_text page.now) }
    ensures err { OnErr result (text.new ≡ text.old) }
{
    let len = text.len();
    match add_page(text, page) {
        Ok(()) => Ok(()),
        Err(Memory) => {
            text.truncate(len);
            Err(Memory)
        }
    }
}

/// The text of the page.
pub fn page_bytes(alloc: Global, page: &Page) -> Result<Text, Memory>
    ensures { IfOk result (λ text. text ≡ spec.page_text page.now) }
{
    let blocks = page.blocks.as_slice().len();
    let room = blocks.saturating_mul(BLOCK_ROOM).saturating_add(FRAME_ROOM);
    let mut text = Text::with_capacity(alloc, room)?;
    push_page(&mut text, page)?;
    Ok(text)
}
