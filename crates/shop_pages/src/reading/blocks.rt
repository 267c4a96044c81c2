//! The blocks of a page, read back.
ghost use Rattle.std.specs.Prelude.{◌<◌, ◌≡◌, ℕ, List, length, slice_index, codes, IfOk};
ghost use Rattle.shop_model.specs.declared.page.Block.TheVariants as block;
ghost use Rattle.shop_model.specs.declared.page.Field.{Field};
ghost use Rattle.shop_model.specs.pages.PageText.{block_text, block_line};
ghost use Rattle.shop_pages.specs.Parts as spec;

use super::lists::{read_fields, read_rows};
use super::texts::{behind, read_tagged};
use super::unread::Unread;
use shop_model::Block;
use shop_text::Listed;
use std::alloc::Global;

#[tactic(auto, unfolding(shop_model::specs::pages::PageText::block_text))]
fn read_heading<'a>(alloc: Global, bytes: &'a [u8]) -> Result<(Block, &'a [u8]), Unread>
    ensures read { (text rest : List ℕ) → spec.ReadsBlock (block.Heading text) rest bytes.now result }
    ensures shorter { IfOk result (λ both. length both.1.now < length bytes.now) }
{
    let (text, rest) = read_tagged(alloc, bytes, b"<h1>", b"</h1>")?;
    Ok((Block::Heading(text), rest))
}

#[tactic(auto, unfolding(shop_model::specs::pages::PageText::block_text))]
fn read_para<'a>(alloc: Global, bytes: &'a [u8]) -> Result<(Block, &'a [u8]), Unread>
    ensures read { (text rest : List ℕ) → spec.ReadsBlock (block.Para text) rest bytes.now result }
    ensures shorter { IfOk result (λ both. length both.1.now < length bytes.now) }
{
    let (text, rest) = read_tagged(alloc, bytes, b"<p>", b"</p>")?;
    Ok((Block::Para(text), rest))
}

#[tactic(auto, unfolding(shop_model::specs::pages::PageText::block_text))]
fn read_link<'a>(alloc: Global, bytes: &'a [u8]) -> Result<(Block, &'a [u8]), Unread>
    ensures read { (target label rest : List ℕ) → spec.ReadsBlock (block.Link target label) rest bytes.now result }
    ensures shorter { IfOk result (λ both. length both.1.now < length bytes.now) }
{
    let (target, rest) = read_tagged(alloc, bytes, b"<a href=\"", b"\">")?;
    let (label, rest) = read_tagged(alloc, rest, b"", b"</a>")?;
    Ok((Block::Link { target, label }, rest))
}

#[tactic(auto, unfolding(shop_model::specs::pages::PageText::block_text))]
fn read_picture<'a>(alloc: Global, bytes: &'a [u8]) -> Result<(Block, &'a [u8]), Unread>
    ensures read { (target label rest : List ℕ) → spec.ReadsBlock (block.Picture target label) rest bytes.now result }
    ensures shorter { IfOk result (λ both. length both.1.now < length bytes.now) }
{
    let (target, rest) = read_tagged(alloc, bytes, b"<img src=\"", b"\" alt=\"")?;
    let (label, rest) = read_tagged(alloc, rest, b"", b"\">")?;
    Ok((Block::Picture { target, label }, rest))
}

#[tactic(auto, unfolding(shop_model::specs::pages::PageText::block_text))]
fn read_table<'a>(alloc: Global, bytes: &'a [u8]) -> Result<(Block, &'a [u8]), Unread>
    ensures read { (rows : List (List (List ℕ))) (rest : List ℕ) → spec.ReadsBlock (block.Table rows) rest bytes.now result }
    ensures shorter { IfOk result (λ both. length both.1.now < length bytes.now) }
{
    let rest = behind(bytes, b"<table>")?;
    let (rows, rest) = read_rows(alloc, rest)?;
    let rest = behind(rest, b"</table>")?;
    Ok((Block::Table(rows), rest))
}

#[tactic(auto, unfolding(shop_model::specs::pages::PageText::block_text))]
fn read_form<'a>(alloc: Global, bytes: &'a [u8]) -> Result<(Block, &'a [u8]), Unread>
    ensures read { (target : List ℕ) (fields : List Field) (rest : List ℕ) → spec.ReadsBlock (block.Form target fields) rest bytes.now result }
    ensures shorter { IfOk result (λ both. length both.1.now < length bytes.now) }
{
    let (target, rest) = read_tagged(alloc, bytes, b"<form action=\"", b"\">")?;
    let (fields, rest) = read_fields(alloc, rest)?;
    let rest = behind(rest, b"</form>")?;
    Ok((Block::Form { target, fields }, rest))
}

/// The letter that the first tag begins with; 0 where there is none.
fn letter_at(bytes: &[u8]) -> u8
    ensures { result ≡ slice_index bytes.now 1 }
{
    match bytes {
        [_, letter, ..] => *letter,
        _ => 0,
    }
}

/// A block, and what follows it.
fn read_block<'a>(alloc: Global, bytes: &'a [u8]) -> Result<(Block, &'a [u8]), Unread>
    ensures read { spec.ReadsBack block_text bytes.now result }
    ensures shorter { IfOk result (λ both. length both.1.now < length bytes.now) }
{
    let letter = letter_at(bytes);
    if letter == b'h' {
        return read_heading(alloc, bytes);
    }
    if letter == b'p' {
        return read_para(alloc, bytes);
    }
    if letter == b'a' {
        return read_link(alloc, bytes);
    }
    if letter == b'i' {
        return read_picture(alloc, bytes);
    }
    if letter == b't' {
        return read_table(alloc, bytes);
    }
    if letter == b'f' {
        return read_form(alloc, bytes);
    }
    Err(Unread::NotAPage)
}

/// A block with its line feed, and what follows.
fn read_line<'a>(alloc: Global, bytes: &'a [u8]) -> Result<(Block, &'a [u8]), Unread>
    ensures read { spec.ReadsBack block_line bytes.now result }
    ensures shorter { IfOk result (λ both. length both.1.now < length bytes.now) }
{
    let (block, rest) = read_block(alloc, bytes)?;
    let rest = behind(rest, b"\n")?;
    Ok((block, rest))
}

/// The blocks up to the end of the page, and what follows them.
pub(crate) fn read_blocks<'a>(
    alloc: Global,
    bytes: &'a [u8],
) -> Result<(Listed<Block>, &'a [u8]), Unread>
    ensures { spec.ReadsAll block_line (codes "</body>") bytes.now result }
{
    let mut blocks = Listed::new(alloc);
    let mut rest = bytes;
    while !rest.starts_with(b"</body>") {
        let (block, after) = read_line(alloc, rest)?;
        blocks.push(block)?;
        rest = after;
    }
    Ok((blocks, rest))
}
