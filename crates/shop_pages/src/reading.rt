ghost use Rattle.std.specs.Prelude.{◌≡◌, ◌++◌, IfOk, OnOk, MatchResult};
ghost use Rattle.std.specs.List.{flat_map};
ghost use Rattle.shop_model.specs.declared.page.Page.{Page};
ghost use Rattle.shop_model.specs.pages.PageText.{page_text};
ghost use Rattle.shop_model.specs.pages.Targets.{link_target, targets_of};
ghost use Rattle.shop_pages.specs.Reading.{LinksTo, IsNoPage, ReadsLinks, ReadsLinksOf};
ghost use Rattle.shop_pages.specs.declared.reading.unread.Unread.{Unread};

use crate::page::page_bytes;
use blocks::read_blocks;
use shop_model::{Block, Page};
use shop_text::{Memory, Text};
use std::alloc::Global;
use texts::read_tagged;
use unread::Unread;

mod blocks;
mod lists;
mod texts;
mod unread;

/// What a page links to.
#[derive(Drop)]
pub enum Links {
    /// The targets of the page's links, in order.
    Found(Vec<Text>),
    /// The bytes are no page's text.
    NotAPage,
    Memory,
}

/// A page that has this text, where one has; other bytes may be read as any page.
#[tactic(auto, unfolding(shop_model::specs::pages::PageText::page_text))]
fn read_page(alloc: Global, bytes: &[u8]) -> Result<Page, Unread>
    ensures { (page : Page) → bytes.now ≡ page_text page → MatchResult result (λ read. (bytes.now ≡ page_text read) × (read.blocks ≡ page.blocks)) (λ unread. unread ≡ Unread.Memory) }
{
    let (title, rest) = read_tagged(
        alloc,
        bytes,
        b"<html><head><title>",
        b"</title></head><body>\n",
    )?;
    let (blocks, _) = read_blocks(alloc, rest)?;
    Ok(Page {
        status: 200,
        title,
        blocks,
    })
}

/// A page with this text.
fn page_of(alloc: Global, bytes: &[u8]) -> Result<Page, Unread>
    ensures page { MatchResult result (λ page. bytes.now ≡ page_text page) (λ unread. unread ≡ Unread.NotAPage → IsNoPage bytes.now) }
    ensures blocks { (page : Page) → bytes.now ≡ page_text page → IfOk result (λ read. read.blocks ≡ page.blocks) }
{
    let page = read_page(alloc, bytes)?;
    let text = page_bytes(alloc, &page)?;
    if text.bytes() == bytes {
        Ok(page)
    } else {
        Err(Unread::NotAPage)
    }
}

/// Adds the target, where the block is a link.
fn add_target(alloc: Global, targets: &mut Vec<Text>, block: &Block) -> Result<(), Memory>
    ensures { OnOk result (targets.new.items ≡ targets.old.items ++ link_target block.now) }
{
    if let Block::Link { target, label: _ } = block {
        targets.push(Text::copy(alloc, target.bytes())?)?;
    }
    Ok(())
}

/// The targets of the links among these blocks.
fn targets_among(alloc: Global, blocks: &[Block]) -> Result<Vec<Text>, Memory>
    ensures { IfOk result (λ targets. targets.items ≡ flat_map link_target blocks.now) }
{
    let mut targets = Vec::new(alloc);
    for block in blocks {
        add_target(alloc, &mut targets, block)?;
    }
    Ok(targets)
}

/// The targets of the links of the page with this text.
fn links_of(alloc: Global, bytes: &[u8]) -> Result<Vec<Text>, Unread>
    ensures links { MatchResult result (λ targets. LinksTo bytes.now targets.items) (λ unread. unread ≡ Unread.NotAPage → IsNoPage bytes.now) }
    ensures each { (page : Page) → bytes.now ≡ page_text page → IfOk result (λ targets. targets.items ≡ targets_of page) }
{
    let page = page_of(alloc, bytes)?;
    Ok(targets_among(alloc, page.blocks.as_slice())?)
}

/// The targets of the links of the page whose text these bytes are.
pub fn read_links(alloc: Global, bytes: &[u8]) -> Links
    ensures links { ReadsLinks bytes.now result }
    ensures each { (page : Page) → bytes.now ≡ page_text page → ReadsLinksOf page result }
{
    match links_of(alloc, bytes) {
        Ok(targets) => Links::Found(targets),
        Err(Unread::NotAPage) => Links::NotAPage,
        Err(Unread::Memory) => Links::Memory,
    }
}
