//! Links to the pages of items, which are written once for many pages.
ghost use Rattle.std.specs.Prelude.{◌≡◌, ◌≤◌, ◌++◌, [], length, codes, IfOk, OnOk};
ghost use Rattle.shop_text.specs.Texts.{escape};
ghost use Rattle.shop_model.specs.declared.requests.IdsAsked.{IdsAsked};
ghost use Rattle.shop_model.specs.pages.Lists.{line_label};
ghost use Rattle.shop_model.specs.pages.PageText.{block_line};
ghost use Rattle.shop_model.specs.pages.Targets.{item_link};
ghost use Rattle.shop_draft.specs.Links.{links_with, woven};

use crate::flat::Flat;
use crate::short::Short;
use shop_text::{Caption, Memory};
use std::alloc::Global;
use std::marker::Model;

/// The bytes of a link without ids, or some more: few are longer.
const LENGTH: usize = 96;

/// Links to the pages of items, but for the ids that they hand on.
#[derive(Drop)]
pub struct ItemLinks {
    text: Flat,
    /// How many bytes stand before the first place of the ids, and from each place to the next.
    gaps: Vec<usize>,
    /// The bytes before the last place.
    front: usize,
}

impl Model for ItemLinks {
    ghost use Rattle.shop_draft.specs.Links.{LinkTexts, AreWithin};

    ghost Value = { LinkTexts };

    ghost view = { λ l. record { text = l.text; gaps = l.gaps.items } };

    ghost invariant = { λ l. AreWithin l.text l.gaps.items l.front };
}

/// Adds the label of a link.
#[inline(always)]
#[tactic(auto, using(shop_text::proofs::cited::Plain::escape_append), unfolding(shop_model::specs::pages::Lists::line_label))]
fn put_label(
    text: &mut Flat,
    title: &Caption,
    first: &Caption,
    last: &Caption,
) -> Result<(), Memory>
    ensures text { OnOk result (text.new ≡ text.old ++ escape (line_label title.now first.now last.now)) }
    ensures longer { length text.old ≤ length text.new }
{
    text.put_caption(title)?;
    text.put(b" by ")?;
    text.put_caption(first)?;
    text.put(b" ")?;
    text.put_caption(last)
}

/// Adds what stands in a link behind the ids.
fn push_label(
    text: &mut Flat,
    title: &Caption,
    first: &Caption,
    last: &Caption,
) -> Result<(), Memory>
    ensures text { OnOk result (text.new ≡ text.old ++ (codes "\">" ++ escape (line_label title.now first.now last.now) ++ codes "</a>\n")) }
    ensures longer { length text.old ≤ length text.new }
{
    text.put(b"\">")?;
    put_label(text, title, first, last)?;
    text.put(b"</a>\n")
}

impl ItemLinks {
    /// No links, with room for so many of nearly every length.
    pub fn with_capacity(alloc: Global, links: usize) -> Result<ItemLinks, Memory>
        ensures { IfOk result (λ none. (ids : IdsAsked) → links_with ids none ≡ []) }
    {
        Ok(ItemLinks {
            text: Flat::with_capacity(alloc, links.saturating_mul(LENGTH))?,
            gaps: Vec::with_capacity(alloc, links)?,
            front: 0,
        })
    }

    /// Adds the link to the page of an item, labelled with its title and the names of its author. Where memory runs
    /// out nothing is said of the links.
    pub fn push(
        &mut self,
        item: u32,
        title: &Caption,
        first: &Caption,
        last: &Caption,
    ) -> Result<(), Memory>
        ensures { OnOk result ((ids : IdsAsked) → links_with ids self.new
            ≡ links_with ids self.old ++ block_line (item_link (codes "/product_detail") item ids (line_label title.now first.now last.now))) }
    {
        self.text.put(b"<a href=\"/product_detail?item=")?;
        self.text.put_number(u64::from(item))?;
        let end = self.text.len();
        push_label(&mut self.text, title, first, last)?;
        self.gaps.push(end - self.front)?;
        self.front = end;
        Ok(())
    }

    /// The text without ids.
    #[inline(always)]
    pub(crate) fn text(&self) -> &[u8]
        ensures { result.now ≡ self.now.text }
    {
        self.text.bytes()
    }

    /// Adds them with this text at the places of the ids.
    pub(crate) fn put_to(&self, bytes: &mut Flat, ids: &Short) -> Result<(), Memory>
        ensures text { OnOk result (bytes.new ≡ bytes.old ++ woven ids.now self.now.gaps self.now.text) }
        ensures longer { length bytes.old ≤ length bytes.new }
    {
        let mut rest = self.text.bytes();
        for gap in &self.gaps {
            let (front, behind) = rest.split_at(*gap);
            bytes.put(front)?;
            bytes.put_short(ids)?;
            rest = behind;
        }
        bytes.put(rest)
    }
}
