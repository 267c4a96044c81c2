ghost use Rattle.std.specs.Prelude.{◌≡◌, ◌==◌, length, IfOk, map};
ghost use Rattle.std.specs.List.{flat_map};
ghost use Rattle.shop_model.specs.declared.requests.IdsAsked.{IdsAsked};
ghost use Rattle.shop_model.specs.pages.PageText.{block_line};
ghost use Rattle.shop_draft.specs.Links.{links_with};
ghost use Rattle.shop_cache.specs.LineLinks.{AreLinksOf};
ghost use Rattle.shop_cache.specs.Lines as spec;

use shop_draft::ItemLinks;
use shop_history::Label;
use shop_text::{Boxed, Listed, Memory};
use std::alloc::Global;
use std::marker::Model;

/// A line of a list.
#[derive(Drop)]
pub struct ListLine {
    pub item: u32,
    pub label: Label,
}

/// The lines of a list, with the links to the pages of their items.
#[derive(Drop)]
pub struct ListLines {
    lines: Listed<ListLine>,
    links: Boxed<ItemLinks>,
}

impl Model for ListLines {
    ghost use Rattle.std.specs.Prelude.{List};
    ghost use Rattle.shop_cache.specs.declared.lines.ListLine.{ListLine as LineValue};
    ghost use Rattle.shop_cache.specs.LineLinks.{AreLinksOf};

    ghost Value = { List LineValue };

    ghost view = { λ l. l.lines };

    ghost invariant = { λ l. AreLinksOf l.lines l.links };
}

/// The links of lines.
fn links_of(alloc: Global, lines: &[ListLine]) -> Result<ItemLinks, Memory>
    ensures { IfOk result (AreLinksOf lines.now) }
{
    let mut links = ItemLinks::with_capacity(alloc, lines.len())?;
    for line in lines {
        let label = &line.label;
        links.push(line.item, label.title(), label.first(), label.last())?;
    }
    Ok(links)
}

impl ListLines {
    /// These lines, whose links are written here.
    pub fn of(alloc: Global, lines: Listed<ListLine>) -> Result<ListLines, Memory>
        ensures { IfOk result (λ all. all ≡ lines) }
    {
        let links = Boxed::new(alloc, links_of(alloc, lines.as_slice())?)?;
        Ok(ListLines { lines, links })
    }

    /// Whether there is none.
    pub fn is_empty(&self) -> bool
        ensures { result ≡ (length self.now == 0) }
    {
        self.lines.as_slice().is_empty()
    }

    /// The links to the pages of their items.
    pub fn links(&self) -> &ItemLinks
        ensures { (ids : IdsAsked) → links_with ids result.now ≡ flat_map block_line (map (spec.line_in ids) self.now) }
    {
        self.links.get()
    }
}
