ghost use Rattle.std.specs.Prelude.{◌≡◌, IfOk, OnOk, map};
ghost use Rattle.std.specs.List.{flat_map};
ghost use Rattle.shop_model.specs.pages.PageText.{block_line};
ghost use Rattle.shop_draft.specs.Pages.{Shows};
ghost use Rattle.shop_draft.specs.Templates.{Says};
ghost use Rattle.shop_attempt.specs.Marks.{Looks};
ghost use Rattle.shop_browse.specs.Attempts.{AttemptedAs, Suits, asking_of};
ghost use Rattle.shop_browse.specs.Lists.{found_page, head_of};
ghost use Rattle.shop_browse.specs.SearchResults as spec;
ghost use Rattle.shop_browse.specs.SearchResults.{FollowsFound};

use crate::driver::{Interaction, Next, attempt_by};
use crate::lines::{items_in, lines_of};
use crate::lists::finish;
use crate::names::{Names, some_labels};
use crate::{Ask, Attempted};
use shop_attempt::{ReadOf, Store};
use shop_cache::ListLines;
use shop_draft::{Draft, Template};
use shop_history::Key;
use shop_model::{Request, SearchResults, Sought};
use shop_search::{Titled, merge};
use shop_text::{Listed, Memory};
use std::alloc::Global;

/// Adds the heading, and what was searched for.
#[tactic(auto, using(shop_text::proofs::cited::Plain::escape_append), unfolding(shop_model::specs::pages::PageText::block_text))]
fn heading(page: &mut Template, asked: &SearchResults) -> Result<(), Memory>
    ensures { OnOk result (Says page.old page.new (flat_map block_line (head_of asked.now))) }
{
    page.plain(b"<h1>Search Results</h1>\n<p>", asked.kind.name())?;
    page.escaped(b": ", asked.text.bytes())?;
    page.put(b"</p>\n")?;
    Ok(())
}

/// Writes the page of what was found, by its lines.
pub(crate) fn write_page(
    draft: &mut Draft,
    asked: &SearchResults,
    lines: &ListLines,
) -> Result<(), Memory>
    ensures { OnOk result (Shows draft.new (λ drawn. found_page asked.now lines.now)) }
{
    draft.status = 200;
    let page = &mut draft.page;
    page.begin(b"Search Results")?;
    heading(page, asked)?;
    finish(page, asked.ids, lines)?;
    Ok(())
}

/// The key of the added items that are found.
fn added_key(alloc: Global, asked: &SearchResults) -> Result<Key, Memory>
    ensures { IfOk result (λ key. key ≡ spec.added_key asked.now) }
{
    let sought = Sought::of(alloc, asked.kind, asked.text.bytes())?;
    Ok(Key::Added(sought))
}

/// The items, each by the title that is known of it.
fn titled<'a>(alloc: Global, names: Names<'a>, items: &[u32]) -> Result<Vec<Titled<'a>>, Memory>
    ensures { IfOk result (λ titled. titled.items ≡ map (spec.titled_in names.entry) items.now) }
{
    let mut titled = Vec::with_capacity(alloc, items.len())?;
    for item in items {
        let title: &[u8] = match names.title_of(*item) {
            Some(title) => title.bytes(),
            None => b"",
        };
        titled.push(Titled { id: *item, title })?;
    }
    Ok(titled)
}

/// The first items that are found of what is sought: those of the opening, and these that were added.
fn found_in(
    alloc: Global,
    names: Names,
    sought: &Sought,
    added: &[u32],
) -> Result<Listed<u32>, Memory>
    ensures { IfOk result (spec.IsFound names.entry sought.now added.now) }
{
    let first = names.index.sought(sought)?;
    if added.is_empty() {
        return Ok(first);
    }
    let first = titled(alloc, names, first.as_slice())?;
    let second = titled(alloc, names, added)?;
    merge(alloc, &first, &second)
}

impl<'a> Interaction for &'a SearchResults {
    ghost use Rattle.shop_model.specs.declared.requests.Request.TheVariants as request_kinds;

    ghost request = { λ asked. request_kinds.SearchResults asked.now };

    ghost follows = { λ asked. FollowsFound asked.now };

    fn next(
        &mut self,
        alloc: Global,
        ask: &Ask,
        round: u32,
        reads: &[ReadOf],
        draft: &mut Draft,
    ) -> Result<Next, Memory> {
        let asked: &SearchResults = self;
        if round == 0 {
            return Ok(Next::ReadOne(added_key(alloc, asked)?));
        }
        let added = items_in(&reads[0].row);
        if round == 1 {
            if let Some(keys) = some_labels(alloc, ask.index, added)? {
                return Ok(Next::Read(keys));
            }
        }
        let names = Names {
            index: ask.index,
            labels: &reads[1..],
        };
        let Key::Added(sought) = &reads[0].key else {
            unreachable!()
        };
        let found = found_in(alloc, names, sought, added)?;
        match lines_of(alloc, names, found.as_slice())? {
            Some(lines) => {
                write_page(draft, asked, &lines)?;
                Ok(Next::ShowList(lines))
            }
            None => Ok(Next::Never),
        }
    }
}

/// An attempt at what a search finds.
#[inline(never)]
pub fn search_results<St: Store>(
    alloc: Global,
    store: &mut St,
    ask: &Ask,
    asked: &SearchResults,
    draft: &mut Draft,
) -> Attempted
    requires suits { Suits ask.now (St.seat store.old) }
    ensures looks { Looks St.seat St.marked store.old store.new }
    ensures attempted { AttemptedAs (St.seat store.old) (St.seat store.new) (asking_of ask.now (Request.SearchResults asked.now)) draft.new result }
{
    attempt_by(alloc, store, ask, asked, draft)
}
