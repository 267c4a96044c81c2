//! Pages that show a list of items, by its lines.
ghost use Rattle.std.specs.Prelude.{◌≡◌, ◌∷◌, ◌++◌, [], Some, IsSome, OnOk};
ghost use Rattle.std.specs.List.{flat_map};
ghost use Rattle.shop_text.specs.Texts.{escape};
ghost use Rattle.shop_model.specs.pages.PageText.{block_line};
ghost use Rattle.shop_model.specs.rows.Subjects.{subject_name};
ghost use Rattle.shop_model.specs.declared.page.Block.TheVariants as block;
ghost use Rattle.shop_model.specs.declared.page.Page.{Page};
ghost use Rattle.shop_cache.specs.Keys.{key_asked};
ghost use Rattle.shop_draft.specs.Pages.{Shows};
ghost use Rattle.shop_draft.specs.Templates.{Says};
ghost use Rattle.shop_browse.specs.Lists as spec;
ghost use Rattle.shop_browse.specs.ListEnds.{list_end};

use crate::search_results;
use crate::subject_lists::SubjectList;
use shop_cache::ListLines;
use shop_draft::{Draft, PageIds, Template};
use shop_model::{IdsAsked, Request, Subject};
use shop_text::Memory;

/// Adds the lines of a list, or a word where it is empty.
#[tactic(auto, unfolding(shop_model::specs::pages::PageText::block_text))]
fn add_lines(page: &mut Template, ids: IdsAsked, lines: &ListLines) -> Result<(), Memory>
    ensures { OnOk result (Says page.old page.new (flat_map block_line (spec.lines_in ids lines.now))) }
{
    if lines.is_empty() {
        page.put(b"<p>Nothing found.</p>\n")?;
        Ok(())
    } else {
        page.put_links(lines.links(), ids)?;
        Ok(())
    }
}

/// Adds the lines of a list and the links behind them, and ends the page.
pub(crate) fn finish(page: &mut Template, ids: IdsAsked, lines: &ListLines) -> Result<(), Memory>
    ensures { OnOk result (Says page.old page.new (list_end ids lines.now)) }
{
    add_lines(page, ids, lines)?;
    page.nav(PageIds::of(ids))?;
    page.end()?;
    Ok(())
}

/// A heading that ends in a subject's name; the word before it is plain.
#[tactic(auto, using(shop_text::proofs::cited::Plain::escape_append), unfolding(shop_model::specs::pages::PageText::block_text))]
fn subject_heading(page: &mut Template, word: &[u8], subject: Subject) -> Result<(), Memory>
    requires { escape word.now ≡ word.now }
    ensures { OnOk result (Says page.old page.new (block_line (block.Heading (word.now ++ subject_name subject)))) }
{
    page.plain(b"<h1>", word)?;
    page.plain(b"", subject.name())?;
    page.put(b"</h1>\n")?;
    Ok(())
}

/// Writes the page of a list of a subject; title and word are plain.
pub(crate) fn subject_page(
    draft: &mut Draft,
    title: &[u8],
    word: &[u8],
    subject: Subject,
    ids: IdsAsked,
    lines: &ListLines,
) -> Result<(), Memory>
    requires title { escape title.now ≡ title.now }
    requires word { escape word.now ≡ word.now }
    ensures { OnOk result (Shows draft.new (λ drawn. spec.page_in ids title.now (block.Heading (word.now ++ subject_name subject) ∷ []) lines.now)) }
{
    draft.status = 200;
    let page = &mut draft.page;
    page.begin(title)?;
    subject_heading(page, word, subject)?;
    finish(page, ids, lines)?;
    Ok(())
}

/// Writes the page of the list that is asked for, by its lines, read now or kept.
pub fn write_list(draft: &mut Draft, request: &Request, lines: &ListLines) -> Result<(), Memory>
    requires { IsSome (key_asked request.now) }
    ensures { OnOk result ((page : Page) → spec.page_by request.now lines.now ≡ Some page → Shows draft.new (λ drawn. page)) }
{
    match request {
        Request::NewProducts(asked) => {
            SubjectList::New(asked).write_page(draft, lines)?;
            Ok(())
        }
        Request::BestSellers(asked) => {
            SubjectList::Best(asked).write_page(draft, lines)?;
            Ok(())
        }
        Request::SearchResults(asked) => {
            search_results::write_page(draft, asked, lines)?;
            Ok(())
        }
        _ => unreachable!(),
    }
}
