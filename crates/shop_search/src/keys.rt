ghost use Rattle.std.specs.Prelude.{◌≡◌, ◌++◌, ◌∷◌, ◌==◌, [], IfOk, OnOk, filter, length, map, not};
ghost use Rattle.shop_text.specs.Fold.{lower};
ghost use Rattle.shop_model.specs.lists.Catalogues.{naming, words};
ghost use Rattle.shop_model.specs.rows.Subjects.{subject_name};
ghost use Rattle.shop_search.specs.Keys as spec;

use shop_model::{Author, Item, SearchKind, Subject, lower_text, row_numbered};
use shop_text::{Memory, Shared, Text};
use std::alloc::Global;

/// Adds the run in small letters, unless it is empty.
fn push_word(alloc: Global, words: &mut Vec<Text>, run: &[u8]) -> Result<(), Memory>
    ensures { OnOk result (words.new.items ≡ words.old.items ++ map (map lower) (filter (λ r. not (length r == 0)) (run.now ∷ []))) }
{
    if !run.is_empty() {
        words.push(lower_text(alloc, run)?)?;
    }
    Ok(())
}

/// The words of the title, in small letters.
fn title_keys(alloc: Global, title: &[u8]) -> Result<Vec<Text>, Memory>
    ensures { IfOk result (λ keys. keys.items ≡ map (map lower) (words title.now)) }
{
    let mut keys = Vec::new(alloc);
    let mut run = Vec::new(alloc);
    for byte in title {
        if *byte == b' ' {
            push_word(alloc, &mut keys, &run)?;
            run.clear();
        } else {
            run.push(*byte)?;
        }
    }
    push_word(alloc, &mut keys, &run)?;
    Ok(keys)
}

/// The fronts of the name, in small letters.
fn author_keys(alloc: Global, name: &[u8]) -> Result<Vec<Text>, Memory>
    ensures { IfOk result (λ keys. keys.items ≡ spec.fronts (map lower name.now)) }
{
    let small = lower_text(alloc, name)?;
    let mut keys = Vec::with_capacity(alloc, small.len())?;
    for end in 0..small.len() {
        let front = &small.bytes()[..end];
        keys.push(Text::copy(alloc, front)?)?;
    }
    keys.push(small)?;
    Ok(keys)
}

/// The name of the subject.
fn subject_keys(alloc: Global, subject: Subject) -> Result<Vec<Text>, Memory>
    ensures { IfOk result (λ keys. keys.items ≡ subject_name subject ∷ []) }
{
    let mut keys = Vec::new(alloc);
    keys.push(Text::copy(alloc, subject.name())?)?;
    Ok(keys)
}

/// The last name of the author with this id.
fn last_of(authors: &[Shared<Author>], id: u32) -> &[u8]
    ensures { result.now ≡ spec.last_of authors.now id }
{
    match row_numbered(authors, id) {
        Some(author) => author.get().last.bytes(),
        None => b"",
    }
}

/// The keys under which searches of this kind find the item.
pub(crate) fn keys_of(
    alloc: Global,
    authors: &[Shared<Author>],
    kind: SearchKind,
    item: &Item,
) -> Result<Vec<Text>, Memory>
    ensures { IfOk result (λ keys. keys.items ≡ spec.keys_of authors.now kind (naming item.now)) }
{
    let details = item.details.get();
    match kind {
        SearchKind::Title => title_keys(alloc, details.title.bytes()),
        SearchKind::Author => author_keys(alloc, last_of(authors, details.author)),
        SearchKind::Subject => subject_keys(alloc, details.subject),
    }
}
