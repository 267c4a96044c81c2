ghost use Rattle.std.specs.Prelude.{◌≡◌, IfOk, filter, length, map};
ghost use Rattle.shop_ranking.specs.Standing.{is_under, AreNew};

use shop_model::{Item, Subject};
use shop_text::Memory;
use std::alloc::Global;

/// The subjects of the items.
pub(crate) fn subjects_of(alloc: Global, items: &[Item]) -> Result<Vec<Subject>, Memory>
    ensures { IfOk result (λ subjects. subjects.items ≡ map (λ i. i.subject) items.now) }
{
    let mut subjects = Vec::with_capacity(alloc, items.len())?;
    for item in items {
        subjects.push(item.details.get().subject)?;
    }
    Ok(subjects)
}

/// How many items have this subject.
fn count_under(subject: Subject, subjects: &[Subject]) -> usize
    ensures { result ≡ length (filter (is_under subject) subjects.now) }
{
    subjects
        .iter()
        .filter(|own| own.name() == subject.name())
        .count()
}

/// An empty list for each subject, with room for all of its items.
pub(crate) fn new_lists<T: Drop>(alloc: Global, subjects: &[Subject]) -> Result<Vec<Vec<T>>, Memory>
    ensures { IfOk result (λ lists. AreNew subjects.now lists.items) }
{
    let all = Subject::all();
    let mut lists = Vec::with_capacity(alloc, all.len())?;
    for subject in &all {
        lists.push(Vec::with_capacity(alloc, count_under(*subject, subjects))?)?;
    }
    Ok(lists)
}
