//! The newest and the best sold items of a subject.
ghost use Rattle.std.specs.Prelude.{◌≡◌, OnOk};
ghost use Rattle.shop_draft.specs.Pages.{Shows};
ghost use Rattle.shop_attempt.specs.Marks.{Looks};
ghost use Rattle.shop_browse.specs.Attempts.{AttemptedAs, Suits, asking_of};
ghost use Rattle.shop_browse.specs.SubjectLists as spec;

use crate::driver::{Interaction, Next, attempt_by};
use crate::lines::{items_in, lines_of};
use crate::lists::subject_page;
use crate::names::{Names, label_keys};
use crate::{Ask, Attempted};
use shop_attempt::{ReadOf, Store};
use shop_cache::ListLines;
use shop_draft::Draft;
use shop_history::Key;
use shop_model::{BestSellers, NewProducts, Request};
use shop_text::Memory;
use std::alloc::Global;

/// The list of a subject that is asked for.
#[derive(Drop)]
pub(crate) enum SubjectList<'a> {
    New(&'a NewProducts),
    Best(&'a BestSellers),
}

impl<'a> SubjectList<'a> {
    fn key(&self) -> Key
        ensures { result ≡ spec.key_of self.now }
    {
        match self {
            SubjectList::New(asked) => Key::NewIn(asked.subject),
            SubjectList::Best(asked) => Key::BestIn(asked.subject),
        }
    }

    /// Writes the page of the list, by its lines.
    pub(crate) fn write_page(&self, draft: &mut Draft, lines: &ListLines) -> Result<(), Memory>
        ensures { OnOk result (Shows draft.new (λ drawn. spec.page_of self.now lines.now)) }
    {
        match self {
            SubjectList::New(asked) => {
                let (subject, ids) = (asked.subject, asked.ids);
                subject_page(draft, b"New Products", b"New ", subject, ids, lines)
            }
            SubjectList::Best(asked) => {
                let (subject, ids) = (asked.subject, asked.ids);
                subject_page(draft, b"Best Sellers", b"Best ", subject, ids, lines)
            }
        }
    }
}

impl<'a> Interaction for SubjectList<'a> {
    ghost request = { spec.request_of };

    ghost follows = { spec.follows };

    fn next(
        &mut self,
        alloc: Global,
        ask: &Ask,
        round: u32,
        reads: &[ReadOf],
        draft: &mut Draft,
    ) -> Result<Next, Memory> {
        if round == 0 {
            return Ok(Next::ReadOne(self.key()));
        }
        let items = items_in(&reads[0].row);
        let names = Names {
            index: ask.index,
            labels: &reads[1..],
        };
        match lines_of(alloc, names, items)? {
            Some(lines) => {
                self.write_page(draft, &lines)?;
                Ok(Next::ShowList(lines))
            }
            None => {
                if round == 1 {
                    Ok(Next::Read(label_keys(alloc, ask.index, items)?))
                } else {
                    Ok(Next::Never)
                }
            }
        }
    }
}

/// An attempt at the newest items of a subject.
#[inline(never)]
pub fn new_products<St: Store>(
    alloc: Global,
    store: &mut St,
    ask: &Ask,
    asked: &NewProducts,
    draft: &mut Draft,
) -> Attempted
    requires suits { Suits ask.now (St.seat store.old) }
    ensures looks { Looks St.seat St.marked store.old store.new }
    ensures attempted { AttemptedAs (St.seat store.old) (St.seat store.new) (asking_of ask.now (Request.NewProducts asked.now)) draft.new result }
{
    attempt_by(alloc, store, ask, SubjectList::New(asked), draft)
}

/// An attempt at the best sold items of a subject.
#[inline(never)]
pub fn best_sellers<St: Store>(
    alloc: Global,
    store: &mut St,
    ask: &Ask,
    asked: &BestSellers,
    draft: &mut Draft,
) -> Attempted
    requires suits { Suits ask.now (St.seat store.old) }
    ensures looks { Looks St.seat St.marked store.old store.new }
    ensures attempted { AttemptedAs (St.seat store.old) (St.seat store.new) (asking_of ask.now (Request.BestSellers asked.now)) draft.new result }
{
    attempt_by(alloc, store, ask, SubjectList::Best(asked), draft)
}
