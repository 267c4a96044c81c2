//! A list of items, as it is shown.
ghost use Rattle.std.specs.Prelude.{◌≡◌, ◌≢◌, ◌≤◌, ℕ, [], true, false, List, IfOk, IfSome, map, vec_capacity};
ghost use Rattle.shop_model.specs.declared.subject.Subject.{Subject};
ghost use Rattle.shop_model.specs.rows.Limits.{list_limit};
ghost use Rattle.shop_model.specs.rows.Subjects.{subjects};

use shop_history::Row;
use shop_model::Subject;
use shop_ranking::{Best, Newest};
use shop_text::{Listed, Memory, Shared};
use std::alloc::Global;
use std::marker::Model;

/// The most items of a list.
const LIST_LIMIT: usize = 50;

/// What tells which items are listed of a subject.
pub(crate) trait Lister {
    ghost listed: { Self → Subject → List ℕ };

    /// Writes the ids of the items that are listed of a subject over those that were listed before;
    /// answers whether they differ. Takes no memory.
    fn list_in(&self, subject: Subject, ids: &mut Vec<u32>) -> bool
        requires { list_limit ≤ vec_capacity ids.old }
        ensures ids { ids.new.items ≡ listed self.now subject }
        ensures same { result ≡ false → ids.new.items ≡ ids.old.items }
        ensures other { result ≡ true → ids.new.items ≢ ids.old.items }
        ensures capacity { vec_capacity ids.new ≡ vec_capacity ids.old };
}

impl Lister for Best {
    ghost use Rattle.shop_ranking.specs.StandingBest.{standing_best};

    ghost listed = { standing_best };

    fn list_in(&self, subject: Subject, ids: &mut Vec<u32>) -> bool {
        self.renew(subject, ids)
    }
}

impl Lister for Newest {
    ghost use Rattle.shop_ranking.specs.StandingNewest.{standing_newest};

    ghost listed = { standing_newest };

    fn list_in(&self, subject: Subject, ids: &mut Vec<u32>) -> bool {
        self.renew(subject, ids)
    }
}

/// The ids of the items on a list, 50 at most, and the row that shows them, once it was asked for.
#[derive(Drop)]
pub(crate) struct Listing {
    ids: Vec<u32>,
    row: Option<Shared<Listed<u32>>>,
}

impl Model for Listing {
    ghost use Rattle.std.specs.Prelude.{ℕ, List};
    ghost use Rattle.shop_book.specs.Listings.{IsListing};

    ghost Value = { List ℕ };

    ghost view = { λ l. l.ids.items };

    ghost invariant = { λ l. IsListing l.ids l.row };
}

impl Listing {
    /// No items, with room for all that a list may have.
    pub(crate) fn new(alloc: Global) -> Result<Listing, Memory>
        ensures { IfOk result (λ list. list ≡ []) }
    {
        Ok(Listing {
            ids: Vec::with_capacity(alloc, LIST_LIMIT)?,
            row: None,
        })
    }

    /// Lists the items of a subject anew; answers whether these are others than before. Takes no memory.
    #[inline(always)]
    pub(crate) fn renew<L: Lister>(&mut self, lister: &L, subject: Subject) -> bool
        ensures list { self.new ≡ L.listed lister.now subject }
        ensures same { result ≡ false → self.new ≡ self.old }
        ensures other { result ≡ true → self.new ≢ self.old }
    {
        let changed = lister.list_in(subject, &mut self.ids);
        if changed {
            self.row = None;
        }
        changed
    }

    /// What the key of the list shows; none where it was not asked for since the list changed.
    pub(crate) fn shown(&self) -> Option<Result<Row, Memory>>
        ensures { IfSome result (λ looked. IfOk looked (λ row. row ≡ Row.Items self.now)) }
    {
        match self.row.as_ref()?.share() {
            Ok(row) => Some(Ok(Row::Items(row))),
            Err(Memory) => Some(Err(Memory)),
        }
    }

    /// The row that shows the list. It takes memory where the list was not asked for since it changed.
    pub(crate) fn row(&mut self) -> Result<Shared<Listed<u32>>, Memory>
        ensures row { IfOk result (λ row. row ≡ self.old) }
        ensures list { self.new ≡ self.old }
    {
        if let Some(row) = &self.row {
            return row.share();
        }
        let ids = Vec::from_slice(*self.ids.allocator(), &self.ids)?;
        let row = Shared::new(*self.ids.allocator(), Listed::from_vec(ids))?;
        self.row = Some(row.share()?);
        Ok(row)
    }
}

/// The lists of all subjects, by their numbers.
pub(crate) fn listings<L: Lister>(alloc: Global, lister: &L) -> Result<Vec<Listing>, Memory>
    ensures { IfOk result (λ lists. lists.items ≡ map (L.listed lister.now) subjects) }
{
    let mut lists = Vec::with_capacity(alloc, 24)?;
    for subject in &Subject::all() {
        let mut list = Listing::new(alloc)?;
        list.renew(lister, *subject);
        lists.push(list)?;
    }
    Ok(lists)
}
