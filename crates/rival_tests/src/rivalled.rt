ghost use Rattle.std.specs.Prelude.{◌≡◌, ◌≤◌};
ghost use Rattle.std.specs.Arc.{arc_value};
ghost use Rattle.shop_model.specs.lists.Catalogues.{opened};
ghost use Rattle.shop_model.specs.rows.Limits.{stamp_limit};
ghost use Rattle.shop_attempt.specs.Marks.{AreMarks, KeepsMarks};
ghost use Rattle.shop_attempt.specs.Seats.{IsSeat, Looked};
ghost use Rattle.shop_book.specs.Solos.{seated, seat_of, marks_of};
ghost use Rattle.rival_tests.specs.Rivals.{among};

use crate::deeds::{Deed, does};
use shop_attempt::{Attempt, Settle, Store};
use shop_book::{Book, Solo, Visitor};
use shop_browse::Ask;
use shop_draft::Draft;
use shop_history::{Key, Row};
use shop_model::TaxRule;
use shop_search::Index;
use shop_text::Memory;
use std::alloc::Global;
use std::marker::Model;
use std::sync::Arc;

/// The seat of caller 1 at a book at which caller 2 does a deed before one settle of caller 1 after
/// another whose time it is, until it was done so often.
#[derive(Drop)]
pub(crate) struct Rivalled {
    alloc: Global,
    solo: Solo,
    index: Arc<Index, Global>,
    deed: Deed,
    changes: u32,
    /// How often caller 1 has settled.
    settles: u32,
    /// The page of caller 2's change.
    draft: Draft,
}

impl Model for Rivalled {
    ghost use Rattle.std.specs.Arc.{arc_value};
    ghost use Rattle.rival_tests.specs.Rivals.{RivalledValue, IsFitting};

    ghost Value = { RivalledValue };

    ghost view = { λ i. record { solo = i.solo; changes = i.changes } };

    ghost invariant = { λ i. IsFitting i.solo (arc_value i.index) };
}

impl Rivalled {
    /// The seat, with no calls yet, and with a deed of caller 2 to come so often.
    pub(crate) fn new(
        alloc: Global,
        book: Book,
        index: Arc<Index, Global>,
        deed: Deed,
        changes: u32,
        draft: Draft,
    ) -> Rivalled
        requires named { arc_value index ≡ opened book.opening.tables }
        ensures value { result ≡ record { solo = seated book 1; changes = changes } }
        ensures valid { IsSeat (among (seat_of result.solo)) }
        ensures marked { AreMarks (marks_of result.solo) (seat_of result.solo).seen }
    {
        Rivalled {
            alloc,
            solo: Solo::new(book),
            index,
            deed,
            changes,
            settles: 0,
            draft,
        }
    }

    /// The book.
    pub(crate) fn into_book(self) -> Book
        ensures { result ≡ self.solo.book }
    {
        let Rivalled {
            alloc: _,
            solo,
            index: _,
            deed: _,
            changes: _,
            settles: _,
            draft: _,
        } = self;
        solo.into_book()
    }

    /// Lets caller 2 do its deed before a settle of this attempt, where it is to come.
    fn let_rival(&mut self, attempt: &Attempt)
        requires { attempt.now.moment ≤ stamp_limit }
        ensures looked { Looked (among (seat_of self.old.solo)) (among (seat_of self.new.solo)) }
        ensures marks { KeepsMarks (marks_of self.old.solo) (marks_of self.new.solo) (among (seat_of self.old.solo)) (among (seat_of self.new.solo)) }
    {
        self.settles = self.settles.saturating_add(1);
        if self.changes > 0 && self.deed.is_before(attempt, self.settles) {
            let ask = Ask {
                index: &self.index,
                moment: attempt.moment,
                draw: 0,
                tax: TaxRule::ByCountry,
            };
            let deed = (self.deed, self.settles);
            self.changes -= rival(self.alloc, &mut self.solo, &ask, deed, &mut self.draft);
        }
    }
}

impl Store for Rivalled {
    ghost use Rattle.shop_book.specs.Solos.{seat_of, marks_of};
    ghost use Rattle.rival_tests.specs.Rivals.{among};

    ghost seat = { λ r. among (seat_of r.solo) };

    ghost marked = { λ r. marks_of r.solo };

    fn read(&mut self, key: &Key) -> Result<(Row, u64), Memory> {
        self.solo.read(key)
    }

    fn settle(&mut self, attempt: Attempt) -> Settle {
        self.let_rival(&attempt);
        self.solo.settle(attempt)
    }
}

/// Caller 2's try at its deed before a settle of this number, at the seat of caller 1; how often it was done.
fn rival(alloc: Global, solo: &mut Solo, ask: &Ask, deed: (Deed, u32), draft: &mut Draft) -> u32
    requires caller { solo.old.visitor.caller ≡ 1 }
    requires index { ask.now.index.now ≡ opened solo.old.book.opening.tables }
    requires moment { ask.now.moment ≤ stamp_limit }
    ensures one { result ≤ 1 }
    ensures visitor { solo.new.visitor ≡ solo.old.visitor }
    ensures opening { solo.new.book.opening.tables ≡ solo.old.book.opening.tables }
    ensures looked { Looked (among (seat_of solo.old)) (among (seat_of solo.new)) }
    ensures marks { KeepsMarks (marks_of solo.old) (marks_of solo.new) (among (seat_of solo.old)) (among (seat_of solo.new)) }
{
    let visitor = Visitor {
        caller: 2,
        calls: 0,
        settles: 0,
        greatest: 0,
    };
    let was = solo.turn(visitor);
    let done = does(alloc, solo, ask, deed, draft);
    solo.turn(was);
    u32::from(done)
}
