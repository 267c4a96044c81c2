ghost use Rattle.std.specs.Prelude.{ℕ, ◌≤◌, IfOk};
ghost use Rattle.shop_model.specs.rows.Limits.{stamp_limit};
ghost use Rattle.shop_attempt.specs.Faithful.{Faithful};
ghost use Rattle.shop_attempt.specs.Seats.{Seat, IsSeat, Follows, Looked, IsReadAt, Rose, RoseOnce};
ghost use Rattle.shop_attempt.specs.Settles.{SettledAs};
ghost use Rattle.shop_attempt.specs.Marks.{AreMarks, StillMarked, LeavesMark};

use crate::{Attempt, Settle};
use shop_history::{Key, Row};
use shop_text::Memory;

/// One caller's seat at a shop.
pub trait Store {
    /// What the seat means to its caller.
    ghost seat: { Self → Seat };

    /// That each entry behind a front has a stamp of at least a moment, where the store keeps that
    /// in mind; it need not hold wherever the log seen would allow it.
    ghost marked: { Self → ℕ → ℕ → Type 0 };

    /// What a key shows, and its version, in the log that this call finds.
    fn read(&mut self, key: &Key) -> Result<(Row, u64), Memory>
        ensures looked { Looked (seat self.old) (seat self.new) }
        ensures valid { IsSeat (seat self.new) }
        ensures calls { Rose (seat self.old).calls (seat self.new).calls }
        ensures row { IfOk result (IsReadAt (seat self.new) key.now) }
        ensures marks { StillMarked (marked self.old) (marked self.new) }
        ensures marked { AreMarks (marked self.new) (seat self.new).seen };

    /// Settles an attempt over the log that this call finds.
    fn settle(&mut self, attempt: Attempt) -> Settle
        requires faithful { Faithful (seat self.old).opening (seat self.old).seen attempt }
        requires moment { attempt.moment ≤ stamp_limit }
        ensures follows { Follows (seat self.old) (seat self.new) }
        ensures valid { IsSeat (seat self.new) }
        ensures calls { Rose (seat self.old).calls (seat self.new).calls }
        ensures settles { RoseOnce (seat self.old).settles (seat self.new).settles }
        ensures settled { SettledAs (seat self.old) (seat self.new) attempt result }
        ensures marks { StillMarked (marked self.old) (marked self.new) }
        ensures marked { AreMarks (marked self.new) (seat self.new).seen }
        ensures mark { LeavesMark (marked self.new) attempt result };
}
