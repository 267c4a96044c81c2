ghost use Rattle.std.specs.Prelude.{◌≡◌, ◌≤◌, IfOk};
ghost use Rattle.shop_model.specs.rows.Limits.{stamp_limit};
ghost use Rattle.shop_attempt.specs.Faithful.{Faithful};
ghost use Rattle.shop_attempt.specs.Seats.{IsReadAt};
ghost use Rattle.shop_turn.specs.Desks.{seat_of, HasLooked, HasSettled, IsOneShop, Meets};

use crate::rule::{Board, Place};
use crate::seats::{meet_at, read_at, settle_at};
use crate::sleepers::Sleepers;
use shop_attempt::{Attempt, Settle, Store};
use shop_history::{Key, Row};
use shop_text::Memory;
use std::alloc::Global;
use std::marker::Model;
use std::sync::{Arc, Wait};

/// One caller's store over a book that callers share. No call lends the book. Calls that change nothing go
/// on beside each other; each call may wait while another caller has the turn.
#[derive(Drop)]
pub struct Desk<R: Wait + Drop> {
    pub(crate) rt: R,
    pub(crate) table: Arc<Board, Global>,
    pub(crate) sleepers: Arc<Sleepers, Global>,
    pub(crate) seat: Place,
    pub(crate) number: u32,
    pub(crate) callers: u32,
}

impl<R: Wait + Drop> Model for Desk<R> {
    ghost use Rattle.std.specs.Arc.{arc_value};
    ghost use Rattle.shop_turn.specs.Desks.{DeskValue, desk_value, IsDesk};

    ghost Value = { DeskValue };

    ghost view = { λ d. desk_value d.seat.table_id d.number d.seat.me.0 };

    ghost invariant = { λ d. IsDesk (arc_value d.table).shared.table_id (arc_value d.table).shared.key d.seat.table_id d.number d.callers d.seat.me };
}

impl<R: Wait + Drop> Desk<R> {
    fn looked(&mut self, key: &Key) -> Result<(Row, u64), Memory>
        ensures looks { HasLooked self.old self.new }
        ensures row { IfOk result (IsReadAt (seat_of self.new) key.now) }
    {
        read_at(
            &self.rt,
            &self.table.shared,
            &self.sleepers,
            &mut self.seat,
            self.number as usize,
            self.callers as usize,
            key,
        )
    }

    fn settled(&mut self, attempt: Attempt) -> Settle
        requires faithful { Faithful self.old.origin.opening.tables self.old.seen attempt }
        requires moment { attempt.moment ≤ stamp_limit }
        ensures { HasSettled self.old self.new attempt result }
    {
        settle_at(
            &self.rt,
            &self.table.shared,
            &self.sleepers,
            &mut self.seat,
            self.number,
            self.callers as usize,
            attempt,
        )
    }

    /// Takes in what another caller of the shop has seen, and finds a log that begins with both.
    pub fn meet(&mut self, other: &mut Desk<R>)
        requires { IsOneShop self.old other.old }
        ensures meets { Meets self.old other.old self.new }
        ensures other { other.new ≡ other.old }
    {
        meet_at(
            &self.rt,
            &self.table.shared,
            &self.sleepers,
            &mut self.seat,
            &mut other.seat,
            self.number as usize,
        );
    }
}

impl<R: Wait + Drop> Store for Desk<R> {
    ghost use Rattle.shop_turn.specs.Desks.{seat_of, marks_of};

    ghost seat = { seat_of };

    ghost marked = { marks_of };

    fn read(&mut self, key: &Key) -> Result<(Row, u64), Memory> {
        self.looked(key)
    }

    fn settle(&mut self, attempt: Attempt) -> Settle {
        self.settled(attempt)
    }
}
