ghost use Rattle.std.specs.Prelude.{◌≡◌};
ghost use Rattle.shop_turn.specs.Desks.{IsOneShop, seat_of};

use crate::serving::serve;
use shop_attempt::{Attempt, Conflict, Settle, Store};
use shop_engine::Worker;
use shop_gateway::Emulator;
use shop_history::{Key, Row};
use shop_text::Memory;
use shop_turn::Desk;
use std::alloc::Global;
use std::sync::Wait;

/// Which row was changed meanwhile.
#[derive(Clone, Copy, PartialEq, Eq)]
pub(crate) enum Place {
    Item(u32),
    Cart(u32),
    Elsewhere,
}

/// What a stale settle was told: the row, the version read, and the one found.
#[derive(Clone, Copy, PartialEq, Eq)]
pub(crate) struct Clash {
    pub(crate) place: Place,
    pub(crate) read: u64,
    pub(crate) found: u64,
}

impl Clash {
    fn of(conflict: &Conflict) -> Clash {
        let place = match &conflict.key {
            Key::Item(id) => Place::Item(*id),
            Key::Cart(id) => Place::Cart(*id),
            _ => Place::Elsewhere,
        };
        Clash {
            place,
            read: conflict.read,
            found: conflict.found,
        }
    }
}

/// The desk of a caller, before whose second settle another caller of the shop is served.
#[derive(Drop)]
pub(crate) struct Interrupted<R: Wait + Drop> {
    alloc: Global,
    desk: Desk<R>,
    other: Worker<Desk<R>>,
    /// What the other caller asks for.
    asks: &'static [u8],
    settles: u64,
    /// Of the last settle that was stale.
    clash: Option<Clash>,
    ghost one_shop: { IsOneShop desk other.store },
}

/// What is left of it: the desks of both callers.
#[derive(Drop)]
pub(crate) struct Parted<R: Wait + Drop> {
    pub(crate) desk: Desk<R>,
    pub(crate) other: Desk<R>,
    /// Of the last settle that was stale.
    pub(crate) clash: Option<Clash>,
    ghost one_shop: { IsOneShop desk other },
}

impl<R: Wait + Drop> Interrupted<R> {
    /// The desk, before its first settle.
    pub(crate) fn new(
        alloc: Global,
        desk: Desk<R>,
        other: Worker<Desk<R>>,
        asks: &'static [u8],
    ) -> Interrupted<R>
        requires { IsOneShop desk other.store }
        ensures { seat_of result.desk ≡ seat_of desk }
    {
        Interrupted {
            alloc,
            desk,
            other,
            asks,
            settles: 0,
            clash: None,
        }
    }

    pub(crate) fn into_parts(self) -> Parted<R> {
        let Interrupted {
            alloc: _,
            desk,
            other,
            asks: _,
            settles: _,
            clash,
        } = self;
        Parted {
            desk,
            other: other.into_store(),
            clash,
        }
    }

    /// Counts a settle, and has the other caller served before the second one.
    fn interrupt(&mut self)
        ensures { self.new.desk ≡ self.old.desk }
    {
        self.settles = self.settles.saturating_add(1);
        if self.settles == 2 {
            serve_other(self.alloc, &mut self.other, self.asks);
        }
    }

    /// Keeps in mind what a stale settle was told.
    fn note(&mut self, answer: &Settle)
        ensures { self.new.desk ≡ self.old.desk }
    {
        if let Settle::Stale(conflict) = answer {
            self.clash = Some(Clash::of(conflict));
        }
    }
}

impl<R: Wait + Drop> Store for Interrupted<R> {
    ghost use Rattle.shop_turn.specs.Desks.{seat_of, marks_of};

    ghost seat = { λ s. seat_of s.desk };

    ghost marked = { λ s. marks_of s.desk };

    fn read(&mut self, key: &Key) -> Result<(Row, u64), Memory> {
        self.desk.read(key)
    }

    fn settle(&mut self, attempt: Attempt) -> Settle {
        self.interrupt();
        let answer = self.desk.settle(attempt);
        self.note(&answer);
        answer
    }
}

/// Serves the other caller.
fn serve_other<R: Wait + Drop>(alloc: Global, other: &mut Worker<Desk<R>>, asks: &[u8])
    ensures { (seat_of other.new.store).shop ≡ (seat_of other.old.store).shop }
{
    let mut gateway = Emulator::new(alloc);
    let _ = serve(alloc, other, asks, &mut gateway);
}
