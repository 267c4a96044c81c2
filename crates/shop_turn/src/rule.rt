//! The table at which callers share a book, and the rule that they keep to between any two steps. Word 16 c
//! is `INSIDE` while caller c is inside, and `TAKEN` while its share is with another, who has the turn; slot
//! 8 c has the share of caller c, and slot 0 the one that goes with the turn. The factors keep the word and
//! the slot of each caller on a cache line of their own.
use crate::share::Share;
use atomic_table::{Join, Play, Seat, Shared, Split, Table, TableRule};
use shop_book::{Book, Opening};
use shop_history::Entry;
use std::alloc::Global;
use std::collections::LinkedList;
use std::snapshot::Snapshot;

/// The word with the number of the caller who has the turn, 0 where nobody has it.
pub const TURN: usize = 0;

/// The word with the length of the log.
pub const COUNT: usize = 1;

/// The word with the latest stamp.
pub const LATEST: usize = 2;

/// The word with the largest number that a caller has.
pub const NAMED: usize = 3;

/// A caller is inside.
pub const INSIDE: u64 = 1;

/// A caller's share is with the one who has the turn.
pub const TAKEN: u64 = 2;

/// How the shop began, which all its seats know: how many entries the log had, its latest stamp, how
/// many callers there are, and what the book opened with.
pub struct Origin {
    pub size: u64,
    pub latest: u64,
    pub callers: u64,
    pub opening: Opening,
}

/// A caller's number, 0 where there is none, and the log that was seen under it.
pub struct Part {
    pub number: u64,
    pub seen: LinkedList<Entry>,
}

/// What a seat knows. It stands in proofs alone: no value of it is made.
pub struct View {
    /// Not so once another seat has joined this one.
    pub live: bool,
    pub origin: Origin,
    pub own: Part,
    /// The parts of the seats that this one has joined since its last look.
    pub others: LinkedList<Part>,
    /// The front and the moment of each settle that was accepted.
    pub marks: LinkedList<(u64, u64)>,
    pub looks: u64,
    /// How many of the looks were those of settles.
    pub settles: u64,
    /// 0 outside, 1 inside with its share, 2 with the turn and its share.
    pub stage: u64,
    /// With the turn, the shares of the callers up to this number are with the seat.
    pub gathered: u64,
    /// Inside, or with the turn, the log; else of no account.
    pub log: LinkedList<Entry>,
    /// The same of the latest stamp of the book that is shared.
    pub latest: u64,
    /// Whether that is the latest stamp, as only a seat with every share can know.
    pub knows: bool,
}

/// What the table is told when it is made.
#[derive(Drop)]
pub struct Start {
    pub book: Snapshot<Book>,
    pub callers: u64,
}

pub struct Law;

impl TableRule<Option<Share>, View, Start> for Law {
    ghost use Rattle.shop_turn.specs.Views.{opening_view};
    ghost use Rattle.shop_turn.specs.Rule.{Holds};

    ghost holds = { λ start. Holds (opening_view start.book.value start.callers).origin };

    ghost first = { λ start. opening_view start.book.value start.callers };
}

pub type Board = Table<Option<Share>, View, Start, Law, Global>;

/// What the seats of one table step at.
pub type Common = Shared<Option<Share>, View, Start, Law>;

pub type Place = Seat<Option<Share>, View>;

/// A seat without a number gets the next one.
pub struct Name;

impl Play<Option<Share>, View> for Name {
    ghost use Rattle.shop_turn.specs.Plays.{Names};

    ghost then = { Names };
}

/// A caller outside takes its share, where nobody has taken it.
pub struct Enter;

impl Play<Option<Share>, View> for Enter {
    ghost use Rattle.shop_turn.specs.Plays.{Enters};

    ghost then = { Enters };
}

/// A caller with a share counts the log.
pub struct Look;

impl Play<Option<Share>, View> for Look {
    ghost use Rattle.shop_turn.specs.Plays.{Looks};

    ghost then = { Looks 0 };
}

/// The same within a settle.
pub struct LookToSettle;

impl Play<Option<Share>, View> for LookToSettle {
    ghost use Rattle.shop_turn.specs.Plays.{Looks};

    ghost then = { Looks 1 };
}

/// A caller with a share raises the latest stamp to the moment of a settle that changes nothing and was accepted.
pub struct Raise;

impl Play<Option<Share>, View> for Raise {
    ghost use Rattle.shop_turn.specs.Plays.{Raises};

    ghost then = { Raises };
}

/// A caller puts its share back, and goes.
pub struct Leave;

impl Play<Option<Share>, View> for Leave {
    ghost use Rattle.shop_turn.specs.Plays.{Leaves};

    ghost then = { Leaves };
}

/// A caller outside takes the turn and its share, where nobody has it.
pub struct Take;

impl Play<Option<Share>, View> for Take {
    ghost use Rattle.shop_turn.specs.Plays.{Takes};

    ghost then = { Takes };
}

/// The caller with the turn takes the share of the next caller, where that one is outside.
pub struct Gather;

impl Play<Option<Share>, View> for Gather {
    ghost use Rattle.shop_turn.specs.Plays.{Gathers};

    ghost then = { Gathers };
}

/// The caller with the turn and every share reads the latest stamp.
pub struct Measure;

impl Play<Option<Share>, View> for Measure {
    ghost use Rattle.shop_turn.specs.Plays.{Measures};

    ghost then = { Measures };
}

/// The same caller raises it to the moment of a change that was accepted.
pub struct Lift;

impl Play<Option<Share>, View> for Lift {
    ghost use Rattle.shop_turn.specs.Plays.{Lifts};

    ghost then = { Lifts };
}

/// The same caller counts one entry more, which the book in the slot taken last has.
pub struct Append;

impl Play<Option<Share>, View> for Append {
    ghost use Rattle.shop_turn.specs.Plays.{Appends};

    ghost then = { Appends };
}

/// The caller with the turn gives a share back.
pub struct Fill;

impl Play<Option<Share>, View> for Fill {
    ghost use Rattle.shop_turn.specs.Plays.{Fills};

    ghost then = { Fills };
}

/// The caller with the turn gives it up, with its share.
pub struct Give;

impl Play<Option<Share>, View> for Give {
    ghost use Rattle.shop_turn.specs.Plays.{Gives};

    ghost then = { Gives };
}

/// A new seat knows what another has seen.
pub struct Copies;

impl Split<View> for Copies {
    ghost use Rattle.shop_turn.specs.Views.{copy};

    ghost left = { λ view. view };

    ghost right = { copy };
}

/// One seat knows what two knew.
pub struct Both;

impl Join<View> for Both {
    ghost use Rattle.shop_turn.specs.Views.{together};
    ghost use Rattle.shop_turn.specs.SpentViews.{spent_view};

    ghost both = { together };

    ghost spent = { spent_view };
}
