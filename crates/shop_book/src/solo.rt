ghost use Rattle.std.specs.Prelude.{◌≡◌, option_copied};
ghost use Rattle.shop_model.specs.rows.Lookups.{row_numbered};
ghost use Rattle.shop_attempt.specs.Marks.{AreMarks};
ghost use Rattle.shop_attempt.specs.Seats.{IsSeat};
ghost use Rattle.shop_book.specs.Solos.{seated, seat_of, marks_of};

use crate::{Book, Visitor};
use shop_attempt::{Attempt, Settle, Store};
use shop_history::{Entry, Key, Row};
use shop_text::Memory;
use std::marker::Model;

/// The seat of a caller who has a book alone for now.
#[derive(Drop)]
pub struct Solo {
    book: Book,
    visitor: Visitor,
}

impl Model for Solo {
    ghost use Rattle.shop_book.specs.Solos.{SoloValue};

    ghost Value = { SoloValue };

    ghost use Rattle.shop_book.specs.SoloView.{solo_of};

    ghost view = { solo_of };
}

impl Solo {
    /// The seat of caller 1, with no calls yet.
    pub fn new(book: Book) -> Solo
        ensures value { result ≡ seated book 1 }
        ensures valid { IsSeat (seat_of result) }
        ensures marked { AreMarks (marks_of result) (seat_of result).seen }
    {
        Solo::of(book, 1)
    }

    /// The seat of whichever caller has the book for now, with no calls yet. Callers are numbered
    /// from 1; those who take turns at a book have numbers of their own.
    pub fn of(book: Book, caller: u32) -> Solo
        ensures value { result ≡ seated book caller }
        ensures valid { IsSeat (seat_of result) }
        ensures marked { AreMarks (marks_of result) (seat_of result).seen }
    {
        let _size = book.size();
        let visitor = Visitor {
            caller,
            calls: 0,
            settles: 0,
            greatest: 0,
        };
        Solo { book, visitor }
    }

    /// Gives the seat to another visitor, and answers who had it.
    pub fn turn(&mut self, visitor: Visitor) -> Visitor
        ensures was { result ≡ self.old.visitor }
        ensures is { self.new ≡ record { book = self.old.book; visitor = visitor } }
    {
        let was = self.visitor;
        self.visitor = visitor;
        was
    }

    /// The entry with this number of the book's log, from 1 on.
    pub fn entry(&self, n: u64) -> Option<&Entry>
        ensures { option_copied result ≡ row_numbered self.now.book.log n }
    {
        self.book.entry(n)
    }

    /// The book.
    pub fn book(&self) -> &Book
        ensures { result.now ≡ self.now.book }
    {
        &self.book
    }

    /// The book, without its caller.
    pub fn into_book(self) -> Book
        ensures { result ≡ self.book }
    {
        let Solo { book, visitor: _ } = self;
        book
    }
}

impl Store for Solo {
    ghost use Rattle.shop_book.specs.Solos.{seat_of, marks_of};

    ghost seat = { seat_of };

    ghost marked = { marks_of };

    #[inline(always)]
    fn read(&mut self, key: &Key) -> Result<(Row, u64), Memory> {
        self.visitor.calls = self.visitor.calls.saturating_add(1);
        self.book.read(key)
    }

    fn settle(&mut self, attempt: Attempt) -> Settle {
        self.visitor.calls = self.visitor.calls.saturating_add(1);
        self.visitor.settles = self.visitor.settles.saturating_add(1);
        let moment = attempt.moment;
        let caller = self.visitor.caller;
        let number = self.book.count_of(caller) + 1;
        let settled = self.book.settle(caller, number, attempt);
        if let Settle::Done(_) = settled {
            self.visitor.greatest = self.visitor.greatest.max(moment);
        }
        settled
    }
}
