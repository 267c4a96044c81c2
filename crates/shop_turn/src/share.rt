ghost use Rattle.std.specs.Prelude.{◌≡◌, ◌≤◌, IfOk, IfErr};
ghost use Rattle.shop_model.specs.rows.Limits.{stamp_limit};
ghost use Rattle.shop_book.specs.Preparing.{IsReady};
ghost use Rattle.shop_turn.specs.Committed.{CommittedFrom};
ghost use Rattle.shop_turn.specs.Shared.{IsReadIn, at_stamp};

use shop_attempt::Settle;
use shop_book::{Book, Prepared};
use shop_history::{Key, Row};
use shop_text::Memory;
use std::alloc::{AllocError, Global};
use std::boxed::Box;
use std::marker::Model;
use std::sync::{Arc, Wait};

/// A share of a book, which lies behind a box of its own, so that a share that isn't the last one is dropped
/// without room for a book. A contract sees the book.
#[derive(Drop)]
pub struct Share {
    book: Arc<Box<Book, Global>, Global>,
}

impl Model for Share {
    ghost use Rattle.std.specs.Arc.{arc_value};
    ghost use Rattle.shop_book.specs.Books.{BookValue};

    ghost Value = { BookValue };

    ghost view = { λ s. (arc_value s.book).value };
}

impl Share {
    /// A refusal drops the book.
    pub fn new(alloc: Global, book: Book) -> Result<Share, Memory>
        ensures { IfOk result (λ share. share ≡ book) }
    {
        Ok(Share {
            book: Arc::new(alloc, Box::new(alloc, book)?)?,
        })
    }

    pub fn get(&self) -> &Book
        ensures { result.now ≡ self.now }
    {
        &self.book
    }

    /// Another share of the same book.
    pub fn again(&self) -> Result<Share, AllocError>
        ensures { IfOk result (λ share. share ≡ self.now) }
    {
        Ok(Share {
            book: Arc::try_clone(&self.book)?,
        })
    }

    /// What a key shows, and its version, where the book has no other share; else Memory.
    pub fn read(&mut self, key: &Key) -> Result<(Row, u64), Memory>
        ensures row { IfOk result (IsReadIn self.old key.now) }
        ensures same { self.new ≡ self.old }
    {
        let Some(book) = Arc::get_mut(&mut self.book) else {
            return Err(Memory);
        };
        book.read(key)
    }

    /// Makes a change that the book prepared, at the shop's latest stamp. Waits until the book has no other
    /// share.
    pub fn commit<R: Wait>(&mut self, rt: &R, latest: u64, prepared: Prepared) -> Settle
        requires after { self.old.latest ≤ latest }
        requires bound { latest ≤ stamp_limit }
        requires ready { IsReady self.old.opening self.old.log prepared }
        ensures { CommittedFrom (at_stamp latest self.old) self.new prepared result }
    {
        for _ in rt.forever() {
            if let Some(book) = Arc::get_mut(&mut self.book) {
                book.raise(latest);
                return book.commit(prepared);
            }
        }
        unreachable!()
    }

    /// The book, where it has no other share; else the share.
    pub fn into_book(self) -> Result<Book, Share>
        ensures ok { IfOk result (λ book. book ≡ self) }
        ensures err { IfErr result (λ share. share ≡ self) }
    {
        let Share { book } = self;
        match Arc::try_unwrap(book) {
            Ok(book) => Ok(Box::into_inner(book)),
            Err(book) => Err(Share { book }),
        }
    }
}
