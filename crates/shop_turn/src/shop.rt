ghost use Rattle.std.specs.Prelude.{◌≤◌, ◌∷◌, IfOk, All};
ghost use Rattle.std.specs.Arc.{arc_value};
ghost use Rattle.shop_turn.specs.Desks.{IsOneShop};
ghost use Rattle.shop_turn.specs.Shops.{most_callers, IsLaid, Opens, Closes};

use crate::Desk;
use crate::laid::{shares_of, words_of};
use crate::rule::{Board, Place, Start};
use crate::seats::{close_at, join_at, new_seat};
use crate::share::Share;
use crate::sleepers::Sleepers;
use atomic_table::{Refused, Table};
use shop_book::Book;
use shop_text::Memory;
use std::alloc::Global;
use std::snapshot::Snapshot;
use std::sync::{Arc, Wait};

/// The table of a shop, and a seat at it that has no number.
fn lay(alloc: Global, book: Book, callers: u32) -> Result<(Arc<Board, Global>, Place), Memory>
    ensures { IfOk result (λ t. IsLaid book callers (arc_value t.0).shared.table_id (arc_value t.0).shared.key t.1) }
{
    let start = Start {
        book: Snapshot::of(&book),
        callers: u64::from(callers),
    };
    let words = words_of(alloc, &book, callers as usize)?;
    let share = Share::new(alloc, book)?;
    let slots = shares_of(alloc, &share, callers as usize)?;
    let (table, root) = match Table::new(alloc, words.as_slice(), slots, &start) {
        Ok(made) => made,
        Err(Refused { slots: _ }) => return Err(Memory),
    };
    Ok((Arc::new(alloc, table)?, root))
}

/// A book that callers share, from its first desk to its last.
pub struct Shop;

impl Shop {
    /// A desk for each caller, numbered from 1, in order. The book is in none of them.
    pub fn open<R: Wait + Clone + Drop>(
        rt: &R,
        alloc: Global,
        book: Book,
        callers: u32,
    ) -> Result<Vec<Desk<R>>, Memory>
        requires { (1 ≤ callers) × (callers ≤ most_callers) }
        ensures { IfOk result (λ desks. Opens book callers desks.items) }
    {
        let (table, mut root) = lay(alloc, book, callers)?;
        let sleepers = Arc::new(alloc, Sleepers::none())?;
        let mut desks = Vec::new(alloc);
        for i in 0..callers {
            let seat = new_seat(rt, &table.shared, &mut root, u64::from(i + 1));
            desks.push(Desk {
                rt: rt.clone()?,
                table: Arc::try_clone(&table)?,
                sleepers: Arc::try_clone(&sleepers)?,
                seat,
                number: i + 1,
                callers,
            })?;
        }
        Ok(desks)
    }

    /// Takes the book out for good. A call at a desk that is not among these waits from then on.
    pub fn close<R: Wait + Drop>(first: Desk<R>, others: Vec<Desk<R>>) -> Book
        requires { All (IsOneShop first) others.items }
        ensures { Closes first.origin (first ∷ others.items) result }
    {
        let Desk {
            rt,
            table,
            sleepers,
            mut seat,
            number,
            callers,
        } = first;
        for desk in others {
            let Desk {
                rt: _,
                table: _,
                sleepers: _,
                seat: other,
                number: _,
                callers: _,
            } = desk;
            join_at(&table.shared, &mut seat, other);
        }
        close_at(
            &rt,
            &table.shared,
            &sleepers,
            &mut seat,
            number as usize,
            callers as usize,
        )
    }
}
