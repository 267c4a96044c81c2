//! The words and the slots of a new shop's table.
ghost use Rattle.std.specs.Prelude.{◌≡◌, ℕ, ◌+◌, ◌*◌, ◌^◌, ◌<◌, Some, IfOk, length};
ghost use Rattle.shop_book.specs.Books.{IsBook};
ghost use Rattle.shop_turn.specs.Laid.{AreWords, AreShares};

use crate::rule::{COUNT, LATEST};
use crate::share::Share;
use shop_book::Book;
use shop_text::Memory;
use std::alloc::Global;

/// The words of a table for so many callers, who are all outside.
pub fn words_of(alloc: Global, book: &Book, callers: usize) -> Result<Vec<u64>, Memory>
    requires { callers < 2 ^ 32 }
    ensures words { IfOk result (λ words. AreWords book.now callers words.items) }
    ensures kept { IsBook book.now }
{
    let (size, latest) = (book.size(), book.latest());
    let mut words = vec![in alloc; 0u64; 16 * callers + 16]?;
    words[COUNT] = size;
    words[LATEST] = latest;
    Ok(words)
}

/// What lies in a slot at first: a share in that of a caller, and in that of the turn.
fn slot_of(share: &Share, slot: usize) -> Result<Option<Share>, Memory>
    ensures { IfOk result (λ there. (c : ℕ) → 8 * c ≡ slot → there ≡ Some share.now) }
{
    if slot % 8 != 0 {
        return Ok(None);
    }
    Ok(Some(share.again()?))
}

/// The slots of a table for so many callers, who have their shares, as the turn has its own.
pub fn shares_of(alloc: Global, share: &Share, callers: usize) -> Result<Vec<Option<Share>>, Memory>
    requires { callers < 2 ^ 32 }
    ensures shares { IfOk result (λ slots. AreShares share.now callers slots.items) }
    ensures count { IfOk result (λ slots. length slots.items ≡ 8 * callers + 8) }
{
    let count = 8 * callers + 8;
    let mut slots = Vec::with_capacity(alloc, count)?;
    for slot in 0..count {
        slots.push(slot_of(share, slot)?)?;
    }
    Ok(slots)
}
