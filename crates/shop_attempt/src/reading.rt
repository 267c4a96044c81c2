ghost use Rattle.std.specs.Prelude.{IfOk};
ghost use Rattle.shop_attempt.specs.Seats.{IsSeat};
ghost use Rattle.shop_attempt.specs.Marks.{AreMarks, Looks};
ghost use Rattle.shop_attempt.specs.Reads.{IsReadOf};

use crate::{ReadOf, Store};
use shop_history::Key;
use shop_text::Memory;

/// Reads a row.
#[inline(always)]
pub fn read<St: Store>(store: &mut St, key: Key) -> Result<ReadOf, Memory>
    ensures looks { Looks St.seat St.marked store.old store.new }
    ensures valid { IsSeat (St.seat store.new) }
    ensures marked { AreMarks (St.marked store.new) (St.seat store.new).seen }
    ensures read { IfOk result (IsReadOf (St.seat store.new) key) }
{
    let (row, version) = store.read(&key)?;
    Ok(ReadOf { key, row, version })
}
