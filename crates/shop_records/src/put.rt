ghost use Rattle.std.specs.Prelude.{◌≡◌, List, ℕ, length, Some};
ghost use Rattle.shop_disk.specs.Images.{Torn};
ghost use Rattle.shop_disk.specs.DiskStates.{LeavesOnly};
ghost use Rattle.shop_disk.specs.Calls.{WritesAt, IsWithin, WriteCause};
ghost use Rattle.shop_records.specs.Standing.{IsDurable};

use shop_disk::{Disk, Wrote};

/// Writes bytes over a file that is on the disk, and puts them onto the disk. A crash at any moment of it leaves the
/// file as it was but for any bytes in their place.
pub(crate) fn put<D: Disk>(disk: &mut D, at: u64, bytes: &[u8]) -> Wrote
    requires within { IsWithin (D.state disk.old).told at }
    requires durable { IsDurable (D.state disk.old) }
    ensures written { WritesAt (D.state disk.old).told (D.state disk.new).told at bytes.now result }
    ensures durable { result ≡ Wrote.Done → IsDurable (D.state disk.new) }
    ensures any_moment { (file : List ℕ) → (D.state disk.old).told ≡ Some file
        → LeavesOnly (D.state disk.old) (D.state disk.new) (Torn at (length bytes.now) file) }
    ensures cause { WriteCause (D.state disk.old).faults (D.state disk.new).faults result }
{
    if disk.write_at(at, bytes) == Wrote::Failed {
        return Wrote::Failed;
    }
    disk.sync()
}
