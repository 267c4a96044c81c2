use shop_disk::Disk;
use shop_engine::{Ended, Point};
use shop_journal::Journal;
use shop_text::Listed;

/// How a kept connection ended.
#[derive(Clone, Copy, Debug, PartialEq, Eq)]
pub enum KeptEnd {
    /// As one over a shop that is in memory alone.
    Ended(Ended),
    /// The disk failed. The change whose entry was being appended has no reply, and may be in the file.
    DiskFault,
}

/// What became of a kept connection: the disk, its end, and a point for each answer that was made.
#[derive(Drop)]
pub struct Kept<D: Disk> {
    pub disk: D,
    pub end: KeptEnd,
    pub points: Listed<Point>,
}

impl<D: Disk> Kept<D> {
    ghost use Rattle.std.specs.Prelude.{◌≡◌};
    ghost use Rattle.shop_keep.specs.declared.kept.KeptEnd.{KeptEnd};

    /// With these points.
    pub(crate) fn of(disk: D, end: KeptEnd, points: Vec<Point>) -> Kept<D>
        ensures { result ≡ record { disk = disk; end = end; points = points.items } }
    {
        Kept {
            disk,
            end,
            points: Listed::from_vec(points),
        }
    }

    /// The same where the journal stands.
    pub(crate) fn at(journal: Journal<D>, ended: Ended, points: Vec<Point>) -> Kept<D>
        ensures { result ≡ record { disk = journal; end = KeptEnd.Ended ended; points = points.items } }
    {
        Kept::of(journal.into_disk(), KeptEnd::Ended(ended), points)
    }
}
