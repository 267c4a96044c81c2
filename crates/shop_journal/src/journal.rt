use shop_disk::Disk;
use shop_records::Records;
use std::marker::Model;

/// The log of a shop in a file, all of it on the disk. Contracts see its disk.
#[derive(Drop)]
pub struct Journal<D: Disk> {
    pub(crate) records: Records<D>,
}

impl<D: Disk> Model for Journal<D> {
    ghost Value = { D };

    ghost view = { λ j. j.records };
}

impl<D: Disk> Journal<D> {
    ghost use Rattle.std.specs.Prelude.{◌≡◌};

    /// The disk, on which nothing is called.
    pub fn into_disk(self) -> D
        ensures { result ≡ self }
    {
        let Journal { records } = self;
        records.into_disk()
    }
}
