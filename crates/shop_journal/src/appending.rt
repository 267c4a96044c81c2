ghost use Rattle.std.specs.Prelude.{◌≡◌, ◌≤◌, List, is_some};
ghost use Rattle.shop_edges.specs.Causes.{Rose};
ghost use Rattle.shop_history.specs.declared.acts.Entry.{Entry};
ghost use Rattle.shop_model.specs.rows.Limits.{stamp_limit};
ghost use Rattle.shop_journal.specs.declared.headers.Head.{Head};
ghost use Rattle.shop_journal.specs.Appending.{AppendsAs, RunsAs, Stands, disk_after};
ghost use Rattle.shop_journal.specs.Runs.{Run, Standing};

use crate::Journal;
use crate::headers::Format;
use crate::payloads::payload_of;
use shop_disk::Disk;
use shop_history::Entry;
use shop_records as records;
use std::alloc::Global;

/// What became of an entry.
#[derive(Drop)]
pub enum Appended<D: Disk> {
    /// It is on the disk.
    Done(Journal<D>),
    /// The disk failed. The journal is to be opened again.
    Failed(D),
    /// Nothing was written.
    Memory(Journal<D>),
}

impl<D: Disk> Journal<D> {
    /// Adds an entry. From Done on a crash leaves a journal that has it. The stamp of an entry of a log is within its
    /// bound; one above it would make the journal unreadable.
    pub fn append(self, alloc: Global, entry: &Entry) -> Appended<D>
        requires stamp { entry.now.stamp ≤ stamp_limit }
        ensures kept { (head : Head) (entries : List Entry) → Stands (D.state self) head entries → AppendsAs D.state head entries entry.now result }
        ensures run { (run : Run) → Standing (D.state self) run → RunsAs D.state run entry.now result }
        ensures tells { is_some (D.state (disk_after result)).told ≡ is_some (D.state self).told }
        ensures later { (D.state self).faults ≤ (D.state (disk_after result)).faults }
        ensures failed { (disk : D) → result ≡ Appended.Failed disk → Rose (D.state self).faults (D.state disk).faults }
        ensures memory { (journal : D) → result ≡ Appended.Memory journal → journal ≡ self }
    {
        let Journal { records } = self;
        let Ok(payload) = payload_of(alloc, Format::Second, entry) else {
            return Appended::Memory(Journal { records });
        };
        match records.append(alloc, payload.bytes()) {
            records::Appended::Done(records) => Appended::Done(Journal { records }),
            records::Appended::Failed(disk) => Appended::Failed(disk),
            records::Appended::Memory(records) => Appended::Memory(Journal { records }),
        }
    }
}
