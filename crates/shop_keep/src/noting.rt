ghost use Rattle.std.specs.Prelude.{◌≡◌, ◌≤◌, List, length, is_some};
ghost use Rattle.shop_edges.specs.Causes.{Rose};
ghost use Rattle.shop_history.specs.declared.acts.Entry.{Entry};
ghost use Rattle.shop_journal.specs.declared.appending.Appended.{Appended};
ghost use Rattle.shop_journal.specs.Appending.{disk_after};
ghost use Rattle.shop_keep.specs.Appends.{IsGrown, NotedAs};

use shop_book::Solo;
use shop_disk::Disk;
use shop_engine::Worker;
use shop_journal::{Appended, Journal};
use std::alloc::Global;

/// How many changes the log of a worker's shop has.
pub(crate) fn size_of(worker: &Worker<Solo>) -> u64
    ensures { result ≡ length worker.now.store.book.log }
{
    worker.store().book().size()
}

/// Appends the entry that was made, if one was: the log had so many before.
pub(crate) fn note<D: Disk>(
    alloc: Global,
    worker: &Worker<Solo>,
    before: u64,
    journal: Journal<D>,
) -> Appended<D>
    ensures noted { (log made : List Entry) → IsGrown before log worker.now.store.book.log made → NotedAs D.state journal made result }
    ensures tells { is_some (D.state (disk_after result)).told ≡ is_some (D.state journal).told }
    ensures later { (D.state journal).faults ≤ (D.state (disk_after result)).faults }
    ensures failed { (disk : D) → result ≡ Appended.Failed disk → Rose (D.state journal).faults (D.state disk).faults }
{
    let size = size_of(worker);
    if size <= before {
        return Appended::Done(journal);
    }
    match worker.store().book().entry(size) {
        Some(entry) => journal.append(alloc, entry),
        None => Appended::Done(journal),
    }
}
