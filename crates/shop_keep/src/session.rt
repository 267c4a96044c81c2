//! One connection over the shop whose log is in a file.
ghost use Rattle.std.specs.Prelude.{◌≡◌, ◌≤◌, List, ℕ, Option, is_some};
ghost use Rattle.shop_book.specs.Openings.{most_entries};
ghost use Rattle.shop_history.specs.declared.acts.Entry as entry;
ghost use Rattle.shop_words.specs.declared.command.Session as command;
ghost use Rattle.shop_keep.specs.Runs.{IsReady, KeepsBy};
ghost use Rattle.shop_keep.specs.Sessions as spec;

use crate::connection::serve_kept;
use crate::files::{Opened, journal_of};
use crate::kept::KeptEnd;
use crate::workers::worker_over;
use shop_app::Status;
use shop_book::Solo;
use shop_disk::{self as disks, Disk};
use shop_edges::{Clock, Gateway, Sink, Source};
use shop_engine::Worker;
use shop_journal::Journal;
use shop_words::Keep;
use std::alloc::Global;

/// The status of a connection that ended so.
fn status_of(end: KeptEnd) -> Status
    ensures { result ≡ spec.status_of end }
{
    match end {
        KeptEnd::Ended(ended) => Status::of(ended),
        KeptEnd::DiskFault => Status::DiskFault,
    }
}

/// Serves one connection of a worker that has served no request, over the journal of its shop's log.
fn serve_over<D: Disk, S: Source, K: Sink, C: Clock, G: Gateway>(
    alloc: Global,
    worker: Worker<Solo>,
    journal: Journal<D>,
    source: &mut S,
    sink: &mut K,
    clock: &mut C,
    gateway: &mut G,
) -> (Status, D)
    ensures kept { (session : command.Session) (named : Option (List ℕ)) (first : List entry.Entry) → IsReady session named (D.state journal) first worker
        → KeepsBy D.state (S.Source, K.Sink, C.Clock, G.Gateway) session named
        (journal, (source.old, sink.old, clock.old, gateway.old)) (result.1, (source.new, sink.new, clock.new, gateway.new)) result.0 }
    ensures tells { is_some (D.state result.1).told ≡ is_some (D.state journal).told }
    ensures later { (D.state journal).faults ≤ (D.state result.1).faults }
    ensures reads { S.faults source.old ≤ S.faults source.new }
    ensures writes { K.faults sink.old ≤ K.faults sink.new }
{
    let mut worker = worker;
    let kept = serve_kept(alloc, &mut worker, journal, source, sink, clock, gateway);
    (status_of(kept.end), kept.disk)
}

/// Serves one connection of the caller over the shop that the words choose, whose log is in the file that they name.
pub(crate) fn keep<D: Disk, S: Source, K: Sink, C: Clock, G: Gateway>(
    alloc: Global,
    asked: &Keep,
    disk: D,
    source: &mut S,
    sink: &mut K,
    clock: &mut C,
    gateway: &mut G,
) -> (Status, D)
    requires { asked.now.shop.limit ≤ most_entries }
    ensures kept { KeepsBy D.state (S.Source, K.Sink, C.Clock, G.Gateway) asked.now.shop (D.named disk asked.now.journal)
        (disk, (source.old, sink.old, clock.old, gateway.old)) (result.1, (source.new, sink.new, clock.new, gateway.new)) result.0 }
    ensures tells { is_some (D.state result.1).told ≡ is_some (D.state disk).told }
    ensures later { (D.state disk).faults ≤ (D.state result.1).faults }
    ensures reads { S.faults source.old ≤ S.faults source.new }
    ensures writes { K.faults sink.old ≤ K.faults sink.new }
{
    let mut disk = disk;
    let disks::Opened::Open = disk.open(asked.journal.bytes()) else {
        return (Status::DiskFault, disk);
    };
    let (journal, entries) = match journal_of(alloc, disk, &asked.shop) {
        Opened::Journal(journal, entries) => (journal, entries),
        Opened::Not(disk, status) => return (status, disk),
    };
    match worker_over(alloc, &asked.shop, &entries) {
        Ok(worker) => serve_over(alloc, worker, journal, source, sink, clock, gateway),
        Err(status) => (status, journal.into_disk()),
    }
}
