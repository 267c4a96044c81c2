//! The messages of one connection, one after another, each change on the disk before its reply.
ghost use Rattle.std.specs.Prelude.{◌≡◌, ℕ, ◌≤◌, Bool, List, Some, is_some};
ghost use Rattle.shop_edges.specs.Causes.{Rose};
ghost use Rattle.shop_book.specs.Solos.{seat_of};
ghost use Rattle.shop_engine.specs.declared.report.Ended.{Ended};
ghost use Rattle.shop_engine.specs.declared.report.Point as point;
ghost use Rattle.shop_engine.specs.Connections.{IsMade, Made, MessageAs};
ghost use Rattle.shop_engine.specs.Failures.{RoseBy, failures};
ghost use Rattle.shop_engine.specs.Workers.{Standing};
ghost use Rattle.shop_history.specs.Lawful.{IsLawful};
ghost use Rattle.shop_keep.specs.declared.kept.KeptEnd.{KeptEnd};
ghost use Rattle.shop_keep.specs.Kept.{AreFresh, KeptBy, StaysMarked};
ghost use Rattle.shop_keep.specs.Turns.{TurnedBy, disk_turned, has_end};

use crate::kept::{Kept, KeptEnd};
use crate::noting::{note, size_of};
use shop_book::Solo;
use shop_disk::Disk;
use shop_edges::{Clock, Gateway, Sink, Source, write_all};
use shop_engine::{ANSWERS, Ended, Point, Worker, answer_next, refuse};
use shop_http::{Gather, Message, Next, next_message};
use shop_journal::{Appended, Journal};
use std::alloc::Global;

/// What became of a message: the connection goes on over the journal, or it ends.
#[derive(Drop)]
pub(crate) enum Turned<D: Disk> {
    On(Journal<D>),
    Ends(D, KeptEnd),
}

/// Serves the messages of one connection to its end. Each change is appended to the journal before the first byte of its
/// reply is written.
pub fn serve_kept<D: Disk, S: Source, K: Sink, C: Clock, G: Gateway>(
    alloc: Global,
    worker: &mut Worker<Solo>,
    journal: Journal<D>,
    source: &mut S,
    sink: &mut K,
    clock: &mut C,
    gateway: &mut G,
) -> Kept<D>
    ensures kept { KeptBy D.state (S.Source, K.Sink, C.Clock, G.Gateway) journal
        (worker.old, source.old, sink.old, clock.old, gateway.old) (worker.new, source.new, sink.new, clock.new, gateway.new) result }
    ensures caller { worker.new.caller ≡ worker.old.caller }
    ensures lawful { IsLawful (seat_of worker.new.store).opening (seat_of worker.new.store).seen }
    ensures marks { StaysMarked worker.old.store worker.new.store }
    ensures tells { is_some (D.state result.disk).told ≡ is_some (D.state journal).told }
    ensures disk_later { (D.state journal).faults ≤ (D.state result.disk).faults }
    ensures disk_fault { result.end ≡ KeptEnd.DiskFault → Rose (D.state journal).faults (D.state result.disk).faults }
    ensures read_fault { result.end ≡ KeptEnd.Ended Ended.ReadFault → Rose (S.faults source.old) (S.faults source.new) }
    ensures write_fault { result.end ≡ KeptEnd.Ended Ended.WriteFault → Rose (K.faults sink.old) (K.faults sink.new) }
    ensures reads { S.faults source.old ≤ S.faults source.new }
    ensures writes { K.faults sink.old ≤ K.faults sink.new }
    ensures fresh { AreFresh worker.new.store result.points }
    ensures failures { RoseBy (G.faults gateway.old) (failures result.points) (G.faults gateway.new) }
    ensures asks { G.faults gateway.old ≤ G.faults gateway.new }
{
    let kept = serve_all(alloc, worker, journal, source, sink, clock, gateway);
    // Wherever it ended, the seat of the worker is one.
    let _store = worker.store();
    kept
}

/// Answers one message after another, until there is an end.
fn serve_all<D: Disk, S: Source, K: Sink, C: Clock, G: Gateway>(
    alloc: Global,
    worker: &mut Worker<Solo>,
    journal: Journal<D>,
    source: &mut S,
    sink: &mut K,
    clock: &mut C,
    gateway: &mut G,
) -> Kept<D>
    ensures kept { KeptBy D.state (S.Source, K.Sink, C.Clock, G.Gateway) journal
        (worker.old, source.old, sink.old, clock.old, gateway.old) (worker.new, source.new, sink.new, clock.new, gateway.new) result }
    ensures caller { worker.new.caller ≡ worker.old.caller }
    ensures marks { StaysMarked worker.old.store worker.new.store }
    ensures tells { is_some (D.state result.disk).told ≡ is_some (D.state journal).told }
    ensures disk_later { (D.state journal).faults ≤ (D.state result.disk).faults }
    ensures disk_fault { result.end ≡ KeptEnd.DiskFault → Rose (D.state journal).faults (D.state result.disk).faults }
    ensures read_fault { result.end ≡ KeptEnd.Ended Ended.ReadFault → Rose (S.faults source.old) (S.faults source.new) }
    ensures write_fault { result.end ≡ KeptEnd.Ended Ended.WriteFault → Rose (K.faults sink.old) (K.faults sink.new) }
    ensures reads { S.faults source.old ≤ S.faults source.new }
    ensures writes { K.faults sink.old ≤ K.faults sink.new }
    ensures fresh { AreFresh worker.new.store result.points }
    ensures failures { RoseBy (G.faults gateway.old) (failures result.points) (G.faults gateway.new) }
    ensures asks { G.faults gateway.old ≤ G.faults gateway.new }
{
    let mut journal = journal;
    let mut points = Vec::new(alloc);
    let Ok(mut gather) = Gather::new(alloc) else {
        return Kept::at(journal, Ended::Memory, points);
    };
    while points.len() < ANSWERS {
        let message = match next_message(source, &mut gather) {
            Next::Message(message) => message,
            Next::End => return Kept::at(journal, Ended::Closed, points),
            Next::Cut => return Kept::at(journal, Ended::Cut, points),
            Next::Bad(refusal) => {
                let end = refuse(worker, sink, &mut points, refusal);
                return Kept::at(journal, end, points);
            }
            Next::ReadFault => return Kept::at(journal, Ended::ReadFault, points),
            Next::Memory => return Kept::at(journal, Ended::Memory, points),
        };
        let turned = serve_one(
            alloc,
            worker,
            journal,
            sink,
            clock,
            gateway,
            &mut points,
            &message,
        );
        journal = match turned {
            Turned::On(journal) => journal,
            Turned::Ends(disk, end) => return Kept::of(disk, end, points),
        };
        gather.reuse(message);
    }
    Kept::at(journal, Ended::Spent, points)
}

/// Answers a message: makes the reply, appends the entry that was made, if one was, and then writes the reply.
fn serve_one<D: Disk, K: Sink, C: Clock, G: Gateway>(
    alloc: Global,
    worker: &mut Worker<Solo>,
    journal: Journal<D>,
    sink: &mut K,
    clock: &mut C,
    gateway: &mut G,
    points: &mut Vec<Point>,
    message: &Message,
) -> Turned<D>
    ensures turned { TurnedBy D.state (K.Sink, C.Clock, G.Gateway) message.now journal
        (worker.old, sink.old, clock.old, gateway.old, points.old) (worker.new, sink.new, clock.new, gateway.new, points.new) result }
    ensures caller { worker.new.caller ≡ worker.old.caller }
    ensures marks { StaysMarked worker.old.store worker.new.store }
    ensures tells { is_some (D.state (disk_turned result)).told ≡ is_some (D.state journal).told }
    ensures disk_later { (D.state journal).faults ≤ (D.state (disk_turned result)).faults }
    ensures disk_fault { has_end KeptEnd.DiskFault result → Rose (D.state journal).faults (D.state (disk_turned result)).faults }
    ensures write_fault { has_end (KeptEnd.Ended Ended.WriteFault) result → Rose (K.faults sink.old) (K.faults sink.new) }
    ensures writes { K.faults sink.old ≤ K.faults sink.new }
    ensures fresh { AreFresh worker.old.store points.old.items → AreFresh worker.new.store points.new.items }
    ensures failures { (before : ℕ) → RoseBy before (failures points.old.items) (G.faults gateway.old)
        → RoseBy before (failures points.new.items) (G.faults gateway.new) }
    ensures asks { G.faults gateway.old ≤ G.faults gateway.new }
{
    let before = size_of(worker);
    let Ok(()) = answer_next(worker, points, message, clock, gateway) else {
        return Turned::Ends(journal.into_disk(), KeptEnd::Ended(Ended::Memory));
    };
    match note(alloc, worker, before, journal) {
        Appended::Done(journal) => match tell(sink, worker.reply(), message) {
            None => Turned::On(journal),
            Some(end) => Turned::Ends(journal.into_disk(), KeptEnd::Ended(end)),
        },
        Appended::Failed(disk) => Turned::Ends(disk, KeptEnd::DiskFault),
        Appended::Memory(journal) => {
            Turned::Ends(journal.into_disk(), KeptEnd::Ended(Ended::Memory))
        }
    }
}

/// Writes the reply to a message; the end of the connection, where it is one.
fn tell<K: Sink>(sink: &mut K, reply: &[u8], message: &Message) -> Option<Ended>
    ensures told { (last : Bool) (from to : Standing) (points : List point.Point) (made : Made)
        → IsMade (record { message = message.now; last = last }) from to points made → made.reply ≡ reply.now
        → MessageAs (record { message = message.now; last = last }) from to (record { points = points; held = K.held sink.old })
        (record { points = made.points; held = K.held sink.new }) result }
    ensures write_fault { result ≡ Some Ended.WriteFault → Rose (K.faults sink.old) (K.faults sink.new) }
    ensures writes { K.faults sink.old ≤ K.faults sink.new }
{
    if write_all(sink, reply) {
        if message.close {
            return Some(Ended::Asked);
        }
        return None;
    }
    Some(Ended::WriteFault)
}
