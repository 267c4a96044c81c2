//! The messages of one connection, one after another, to its end.
ghost use Rattle.std.specs.Prelude.{◌≡◌, ℕ, ◌≤◌, ◌<◌, [], ◌∷◌, ◌++◌, Some, OnOk, OnErr};
ghost use Rattle.std.specs.Vec.{vec_len, vec_capacity};
ghost use Rattle.shop_edges.specs.Causes.{Rose};
ghost use Rattle.shop_http.specs.Requests.{asked};
ghost use Rattle.shop_engine.specs.Answering.{GivesUpBy, Makes, MessageBy};
ghost use Rattle.shop_engine.specs.Connections.{MakesRefusal, RefusalAs, RefusesReading};
ghost use Rattle.shop_engine.specs.Failures.{RoseBy, failures};
ghost use Rattle.shop_engine.specs.Serving.{ServedBy};
ghost use Rattle.shop_engine.specs.Stores.{AreFreshBy, Keeps};

use crate::replies::refusal_reply;
use crate::report::{Answered, Ended, Point, Report, plain_point};
use crate::worker::Worker;
use shop_attempt::Store;
use shop_edges::{Clock, Gateway, Sink, Source, write_all};
use shop_http::{Gather, Message, Next, next_message};
use shop_model::Refusal;
use shop_pages::{Form, Reply};
use shop_text::Memory;
use std::alloc::Global;

/// The most answers of a connection.
pub const ANSWERS: usize = 1_000;

/// The form of the last reply.
const CLOSING: Form = Form {
    close: true,
    bodiless: false,
};

/// Answers one message after another, until there is an end.
pub(crate) fn serve_all<St: Store, S: Source, K: Sink, C: Clock, G: Gateway>(
    alloc: Global,
    worker: &mut Worker<St>,
    source: &mut S,
    sink: &mut K,
    clock: &mut C,
    gateway: &mut G,
) -> Report
    ensures served { ServedBy St.Store S.Source K.Sink C.Clock G.Gateway worker.old source.old sink.old clock.old gateway.old
        worker.new source.new sink.new clock.new gateway.new result }
    ensures caller { worker.new.caller ≡ worker.old.caller }
    ensures marks { Keeps St.Store worker.old.store worker.new.store }
    ensures read_fault { result.end ≡ Ended.ReadFault → Rose (S.faults source.old) (S.faults source.new) }
    ensures write_fault { result.end ≡ Ended.WriteFault → Rose (K.faults sink.old) (K.faults sink.new) }
    ensures reads { S.faults source.old ≤ S.faults source.new }
    ensures writes { K.faults sink.old ≤ K.faults sink.new }
    ensures fresh { AreFreshBy St.Store worker.new.store result.points }
    ensures failures { RoseBy (G.faults gateway.old) (failures result.points) (G.faults gateway.new) }
    ensures asks { G.faults gateway.old ≤ G.faults gateway.new }
{
    let mut points = Vec::new(alloc);
    let Ok(mut gather) = Gather::new(alloc) else {
        return Report::of(Ended::Memory, points);
    };
    while points.len() < ANSWERS {
        let message = match next_message(source, &mut gather) {
            Next::Message(message) => message,
            Next::End => return Report::of(Ended::Closed, points),
            Next::Cut => return Report::of(Ended::Cut, points),
            Next::Bad(refusal) => {
                let end = refuse(worker, sink, &mut points, refusal);
                return Report::of(end, points);
            }
            Next::ReadFault => return Report::of(Ended::ReadFault, points),
            Next::Memory => return Report::of(Ended::Memory, points),
        };
        let ended = serve_one(worker, sink, clock, gateway, &mut points, &message);
        if let Some(end) = ended {
            return Report::of(end, points);
        }
        gather.reuse(message);
    }
    Report::of(Ended::Spent, points)
}

/// Answers a message; the end of the connection, where it is one.
fn serve_one<St: Store, K: Sink, C: Clock, G: Gateway>(
    worker: &mut Worker<St>,
    sink: &mut K,
    clock: &mut C,
    gateway: &mut G,
    points: &mut Vec<Point>,
    message: &Message,
) -> Option<Ended>
    ensures message { MessageBy St.Store K.Sink C.Clock G.Gateway worker.old sink.old clock.old gateway.old points.old
        worker.new sink.new clock.new gateway.new points.new message.now result }
    ensures caller { worker.new.caller ≡ worker.old.caller }
    ensures marks { Keeps St.Store worker.old.store worker.new.store }
    ensures write_fault { result ≡ Some Ended.WriteFault → Rose (K.faults sink.old) (K.faults sink.new) }
    ensures writes { K.faults sink.old ≤ K.faults sink.new }
    ensures fresh { AreFreshBy St.Store worker.old.store points.old.items → AreFreshBy St.Store worker.new.store points.new.items }
    ensures failures { (before : ℕ) → RoseBy before (failures points.old.items) (G.faults gateway.old)
        → RoseBy before (failures points.new.items) (G.faults gateway.new) }
    ensures asks { G.faults gateway.old ≤ G.faults gateway.new }
{
    let Ok(()) = answer_next(worker, points, message, clock, gateway) else {
        return Some(Ended::Memory);
    };
    if write_all(sink, worker.reply()) {
        if message.close {
            return Some(Ended::Asked);
        }
        return None;
    }
    Some(Ended::WriteFault)
}

/// Answers the message behind those that have points: makes the reply, which the worker holds, and adds the
/// point of it. Nothing is written.
pub fn answer_next<St: Store, C: Clock, G: Gateway>(
    worker: &mut Worker<St>,
    points: &mut Vec<Point>,
    message: &Message,
    clock: &mut C,
    gateway: &mut G,
) -> Result<(), Memory>
    ensures answered { OnOk result (Makes (St.Store, C.Clock, G.Gateway) message.now
        (worker.old, clock.old, gateway.old, points.old) (worker.new, clock.new, gateway.new, points.new)) }
    ensures memory { OnErr result (GivesUpBy (St.Store, C.Clock, G.Gateway) (asked message.now)
        (worker.old, clock.old, gateway.old) (worker.new, clock.new, gateway.new)) }
    ensures unanswered { OnErr result (points.new.items ≡ points.old.items) }
    ensures caller { worker.new.caller ≡ worker.old.caller }
    ensures marks { Keeps St.Store worker.old.store worker.new.store }
    ensures fresh { AreFreshBy St.Store worker.old.store points.old.items → AreFreshBy St.Store worker.new.store points.new.items }
    ensures failures { (before : ℕ) → RoseBy before (failures points.old.items) (G.faults gateway.old)
        → RoseBy before (failures points.new.items) (G.faults gateway.new) }
    ensures asks { G.faults gateway.old ≤ G.faults gateway.new }
{
    let last = points.len() + 1 == ANSWERS;
    // Room for the point, so that no answer is without one.
    let Ok(()) = points.reserve(1) else {
        return Err(Memory);
    };
    let Some(point) = worker.answer(message, last, clock, gateway) else {
        return Err(Memory);
    };
    add_point(points, point);
    Ok(())
}

/// Adds a point, for which there is room.
fn add_point(points: &mut Vec<Point>, point: Point)
    requires room { vec_len points.old < vec_capacity points.old }
    ensures { points.new.items ≡ points.old.items ++ point ∷ [] }
{
    let Ok(()) = points.push(point) else {
        unreachable!()
    };
}

/// Tells that a message is refused: writes the page, and adds a plain point.
pub fn refuse<St: Store, K: Sink>(
    worker: &mut Worker<St>,
    sink: &mut K,
    points: &mut Vec<Point>,
    refusal: Refusal,
) -> Ended
    ensures told { RefusalAs refusal (record { points = points.old.items; held = K.held sink.old })
        (record { points = points.new.items; held = K.held sink.new }) result }
    ensures write_fault { result ≡ Ended.WriteFault → Rose (K.faults sink.old) (K.faults sink.new) }
    ensures writes { K.faults sink.old ≤ K.faults sink.new }
    ensures fresh { AreFreshBy St.Store worker.old.store points.old.items → AreFreshBy St.Store worker.new.store points.new.items }
    ensures worker { worker.new ≡ record worker.old { reply = worker.new.reply } }
{
    let Ok(()) = refuse_next(worker, points, refusal) else {
        return Ended::Memory;
    };
    if write_all(sink, worker.reply()) {
        return Ended::Refused(refusal.status());
    }
    Ended::WriteFault
}

/// Refuses the message behind those that have points: makes the page, which the worker holds, and adds a plain
/// point. Nothing is written.
pub fn refuse_next<St: Store>(
    worker: &mut Worker<St>,
    points: &mut Vec<Point>,
    refusal: Refusal,
) -> Result<(), Memory>
    ensures refused { OnOk result (MakesRefusal refusal points.old.items (record { points = points.new.items; reply = worker.new.reply })) }
    ensures memory { OnErr result (points.new.items ≡ points.old.items) }
    ensures fresh { AreFreshBy St.Store worker.old.store points.old.items → AreFreshBy St.Store worker.new.store points.new.items }
    ensures worker { worker.new ≡ record worker.old { reply = worker.new.reply } }
{
    worker.refuse(refusal, CLOSING)?;
    points.push(plain_point())?;
    Ok(())
}

/// Refuses what is read as no message: the page that tells why, which is the last reply of its connection.
pub fn refuse_reading(alloc: Global, refusal: Refusal) -> Answered
    ensures { RefusesReading refusal result }
{
    let Ok(mut reply) = Reply::new(alloc) else {
        return Answered::Memory;
    };
    let Ok(()) = refusal_reply(&mut reply, refusal, CLOSING) else {
        return Answered::Memory;
    };
    Answered::Reply(reply.into_text(), plain_point())
}
