ghost use Rattle.std.specs.Prelude.{◌≡◌, ◌≤◌};
ghost use Rattle.shop_edges.specs.Causes.{Rose};
ghost use Rattle.shop_history.specs.Lawful.{IsLawful};
ghost use Rattle.shop_engine.specs.Failures.{RoseBy, failures, failures_of};
ghost use Rattle.shop_engine.specs.Lists.{AnswersFresh};
ghost use Rattle.shop_engine.specs.Meanings.{AnsweredBy};
ghost use Rattle.shop_engine.specs.Serving.{ServedBy};
ghost use Rattle.shop_engine.specs.Stores.{AreFreshBy, Keeps};
ghost use Rattle.shop_engine.specs.Undisturbed.{AreWhole, IsUndisturbed};

use crate::connection::serve_all;
use crate::report::{Answered, Ended, Report};
use crate::worker::Worker;
use shop_attempt::Store;
use shop_edges::{Clock, Gateway, Sink, Source};
use shop_http::Message;
use shop_pages::Reply;
use std::alloc::Global;
use std::mem;

/// Answers one message, for the last time on its connection or not.
pub fn serve_message<St: Store, C: Clock, G: Gateway>(
    alloc: Global,
    worker: &mut Worker<St>,
    message: &Message,
    last: bool,
    clock: &mut C,
    gateway: &mut G,
) -> Answered
    ensures answered { AnsweredBy (St.Store, C.Clock, G.Gateway) last
        (worker.old, clock.old, gateway.old) (worker.new, clock.new, gateway.new) message.now result }
    ensures caller { worker.new.caller ≡ worker.old.caller }
    ensures lawful { IsLawful (St.seat worker.new.store).opening (St.seat worker.new.store).seen }
    ensures marks { Keeps St.Store worker.old.store worker.new.store }
    ensures fresh { AnswersFresh (St.marked worker.new.store) (St.seat worker.new.store).seen result }
    ensures failures { RoseBy (G.faults gateway.old) (failures_of result) (G.faults gateway.new) }
    ensures later { G.faults gateway.old ≤ G.faults gateway.new }
{
    let answered = reply_to(alloc, worker, message, last, clock, gateway);
    // Whatever came of it, the seat of the worker is one.
    let _ = &worker.store;
    answered
}

/// Answers a message, and gives the reply away.
fn reply_to<St: Store, C: Clock, G: Gateway>(
    alloc: Global,
    worker: &mut Worker<St>,
    message: &Message,
    last: bool,
    clock: &mut C,
    gateway: &mut G,
) -> Answered
    ensures answered { AnsweredBy (St.Store, C.Clock, G.Gateway) last
        (worker.old, clock.old, gateway.old) (worker.new, clock.new, gateway.new) message.now result }
    ensures caller { worker.new.caller ≡ worker.old.caller }
    ensures marks { Keeps St.Store worker.old.store worker.new.store }
    ensures fresh { AnswersFresh (St.marked worker.new.store) (St.seat worker.new.store).seen result }
    ensures failures { RoseBy (G.faults gateway.old) (failures_of result) (G.faults gateway.new) }
    ensures later { G.faults gateway.old ≤ G.faults gateway.new }
{
    // Another buffer takes the place of the reply: room for it before anything is asked.
    let Ok(fresh) = Reply::new(alloc) else {
        return Answered::Memory;
    };
    let Some(point) = worker.answer(message, last, clock, gateway) else {
        return Answered::Memory;
    };
    let reply = mem::replace(&mut worker.reply, fresh);
    Answered::Reply(reply.into_text(), point)
}

/// Serves the messages of one connection to its end.
pub fn serve_connection<St: Store, S: Source, K: Sink, C: Clock, G: Gateway>(
    alloc: Global,
    worker: &mut Worker<St>,
    source: &mut S,
    sink: &mut K,
    clock: &mut C,
    gateway: &mut G,
) -> Report
    ensures served { ServedBy St.Store S.Source K.Sink C.Clock G.Gateway worker.old source.old sink.old clock.old gateway.old
        worker.new source.new sink.new clock.new gateway.new result }
    ensures complete { IsUndisturbed (St.seat worker.old.store) (St.seat worker.new.store)
        → ¬ (Rose (G.faults gateway.old) (G.faults gateway.new)) → AreWhole result.points }
    ensures caller { worker.new.caller ≡ worker.old.caller }
    ensures lawful { IsLawful (St.seat worker.new.store).opening (St.seat worker.new.store).seen }
    ensures marks { Keeps St.Store worker.old.store worker.new.store }
    ensures read_fault { result.end ≡ Ended.ReadFault → Rose (S.faults source.old) (S.faults source.new) }
    ensures write_fault { result.end ≡ Ended.WriteFault → Rose (K.faults sink.old) (K.faults sink.new) }
    ensures reads { S.faults source.old ≤ S.faults source.new }
    ensures writes { K.faults sink.old ≤ K.faults sink.new }
    ensures fresh { AreFreshBy St.Store worker.new.store result.points }
    ensures failures { RoseBy (G.faults gateway.old) (failures result.points) (G.faults gateway.new) }
    ensures asks { G.faults gateway.old ≤ G.faults gateway.new }
{
    let report = serve_all(alloc, worker, source, sink, clock, gateway);
    // Wherever it ended, the seat of the worker is one.
    let _ = &worker.store;
    report
}
