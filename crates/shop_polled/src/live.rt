ghost use Rattle.std.specs.Prelude.{◌≡◌, ◌≤◌, ◌<◌, ◌+◌, length, None};
ghost use Rattle.futures.specs.Poll.{OnPending};
ghost use Rattle.futures.specs.Task.{Covers, Keeps};
ghost use Rattle.futures.specs.declared.task.Poll.TheVariants.{Ready};
ghost use Rattle.shop_edges.specs.Causes.{Rose};
ghost use Rattle.shop_polled.specs.Connections.{Finishes};
ghost use Rattle.shop_polled.specs.Lives.{Answers, CanGoOn, Carries, Ends, IsPutOffBy, IsReading, NeedsOf, Refuses};
ghost use Rattle.shop_polled.specs.Polls.{behind_of};

use crate::reading::poll_message;
use crate::telling::poll_rest;
use crate::{Finished, PolledSink, PolledSource};
use futures::task::{Context, Poll};
use shop_attempt::Store;
use shop_edges::{Clock, Gateway};
use shop_engine::{ANSWERS, Ended, Point, Report, Worker, answer_next, refuse_next};
use shop_message::{Gather, Message, Next};
use shop_model::Refusal;
use shop_text::Listed;

/// How many answers a poll makes before it lets others have their turn.
const TURNS: usize = 16;

/// What a connection does.
#[derive(Clone, Copy, Debug)]
pub(crate) enum Stage {
    /// It awaits a message.
    Reading,
    /// It writes the reply that the worker made last, from this place on; behind it the connection ends so, or goes on.
    Telling(usize, Option<Ended>),
}

/// A connection that has not ended.
#[derive(Drop)]
pub(crate) struct Live<St: Store, S, K, C, G> {
    pub(crate) worker: Worker<St>,
    pub(crate) source: S,
    pub(crate) sink: K,
    pub(crate) clock: C,
    pub(crate) gateway: G,
    pub(crate) gather: Gather,
    /// Room for what one read gives.
    pub(crate) piece: Vec<u8>,
    pub(crate) points: Vec<Point>,
    pub(crate) stage: Stage,
}

impl<St: Store, S: PolledSource, K: PolledSink, C: Clock, G: Gateway> Live<St, S, K, C, G> {
    /// Writes what is left of a reply; the end of the connection, where it comes behind it.
    fn tell_on(&mut self, cx: &mut Context<'_>) -> Poll<Option<Ended>>
        requires { CanGoOn self.old }
        ensures goes_on { result ≡ Ready None → IsReading self.new }
        ensures live { CanGoOn self.new }
        ensures met { Carries (St.Store, S.PolledSource, K.PolledSink, C.Clock, G.Gateway) self.old self.new result }
        ensures points { self.new.points.items ≡ self.old.points.items }
        ensures source { self.new.source ≡ self.old.source }
        ensures waits { K.waits self.old.sink ≤ K.waits self.new.sink }
        ensures waited { OnPending result (Rose (K.waits self.old.sink) (K.waits self.new.sink)) }
        ensures registered { OnPending result (Covers cx.new (NeedsOf S.needs K.needs self.new)) }
        ensures kept { Keeps cx.old cx.new }
    {
        let Stage::Telling(start, then) = self.stage else {
            return Poll::Ready(None);
        };
        let mut at = start;
        let polled = poll_rest(cx, &mut self.sink, self.worker.reply(), &mut at);
        match polled {
            Poll::Ready(true) => {
                self.stage = Stage::Reading;
                Poll::Ready(then)
            }
            Poll::Ready(false) => Poll::Ready(Some(Ended::WriteFault)),
            Poll::Pending => {
                self.stage = Stage::Telling(at, then);
                Poll::Pending
            }
        }
    }

    /// Reads and answers the next message, and begins to tell the reply; the end of the connection, where there is one.
    fn read_on(&mut self, cx: &mut Context<'_>) -> Poll<Option<Ended>>
        requires live { CanGoOn self.old }
        requires reading { IsReading self.old }
        ensures live { CanGoOn self.new }
        ensures met { Carries (St.Store, S.PolledSource, K.PolledSink, C.Clock, G.Gateway) self.old self.new result }
        ensures more { result ≡ Ready None → length self.new.points.items ≡ length self.old.points.items + 1 }
        ensures sink { self.new.sink ≡ self.old.sink }
        ensures waits { S.waits self.old.source ≤ S.waits self.new.source }
        ensures waited { OnPending result (Rose (S.waits self.old.source) (S.waits self.new.source)) }
        ensures registered { OnPending result (Covers cx.new (NeedsOf S.needs K.needs self.new)) }
        ensures kept { Keeps cx.old cx.new }
    {
        if self.points.len() == ANSWERS {
            return Poll::Ready(Some(Ended::Spent));
        }
        let (source, gather, piece) = (&mut self.source, &mut self.gather, &mut self.piece);
        let next = match poll_message(cx, source, gather, piece) {
            Poll::Ready(next) => next,
            Poll::Pending => return Poll::Pending,
        };
        match next {
            Next::Message(message) => Poll::Ready(self.answer(message)),
            Next::End => Poll::Ready(Some(Ended::Closed)),
            Next::Cut => Poll::Ready(Some(Ended::Cut)),
            Next::Bad(refusal) => Poll::Ready(self.refuse(refusal)),
            Next::ReadFault => Poll::Ready(Some(Ended::ReadFault)),
            Next::Memory => Poll::Ready(Some(Ended::Memory)),
        }
    }

    /// Answers a message, and begins to tell the reply; the end of the connection, where memory runs out.
    fn answer(&mut self, message: Message) -> Option<Ended>
        requires live { CanGoOn self.old }
        requires reading { IsReading self.old }
        requires few { length self.old.points.items < ANSWERS }
        ensures live { CanGoOn self.new }
        ensures answered { Answers (St.Store, S.PolledSource, K.PolledSink, C.Clock, G.Gateway) message self.old self.new result }
        ensures more { result ≡ None → length self.new.points.items ≡ length self.old.points.items + 1 }
        ensures source { self.new.source ≡ self.old.source }
        ensures sink { self.new.sink ≡ self.old.sink }
    {
        let (clock, gateway) = (&mut self.clock, &mut self.gateway);
        let Ok(()) = answer_next(&mut self.worker, &mut self.points, &message, clock, gateway)
        else {
            return Some(Ended::Memory);
        };
        let behind = behind(message.close);
        self.gather.reuse(message);
        self.stage = Stage::Telling(0, behind);
        None
    }

    /// Refuses a message, and begins to tell it; the end of the connection, where memory runs out.
    fn refuse(&mut self, refusal: Refusal) -> Option<Ended>
        requires live { CanGoOn self.old }
        requires reading { IsReading self.old }
        requires few { length self.old.points.items < ANSWERS }
        ensures live { CanGoOn self.new }
        ensures refused { Refuses (St.Store, S.PolledSource, K.PolledSink, C.Clock, G.Gateway) refusal self.old self.new result }
        ensures more { result ≡ None → length self.new.points.items ≡ length self.old.points.items + 1 }
        ensures source { self.new.source ≡ self.old.source }
        ensures sink { self.new.sink ≡ self.old.sink }
    {
        let Ok(()) = refuse_next(&mut self.worker, &mut self.points, refusal) else {
            return Some(Ended::Memory);
        };
        self.stage = Stage::Telling(0, Some(Ended::Refused(refusal.status())));
        None
    }

    /// Goes on until there is an end, a stream has to be waited for, or so many answers were made.
    pub(crate) fn go_on(&mut self, cx: &mut Context<'_>) -> Poll<Ended>
        requires { CanGoOn self.old }
        ensures live { CanGoOn self.new }
        ensures met { Ends (St.Store, S.PolledSource, K.PolledSink, C.Clock, G.Gateway) self.old self.new result }
        ensures waited { OnPending result (IsPutOffBy S.waits K.waits self.old self.new cx.new) }
        ensures registered { OnPending result (Covers cx.new (NeedsOf S.needs K.needs self.new)) }
        ensures kept { Keeps cx.old cx.new }
    {
        match self.tell_on(cx) {
            Poll::Ready(None) => {}
            Poll::Ready(Some(end)) => return Poll::Ready(end),
            Poll::Pending => return Poll::Pending,
        }
        let enough = self.points.len() + TURNS;
        while self.points.len() < enough {
            match self.read_on(cx) {
                Poll::Ready(None) => {}
                Poll::Ready(Some(end)) => return Poll::Ready(end),
                Poll::Pending => return Poll::Pending,
            }
            match self.tell_on(cx) {
                Poll::Ready(None) => {}
                Poll::Ready(Some(end)) => return Poll::Ready(end),
                Poll::Pending => return Poll::Pending,
            }
        }
        cx.yield_now()
    }
}

impl<
    St: Store + Drop,
    S: PolledSource + Drop,
    K: PolledSink + Drop,
    C: Clock + Drop,
    G: Gateway + Drop,
> Live<St, S, K, C, G> {
    /// Hands out what the connection was made of, at this end.
    pub(crate) fn finish(self, end: Ended) -> Finished<St, S, K, C, G>
        ensures { Finishes (St.Store, S.PolledSource, K.PolledSink, C.Clock, G.Gateway) self end result }
    {
        // Wherever it ended, the seat of the worker is one.
        let _ = self.worker.store();
        let Live {
            worker,
            source,
            sink,
            clock,
            gateway,
            gather: _,
            piece: _,
            points,
            stage: _,
        } = self;
        let points = Listed::from_vec(points);
        Finished {
            worker,
            source,
            sink,
            clock,
            gateway,
            report: Report { end, points },
        }
    }
}

/// What comes behind an answer.
fn behind(close: bool) -> Option<Ended>
    ensures { result ≡ behind_of close }
{
    if close { Some(Ended::Asked) } else { None }
}
