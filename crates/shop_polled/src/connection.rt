ghost use Rattle.std.specs.Prelude.{◌≡◌, ◌<◌, length, [], false, IfErr, IfOk};
ghost use Rattle.futures.specs.Poll.{IfReady, OnPending};
ghost use Rattle.futures.specs.Task.{Covers, Keeps};
ghost use Rattle.shop_polled.specs.Connections.{refused};

use crate::live::{Live, Stage};
use crate::{Finished, PolledSink, PolledSource};
use futures::Future;
use futures::task::{Context, Poll};
use shop_attempt::Store;
use shop_edges::{Clock, Gateway};
use shop_engine::{Ended, Point, Report, Worker};
use shop_message::Gather;
use shop_text::{Listed, Memory};
use std::alloc::Global;

/// The most bytes that are read at once.
const PIECE: usize = 2_048;

/// Serves the messages of one connection to its end, without ever blocking on its streams: a future, which is not polled
/// again once it has ended. Where the store waits for its turn, as a desk does, a poll waits with it.
#[derive(Drop)]
pub struct Connection<St: Store, S, K, C, G> {
    live: Option<Live<St, S, K, C, G>>,
}

impl<
    St: Store + Drop,
    S: PolledSource + Drop,
    K: PolledSink + Drop,
    C: Clock + Drop,
    G: Gateway + Drop,
> Connection<St, S, K, C, G> {
    ghost use Rattle.shop_polled.specs.Connections.{Begins, CanPoll, EndsIn, GoesOn, HandsOut, IsOver, IsPutOff, Needs, points_of};
    ghost use Rattle.shop_polled.specs.Meetings.{parts};

    /// No message was read yet. Where memory runs out all five are handed back as they were.
    pub fn new(
        alloc: Global,
        worker: Worker<St>,
        source: S,
        sink: K,
        clock: C,
        gateway: G,
    ) -> Result<Connection<St, S, K, C, G>, Finished<St, S, K, C, G>>
        ensures can_poll { IfOk result CanPoll }
        ensures begun { IfOk result (Begins (St.Store, S.PolledSource, K.PolledSink, C.Clock, G.Gateway) (parts worker source sink clock gateway)) }
        ensures refused { IfErr result (λ finished. finished ≡ refused worker source sink clock gateway) }
    {
        let Ok((gather, piece)) = room(alloc) else {
            let points = Listed::new(alloc);
            let end = Ended::Memory;
            return Err(Finished {
                worker,
                source,
                sink,
                clock,
                gateway,
                report: Report { end, points },
            });
        };
        Ok(Connection {
            live: Some(Live {
                worker,
                source,
                sink,
                clock,
                gateway,
                gather,
                piece,
                points: Vec::new(alloc),
                stage: Stage::Reading,
            }),
        })
    }

    /// Goes on as far as the streams let it, and tells how the connection ended. Nothing is handed out, so that a call
    /// that is put off clears no room for it; behind the end `finish` does.
    pub fn poll_end(&mut self, cx: &mut Context<'_>) -> Poll<Ended>
        requires { CanPoll self.old }
        ensures value { IfReady result (EndsIn (St.Store, S.PolledSource, K.PolledSink, C.Clock, G.Gateway) self.old self.new) }
        ensures again { CanPoll self.new }
        ensures same { OnPending result (GoesOn (St.Store, S.PolledSource, K.PolledSink, C.Clock, G.Gateway) self.old self.new) }
        ensures waited { OnPending result (IsPutOff S.waits K.waits self.old self.new cx.new) }
        ensures registered { OnPending result (Covers cx.new (Needs S.needs K.needs self.new)) }
        ensures kept { Keeps cx.old cx.new }
    {
        let Some(live) = &mut self.live else {
            unreachable!()
        };
        live.go_on(cx)
    }

    /// Hands out what the connection was made of, with its report, at the end that `poll_end` told.
    pub fn finish(&mut self, end: Ended) -> Finished<St, S, K, C, G>
        requires { CanPoll self.old }
        ensures out { HandsOut (St.Store, S.PolledSource, K.PolledSink, C.Clock, G.Gateway) self.old end result }
        ensures over { IsOver self.new }
    {
        let Some(live) = self.live.take() else {
            unreachable!()
        };
        live.finish(end)
    }

    /// A point for each answer so far, until it has ended.
    pub fn points(&self) -> &[Point]
        ensures { result.now ≡ points_of self.now }
    {
        match &self.live {
            Some(live) => &live.points,
            None => &[],
        }
    }
}

/// Room for the messages of a connection, and for a piece of them.
fn room(alloc: Global) -> Result<(Gather, Vec<u8>), Memory>
    ensures { IfOk result (λ r. (r.0 ≡ record { held = []; ended = false }) × (0 < length r.1.items)) }
{
    Ok((Gather::new(alloc)?, vec![in alloc; 0; PIECE]?))
}

impl<
    St: Store + Drop,
    S: PolledSource + Drop,
    K: PolledSink + Drop,
    C: Clock + Drop,
    G: Gateway + Drop,
> Future for Connection<St, S, K, C, G> {
    ghost use Rattle.shop_polled.specs.Connections.{CanPoll, Gives, GoesOn, IsOver, IsPutOff, Needs};

    type Output = Finished<St, S, K, C, G>;

    ghost can_poll = { CanPoll };

    ghost needs = { Needs S.needs K.needs };

    ghost gives = { Gives (St.Store, S.PolledSource, K.PolledSink, C.Clock, G.Gateway) };

    fn poll(&mut self, cx: &mut Context<'_>) -> Poll<Finished<St, S, K, C, G>>
        requires { CanPoll self.old }
        ensures value { IfReady result (Gives (St.Store, S.PolledSource, K.PolledSink, C.Clock, G.Gateway) self.old) }
        ensures over { IfReady result (λ _. IsOver self.new) }
        ensures again { OnPending result (CanPoll self.new) }
        ensures same { OnPending result (GoesOn (St.Store, S.PolledSource, K.PolledSink, C.Clock, G.Gateway) self.old self.new) }
        ensures waited { OnPending result (IsPutOff S.waits K.waits self.old self.new cx.new) }
        ensures registered { OnPending result (Covers cx.new (Needs S.needs K.needs self.new)) }
        ensures kept { Keeps cx.old cx.new }
    {
        match self.poll_end(cx) {
            Poll::Ready(end) => Poll::Ready(self.finish(end)),
            Poll::Pending => Poll::Pending,
        }
    }
}
