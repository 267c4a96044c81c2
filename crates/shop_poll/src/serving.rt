ghost use Rattle.shop_poll.specs.Servings.{CanPollAs, EndsLink, Leaves};

use crate::PolledStation;
use futures::task::{Context, Poll};
use shop_attempt::Store;
use shop_edges::Clock;
use shop_engine::{Ended, Report};
use shop_gateway::Emulator;
use shop_lanes::{Berth, Completed};
use shop_polled::{Connection, Finished, PolledSink, PolledSource};
use shop_turn::Desk;
use std::alloc::Global;
use std::marker::PhantomData;
use std::sync::Wait;

/// What serves a link at a station that is polled.
#[derive(Drop)]
pub struct Serving<St: Store, S, K, C> {
    alloc: Global,
    stage: Stage<St, S, K, C>,
}

/// What has come of a link that is served.
#[derive(Drop)]
enum Stage<St: Store, S, K, C> {
    /// Its connection goes on.
    Live(Connection<St, S, K, C, Emulator>),
    /// It was served to the end of its connection, or there was no memory for one.
    Over(Finished<St, S, K, C, Emulator>),
}

/// What is left of a link whose connection has finished.
fn completed<R: Wait + Drop, S: Drop, K: Drop, C: Drop>(
    alloc: Global,
    finished: Finished<Desk<R>, S, K, C, Emulator>,
) -> Completed<PolledStation<R, S, K, C>, S, K, Report>
    ensures { Leaves finished result }
{
    let Finished {
        worker,
        source,
        sink,
        clock,
        gateway,
        report,
    } = finished;
    // Whatever came of it, what the gateway has answered are verdicts.
    let _ = gateway.answers();
    Completed {
        berth: PolledStation {
            alloc,
            worker,
            clock,
            gateway,
            link: PhantomData,
        },
        source,
        sink,
        report,
    }
}

/// Takes the connection of a link apart, which has ended so.
#[inline(never)]
fn end_link<R: Wait + Drop, S: PolledSource + Drop, K: PolledSink + Drop, C: Clock + Drop>(
    stage: &mut Stage<Desk<R>, S, K, C>,
    end: Ended,
)
    requires { CanPollAs stage.old }
    ensures { EndsLink (S.PolledSource, K.PolledSink, C.Clock) stage.old end stage.new }
{
    match stage {
        Stage::Live(connection) => *stage = Stage::Over(connection.finish(end)),
        Stage::Over(_) => {}
    }
}

impl<R: Wait + Drop, S: PolledSource + Drop, K: PolledSink + Drop, C: Clock + Drop> Berth
    for PolledStation<R, S, K, C> {
    ghost use Rattle.shop_tasks.specs.Serves.{Serves};
    ghost use Rattle.shop_poll.specs.Servings as spec;

    type In = S;

    type Out = K;

    type Report = Report;

    type Serving = Serving<Desk<R>, S, K, C>;

    ghost serves = { Serves (spec.serves_by (S.PolledSource, K.PolledSink, C.Clock)) };

    ghost caller = { λ station. station.worker.caller.number };

    ghost can_poll = { spec.CanPoll };

    ghost has_ended = { spec.HasEnded };

    ghost gives = { spec.Gives (S.PolledSource, K.PolledSink, C.Clock) };

    ghost needs = { spec.Needs S.needs K.needs };

    ghost puts_off = { spec.IsPutOff S.waits K.waits };

    fn caller(&self) -> u32 {
        self.worker.number()
    }

    fn begin(self, source: S, sink: K) -> Serving<Desk<R>, S, K, C> {
        let PolledStation {
            alloc,
            worker,
            clock,
            gateway,
            link: _,
        } = self;
        // Whatever comes of it, the log seen is lawful, and what the gateway has answered are verdicts.
        let _ = worker.store();
        let _ = gateway.answers();
        let stage = match Connection::new(alloc, worker, source, sink, clock, gateway) {
            Ok(connection) => Stage::Live(connection),
            Err(finished) => Stage::Over(finished),
        };
        Serving { alloc, stage }
    }

    fn poll(serving: &mut Serving<Desk<R>, S, K, C>, cx: &mut Context<'_>) -> Poll<()> {
        let end = match &mut serving.stage {
            Stage::Live(connection) => match connection.poll_end(cx) {
                Poll::Ready(end) => end,
                Poll::Pending => return Poll::Pending,
            },
            Stage::Over(_) => return Poll::Ready(()),
        };
        end_link(&mut serving.stage, end);
        Poll::Ready(())
    }

    fn finish(
        serving: Serving<Desk<R>, S, K, C>,
    ) -> Completed<PolledStation<R, S, K, C>, S, K, Report> {
        let Serving { alloc, stage } = serving;
        match stage {
            Stage::Over(finished) => completed(alloc, finished),
            Stage::Live(live) => {
                drop(live);
                unreachable!()
            }
        }
    }
}
