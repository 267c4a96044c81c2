ghost use Rattle.std.specs.Prelude.{◌≡◌, ◌≤◌, ◌<◌, ◌++◌, ◌∷◌, [], IsFalse, IsTrue, length, option_map};
ghost use Rattle.std.specs.Vec.{vec_capacity};
ghost use Rattle.futures.specs.Task.{Keeps};
ghost use Rattle.shop_edges.specs.Links.{got_back};
ghost use Rattle.shop_lanes.specs.Pools.{CanGoOn, GoesOn};
ghost use Rattle.shop_lanes.specs.Spots.{IsHere};
ghost use Rattle.shop_lanes.specs.Turns as spec;

use crate::pool::Pool;
use crate::{Berth, Completed, PolledListener};
use futures::task::{Context, Poll};
use shop_places::Spot;
use std::mem;

/// Polls what a lane serves, if it is busy, where it stands. Whether its link was served.
fn poll_lane<B: Berth>(lane: &mut Spot<B, B::Serving>, cx: &mut Context<'_>) -> bool
    requires { IsHere B.can_poll lane.old }
    ensures ended { IsTrue result → spec.EndsTurn B.Berth lane.old lane.new }
    ensures turned { IsFalse result → spec.TurnsOn B.Berth cx.new lane.old lane.new }
    ensures kept { Keeps cx.old cx.new }
{
    match lane {
        Spot::Busy(_, serving) => match B::poll(serving, cx) {
            Poll::Ready(()) => true,
            Poll::Pending => false,
        },
        Spot::Free(_) | Spot::Gone => false,
    }
}

/// What is left of the link that a lane has served, behind its number.
fn finish_lane<B: Berth>(lane: Spot<B, B::Serving>) -> (u64, Completed<B, B::In, B::Out, B::Report>)
    requires { spec.HasEnded B.Berth lane }
    ensures { spec.Completes B.Berth lane result }
{
    match lane {
        Spot::Busy(link, serving) => (link, B::finish(serving)),
        other => {
            drop(other);
            unreachable!()
        }
    }
}

/// Frees a lane that has served its link: the report is told, and the link given back.
#[inline(never)]
fn free_lane<B: Berth, L: PolledListener<In = B::In, Out = B::Out>>(
    lane: &mut Spot<B, B::Serving>,
    listener: &mut L,
    reports: &mut Vec<(u32, B::Report)>,
)
    requires ended { spec.HasEnded B.Berth lane.old }
    requires room { length reports.old.items < vec_capacity reports.old }
    ensures freed { spec.IsFreed (B.Berth, L.PolledListener) lane.old lane.new reports.old.items reports.new.items listener.old listener.new }
    ensures room { vec_capacity reports.old ≤ vec_capacity reports.new }
{
    let (link, done) = finish_lane::<B>(mem::replace(lane, Spot::Gone));
    let Completed {
        berth,
        source,
        sink,
        report,
    } = done;
    listener.give_back(link, source, sink);
    let Ok(()) = reports.push((berth.caller(), report)) else {
        unreachable!()
    };
    *lane = Spot::Free(berth);
}

impl<B: Berth, L: PolledListener<In = B::In, Out = B::Out>> Pool<L, B, B::Serving, B::Report> {
    /// Polls a lane, if it is busy.
    fn poll_at(&mut self, cx: &mut Context<'_>, at: usize)
        requires live { CanGoOn B.can_poll self.old }
        requires inside { at < length self.old.lanes.items }
        ensures live { CanGoOn B.can_poll self.new }
        ensures since { GoesOn (B.Berth, L.PolledListener) self.old self.new }
        ensures turned { spec.TurnAt (B.Berth, L.PolledListener) at self.old self.new cx.new }
        ensures kept { Keeps cx.old cx.new }
    {
        let lane = &mut self.lanes[at];
        if poll_lane::<B>(lane, cx) {
            free_lane(lane, &mut self.listener, &mut self.reports);
        }
    }

    /// Polls each lane that is busy, in their order.
    pub(crate) fn poll_all(&mut self, cx: &mut Context<'_>)
        requires { CanGoOn B.can_poll self.old }
        ensures live { CanGoOn B.can_poll self.new }
        ensures since { GoesOn (B.Berth, L.PolledListener) self.old self.new }
        ensures turned { spec.Turns (B.Berth, L.PolledListener) (length self.old.lanes.items) self.old self.new cx.new }
        ensures kept { Keeps cx.old cx.new }
    {
        let count = self.lanes.len();
        for at in 0..count {
            self.poll_at(cx, at);
        }
    }
}
