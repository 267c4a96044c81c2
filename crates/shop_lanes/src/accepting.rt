ghost use Rattle.std.specs.Prelude.{◌≡◌, ◌≤◌, ◌<◌, IsFalse, IsTrue, length};
ghost use Rattle.futures.specs.Task.{Keeps};
ghost use Rattle.shop_places.specs.Spots.{IsFree};
ghost use Rattle.shop_lanes.specs.Pools.{CanGoOn, GoesOn};
ghost use Rattle.shop_lanes.specs.Spots.{IsBusy, lane_at};
ghost use Rattle.shop_lanes.specs.Turns as spec;

use crate::pool::Pool;
use crate::{Berth, LanesEnd, PolledListener};
use futures::task::{Context, Poll};
use shop_edges::Linked;
use shop_places::Spot;
use std::mem;

impl<B: Berth, L: PolledListener<In = B::In, Out = B::Out>> Pool<L, B, B::Serving, B::Report> {
    /// The next link, with room for its report. It is `None` where no more links are accepted, and then it is noted why.
    fn accept(&mut self, cx: &mut Context<'_>) -> Poll<Option<(B::In, B::Out)>>
        requires { CanGoOn B.can_poll self.old }
        ensures accepted { spec.AcceptsAs (B.Berth, L.PolledListener) self.old self.new cx.new result }
        ensures same { spec.KeepsLanes self.old self.new }
        ensures later { L.waits self.old.listener ≤ L.waits self.new.listener }
        ensures kept { Keeps cx.old cx.new }
    {
        let room = self.accepted as usize + 1 - self.reports.len();
        let Ok(()) = self.reports.reserve(room) else {
            self.ended = LanesEnd::Memory;
            return Poll::Ready(None);
        };
        let linked = match self.listener.poll_accept(cx) {
            Poll::Ready(linked) => linked,
            Poll::Pending => return Poll::Pending,
        };
        match linked {
            Linked::Linked(source, sink) => return Poll::Ready(Some((source, sink))),
            Linked::Failed => self.ended = LanesEnd::ListenerFault,
            Linked::Memory => self.ended = LanesEnd::Memory,
        }
        Poll::Ready(None)
    }

    /// Has a link served at a free lane.
    fn begin_at(&mut self, at: usize, source: B::In, sink: B::Out)
        requires inside { at < length self.old.lanes.items }
        requires free { IsFree (lane_at at self.old.lanes.items) }
        requires open { self.old.accepted < self.old.links }
        ensures { spec.BeginsAt (B.Berth, L.PolledListener) at (source, sink) self.old self.new }
    {
        let berth = match mem::replace(&mut self.lanes[at], Spot::Gone) {
            Spot::Free(berth) => berth,
            other => {
                drop(other);
                unreachable!()
            }
        };
        self.accepted += 1;
        let link = u64::from(self.accepted);
        self.lanes[at] = Spot::Busy(link, berth.begin(source, sink));
    }

    /// Accepts a link for a free lane, if there are links to come. It is false where no other lane need be asked.
    #[inline(never)]
    fn accept_free(&mut self, cx: &mut Context<'_>, at: usize) -> bool
        requires live { CanGoOn B.can_poll self.old }
        requires inside { at < length self.old.lanes.items }
        requires free { IsFree (lane_at at self.old.lanes.items) }
        ensures live { CanGoOn B.can_poll self.new }
        ensures since { GoesOn (B.Berth, L.PolledListener) self.old self.new }
        ensures accepts { spec.AcceptsAt (B.Berth, L.PolledListener) at self.old self.new }
        ensures busy { IsTrue result → IsBusy (lane_at at self.new.lanes.items) }
        ensures awaits { IsFalse result → spec.AwaitsLink (B.Berth, L.PolledListener) self.old self.new cx.new }
        ensures kept { Keeps cx.old cx.new }
    {
        if !self.is_open() {
            return false;
        }
        let accepted = match self.accept(cx) {
            Poll::Ready(accepted) => accepted,
            Poll::Pending => return false,
        };
        match accepted {
            Some((source, sink)) => {
                self.begin_at(at, source, sink);
                true
            }
            None => false,
        }
    }

    /// Accepts a link for a lane, if it is free and there are links to come. It is false where no other lane need be
    /// asked.
    fn accept_at(&mut self, cx: &mut Context<'_>, at: usize) -> bool
        requires live { CanGoOn B.can_poll self.old }
        requires inside { at < length self.old.lanes.items }
        ensures live { CanGoOn B.can_poll self.new }
        ensures since { GoesOn (B.Berth, L.PolledListener) self.old self.new }
        ensures accepts { spec.AcceptsAt (B.Berth, L.PolledListener) at self.old self.new }
        ensures busy { IsTrue result → IsBusy (lane_at at self.new.lanes.items) }
        ensures awaits { IsFalse result → spec.AwaitsLink (B.Berth, L.PolledListener) self.old self.new cx.new }
        ensures kept { Keeps cx.old cx.new }
    {
        if let Spot::Busy(_, _) = &self.lanes[at] {
            return true;
        }
        self.accept_free(cx, at)
    }

    /// Accepts links as long as a lane is free for one, the first such lane each time.
    pub(crate) fn accept_all(&mut self, cx: &mut Context<'_>)
        requires { CanGoOn B.can_poll self.old }
        ensures live { CanGoOn B.can_poll self.new }
        ensures since { GoesOn (B.Berth, L.PolledListener) self.old self.new }
        ensures accepts { spec.Accepts (B.Berth, L.PolledListener) self.old self.new }
        ensures awaits { spec.AwaitsLink (B.Berth, L.PolledListener) self.old self.new cx.new }
        ensures kept { Keeps cx.old cx.new }
    {
        let count = self.lanes.len();
        for at in 0..count {
            if !self.accept_at(cx, at) {
                return;
            }
        }
    }
}
