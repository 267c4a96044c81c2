ghost use Rattle.std.specs.Prelude.{◌≡◌, IsFalse, IsTrue};
ghost use Rattle.futures.specs.Poll.{IfReady, OnPending};
ghost use Rattle.futures.specs.Task.{Covers, Keeps};
ghost use Rattle.shop_lanes.specs.Pools as spec;
ghost use Rattle.shop_lanes.specs.Spots.{HasBusy, NoneBusy};
ghost use Rattle.shop_lanes.specs.Waits.{IsPutOff, NeedsOf};

use crate::{Berth, PolledListener};
use futures::task::{Context, Poll};
use shop_places::Spot;

/// Why no more links are served.
#[derive(Clone, Copy, Debug, PartialEq, Eq)]
pub enum LanesEnd {
    /// All links were served.
    All,
    /// No link was accepted: the listener failed.
    ListenerFault,
    /// Memory ran out.
    Memory,
}

/// Lanes that serve links of a listener, and have not ended.
#[derive(Drop)]
pub(crate) struct Pool<L, B, V, P> {
    pub(crate) listener: L,
    pub(crate) lanes: Vec<Spot<B, V>>,
    /// Room for the berths, once the lanes have ended.
    pub(crate) room: Vec<B>,
    /// The caller's number and the report of each link that was served, in the order in which they ended.
    pub(crate) reports: Vec<(u32, P)>,
    /// How many links were accepted.
    pub(crate) accepted: u32,
    /// How many links there are to be.
    pub(crate) links: u32,
    /// How the lanes end, as far as is known.
    pub(crate) ended: LanesEnd,
}

/// Whether no lane is busy.
fn are_free<B, V>(lanes: &[Spot<B, V>]) -> bool
    ensures busy { IsFalse result → HasBusy lanes.now }
    ensures free { IsTrue result → NoneBusy lanes.now }
{
    for at in 0..lanes.len() {
        if let Spot::Busy(_, _) = &lanes[at] {
            return false;
        }
    }
    true
}

impl<B: Berth, L: PolledListener<In = B::In, Out = B::Out>> Pool<L, B, B::Serving, B::Report> {
    /// Whether links are to be accepted.
    pub(crate) fn is_open(&self) -> bool
        ensures open { IsTrue result → spec.IsOpen self.now }
        ensures closed { IsFalse result → spec.IsClosed self.now }
    {
        match self.ended {
            LanesEnd::All => self.accepted < self.links,
            LanesEnd::ListenerFault | LanesEnd::Memory => false,
        }
    }

    /// Whether all links were served that are to be accepted.
    fn is_over(&self) -> bool
        ensures over { IsTrue result → spec.IsOver self.now }
        ensures going { IsFalse result → spec.IsGoing self.now }
    {
        if !are_free(&self.lanes) {
            return false;
        }
        !self.is_open()
    }

    /// Accepts links as long as a lane is free for one, and then polls each lane that is busy once.
    pub(crate) fn poll(&mut self, cx: &mut Context<'_>) -> Poll<()>
        requires { spec.CanGoOn B.can_poll self.old }
        ensures live { spec.CanGoOn B.can_poll self.new }
        ensures since { spec.GoesOn (B.Berth, L.PolledListener) self.old self.new }
        ensures closed { spec.IsClosed self.old → spec.IsClosed self.new × (self.new.accepted ≡ self.old.accepted) }
        ensures over { IfReady result (λ _. spec.IsOver self.new) }
        ensures waited { OnPending result (IsPutOff (B.Berth, L.PolledListener) self.old self.new cx.new) }
        ensures registered { OnPending result (Covers cx.new (NeedsOf (B.Berth, L.PolledListener) self.new)) }
        ensures kept { Keeps cx.old cx.new }
    {
        let before = self.reports.len();
        self.accept_all(cx);
        self.poll_all(cx);
        if self.is_over() {
            return Poll::Ready(());
        }
        if before < self.reports.len() {
            return cx.yield_now();
        }
        Poll::Pending
    }
}
