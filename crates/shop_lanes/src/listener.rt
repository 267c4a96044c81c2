ghost use Rattle.std.specs.Prelude.{◌≡◌, ◌≤◌, ℕ, Option, option_map};
ghost use Rattle.futures.specs.Poll.{OnPending};
ghost use Rattle.futures.specs.Task.{Covers, Keeps};
ghost use Rattle.shop_edges.specs.Links.{Links, OpenCause, got_back, opened};
ghost use Rattle.shop_lanes.specs.Accepts.{PolledCause, WaitCause, gave_polled, links_polled};

use futures::task::{Context, Poll};
use shop_edges::{Linked, Opened};

/// Links with peers on this machine, which are waited for without blocking.
pub trait PolledListener {
    type In;

    type Out;

    /// The links that `poll_accept` gave since the last `open`, and what came back of them, where they are known.
    ghost links: { Self → Option (Links Self.In Self.Out) };

    /// How many calls have failed, up to `u64::MAX`.
    ghost faults: { Self → ℕ };

    /// How many polls were put off, up to `u64::MAX`.
    ghost waits: { Self → ℕ };

    /// How many links `poll_accept` has given, up to `u64::MAX`.
    ghost accepted: { Self → ℕ };

    /// Holds of each event that a poll that was put off waits for.
    ghost needs: { Self → ℕ → Type 0 };

    /// Opens a port for peers that dial it.
    fn open(&mut self, port: u16) -> Opened
        ensures links { links self.new ≡ option_map opened (links self.old) }
        ensures cause { OpenCause (faults self.old) (faults self.new) result }
        ensures waits { waits self.old ≤ waits self.new }
        ensures accepted { accepted self.new ≡ accepted self.old };

    /// A peer that dials the open port; or word is left with the task to be polled again.
    fn poll_accept(&mut self, cx: &mut Context<'_>) -> Poll<Linked<Self::In, Self::Out>>
        ensures links { links self.new ≡ option_map (gave_polled result) (links self.old) }
        ensures cause { PolledCause (faults self.old) (faults self.new) result }
        ensures waits { WaitCause (waits self.old) (waits self.new) result }
        ensures accepted { accepted self.new ≡ links_polled result (accepted self.old) }
        ensures registered { OnPending result (Covers cx.new (needs self.new)) }
        ensures kept { Keeps cx.old cx.new };

    /// Takes back a link that `poll_accept` gave. Links are numbered from 1 after each `open`.
    fn give_back(&mut self, link: u64, source: Self::In, sink: Self::Out)
        ensures links { links self.new ≡
            option_map (got_back (record { link = link; source = source; sink = sink })) (links self.old) }
        ensures later { faults self.old ≤ faults self.new }
        ensures waits { waits self.old ≤ waits self.new }
        ensures accepted { accepted self.new ≡ accepted self.old };
}
