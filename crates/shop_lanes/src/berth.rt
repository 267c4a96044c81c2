ghost use Rattle.std.specs.Prelude.{◌≡◌, ℕ};
ghost use Rattle.futures.specs.Poll.{IfReady, OnPending};
ghost use Rattle.futures.specs.Task.{Covers, Keeps};
ghost use Rattle.shop_lanes.specs.Berths.{IsServing};
ghost use Rattle.shop_lanes.specs.declared.berth.Completed.{Completed};

use futures::task::{Context, Poll};

/// What is left when a link was served: the berth and the link as the service left them, and its report.
#[derive(Drop)]
pub struct Completed<B, I, O, P> {
    pub berth: B,
    pub source: I,
    pub sink: O,
    pub report: P,
}

/// Serves links, one after another, without ever blocking on one.
pub trait Berth: Drop {
    type In: Drop;

    type Out: Drop;

    type Report: Drop;

    /// A berth that serves a link.
    type Serving: Drop;

    /// What it promises of a service: of the berth and the streams before it, of those after it, and of the report.
    ghost serves: { Self → Self.In → Self.Out → Self → Self.In → Self.Out → Self.Report → Type 0 };

    /// Whom it serves for.
    ghost caller: { Self → ℕ };

    /// Holds of a serving that may be polled.
    ghost can_poll: { Self.Serving → Type 0 };

    /// Holds of a serving whose link was served.
    ghost has_ended: { Self.Serving → Type 0 };

    /// Holds of what a serving may leave.
    ghost gives: { Self.Serving → Completed Self Self.In Self.Out Self.Report → Type 0 };

    /// Holds of each event that a serving that was put off waits for.
    ghost needs: { Self.Serving → ℕ → Type 0 };

    /// Holds of a serving before and after a poll that was put off.
    ghost puts_off: { Self.Serving → Self.Serving → Type 0 };

    /// The number of the one whom it serves for.
    fn caller(&self) -> u32
        ensures { result ≡ caller self.now };

    /// Begins to serve a link. Where memory runs out, the first poll tells so.
    fn begin(self, source: Self::In, sink: Self::Out) -> Self::Serving
        ensures can_poll { can_poll result }
        ensures serving { IsServing serves gives self source sink result };

    /// Serves on, until the link was served, or as far as it goes now; then word is left with the task to be polled again.
    /// Nothing is handed out, so that a call that is put off clears no room for it; behind the end `finish` does.
    fn poll(serving: &mut Self::Serving, cx: &mut Context<'_>) -> Poll<()>
        requires { can_poll serving.old }
        ensures ended { IfReady result (λ done. has_ended serving.new) }
        ensures again { OnPending result (can_poll serving.new) }
        ensures same { (x : _) → gives serving.new x → gives serving.old x }
        ensures waited { OnPending result (puts_off serving.old serving.new) }
        ensures registered { OnPending result (Covers cx.new (needs serving.new)) }
        ensures kept { Keeps cx.old cx.new };

    /// Hands out what is left of a link that was served.
    fn finish(serving: Self::Serving) -> Completed<Self, Self::In, Self::Out, Self::Report>
        requires { has_ended serving }
        ensures { gives serving result };
}
