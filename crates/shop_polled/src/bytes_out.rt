use crate::PolledSink;
use futures::task::{Context, Poll};
use shop_edges::{BytesOut, Sink, Took};
use shop_text::Listed;
use std::marker::Model;

/// A sink that keeps the bytes, and is waited for. It is put off at each listed poll, counted from 1, and wakes the
/// task; any other poll writes, and what fails there is listed by writes.
#[derive(Drop)]
pub struct PolledBytesOut {
    bytes: BytesOut,
    waits: Listed<u64>,
    polls: u64,
    put_off: u64,
}

impl Model for PolledBytesOut {
    ghost use Rattle.shop_edges.specs.Pieces.{HeldPieces};
    ghost use Rattle.shop_polled.specs.Pieces.{Polled};
    ghost use Rattle.shop_polled.specs.BytesOutView.{held_of};

    ghost Value = { Polled HeldPieces };

    ghost view = { held_of };
}

impl PolledBytesOut {
    ghost use Rattle.std.specs.Prelude.{◌≡◌};
    ghost use Rattle.shop_polled.specs.Pieces.{unpolled};

    pub fn new(bytes: BytesOut, waits: Listed<u64>) -> PolledBytesOut
        ensures { result ≡ unpolled bytes waits }
    {
        PolledBytesOut {
            bytes,
            waits,
            polls: 0,
            put_off: 0,
        }
    }

    /// The bytes that it holds.
    pub fn bytes(&self) -> &[u8]
        ensures { result.now ≡ self.now.stream.pieces.bytes }
    {
        self.bytes.bytes()
    }

    /// How many polls there were.
    pub fn polls(&self) -> u64
        ensures { result ≡ self.now.polls }
    {
        self.polls
    }
}

impl PolledSink for PolledBytesOut {
    ghost use Rattle.std.specs.Prelude.{◌≡◌, ◌<◌, Some, length, true};
    ghost use Rattle.futures.specs.Poll.{OnPending};
    ghost use Rattle.futures.specs.Task.{Covers, Keeps};
    ghost use Rattle.shop_polled.specs.Pieces.{PollsTaking};
    ghost use Rattle.shop_polled.specs.Streams.{PolledWriteCause, PolledWrites, TookPolled, WaitCause};

    ghost held = { λ s. Some s.stream.pieces.bytes };

    ghost faults = { λ s. s.stream.pieces.faults };

    ghost waits = { λ s. s.put_off };

    ghost needs = { λ _ _. ⊥ };

    fn poll_write(&mut self, cx: &mut Context<'_>, from: &[u8]) -> Poll<Took>
        requires { 0 < length from.now }
        ensures fits { TookPolled result from.now }
        ensures bytes { PolledWrites (Some self.old.stream.pieces.bytes) (Some self.new.stream.pieces.bytes) result from.now }
        ensures cause { PolledWriteCause self.old.stream.pieces.faults self.new.stream.pieces.faults result }
        ensures waits { WaitCause self.old.put_off self.new.put_off result }
        ensures registered { OnPending result (Covers cx.new (λ _. ⊥)) }
        ensures kept { Keeps cx.old cx.new }
        ensures piece { PollsTaking self.old self.new result from.now }
        ensures woken { OnPending result (cx.new.is_woken ≡ true) }
    {
        self.polls = self.polls.saturating_add(1);
        if self.waits.as_slice().contains(&self.polls) {
            self.put_off = self.put_off.saturating_add(1);
            return cx.yield_now();
        }
        Poll::Ready(self.bytes.write(from))
    }
}
