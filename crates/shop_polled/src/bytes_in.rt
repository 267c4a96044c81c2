use crate::PolledSource;
use futures::task::{Context, Poll};
use shop_edges::{BytesIn, Got, Source};
use shop_text::Listed;
use std::marker::Model;

/// A source over bytes that is waited for. It is put off at each listed poll, counted from 1, and wakes the task;
/// any other poll reads, and what fails there is listed by reads.
#[derive(Drop)]
pub struct PolledBytesIn {
    bytes: BytesIn,
    waits: Listed<u64>,
    polls: u64,
    put_off: u64,
}

impl Model for PolledBytesIn {
    ghost use Rattle.shop_edges.specs.Pieces.{Pieces};
    ghost use Rattle.shop_polled.specs.Pieces.{Polled};
    ghost use Rattle.shop_polled.specs.BytesInView.{pieces_of};

    ghost Value = { Polled Pieces };

    ghost view = { pieces_of };
}

impl PolledBytesIn {
    ghost use Rattle.std.specs.Prelude.{◌≡◌};
    ghost use Rattle.shop_polled.specs.Pieces.{unpolled};

    pub fn new(bytes: BytesIn, waits: Listed<u64>) -> PolledBytesIn
        ensures { result ≡ unpolled bytes waits }
    {
        PolledBytesIn {
            bytes,
            waits,
            polls: 0,
            put_off: 0,
        }
    }

    /// How many polls there were.
    pub fn polls(&self) -> u64
        ensures { result ≡ self.now.polls }
    {
        self.polls
    }
}

impl PolledSource for PolledBytesIn {
    ghost use Rattle.std.specs.Prelude.{◌≡◌, ◌<◌, Some, length, true};
    ghost use Rattle.futures.specs.Poll.{OnPending};
    ghost use Rattle.futures.specs.Task.{Covers, Keeps};
    ghost use Rattle.shop_polled.specs.Pieces.{PollsPiece};
    ghost use Rattle.shop_polled.specs.Streams.{FitsPolled, PolledCause, PolledLowers, PolledReads, WaitCause};

    ghost left = { λ s. Some s.stream.bytes };

    ghost faults = { λ s. s.stream.faults };

    ghost reads = { λ s. length s.stream.bytes };

    ghost waits = { λ s. s.put_off };

    ghost needs = { λ _ _. ⊥ };

    fn poll_read(&mut self, cx: &mut Context<'_>, into: &mut [u8]) -> Poll<Got>
        requires { 0 < length into.old }
        ensures fits { FitsPolled result into.new }
        ensures bytes { PolledReads (Some self.old.stream.bytes) (Some self.new.stream.bytes) result into.new }
        ensures reads { PolledLowers (length self.old.stream.bytes) (length self.new.stream.bytes) result }
        ensures cause { PolledCause self.old.stream.faults self.new.stream.faults result }
        ensures waits { WaitCause self.old.put_off self.new.put_off result }
        ensures registered { OnPending result (Covers cx.new (λ _. ⊥)) }
        ensures kept { Keeps cx.old cx.new }
        ensures piece { PollsPiece self.old self.new result (length into.old) }
        ensures woken { OnPending result (cx.new.is_woken ≡ true) }
    {
        self.polls = self.polls.saturating_add(1);
        if self.waits.as_slice().contains(&self.polls) {
            self.put_off = self.put_off.saturating_add(1);
            return cx.yield_now();
        }
        Poll::Ready(self.bytes.read(into))
    }
}
