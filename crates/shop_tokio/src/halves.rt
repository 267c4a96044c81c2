//! The two sides of a link.
use crate::patience::Patience;
use futures::task::{Context, Poll};
use shop_edges::{FIRST_READS, Got, Took};
use shop_polled::{PolledSink, PolledSource};
use std::time::Clock;
use tokio::io::{AsyncRead, AsyncWrite};
use tokio::net::{OwnedReadHalf, OwnedWriteHalf};

/// How many reads take what a peer has sent once its link came back.
const LAST_READS: u32 = 64;

/// The side of a link that bytes come from.
#[derive(Drop)]
pub struct TokioIn<R> {
    half: OwnedReadHalf,
    patience: Patience<R>,
    reads: u64,
    faults: u64,
    waits: u64,
}

/// The side of a link that bytes go to. Where it is dropped, its peer is told that nothing more comes.
#[derive(Drop)]
pub struct TokioOut<R> {
    half: OwnedWriteHalf,
    patience: Patience<R>,
    faults: u64,
    waits: u64,
}

impl<R: Clock + Drop> TokioIn<R> {
    /// Nothing was read yet.
    pub(crate) fn new(half: OwnedReadHalf, patience: Patience<R>) -> TokioIn<R> {
        TokioIn {
            half,
            patience,
            reads: FIRST_READS,
            faults: 0,
            waits: 0,
        }
    }

    /// Takes and drops what the peer has sent, so that the system does not cut off the last page by a reset. It waits for
    /// nothing.
    pub(crate) fn drain(&self) {
        let mut into = [0; 4096];
        for _ in 0..LAST_READS {
            match self.half.try_read(&mut into) {
                Ok(0) | Err(_) => return,
                Ok(_) => {}
            }
        }
    }
}

impl<R: Clock + Drop> PolledSource for TokioIn<R> {
    ghost use Rattle.std.specs.Prelude.{◌≡◌, ◌⊎◌, None};
    ghost use Rattle.tokio.specs.Timers.{sleep_source};

    ghost left = { λ _. None };

    ghost faults = { λ source. source.faults };

    ghost reads = { λ source. source.reads };

    ghost waits = { λ source. source.waits };

    ghost needs = { λ source event. ⟦<OwnedReadHalf as AsyncRead>⟧.needs source.half event ⊎ (event ≡ sleep_source source.patience.timer) };

    fn poll_read(&mut self, cx: &mut Context<'_>, into: &mut [u8]) -> Poll<Got> {
        let polled = self.half.poll_read(cx, into);
        let moved = match self.patience.poll_moved(cx, polled) {
            Poll::Ready(moved) => moved,
            Poll::Pending => {
                self.waits = self.waits.saturating_add(1);
                return Poll::Pending;
            }
        };
        match moved {
            Some(0) => Poll::Ready(Got::End),
            Some(count) if 0 < self.reads => {
                self.reads -= 1;
                Poll::Ready(Got::Bytes(count))
            }
            Some(_) | None => {
                self.faults = self.faults.saturating_add(1);
                Poll::Ready(Got::Failed)
            }
        }
    }
}

impl<R: Clock + Drop> TokioOut<R> {
    /// Nothing was written yet.
    pub(crate) fn new(half: OwnedWriteHalf, patience: Patience<R>) -> TokioOut<R> {
        TokioOut {
            half,
            patience,
            faults: 0,
            waits: 0,
        }
    }
}

impl<R: Clock + Drop> PolledSink for TokioOut<R> {
    ghost use Rattle.std.specs.Prelude.{◌≡◌, ◌⊎◌, None};
    ghost use Rattle.tokio.specs.Timers.{sleep_source};

    ghost held = { λ _. None };

    ghost faults = { λ sink. sink.faults };

    ghost waits = { λ sink. sink.waits };

    ghost needs = { λ sink event. ⟦<OwnedWriteHalf as AsyncWrite>⟧.needs sink.half event ⊎ (event ≡ sleep_source sink.patience.timer) };

    fn poll_write(&mut self, cx: &mut Context<'_>, from: &[u8]) -> Poll<Took> {
        let polled = self.half.poll_write(cx, from);
        let moved = match self.patience.poll_moved(cx, polled) {
            Poll::Ready(moved) => moved,
            Poll::Pending => {
                self.waits = self.waits.saturating_add(1);
                return Poll::Pending;
            }
        };
        match moved {
            Some(0) | None => {
                self.faults = self.faults.saturating_add(1);
                Poll::Ready(Took::Failed)
            }
            Some(count) => Poll::Ready(Took::Bytes(count)),
        }
    }
}
