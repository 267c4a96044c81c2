use futures::task::{Context, Poll};
use std::io;
use std::time::{Clock, Duration, Instant};
use tokio::time::{Handle, Sleep};

/// How many seconds a read or a write may be put off.
const PATIENCE: u64 = 5;

/// How long one read, or one write, has been put off.
#[derive(Drop)]
pub(crate) struct Patience<R> {
    rt: R,
    timer: Sleep,
    is_running: bool,
}

impl<R: Clock + Drop> Patience<R> {
    ghost use Rattle.std.specs.Prelude.{◌≡◌, IfSome, Ok};
    ghost use Rattle.futures.specs.Poll.{IfReady, OnPending};
    ghost use Rattle.futures.specs.Task.{Covers, Keeps};
    ghost use Rattle.tokio.specs.Timers.{sleep_source};

    /// Nothing was put off yet. No later call takes memory.
    pub(crate) fn new(rt: R, timers: &Handle) -> io::Result<Patience<R>> {
        let timer = timers.sleep(&rt, Duration::from_secs(PATIENCE))?;
        Ok(Patience {
            rt,
            timer,
            is_running: false,
        })
    }

    /// Has the timer end 5 seconds from now. It is `None` where the time can't be told.
    fn start(&mut self) -> Option<()> {
        let now = Instant::now(&self.rt).ok()?;
        self.timer
            .reset(now.checked_add(Duration::from_secs(PATIENCE))?);
        self.is_running = true;
        Some(())
    }

    /// Ready where the timer has ended that was started when the read or the write was put off first.
    fn poll_spent(&mut self, cx: &mut Context<'_>) -> Poll<()>
        ensures registered { OnPending result (Covers cx.new (λ event. event ≡ sleep_source self.new.timer)) }
        ensures kept { Keeps cx.old cx.new }
    {
        if !self.is_running && self.start().is_none() {
            return Poll::Ready(());
        }
        match self.timer.poll_elapsed(cx) {
            Poll::Ready(_) => Poll::Ready(()),
            Poll::Pending => Poll::Pending,
        }
    }

    /// How many bytes a read or a write has moved whose poll says this. It is `None` where that failed, or was put off
    /// for 5 seconds.
    pub(crate) fn poll_moved(
        &mut self,
        cx: &mut Context<'_>,
        polled: Poll<io::Result<usize>>,
    ) -> Poll<Option<usize>>
        ensures moved { IfReady result (λ moved. IfSome moved (λ count. polled ≡ Poll.Ready (Ok count))) }
        ensures waits { OnPending result (polled ≡ Poll.Pending) }
        ensures registered { OnPending result (Covers cx.new (λ event. event ≡ sleep_source self.new.timer)) }
        ensures kept { Keeps cx.old cx.new }
    {
        match polled {
            Poll::Ready(moved) => {
                self.is_running = false;
                Poll::Ready(moved.ok())
            }
            Poll::Pending => match self.poll_spent(cx) {
                Poll::Ready(()) => Poll::Ready(None),
                Poll::Pending => Poll::Pending,
            },
        }
    }
}
