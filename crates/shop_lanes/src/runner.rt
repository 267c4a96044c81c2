ghost use Rattle.std.specs.Prelude.{ℕ};
ghost use Rattle.shop_lanes.specs.Runs.{IfDone, RanCause};

use futures::Future;
use futures::executor::block_on;
use std::alloc::AllocGlobal;
use std::io::ErrorKind;
use std::random::RandomSource;
use std::sync::Wait;

/// What came of a future that was run.
#[derive(Drop)]
pub enum Ran<T> {
    /// What it gave.
    Done(T),
    Failed,
    Memory,
}

/// Runs futures on this thread, one at a time.
pub trait Runner {
    /// How many runs have failed, up to `u64::MAX`.
    ghost faults: { Self → ℕ };

    /// Polls a future until it is ready, and waits meanwhile for what it needs.
    fn run<F: Future>(&mut self, future: F) -> Ran<F::Output>
        requires { F.can_poll future }
        ensures done { IfDone result (F.gives future) }
        ensures cause { RanCause (faults self.old) (faults self.new) result };
}

/// Runs futures by the executor of `futures`. It knows no sockets and no timers.
#[derive(Drop)]
pub struct BlockOn<R> {
    rt: R,
    faults: u64,
}

impl<R> BlockOn<R> {
    ghost use Rattle.std.specs.Prelude.{◌≡◌};

    /// No run has failed yet.
    pub fn new(rt: R) -> BlockOn<R>
        ensures { result ≡ record { rt = rt; faults = 0 } }
    {
        BlockOn { rt, faults: 0 }
    }
}

impl<R: Wait + RandomSource + AllocGlobal> Runner for BlockOn<R> {
    ghost faults = { λ runner. runner.faults };

    fn run<F: Future>(&mut self, future: F) -> Ran<F::Output> {
        match block_on(&self.rt, future) {
            Ok(output) => Ran::Done(output),
            Err(error) if error.kind() == ErrorKind::OutOfMemory => Ran::Memory,
            Err(_) => {
                self.faults = self.faults.saturating_add(1);
                Ran::Failed
            }
        }
    }
}
