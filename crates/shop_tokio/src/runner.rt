use futures::Future;
use shop_lanes::{Ran, Runner};
use std::alloc::AllocGlobal;
use std::io::{self, ErrorKind};
use std::net::Net;
use std::random::RandomSource;
use std::sync::Wait;
use std::time::Clock;
use tokio::runtime::{Handle, LocalRuntime};

/// Runs futures on this thread, and waits for sockets and timers meanwhile: those that its handle made.
#[derive(Drop)]
pub struct TokioRunner<R> {
    rt: R,
    runtime: LocalRuntime,
    faults: u64,
}

impl<R: Net + Clock + RandomSource + AllocGlobal + Drop> TokioRunner<R> {
    ghost use Rattle.std.specs.Prelude.{◌≡◌, IfOk};

    /// No run has failed yet.
    pub fn new(rt: R) -> io::Result<TokioRunner<R>>
        ensures { IfOk result (λ runner. runner.faults ≡ 0) }
    {
        let runtime = LocalRuntime::new(&rt)?;
        Ok(TokioRunner {
            rt,
            runtime,
            faults: 0,
        })
    }

    /// What sockets and timers are made with. They fail under any other runner.
    pub fn handle(&self) -> &Handle {
        self.runtime.handle()
    }
}

impl<R: Wait + Clock + RandomSource + AllocGlobal> Runner for TokioRunner<R> {
    ghost faults = { λ runner. runner.faults };

    fn run<F: Future>(&mut self, future: F) -> Ran<F::Output> {
        match self.runtime.block_on(&self.rt, future) {
            Ok(output) => Ran::Done(output),
            Err(error) if error.kind() == ErrorKind::OutOfMemory => Ran::Memory,
            Err(_) => {
                self.faults = self.faults.saturating_add(1);
                Ran::Failed
            }
        }
    }
}
