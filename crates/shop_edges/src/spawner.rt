use crate::{Begun, Job, Running, Ticket};
use shop_text::Listed;
use std::marker::Model;
use std::thread::Threads;

/// What became of a job that was to be started; where it failed, the job is dropped.
#[derive(Drop)]
pub enum Start<T> {
    Started(T),
    Failed,
}

/// How jobs are run.
#[derive(Drop)]
pub enum Way {
    /// Each in a thread of its own. It fails where no thread can be made.
    Threads,
    /// Each at once, as it is started.
    AtOnce,
    /// Each at once, but it fails at each listed start, counted from 1.
    Failing(Listed<u64>),
}

impl Way {
    ghost use Rattle.shop_edges.specs.Starts.{KeepsPromise, CanStart};

    /// Begins the job of a call.
    fn begin<R: Threads, J: Job>(&self, rt: &R, call: u64, job: J) -> Start<Ticket<J>>
        ensures promise { KeepsPromise J.promises job result }
        ensures fails { CanStart self.now call result }
    {
        match self {
            Way::Threads => match Running::start(rt, job) {
                Some(running) => Start::Started(Begun::Running(running)),
                None => Start::Failed,
            },
            Way::Failing(fails) if fails.as_slice().contains(&call) => Start::Failed,
            Way::AtOnce | Way::Failing(_) => Start::Started(Begun::Done(job.run())),
        }
    }
}

/// Starts jobs. Contracts see how it runs them, and how many calls, starts and faults there were,
/// each up to `u64::MAX`.
///
/// Trusted: that the system runs the threads.
#[derive(Drop)]
pub struct Spawner {
    way: Way,
    calls: u64,
    starts: u64,
    faults: u64,
}

impl Model for Spawner {
    ghost use Rattle.shop_edges.specs.Starts.{Spawning};

    ghost Value = { Spawning };

    ghost view = { λ s. record { way = s.way; calls = s.calls; starts = s.starts; faults = s.faults } };
}

impl Spawner {
    ghost use Rattle.std.specs.Prelude.{◌≡◌};
    ghost use Rattle.shop_edges.specs.Causes.{count_up};
    ghost use Rattle.shop_edges.specs.Starts.{KeepsPromise, CanStart, StartCause, after_start};

    pub fn new(way: Way) -> Spawner
        ensures { result ≡ record { way = way; calls = 0; starts = 0; faults = 0 } }
    {
        Spawner {
            way,
            calls: 0,
            starts: 0,
            faults: 0,
        }
    }

    /// Starts a job. Where jobs are run at once, it waits for the job's end.
    pub fn start<R: Threads, J: Job>(&mut self, rt: &R, job: J) -> Start<Ticket<J>>
        ensures promise { KeepsPromise J.promises job result }
        ensures fails { CanStart self.old.way (count_up self.old.calls) result }
        ensures counts { self.new ≡ after_start result self.old }
        ensures cause { StartCause self.old.faults self.new.faults result }
    {
        self.calls = self.calls.saturating_add(1);
        let start = self.way.begin(rt, self.calls, job);
        match start {
            Start::Started(_) => self.starts = self.starts.saturating_add(1),
            Start::Failed => self.faults = self.faults.saturating_add(1),
        }
        start
    }

    /// How many jobs were started.
    pub fn starts(&self) -> u64
        ensures { result ≡ self.now.starts }
    {
        self.starts
    }

    /// How many starts have failed.
    pub fn faults(&self) -> u64
        ensures { result ≡ self.now.faults }
    {
        self.faults
    }
}
