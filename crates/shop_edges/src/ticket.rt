use crate::Job;
use std::marker::Model;
use std::snapshot::Snapshot;
use std::thread;
use std::thread::{Promise, PromisedHandle, Threads};

/// Remembers the job of a thread.
#[derive(Drop)]
struct JobOf<J>(Snapshot<J>);

impl<J: Job> Promise<J::Out> for JobOf<J> {
    ghost kept_by = { λ of out. J.promises of.0.value out };
}

/// A thread that runs a job. Contracts see the job.
#[derive(Drop)]
pub struct Running<J: Job> {
    handle: PromisedHandle<J::Out, JobOf<J>>,
}

impl<J: Job> Model for Running<J> {
    ghost Value = { J };

    ghost view = { λ r. r.handle.promise.0.value };
}

impl<J: Job> Running<J> {
    ghost use Rattle.std.specs.Prelude.{◌≡◌, IfSome};

    /// Runs a job in a thread of its own; where none can be made, the job is dropped.
    pub(crate) fn start<R: Threads>(rt: &R, job: J) -> Option<Running<J>>
        ensures { IfSome result (λ running. running ≡ job) }
    {
        let of = JobOf(Snapshot::of(&job));
        match thread::spawn_with(rt, of, move || job.run()) {
            Ok(handle) => Some(Running { handle }),
            Err(_) => None,
        }
    }
}

/// A job that was started: what it gave, or what still runs it.
#[derive(Drop)]
pub enum Begun<R, T> {
    Done(T),
    Running(R),
}

/// What a started job is joined by. One that is let go is never joined: its thread may be cut off
/// at the program's end.
pub type Ticket<J> = Begun<Running<J>, <J as Job>::Out>;

impl<J: Job> Begun<Running<J>, J::Out> {
    ghost use Rattle.shop_edges.specs.Starts.{MayGive};

    /// Waits for the job's end, and hands on what it gave.
    pub fn join<R: Threads>(self, rt: &R) -> J::Out
        ensures { MayGive J.promises self result }
    {
        match self {
            Begun::Done(out) => out,
            Begun::Running(Running { handle }) => handle.join(rt),
        }
    }
}
