use shop_browsers::Mix;
use shop_drive::Tally;
use shop_edges::Clock;
use shop_model::Scale;
use shop_search::Index;
use shop_turn::Desk;
use std::alloc::Global;
use std::marker::Model;
use std::sync::{Arc, Wait};

/// Whose worker it is, of a shop of this seed and scale, and what its browser asks for, and how often.
#[derive(Clone, Copy)]
pub struct Errand {
    pub number: u32,
    pub seed: u32,
    pub scale: Scale,
    pub mix: Mix,
    pub steps: u32,
}

/// What a worker is to do at its desk: it serves a browser that asks so many times. The worker, the browser and the
/// gateway that takes its payments have the caller's number, and are made in the job.
#[derive(Drop)]
pub struct Task<R: Wait + Drop, C: Clock + Drop> {
    pub(crate) alloc: Global,
    pub(crate) desk: Desk<R>,
    pub(crate) index: Arc<Index, Global>,
    pub(crate) clock: C,
    pub(crate) errand: Errand,
}

impl<R: Wait + Drop, C: Clock + Drop> Model for Task<R, C> {
    ghost use Rattle.std.specs.Arc.{arc_value};
    ghost use Rattle.shop_engine.specs.Posts.{IsPosted};
    ghost use Rattle.shop_turn.specs.Desks.{seat_of};
    ghost use Rattle.shop_tasks.specs.TaskValues.{TaskValue, caller_of, task_of};

    ghost Value = { TaskValue C };

    ghost view = { λ t. task_of t.desk t.clock t.errand };

    ghost invariant = { λ t. IsPosted (seat_of t.desk) (arc_value t.index) (caller_of t.errand) };
}

/// A desk whose worker has served its browser, and how that went.
#[derive(Drop)]
pub struct Raced<R: Wait + Drop> {
    pub(crate) desk: Desk<R>,
    pub(crate) tally: Tally,
}

impl<R: Wait + Drop> Model for Raced<R> {
    ghost use Rattle.shop_tasks.specs.TaskValues.{RacedValue};

    ghost Value = { RacedValue };

    ghost view = { λ r. record { desk = r.desk; tally = r.tally } };
}
