ghost use Rattle.std.specs.Prelude.{◌≡◌, IfOk};
ghost use Rattle.std.specs.Arc.{arc_value};
ghost use Rattle.shop_engine.specs.Posts.{IsPosted};
ghost use Rattle.shop_turn.specs.Desks.{seat_of};
ghost use Rattle.shop_tasks.specs.TaskValues.{caller_of, task_of};
ghost use Rattle.shop_tasks.specs.Tasks as spec;

use crate::{Errand, Raced, Task};
use shop_browsers::Browser;
use shop_drive::drive;
use shop_edges::{Clock, Job};
use shop_engine::Worker;
use shop_gateway::Emulator;
use shop_search::Index;
use shop_text::Memory;
use shop_turn::Desk;
use std::alloc::Global;
use std::sync::{Arc, Wait};

impl<R: Wait + Drop, C: Clock + Drop> Task<R, C> {
    /// The caller's number, and the seed and the scale of the shop, are the desk's and the index's.
    pub fn new(
        alloc: Global,
        desk: Desk<R>,
        index: Arc<Index, Global>,
        clock: C,
        errand: Errand,
    ) -> Task<R, C>
        requires { IsPosted (seat_of desk) (arc_value index) (caller_of errand) }
        ensures { result ≡ task_of desk clock errand }
    {
        Task {
            alloc,
            desk,
            index,
            clock,
            errand,
        }
    }
}

impl<R: Wait + Drop + Send + 'static, C: Clock + Drop + Send + 'static> Job for Task<R, C> {
    ghost use Rattle.shop_tasks.specs.Tasks.{Promises};

    type Handle = R;

    type Out = Result<Raced<R>, Memory>;

    ghost promises = { Promises C.readings };

    fn run(self) -> Result<Raced<R>, Memory> {
        let Task {
            alloc,
            desk,
            index,
            mut clock,
            errand,
        } = self;
        let Errand {
            number,
            seed,
            scale,
            mix,
            steps,
        } = errand;
        let worker = Worker::new(alloc, desk, number, seed, scale, index)?;
        let browser = Browser::new(seed, number, mix, &scale);
        drive_one(alloc, worker, &mut clock, browser, steps)
    }
}

/// Has the browser ask the worker, whose payments a gateway of its own takes.
fn drive_one<R: Wait + Drop, C: Clock>(
    alloc: Global,
    mut worker: Worker<Desk<R>>,
    clock: &mut C,
    browser: Browser,
    steps: u32,
) -> Result<Raced<R>, Memory>
    ensures { IfOk result (spec.Races (spec.stage_of worker (C.readings clock.old) browser) steps) }
{
    let mut gateway = Emulator::new(alloc);
    let mut browsers = [browser];
    let tally = drive(
        alloc,
        &mut worker,
        clock,
        &mut gateway,
        &mut browsers,
        steps,
    )?;
    // What the gateway has answered are verdicts of its own.
    let _ = gateway.answers();
    Ok(Raced {
        desk: worker.into_store(),
        tally,
    })
}
