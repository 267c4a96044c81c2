//! The command `race`.
ghost use Rattle.std.specs.Prelude.{◌≡◌, ◌+◌, ◌≤◌, length, IfOk};
ghost use Rattle.std.specs.Arc.{arc_value};
ghost use Rattle.shop_engine.specs.Posts.{IsPosted};
ghost use Rattle.shop_model.specs.lists.Catalogues.{opened};
ghost use Rattle.shop_model.specs.population.Population.{populated};
ghost use Rattle.shop_turn.specs.Desks.{seat_of};
ghost use Rattle.shop_app.specs.RaceEnds.{TellsOfRan};
ghost use Rattle.shop_app.specs.NewShops.{AreNewDesks, caller_of};
ghost use Rattle.shop_app.specs.Racing as spec;
ghost use Rattle.shop_app.specs.Shared.{Tells};

use crate::Status;
use crate::shops::open_shop;
use crate::summary::race_lines;
use shop_edges::{Clock, Spawner};
use shop_search::Index;
use shop_tasks::{Errand, Ran, Task, race};
use shop_text::{Memory, Text};
use shop_turn::Desk;
use shop_words::{Race, Session};
use std::alloc::Global;
use std::sync::{Arc, Wait};
use std::thread::Threads;

/// The task of a caller at its desk.
fn task_of<R: Wait + Drop, C: Clock + Drop>(
    alloc: Global,
    asked: &Race,
    desk: Desk<R>,
    number: u32,
    index: Arc<Index, Global>,
    clock: C,
) -> Task<R, C>
    requires { IsPosted (seat_of desk) (arc_value index) (caller_of asked.now.shop number) }
    ensures { result ≡ record { desk = desk; clock = clock; caller = caller_of asked.now.shop number; mix = asked.now.mix; steps = asked.now.steps } }
{
    let Session {
        scale,
        seed,
        limit: _,
    } = asked.shop;
    let errand = Errand {
        number,
        seed,
        scale,
        mix: asked.mix,
        steps: asked.steps,
    };
    Task::new(alloc, desk, index, clock, errand)
}

/// The tasks of the callers at these desks, numbered from 1.
fn tasks_of<R: Wait + Drop, C: Clock + Drop>(
    alloc: Global,
    asked: &Race,
    desks: Vec<Desk<R>>,
    index: &Arc<Index, Global>,
    clock: &C,
) -> Result<Vec<Task<R, C>>, Memory>
    requires desks { AreNewDesks asked.now.shop (asked.now.workers + 1) desks.items }
    requires few { length desks.items ≤ 16 }
    requires index { arc_value index.now ≡ opened (populated asked.now.shop.seed asked.now.shop.scale) }
    ensures { IfOk result (λ tasks. spec.AreFirstTasks C.readings asked.now (C.readings clock.now) desks.items tasks.items) }
{
    let mut tasks = Vec::new(alloc);
    let mut number = 0;
    for desk in desks {
        number += 1;
        let index = Arc::try_clone(index)?;
        let Some(clock) = clock.twin() else {
            return Err(Memory);
        };
        tasks.push(task_of(alloc, asked, desk, number, index, clock))?;
    }
    Ok(tasks)
}

/// A desk that is nobody's, and the tasks of the callers at the others.
fn open_race<R: Wait + Clone + Drop, C: Clock + Drop>(
    rt: &R,
    alloc: Global,
    asked: &Race,
    clock: &C,
) -> Result<(Desk<R>, Vec<Task<R, C>>), Memory>
    requires { spec.IsWithin asked.now }
    ensures { IfOk result (λ opened. spec.OpensRace C.readings asked.now (C.readings clock.now) opened.0 opened.1.items) }
{
    let (mut desks, index) = open_shop(rt, alloc, asked.shop, asked.workers + 1)?;
    let Some(own) = desks.pop() else {
        unreachable!()
    };
    let tasks = tasks_of(alloc, asked, desks, &index, clock)?;
    Ok((own, tasks))
}

/// The lines that tell what came of tasks, or why there are none.
fn lines_of(alloc: Global, ran: &Ran, workers: u32) -> Result<Text, Status>
    ensures { TellsOfRan workers ran.now result }
{
    match ran {
        Ran::Done(book) => match race_lines(alloc, book, workers) {
            Ok(lines) => Ok(lines),
            Err(Memory) => Err(Status::Memory),
        },
        Ran::NotStarted(_) => Err(Status::WorkerFault),
        Ran::Memory => Err(Status::Memory),
    }
}

/// Has the browsers take their turns; the lines that tell what came of it, or why there are none.
pub(crate) fn race_browsers<
    R: Threads + Wait + Clone + Drop + Send + 'static,
    C: Clock + Drop + Send + 'static,
>(rt: &R, alloc: Global, asked: &Race, spawner: &mut Spawner, clock: &C) -> Result<Text, Status>
    requires { spec.IsWithin asked.now }
    ensures { Tells (spec.RacedTo asked.now (C.readings clock.now)) asked.now.workers ⊥ spawner.old spawner.new result }
{
    let Ok((own, tasks)) = open_race(rt, alloc, asked, clock) else {
        return Err(Status::Memory);
    };
    let ran = race(rt, alloc, spawner, own, tasks);
    lines_of(alloc, &ran, asked.workers)
}
