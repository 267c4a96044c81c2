//! The workers of a shop's callers.
ghost use Rattle.std.specs.Prelude.{◌≡◌, ◌+◌, ◌≤◌, length, IfOk};
ghost use Rattle.std.specs.Arc.{arc_value};
ghost use Rattle.shop_engine.specs.Posts.{IsPosted, first_state};
ghost use Rattle.shop_model.specs.lists.Catalogues.{opened};
ghost use Rattle.shop_model.specs.population.Population.{populated};
ghost use Rattle.shop_turn.specs.Desks.{seat_of};
ghost use Rattle.shop_words.specs.Polled.{IsPollable};
ghost use Rattle.shop_app.specs.NewShops.{AreNewDesks, caller_of};
ghost use Rattle.shop_poll.specs.Workers as spec;

use shop_app::open_shop;
use shop_engine::Worker;
use shop_search::Index;
use shop_text::Memory;
use shop_turn::Desk;
use shop_words::{Poll, Session};
use std::alloc::Global;
use std::sync::{Arc, Wait};

/// The worker of a caller at its desk.
fn worker_of<R: Wait + Drop>(
    alloc: Global,
    asked: &Poll,
    desk: Desk<R>,
    number: u32,
    index: Arc<Index, Global>,
) -> Result<Worker<Desk<R>>, Memory>
    requires { IsPosted (seat_of desk) (arc_value index) (caller_of asked.now.shop number) }
    ensures { IfOk result (λ worker. worker ≡ first_state desk (caller_of asked.now.shop number)) }
{
    let Session {
        scale,
        seed,
        limit: _,
    } = asked.shop;
    Worker::new(alloc, desk, number, seed, scale, index)
}

/// The workers of the callers at these desks, numbered from 1.
fn workers_of<R: Wait + Drop>(
    alloc: Global,
    asked: &Poll,
    desks: Vec<Desk<R>>,
    index: &Arc<Index, Global>,
) -> Result<Vec<Worker<Desk<R>>>, Memory>
    requires desks { AreNewDesks asked.now.shop (asked.now.lanes + 1) desks.items }
    requires few { length desks.items ≤ 16 }
    requires index { arc_value index.now ≡ opened (populated asked.now.shop.seed asked.now.shop.scale) }
    ensures { IfOk result (λ workers. spec.AreFirstWorkers asked.now.shop desks.items workers.items) }
{
    let mut workers = Vec::new(alloc);
    let mut number = 0;
    for desk in desks {
        number += 1;
        let index = Arc::try_clone(index)?;
        let worker = worker_of(alloc, asked, desk, number, index)?;
        workers.push(worker)?;
    }
    Ok(workers)
}

/// A desk that is nobody's, and the workers of the callers at the others.
pub(crate) fn open_workers<R: Wait + Clone + Drop>(
    rt: &R,
    alloc: Global,
    asked: &Poll,
) -> Result<(Desk<R>, Vec<Worker<Desk<R>>>), Memory>
    requires { IsPollable asked.now }
    ensures { IfOk result (λ opened. spec.OpensWorkers asked.now.shop asked.now.lanes opened.0 opened.1.items) }
{
    let (mut desks, index) = open_shop(rt, alloc, asked.shop, asked.lanes + 1)?;
    let Some(own) = desks.pop() else {
        unreachable!()
    };
    let workers = workers_of(alloc, asked, desks, &index)?;
    Ok((own, workers))
}
