//! Two callers of one shop, of the smallest scale, with seed 0. What has a desk comes last, so that no refusal has it to
//! let go.
ghost use Rattle.std.specs.Prelude.{◌≡◌, IfOk};
ghost use Rattle.std.specs.Arc.{arc_value};
ghost use Rattle.shop_model.specs.lists.Catalogues.{opened};
ghost use Rattle.shop_model.specs.population.Population.{populated};
ghost use Rattle.shop_engine.specs.Posts.{IsPosted};
ghost use Rattle.shop_turn.specs.Desks.{IsOneShop, seat_of};

use crate::interrupted::Interrupted;
use shop_book::Book;
use shop_engine::Worker;
use shop_model::Scale;
use shop_populate::populate;
use shop_search::Index;
use shop_text::Memory;
use shop_turn::{Desk, Shop};
use std::alloc::Global;
use std::marker::Model;
use std::sync::{Arc, Wait};

/// Their desks.
#[derive(Drop)]
struct Desks<R: Wait + Drop> {
    first: Desk<R>,
    second: Desk<R>,
    ghost one_shop: { IsOneShop first second },
}

/// A caller at its desk, who has no worker yet: a worker can't be sent to a thread.
#[derive(Drop)]
pub(crate) struct Caller<R: Wait + Drop> {
    desk: Desk<R>,
    index: Arc<Index, Global>,
    scale: Scale,
    number: u32,
}

impl<R: Wait + Drop> Model for Caller<R> {
    ghost use Rattle.std.specs.Arc.{arc_value};
    ghost use Rattle.shop_engine.specs.Posts.{IsPosted};
    ghost use Rattle.shop_turn.specs.Desks.{DeskValue, seat_of};

    ghost Value = { DeskValue };

    ghost view = { λ c. c.desk };

    ghost invariant = { λ c. IsPosted (seat_of c.desk) (arc_value c.index) (record { number = c.number; seed = 0; scale = c.scale }) };
}

/// Both callers.
#[derive(Drop)]
pub(crate) struct Callers<R: Wait + Drop> {
    pub(crate) first: Caller<R>,
    pub(crate) second: Caller<R>,
    ghost one_shop: { IsOneShop first second },
}

/// The index of what the shop opens with.
#[tactic(auto, using(shop_model::proofs::cited::Opened::opened_all))]
fn index_of(alloc: Global, scale: &Scale) -> Result<Index, Memory>
    ensures { IfOk result (λ index. index ≡ opened (populated 0 scale.now)) }
{
    let tables = populate(alloc, 0, scale)?;
    Index::build(alloc, &tables)
}

fn open_desks<R: Wait + Clone + Drop>(
    rt: &R,
    alloc: Global,
    scale: &Scale,
) -> Result<Desks<R>, Memory>
    ensures first { IfOk result (λ d. IsPosted (seat_of d.first) (opened (populated 0 scale.now)) (record { number = 1; seed = 0; scale = scale.now })) }
    ensures second { IfOk result (λ d. IsPosted (seat_of d.second) (opened (populated 0 scale.now)) (record { number = 2; seed = 0; scale = scale.now })) }
{
    let tables = populate(alloc, 0, scale)?;
    let book = Book::open(alloc, tables, 10_000)?;
    let mut desks = Shop::open(rt, alloc, book, 2)?;
    let Some(second) = desks.pop() else {
        return Err(Memory);
    };
    let Some(first) = desks.pop() else {
        return Err(Memory);
    };
    Ok(Desks { first, second })
}

impl<R: Wait + Drop> Caller<R> {
    ghost use Rattle.std.specs.Prelude.{◌≡◌, IfOk};

    /// The caller's worker.
    pub(crate) fn worker(self, alloc: Global) -> Result<Worker<Desk<R>>, Memory>
        ensures { IfOk result (λ worker. worker.store ≡ self) }
    {
        let Caller {
            desk,
            index,
            scale,
            number,
        } = self;
        Worker::new(alloc, desk, number, 0, scale, index)
    }
}

pub(crate) fn open_callers<R: Wait + Clone + Drop>(
    rt: &R,
    alloc: Global,
) -> Result<Callers<R>, Memory> {
    let scale = Scale::desk();
    let index = Arc::new(alloc, index_of(alloc, &scale)?)?;
    let shared = Arc::try_clone(&index)?;
    let Desks { first, second } = open_desks(rt, alloc, &scale)?;
    Ok(Callers {
        first: Caller {
            desk: first,
            index: shared,
            scale,
            number: 1,
        },
        second: Caller {
            desk: second,
            index,
            scale,
            number: 2,
        },
    })
}

/// The worker of the first caller, before whose second settle the other one asks for this.
pub(crate) fn open_interrupted<R: Wait + Clone + Drop>(
    rt: &R,
    alloc: Global,
    asks: &'static [u8],
) -> Result<Worker<Interrupted<R>>, Memory> {
    let scale = Scale::desk();
    let index = Arc::new(alloc, index_of(alloc, &scale)?)?;
    let shared = Arc::try_clone(&index)?;
    let Desks { first, second } = open_desks(rt, alloc, &scale)?;
    let other = Worker::new(alloc, second, 2, 0, scale, shared)?;
    let store = Interrupted::new(alloc, first, other, asks);
    Worker::new(alloc, store, 1, 0, scale, index)
}
