use shop_engine::Worker;
use shop_gateway::Emulator;
use shop_turn::Desk;
use std::alloc::Global;
use std::marker::{Model, PhantomData};
use std::sync::Wait;

/// Serves links one after another, each as a connection that is polled: a worker at a desk, the clock that it reads, and
/// a gateway of its own.
#[derive(Drop)]
pub struct PolledStation<R: Wait + Drop, S, K, C> {
    pub(crate) alloc: Global,
    pub(crate) worker: Worker<Desk<R>>,
    pub(crate) clock: C,
    pub(crate) gateway: Emulator,
    /// The two sides of a link.
    pub(crate) link: PhantomData<(S, K)>,
}

impl<R: Wait + Drop, S, K, C> Model for PolledStation<R, S, K, C> {
    ghost use Rattle.std.specs.Prelude.{[]};
    ghost use Rattle.shop_tasks.specs.StationValues.{StationValue, station_of};
    ghost use Rattle.shop_tasks.specs.declared.till.Till.TheVariants.{Own};

    ghost Value = { StationValue C S K };

    ghost view = { λ s. station_of (record s.worker { reply = [] }) s.clock (Own s.gateway) };
}

impl<R: Wait + Drop, S, K, C: Drop> PolledStation<R, S, K, C> {
    ghost use Rattle.std.specs.Prelude.{◌≡◌, []};
    ghost use Rattle.shop_tasks.specs.StationValues.{station_of};
    ghost use Rattle.shop_tasks.specs.declared.till.Till.TheVariants.{Own};

    /// A station whose worker has served no link, or some. Its gateway's ledger is empty.
    pub fn new(alloc: Global, worker: Worker<Desk<R>>, clock: C) -> PolledStation<R, S, K, C>
        ensures { result ≡ station_of (record worker { reply = [] }) clock (Own (record { ledger = []; answers = [] })) }
    {
        PolledStation {
            alloc,
            worker,
            clock,
            gateway: Emulator::new(alloc),
            link: PhantomData,
        }
    }

    /// The worker.
    pub fn into_worker(self) -> Worker<Desk<R>>
        ensures { record result { reply = [] } ≡ self.worker }
    {
        let PolledStation {
            alloc: _,
            worker,
            clock: _,
            gateway: _,
            link: _,
        } = self;
        worker
    }
}
