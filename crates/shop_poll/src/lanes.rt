ghost use Rattle.std.specs.Prelude.{◌<◌, length, IfOk};
ghost use Rattle.shop_lanes.specs.Landings.{CanPoll};
ghost use Rattle.shop_poll.specs.Lanes as spec;

use crate::PolledStation;
use shop_edges::Clock;
use shop_engine::Worker;
use shop_lanes::{Berth, Lanes, LanesOf, PolledListener};
use shop_polled::{PolledSink, PolledSource};
use shop_text::Memory;
use shop_turn::Desk;
use std::alloc::Global;
use std::sync::Wait;

/// The lanes of workers at desks, for the links of such a listener.
pub type ShopLanes<R, L, S, K, C> = LanesOf<L, PolledStation<R, S, K, C>>;

/// A station for each worker, in their order, each with a twin of the clock.
fn stations_of<R: Wait + Drop, S: PolledSource + Drop, K: PolledSink + Drop, C: Clock + Drop>(
    alloc: Global,
    workers: Vec<Worker<Desk<R>>>,
    clock: &C,
) -> Result<Vec<PolledStation<R, S, K, C>>, Memory>
    ensures { IfOk result (λ stations. spec.AreStations C.readings (C.readings clock.now) workers.items stations.items) }
{
    let mut stations = Vec::new(alloc);
    for worker in workers {
        let Some(clock) = clock.twin() else {
            return Err(Memory);
        };
        stations.push(PolledStation::new(alloc, worker, clock))?;
    }
    Ok(stations)
}

/// Lanes at which these workers are to serve so many links of the listener, each with a twin of the clock and a gateway
/// of its own, whose ledger is empty.
pub fn lanes_over<
    R: Wait + Drop,
    S: PolledSource + Drop,
    K: PolledSink + Drop,
    L: PolledListener<In = S, Out = K> + Drop,
    C: Clock + Drop,
>(
    alloc: Global,
    listener: L,
    links: u32,
    workers: Vec<Worker<Desk<R>>>,
    clock: &C,
) -> Result<ShopLanes<R, L, S, K, C>, Memory>
    requires { 0 < length workers.items }
    ensures can_poll { IfOk result (CanPoll ⟦<PolledStation<R, S, K, C> as Berth>⟧.can_poll) }
    ensures begun { IfOk result (spec.BeginWith (⟦<PolledStation<R, S, K, C> as Berth>⟧, L.PolledListener) C.readings (C.readings clock.now) workers.items listener links) }
{
    let stations = stations_of(alloc, workers, clock)?;
    Lanes::new(alloc, listener, links, stations)
}
