//! The command `serve`.
ghost use Rattle.std.specs.Prelude.{◌≡◌, ◌+◌, ◌≤◌, length, All, IfErr, IfOk, OnOk};
ghost use Rattle.std.specs.Arc.{arc_value};
ghost use Rattle.shop_engine.specs.Posts.{IsPosted};
ghost use Rattle.shop_model.specs.lists.Catalogues.{opened};
ghost use Rattle.shop_model.specs.population.Population.{populated};
ghost use Rattle.shop_places.specs.Listening.{listening};
ghost use Rattle.shop_tasks.specs.StationValues.{desk_of};
ghost use Rattle.shop_tasks.specs.Tills.{answers_of};
ghost use Rattle.shop_turn.specs.Desks.{IsOneShop, seat_of};
ghost use Rattle.shop_app.specs.NewShops.{AreNewDesks, caller_of};
ghost use Rattle.shop_app.specs.Serving as spec;

use crate::Status;
use crate::shops::open_shop;
use crate::summary::race_lines;
use shop_edges::{Clock, LinkIn, LinkOut, Linked, Listener, Opened, Spawner};
use shop_engine::Worker;
use shop_gateway::{Emulator, Remote};
use shop_places::{Stop, serve};
use shop_search::Index;
use shop_tasks::{Station, Till, close};
use shop_text::{Memory, Text};
use shop_turn::Desk;
use shop_words::{Serve, Session};
use std::alloc::Global;
use std::sync::{Arc, Wait};
use std::thread::Threads;

/// Where a caller's worker will be: its desk, and the index of the shop's items.
#[derive(Drop)]
struct Post<R: Wait + Drop> {
    number: u32,
    desk: Desk<R>,
    index: Arc<Index, Global>,
}

/// A gateway of a worker's own; or one at a port, which is dialled.
fn till_of<I: LinkIn + Drop, O: LinkOut + Drop, L: Listener<In = I, Out = O>>(
    alloc: Global,
    gateway: u16,
    listener: &mut L,
) -> Result<Till<I, O>, Status>
    ensures ok { IfOk result (λ till. answers_of till ≡ spec.told_at_first gateway) }
    ensures dials { OnOk result (spec.Dials (spec.dials gateway 1) (listening L.Listener listener.old) (listening L.Listener listener.new)) }
    ensures err { IfErr result (spec.IsUnlinked (L.faults listener.old) (L.faults listener.new)) }
{
    if gateway == 0 {
        return Ok(Till::Own(Emulator::new(alloc)));
    }
    match listener.dial(gateway) {
        Linked::Linked(source, sink) => match Remote::new(alloc, source, sink) {
            Ok(remote) => Ok(Till::Dialled(remote)),
            Err(Memory) => Err(Status::Memory),
        },
        Linked::Failed => Err(Status::NetworkFault),
        Linked::Memory => Err(Status::Memory),
    }
}

/// The station of a worker at this post.
fn station_at<
    R: Wait + Drop,
    I: LinkIn + Drop,
    O: LinkOut + Drop,
    L: Listener<In = I, Out = O>,
    C: Clock + Drop,
>(
    alloc: Global,
    asked: &Serve,
    post: Post<R>,
    clock: &C,
    listener: &mut L,
) -> Result<Station<R, I, O, C>, Status>
    requires posted { IsPosted (seat_of post.desk) (arc_value post.index) (caller_of asked.now.shop post.number) }
    ensures ok { IfOk result (spec.IsFirstStation (C.Clock, I.Source, O.Sink) asked.now (C.readings clock.now) post.desk) }
    ensures dials { OnOk result (spec.Dials (spec.dials asked.now.gateway 1) (listening L.Listener listener.old) (listening L.Listener listener.new)) }
    ensures err { IfErr result (spec.IsUnlinked (L.faults listener.old) (L.faults listener.new)) }
{
    let till = till_of(alloc, asked.gateway, listener)?;
    let Some(clock) = clock.twin() else {
        return Err(Status::Memory);
    };
    let Post {
        number,
        desk,
        index,
    } = post;
    let Session {
        scale,
        seed,
        limit: _,
    } = asked.shop;
    match Worker::new(alloc, desk, number, seed, scale, index) {
        Ok(worker) => Ok(Station::new(alloc, worker, clock, till)),
        Err(Memory) => Err(Status::Memory),
    }
}

/// The stations of the callers at these desks, numbered from 1.
fn stations_of<
    R: Wait + Drop,
    I: LinkIn + Drop,
    O: LinkOut + Drop,
    L: Listener<In = I, Out = O>,
    C: Clock + Drop,
>(
    alloc: Global,
    asked: &Serve,
    desks: Vec<Desk<R>>,
    index: &Arc<Index, Global>,
    clock: &C,
    listener: &mut L,
) -> Result<Vec<Station<R, I, O, C>>, Status>
    requires desks { AreNewDesks asked.now.shop (asked.now.workers + 1) desks.items }
    requires few { length desks.items ≤ 16 }
    requires index { arc_value index.now ≡ opened (populated asked.now.shop.seed asked.now.shop.scale) }
    ensures ok { IfOk result (λ stations. spec.AreFirstStations (C.Clock, I.Source, O.Sink) asked.now (C.readings clock.now) desks.items stations.items) }
    ensures dials { OnOk result (spec.Dials (spec.dials asked.now.gateway (length desks.items)) (listening L.Listener listener.old) (listening L.Listener listener.new)) }
    ensures err { IfErr result (spec.IsUnlinked (L.faults listener.old) (L.faults listener.new)) }
{
    let mut stations = Vec::new(alloc);
    let mut number = 0;
    for desk in desks {
        number += 1;
        let Ok(index) = Arc::try_clone(index) else {
            return Err(Status::Memory);
        };
        let post = Post {
            number,
            desk,
            index,
        };
        let station = station_at(alloc, asked, post, clock, listener)?;
        let Ok(()) = stations.push(station) else {
            return Err(Status::Memory);
        };
    }
    Ok(stations)
}

/// A desk that is nobody's, and the stations of the callers at the others, behind an open port.
fn open_stations<
    R: Wait + Clone + Drop,
    I: LinkIn + Drop,
    O: LinkOut + Drop,
    L: Listener<In = I, Out = O>,
    C: Clock + Drop,
>(
    rt: &R,
    alloc: Global,
    asked: &Serve,
    clock: &C,
    listener: &mut L,
) -> Result<(Desk<R>, Vec<Station<R, I, O, C>>), Status>
    requires { spec.IsServable asked.now }
    ensures ok { IfOk result (λ opened. spec.OpensStations (C.Clock, I.Source, O.Sink) asked.now (C.readings clock.now) opened.0 opened.1.items) }
    ensures listens { OnOk result (spec.Listens (spec.dials asked.now.gateway asked.now.workers) (listening L.Listener listener.old) (listening L.Listener listener.new)) }
    ensures err { IfErr result (spec.IsUnlinked (L.faults listener.old) (L.faults listener.new)) }
{
    let Ok((mut desks, index)) = open_shop(rt, alloc, asked.shop, asked.workers + 1) else {
        return Err(Status::Memory);
    };
    let Some(own) = desks.pop() else {
        unreachable!()
    };
    if listener.open(asked.port) == Opened::Failed {
        return Err(Status::NetworkFault);
    }
    let stations = stations_of(alloc, asked, desks, &index, clock, listener)?;
    Ok((own, stations))
}

/// Why no more links were served.
fn status_of(stop: Stop) -> Status
    ensures { result ≡ spec.status_of stop }
{
    match stop {
        Stop::NoLink => Status::NetworkFault,
        Stop::NotStarted => Status::WorkerFault,
        Stop::Memory => Status::Memory,
    }
}

/// The lines that tell what the stations' shop came to, which is closed with a desk that is nobody's.
fn lines_of<R: Wait + Drop, I: LinkIn + Drop, O: LinkOut + Drop, C: Clock + Drop>(
    alloc: Global,
    own: Desk<R>,
    stations: Vec<Station<R, I, O, C>>,
    workers: u32,
) -> Result<Text, Memory>
    requires { All (λ station. IsOneShop own (desk_of station)) stations.items }
    ensures { IfOk result (spec.TellsOfBook workers own stations.items) }
{
    let book = close(alloc, own, stations)?;
    race_lines(alloc, &book, workers)
}

/// Has connections served; the lines that tell what came of it, or why there are none.
pub(crate) fn serve_connections<
    R: Threads + Wait + Clone + Drop + Send + 'static,
    I: LinkIn + Drop + Send + 'static,
    O: LinkOut + Drop + Send + 'static,
    L: Listener<In = I, Out = O>,
    C: Clock + Drop + Send + 'static,
>(
    rt: &R,
    alloc: Global,
    asked: &Serve,
    spawner: &mut Spawner,
    listener: &mut L,
    clock: &C,
) -> Result<Text, Status>
    requires { spec.IsServable asked.now }
    ensures { spec.ServesBy (L.Listener, (C.Clock, I.Source, O.Sink)) asked.now clock.now (spawner.old, listener.old) (spawner.new, listener.new) result }
{
    let (own, stations) = open_stations(rt, alloc, asked, clock, listener)?;
    match serve(rt, alloc, spawner, listener, stations, asked.connections) {
        Ok(stations) => match lines_of(alloc, own, stations, asked.workers) {
            Ok(lines) => Ok(lines),
            Err(Memory) => Err(Status::Memory),
        },
        Err(stop) => Err(status_of(stop)),
    }
}
