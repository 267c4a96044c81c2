ghost use Rattle.std.specs.Prelude.{◌≡◌, ◌≢◌, ◌+◌, ◌≤◌, [], All, Err, IfOk, OnErr, OnOk, length, map};
ghost use Rattle.std.specs.Vec.{vec_len, vec_capacity};
ghost use Rattle.shop_edges.specs.Causes.{Rose, count_up};
ghost use Rattle.shop_places.specs.Counts.{counted};
ghost use Rattle.shop_places.specs.Listening.{Gave, GaveNone, seen_by};
ghost use Rattle.shop_places.specs.Outcomes as spec;
ghost use Rattle.shop_places.specs.Spots.{IsFree, put_free};

use crate::places::{free_place, join_all};
use crate::starts::{job_at, start_at, station_of};
use crate::{Spot, SpotOf, Station};
use crossbeam_channel::{Receiver, Sender, bounded};
use shop_edges::{Linked, Listener, Spawner};
use std::alloc::{AllocError, Global};
use std::sync::Wait;
use std::thread::Threads;

/// Why no more links are served.
#[derive(Clone, Copy, Debug, PartialEq, Eq)]
pub enum Stop {
    /// No link was accepted: the listener failed.
    NoLink,
    /// A job was not started: the spawner failed.
    NotStarted,
    /// Memory ran out.
    Memory,
}

/// The ends of the channel over which jobs tell that their places are free.
#[derive(Drop)]
pub(crate) struct Channel {
    free: Sender<usize, Global>,
    told: Receiver<usize, Global>,
}

/// The link that comes next.
fn accepted<L: Listener>(listener: &mut L) -> Result<(L::In, L::Out), Stop>
    ensures ok { let seen = seen_by L.links L.faults L.accepted L.dialled in
        IfOk result (λ link. Gave link (seen listener.old) (seen listener.new)) }
    ensures err { let seen = seen_by L.links L.faults L.accepted L.dialled in
        OnErr result (GaveNone (seen listener.old) (seen listener.new)) }
    ensures no_link { result ≡ Err Stop.NoLink → Rose (L.faults listener.old) (L.faults listener.new) }
    ensures no_start { result ≢ Err Stop.NotStarted }
{
    match listener.accept() {
        Linked::Linked(source, sink) => Ok((source, sink)),
        Linked::Failed => Err(Stop::NoLink),
        Linked::Memory => Err(Stop::Memory),
    }
}

/// Accepts a link, waits for a place, and starts the job that serves the link there.
fn serve_one<
    R: Threads + Wait + Clone,
    S: Station<Handle = R>,
    L: Listener<In = S::In, Out = S::Out>,
>(
    rt: &R,
    spawner: &mut Spawner,
    listener: &mut L,
    spots: &mut Vec<SpotOf<S>>,
    channel: &Channel,
    link: u64,
) -> Result<(), Stop>
    ensures served { let seen = seen_by L.links L.faults L.accepted L.dialled in
        spec.ServesOne S.serves link spots.old.items spots.new.items (seen listener.old) (seen listener.new) result }
    ensures starts { OnOk result (spawner.new.starts ≡ count_up spawner.old.starts) }
    ensures later { spawner.old.faults ≤ spawner.new.faults }
    ensures no_link { result ≡ Err Stop.NoLink → Rose (L.faults listener.old) (L.faults listener.new) }
    ensures not_started { result ≡ Err Stop.NotStarted → Rose spawner.old.faults spawner.new.faults }
{
    let (source, sink) = accepted(listener)?;
    let at = free_place(rt, spots, listener, &channel.told);
    let Some(job) = job_at(rt, spots, at, &channel.free, source, sink) else {
        return Err(Stop::Memory);
    };
    if start_at(rt, spawner, spots, at, link, job) {
        Ok(())
    } else {
        Err(Stop::NotStarted)
    }
}

/// Has so many links served, the first under number 1.
fn serve_links<
    R: Threads + Wait + Clone,
    S: Station<Handle = R>,
    L: Listener<In = S::In, Out = S::Out>,
>(
    rt: &R,
    spawner: &mut Spawner,
    listener: &mut L,
    spots: &mut Vec<SpotOf<S>>,
    channel: &Channel,
    links: u32,
) -> Result<(), Stop>
    ensures served { let seen = seen_by L.links L.faults L.accepted L.dialled in
        spec.ServesLinks S.serves links spots.old.items spots.new.items (seen listener.old) (seen listener.new) result }
    ensures starts { OnOk result (spawner.new.starts ≡ counted links spawner.old.starts) }
    ensures no_link { result ≡ Err Stop.NoLink → Rose (L.faults listener.old) (L.faults listener.new) }
    ensures not_started { result ≡ Err Stop.NotStarted → Rose spawner.old.faults spawner.new.faults }
{
    for before in 0..links {
        let link = u64::from(before) + 1;
        serve_one(rt, spawner, listener, spots, channel, link)?;
    }
    Ok(())
}

/// A place for each station, in their order.
fn places_of<S: Drop, T: Drop>(
    alloc: Global,
    stations: Vec<S>,
) -> Result<Vec<Spot<S, T>>, AllocError>
    ensures { IfOk result (λ spots. spots.items ≡ map put_free stations.items) }
{
    stations
        .into_iter()
        .map(|station| Spot::Free(station))
        .collect(alloc)
}

/// The stations of places, in their order, in a list that has room for them.
fn stations_of<S: Drop, T: Drop>(spots: Vec<Spot<S, T>>, room: Vec<S>) -> Vec<S>
    requires free { All IsFree spots.items }
    requires none { room.items ≡ [] }
    requires room { vec_len room + length spots.items ≤ vec_capacity room }
    ensures { spots.items ≡ map put_free result.items }
{
    let mut stations = room;
    for spot in spots {
        stations.push_reserved(station_of(spot));
    }
    stations
}

/// Has so many links of a listener served, each by the station of a place in a job that is started for it, and gives the
/// stations back.
///
/// A link that was accepted goes to the first place that has a station. Where none has, it waits until a job tells that
/// it is done, and joins that one. In the end the other jobs are joined in the order of their places. Each link is given
/// back as its job is joined. Where an accept or a start fails, or memory runs out, no more links are accepted; the jobs
/// that were started are joined all the same. With no station it waits for ever, unless there are no links to be served.
pub fn serve<
    R: Threads + Wait + Clone + 'static,
    S: Station<Handle = R>,
    L: Listener<In = S::In, Out = S::Out>,
>(
    rt: &R,
    alloc: Global,
    spawner: &mut Spawner,
    listener: &mut L,
    stations: Vec<S>,
    links: u32,
) -> Result<Vec<S>, Stop>
    ensures served { let seen = seen_by L.links L.faults L.accepted L.dialled in
        spec.Outcome S.serves links stations.items (seen listener.old) (seen listener.new) result }
    ensures starts { OnOk result (spawner.new.starts ≡ counted links spawner.old.starts) }
    ensures no_link { result ≡ Err Stop.NoLink → Rose (L.faults listener.old) (L.faults listener.new) }
    ensures not_started { result ≡ Err Stop.NotStarted → Rose spawner.old.faults spawner.new.faults }
{
    let count = stations.len();
    let Ok((free, told)) = bounded(alloc, count) else {
        return Err(Stop::Memory);
    };
    let Ok(room) = Vec::with_capacity(alloc, count) else {
        return Err(Stop::Memory);
    };
    let Ok(mut spots) = places_of(alloc, stations) else {
        return Err(Stop::Memory);
    };
    let channel = Channel { free, told };
    let served = serve_links(rt, spawner, listener, &mut spots, &channel, links);
    join_all(rt, &mut spots, listener);
    match served {
        Ok(()) => Ok(stations_of(spots, room)),
        Err(stop) => Err(stop),
    }
}
