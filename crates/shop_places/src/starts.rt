ghost use Rattle.std.specs.Prelude.{◌≡◌, ◌≤◌, ◌<◌, length, set, IsTrue, IsFalse, IfSome};
ghost use Rattle.shop_edges.specs.Causes.{Rose, count_up};
ghost use Rattle.shop_places.specs.Places as spec;
ghost use Rattle.shop_places.specs.Spots.{IsFree, IsFreeAt, put_free};

use crate::places::put;
use crate::{JobOf, Serving, Spot, SpotOf, Station};
use crossbeam_channel::Sender;
use shop_edges::{Spawner, Start};
use std::alloc::Global;
use std::sync::Wait;
use std::thread::Threads;

/// The station of a place that has one.
pub(crate) fn station_of<S: Drop, T: Drop>(spot: Spot<S, T>) -> S
    requires { IsFree spot }
    ensures { spot ≡ put_free result }
{
    match spot {
        Spot::Free(station) => station,
        other => {
            drop(other);
            unreachable!()
        }
    }
}

/// The job of a link at a place that has a station, which it takes. Where memory runs out, the station and the link are
/// lost.
pub(crate) fn job_at<R: Wait + Clone, S: Station<Handle = R>>(
    rt: &R,
    spots: &mut Vec<SpotOf<S>>,
    at: usize,
    free: &Sender<usize, Global>,
    source: S::In,
    sink: S::Out,
) -> Option<JobOf<S>>
    requires { IsFreeAt spots.old.items at }
    ensures taken { spots.new.items ≡ set spots.old.items at Spot.Gone }
    ensures job { IfSome result (spec.IsJobAt spots.old.items at source sink) }
{
    let station = station_of(put(spots, at, Spot::Gone));
    let Ok(rt) = rt.clone() else {
        return None;
    };
    let Ok(free) = free.clone() else {
        return None;
    };
    Some(Serving {
        rt,
        station,
        source,
        sink,
        place: at,
        free,
    })
}

/// Starts the job of a place, for the link of this number. Where it is not started, the station and the link are lost.
pub(crate) fn start_at<R: Threads, S: Station>(
    rt: &R,
    spawner: &mut Spawner,
    spots: &mut Vec<SpotOf<S>>,
    at: usize,
    link: u64,
    job: JobOf<S>,
) -> bool
    requires { at < length spots.old.items }
    ensures started { IsTrue result → spec.StartsAt S.serves at link job spots.old.items spots.new.items }
    ensures kept { IsFalse result → spots.new.items ≡ spots.old.items }
    ensures starts { IsTrue result → spawner.new.starts ≡ count_up spawner.old.starts }
    ensures failed { IsFalse result → Rose spawner.old.faults spawner.new.faults }
    ensures later { spawner.old.faults ≤ spawner.new.faults }
{
    match spawner.start(rt, job) {
        Start::Started(ticket) => {
            drop(put(spots, at, Spot::Busy(link, ticket)));
            true
        }
        Start::Failed => false,
    }
}
