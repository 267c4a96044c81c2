ghost use Rattle.std.specs.Prelude.{◌≡◌, ◌<◌, All, length, get_or, set, IfSome};
ghost use Rattle.shop_places.specs.Listening.{seen_by};
ghost use Rattle.shop_places.specs.Places as spec;
ghost use Rattle.shop_places.specs.Spots.{IsFreeAt, IsIdle};

use crate::{JobOf, Served, Spot, SpotOf, Station};
use crossbeam_channel::Receiver;
use shop_edges::{Listener, Ticket};
use std::alloc::Global;
use std::mem;
use std::sync::Wait;
use std::thread::Threads;

/// Puts something else into a place, and gives what was there.
pub(crate) fn put<X>(spots: &mut Vec<X>, at: usize, spot: X) -> X
    requires { at < length spots.old.items }
    ensures value { (other : X) → result ≡ get_or spots.old.items at other }
    ensures after { spots.new.items ≡ set spots.old.items at spot }
{
    mem::replace(&mut spots[at], spot)
}

/// Joins a job and gives its link back; its station is left.
fn finish<R: Threads, S: Station, L: Listener<In = S::In, Out = S::Out>>(
    rt: &R,
    listener: &mut L,
    link: u64,
    ticket: Ticket<JobOf<S>>,
) -> S
    ensures { let seen = seen_by L.links L.faults L.accepted L.dialled in
        spec.Finishes S.serves link ticket result (seen listener.old) (seen listener.new) }
{
    let Served {
        station,
        source,
        sink,
        report: _,
    } = ticket.join(rt);
    listener.give_back(link, source, sink);
    station
}

/// What a place has once no job has it.
fn idle<R: Threads, S: Station, L: Listener<In = S::In, Out = S::Out>>(
    rt: &R,
    listener: &mut L,
    spot: SpotOf<S>,
) -> SpotOf<S>
    ensures { let seen = seen_by L.links L.faults L.accepted L.dialled in
        spec.Idles S.serves spot result (seen listener.old) (seen listener.new) }
{
    let (link, ticket) = match spot {
        Spot::Busy(link, ticket) => (link, ticket),
        other => return other,
    };
    Spot::Free(finish(rt, listener, link, ticket))
}

/// Joins the job of a place, if it has one.
pub(crate) fn join_at<R: Threads, S: Station, L: Listener<In = S::In, Out = S::Out>>(
    rt: &R,
    spots: &mut Vec<SpotOf<S>>,
    listener: &mut L,
    at: usize,
)
    requires { at < length spots.old.items }
    ensures settled { let seen = seen_by L.links L.faults L.accepted L.dialled in
        spec.Settles S.serves at spots.old.items spots.new.items (seen listener.old) (seen listener.new) }
{
    let spot = put(spots, at, Spot::Gone);
    let spot = idle(rt, listener, spot);
    drop(put(spots, at, spot));
}

/// The first place that has a station.
fn first_free<S, T>(spots: &[Spot<S, T>]) -> Option<usize>
    ensures { IfSome result (IsFreeAt spots.now) }
{
    for at in 0..spots.len() {
        if let Spot::Free(_) = &spots[at] {
            return Some(at);
        }
    }
    None
}

/// Joins the job of the place that was told, if there is one.
fn join_told<R: Threads, S: Station, L: Listener<In = S::In, Out = S::Out>>(
    rt: &R,
    spots: &mut Vec<SpotOf<S>>,
    listener: &mut L,
    place: usize,
)
    ensures { let seen = seen_by L.links L.faults L.accepted L.dialled in
        spec.Continues S.serves spots.old.items spots.new.items (seen listener.old) (seen listener.new) }
{
    if place < spots.len() {
        join_at(rt, spots, listener, place);
    }
}

/// The first place that has a station; where none has, it waits for one to be told.
pub(crate) fn free_place<R: Threads + Wait, S: Station, L: Listener<In = S::In, Out = S::Out>>(
    rt: &R,
    spots: &mut Vec<SpotOf<S>>,
    listener: &mut L,
    told: &Receiver<usize, Global>,
) -> usize
    ensures free { IsFreeAt spots.new.items result }
    ensures continues { let seen = seen_by L.links L.faults L.accepted L.dialled in
        spec.Continues S.serves spots.old.items spots.new.items (seen listener.old) (seen listener.new) }
{
    for _ in rt.forever() {
        if let Some(at) = first_free(spots) {
            return at;
        }
        if let Ok(place) = told.recv(rt) {
            join_told(rt, spots, listener, place);
        }
    }
    unreachable!()
}

/// Joins the jobs that there are, in the order of their places.
pub(crate) fn join_all<R: Threads, S: Station, L: Listener<In = S::In, Out = S::Out>>(
    rt: &R,
    spots: &mut Vec<SpotOf<S>>,
    listener: &mut L,
)
    ensures idle { All IsIdle spots.new.items }
    ensures continues { let seen = seen_by L.links L.faults L.accepted L.dialled in
        spec.Continues S.serves spots.old.items spots.new.items (seen listener.old) (seen listener.new) }
{
    let count = spots.len();
    for at in 0..count {
        join_at(rt, spots, listener, at);
    }
}
