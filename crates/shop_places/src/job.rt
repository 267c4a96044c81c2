use crate::{Spot, Station};
use crossbeam_channel::Sender;
use shop_edges::{Job, Ticket};
use std::alloc::Global;
use std::sync::Wait;

/// A job: the station of a place serves a link, and the place is told, counted from 0.
#[derive(Drop)]
pub struct Serving<R, S, I, O> {
    pub(crate) rt: R,
    pub(crate) station: S,
    pub(crate) source: I,
    pub(crate) sink: O,
    pub(crate) place: usize,
    pub(crate) free: Sender<usize, Global>,
}

/// What such a job gives: the station and the link as the service left them, and its report.
#[derive(Drop)]
pub struct Served<S, I, O, P> {
    pub(crate) station: S,
    pub(crate) source: I,
    pub(crate) sink: O,
    pub(crate) report: P,
}

/// The job of a station.
pub type JobOf<S> = Serving<<S as Station>::Handle, S, <S as Station>::In, <S as Station>::Out>;

/// What the job of a station gives.
pub type ServedBy<S> = Served<S, <S as Station>::In, <S as Station>::Out, <S as Station>::Report>;

/// What a place of such stations has.
pub type SpotOf<S> = Spot<S, Ticket<JobOf<S>>>;

impl<S: Station> Job for Serving<S::Handle, S, S::In, S::Out> {
    ghost use Rattle.shop_places.specs.Tickets.{Keeps};

    type Handle = S::Handle;

    type Out = Served<S, S::In, S::Out, S::Report>;

    ghost promises = { Keeps S.serves };

    fn run(self) -> Served<S, S::In, S::Out, S::Report> {
        let Serving {
            rt,
            mut station,
            mut source,
            mut sink,
            place,
            free,
        } = self;
        let report = station.serve(&mut source, &mut sink);
        tell(&rt, &free, place);
        Served {
            station,
            source,
            sink,
            report,
        }
    }
}

/// Tells that a place is free; a message that comes back is sent again.
fn tell<R: Wait>(rt: &R, free: &Sender<usize, Global>, place: usize) {
    for _ in rt.forever() {
        if free.send(rt, place).is_ok() {
            return;
        }
    }
}
