ghost use Rattle.shop_tasks.specs.Serves.{Serves};
ghost use Rattle.shop_tasks.specs.StationValues.{station_of};

use crate::Till;
use shop_edges::{Clock, LinkIn, LinkOut};
use shop_engine::{Ended, Report, Resting, Worker, serve_connection};
use shop_text::Listed;
use shop_turn::Desk;
use std::alloc::Global;
use std::marker::Model;
use std::mem;
use std::snapshot::Snapshot;
use std::sync::Wait;

/// A worker at its desk, which serves one connection after another, the clock that it reads, and the till that takes its
/// payments. It may cross threads between two connections: the worker is woken for each.
#[derive(Drop)]
pub struct Station<R: Wait + Drop, I: LinkIn + Drop, O: LinkOut + Drop, C: Clock + Drop> {
    alloc: Global,
    /// There is one, but while it serves a connection.
    worker: Option<Resting<Desk<R>>>,
    rests: Snapshot<Resting<Desk<R>>>,
    clock: C,
    till: Till<I, O>,
}

impl<R: Wait + Drop, I: LinkIn + Drop, O: LinkOut + Drop, C: Clock + Drop> Model
    for Station<R, I, O, C> {
    ghost use Rattle.std.specs.Prelude.{◌≡◌, Some};
    ghost use Rattle.shop_tasks.specs.StationValues.{StationValue, station_of};

    ghost Value = { StationValue C I O };

    ghost view = { λ s. station_of s.rests.value s.clock s.till };

    ghost invariant = { λ s. s.worker ≡ Some s.rests.value };
}

/// Serves a connection by a worker that rests before and after.
fn serve_by<R: Wait + Drop, I: LinkIn, O: LinkOut, C: Clock>(
    alloc: Global,
    resting: Resting<Desk<R>>,
    source: &mut I,
    sink: &mut O,
    clock: &mut C,
    till: &mut Till<I, O>,
) -> (Resting<Desk<R>>, Report)
    ensures { Serves (C.Clock, I.Source, O.Sink) (station_of resting clock.old till.old) source.old sink.old
        (station_of result.0 clock.new till.new) source.new sink.new result.1 }
{
    // Whatever came of it, what its own gateway has answered are verdicts.
    till.audit();
    let mut worker = match resting.wake(alloc) {
        Ok(worker) => worker,
        Err(resting) => {
            let _ = resting.store();
            let report = Report {
                end: Ended::Memory,
                points: Listed::new(alloc),
            };
            return (resting, report);
        }
    };
    let report = serve_connection(alloc, &mut worker, source, sink, clock, till);
    till.audit();
    (worker.rest(), report)
}

impl<R: Wait + Drop, I: LinkIn + Drop, O: LinkOut + Drop, C: Clock + Drop> Station<R, I, O, C> {
    ghost use Rattle.std.specs.Prelude.{◌≡◌, []};
    ghost use Rattle.shop_tasks.specs.Serves.{Serves};
    ghost use Rattle.shop_tasks.specs.StationValues.{station_of};

    /// A station whose worker has served no connection, or some.
    pub fn new(
        alloc: Global,
        worker: Worker<Desk<R>>,
        clock: C,
        till: Till<I, O>,
    ) -> Station<R, I, O, C>
        ensures { result ≡ station_of (record worker { reply = [] }) clock till }
    {
        let resting = worker.rest();
        let rests = Snapshot::of(&resting);
        Station {
            alloc,
            worker: Some(resting),
            rests,
            clock,
            till,
        }
    }

    /// Has the worker serve a connection.
    fn serve_link(&mut self, source: &mut I, sink: &mut O) -> Report
        ensures { Serves (C.Clock, I.Source, O.Sink) self.old source.old sink.old self.new source.new sink.new result }
    {
        let resting = match mem::replace(&mut self.worker, None) {
            Some(resting) => resting,
            None => unreachable!(),
        };
        let (resting, report) = serve_by(
            self.alloc,
            resting,
            source,
            sink,
            &mut self.clock,
            &mut self.till,
        );
        self.rests = Snapshot::of(&resting);
        self.worker = Some(resting);
        report
    }

    /// The desk.
    pub fn into_desk(self) -> Desk<R>
        ensures { result ≡ self.worker.store }
    {
        let Station {
            alloc: _,
            worker,
            rests: _,
            clock: _,
            till: _,
        } = self;
        match worker {
            Some(resting) => resting.into_store(),
            None => unreachable!(),
        }
    }
}

impl<
    R: Wait + Drop + Send + 'static,
    I: LinkIn + Drop + Send + 'static,
    O: LinkOut + Drop + Send + 'static,
    C: Clock + Drop + Send + 'static,
> shop_places::Station for Station<R, I, O, C> {
    ghost use Rattle.shop_tasks.specs.Serves.{Serves};

    type Handle = R;

    type In = I;

    type Out = O;

    type Report = Report;

    ghost serves = { Serves (C.Clock, I.Source, O.Sink) };

    fn serve(&mut self, source: &mut I, sink: &mut O) -> Report {
        let report = self.serve_link(source, sink);
        // The peer is told that nothing more comes before what it still sends is dropped.
        sink.end();
        source.end();
        report
    }
}
