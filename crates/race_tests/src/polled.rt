//! Connections at a clock that always reads 1,000, with a gateway that takes their payments: what comes of one that is
//! polled, and of the same one that is served. A shop goes on in the `Result` that it came in, and whoever looks into that
//! knows no more of it than its traits: so no exit has all that a shop is made of to let go.
ghost use Rattle.std.specs.Prelude.{◌≡◌, IfOk, true};
ghost use Rattle.shop_polled.specs.Connections.{CanPoll};

use futures::Future;
use futures::executor::block_on;
use futures::task::Poll;
use futures::test::MockTask;
use shop_app::first_worker;
use shop_attempt::Store;
use shop_book::Solo;
use shop_edges::{BytesIn, BytesOut, Clock, Gateway, ListClock, Sink, Source};
use shop_engine::{Ended, Point, Report, Worker, serve_connection};
use shop_gateway::Emulator;
use shop_model::Scale;
use shop_polled::{Connection, Finished, PolledBytesIn, PolledBytesOut, PolledSink, PolledSource};
use shop_text::{Listed, Memory, Text};
use shop_words::Session;
use std::alloc::{AllocGlobal, Global};
use std::random::RandomSource;
use std::sync::Wait;

/// A connection over memory.
pub(crate) type Polled<St> = Connection<St, PolledBytesIn, PolledBytesOut, ListClock, Emulator>;

/// What is asked for, over streams that give and take so.
#[derive(Clone, Copy)]
pub(crate) struct Case<'a> {
    pub(crate) asked: &'a [u8],
    /// So many bytes come with a read at most, and go with a write.
    pub(crate) pieces: (usize, usize),
    /// Which read and which write fail, counted from 1; none does where it is 0.
    pub(crate) faults: (u64, u64),
}

/// The polls of the source and of the sink that are put off, counted from 1.
#[derive(Clone, Copy)]
pub(crate) struct Waits<'a> {
    pub(crate) reads: &'a [u64],
    pub(crate) writes: &'a [u64],
}

impl Waits<'_> {
    pub(crate) const NONE: Waits<'static> = Waits {
        reads: &[],
        writes: &[],
    };
}

/// What a connection over memory is made of, but for its worker.
#[derive(Drop)]
pub(crate) struct Edges {
    source: PolledBytesIn,
    sink: PolledBytesOut,
    clock: ListClock,
    gateway: Emulator,
}

/// What came of a connection.
#[derive(Drop)]
pub(crate) struct Outcome {
    end: Ended,
    answers: usize,
    /// The points, as text.
    points: String,
    written: Text,
    /// How often the source and the sink were polled, if they were.
    polls: (u64, u64),
}

/// What tells what came of a connection, at its end.
pub(crate) trait Told: Drop {
    fn outcome(&self, alloc: Global) -> Result<Outcome, Memory>;
}

/// What tells how many answers there are so far.
pub(crate) trait Answering {
    fn answers(&self) -> usize;
}

impl<St: Store + Drop, C: Drop, G: Drop> Told
    for Finished<St, PolledBytesIn, PolledBytesOut, C, G> {
    fn outcome(&self, alloc: Global) -> Result<Outcome, Memory> {
        let polls = (self.source.polls(), self.sink.polls());
        Outcome::of(alloc, &self.report, self.sink.bytes(), polls)
    }
}

impl<
    St: Store + Drop,
    S: PolledSource + Drop,
    K: PolledSink + Drop,
    C: Clock + Drop,
    G: Gateway + Drop,
> Answering for Connection<St, S, K, C, G> {
    fn answers(&self) -> usize {
        self.points().len()
    }
}

/// A point, as text.
fn text_of(alloc: Global, point: &Point) -> Result<String, Memory> {
    let Point {
        kind,
        front,
        moment,
        call,
        draw,
        tries,
    } = point;
    Ok(format!(in alloc; "{kind:?} {front} {moment} {call} {draw} {tries}\n")?)
}

impl Outcome {
    fn of(
        alloc: Global,
        report: &Report,
        written: &[u8],
        polls: (u64, u64),
    ) -> Result<Outcome, Memory> {
        let mut points = String::new(alloc);
        for point in report.points.as_slice() {
            points.push_str(text_of(alloc, point)?.as_str())?;
        }
        Ok(Outcome {
            end: report.end,
            answers: report.points.as_slice().len(),
            points,
            written: Text::copy(alloc, written)?,
            polls,
        })
    }

    /// Whether the same came of both: the end, the points, and what was written.
    fn is(&self, other: &Outcome) -> bool {
        self.end == other.end && self.points == other.points && self.written == other.written
    }

    /// Whether it ended so behind so many answers, and this was written.
    pub(crate) fn came_to(&self, end: Ended, answers: usize, written: &[u8]) -> bool {
        (self.end, self.answers) == (end, answers) && self.written.bytes() == written
    }
}

fn numbers(alloc: Global, numbers: &[u64]) -> Result<Listed<u64>, Memory> {
    Ok(Listed::from_vec(Vec::from_slice(alloc, numbers)?))
}

fn source_of(alloc: Global, case: &Case<'_>) -> Result<BytesIn, Memory> {
    let fails = numbers(alloc, &[case.faults.0])?;
    let asked = Text::copy(alloc, case.asked)?;
    Ok(BytesIn::new(asked, case.pieces.0.max(1), fails))
}

fn sink_of(alloc: Global, case: &Case<'_>) -> Result<BytesOut, Memory> {
    let fails = numbers(alloc, &[case.faults.1])?;
    Ok(BytesOut::new(alloc, case.pieces.1, fails))
}

fn clock_of(alloc: Global) -> Result<ListClock, Memory> {
    ListClock::new(alloc, numbers(alloc, &[1_000])?)
}

/// The edges of a connection that is to wait so.
pub(crate) fn edges_of(alloc: Global, case: &Case<'_>, waits: Waits<'_>) -> Result<Edges, Memory> {
    let (reads, writes) = (numbers(alloc, waits.reads)?, numbers(alloc, waits.writes)?);
    let (source, sink) = (source_of(alloc, case)?, sink_of(alloc, case)?);
    Ok(Edges {
        source: PolledBytesIn::new(source, reads),
        sink: PolledBytesOut::new(sink, writes),
        clock: clock_of(alloc)?,
        gateway: Emulator::new(alloc),
    })
}

/// A worker of caller 1, who has the desk's shop of seed 0 alone.
pub(crate) fn worker_at_desk(alloc: Global) -> Result<Worker<Solo>, Memory> {
    let asked = Session {
        scale: Scale::desk(),
        seed: 0,
        limit: 100,
    };
    first_worker(alloc, asked)
}

/// Serves a connection. Its callers need none of what is promised of it.
fn serve<St: Store, S: Source, K: Sink, C: Clock, G: Gateway>(
    alloc: Global,
    worker: &mut Worker<St>,
    (source, sink): (&mut S, &mut K),
    clock: &mut C,
    gateway: &mut G,
) -> Report {
    serve_connection(alloc, worker, source, sink, clock, gateway)
}

/// What comes of a connection that a worker serves.
fn served<St: Store + Drop>(
    alloc: Global,
    worker: Result<Worker<St>, Memory>,
    case: &Case<'_>,
) -> Result<Outcome, Memory> {
    let mut worker = worker?;
    let (mut source, mut sink) = (source_of(alloc, case)?, sink_of(alloc, case)?);
    let (mut clock, mut gateway) = (clock_of(alloc)?, Emulator::new(alloc));
    let streams = (&mut source, &mut sink);
    let report = serve(alloc, &mut worker, streams, &mut clock, &mut gateway);
    Outcome::of(alloc, &report, sink.bytes(), (0, 0))
}

/// A connection, before its first poll.
fn begin<
    St: Store + Drop,
    S: PolledSource + Drop,
    K: PolledSink + Drop,
    C: Clock + Drop,
    G: Gateway + Drop,
>(
    alloc: Global,
    worker: Result<Worker<St>, Memory>,
    streams: (S, K),
    clock: C,
    gateway: G,
) -> Result<Connection<St, S, K, C, G>, Memory>
    ensures { IfOk result CanPoll }
{
    let (source, sink) = streams;
    match Connection::new(alloc, worker?, source, sink, clock, gateway) {
        Ok(connection) => Ok(connection),
        Err(_) => Err(Memory),
    }
}

/// A worker's connection over memory, before its first poll.
pub(crate) fn connection_of<St: Store + Drop>(
    alloc: Global,
    worker: Result<Worker<St>, Memory>,
    edges: Edges,
) -> Result<Polled<St>, Memory>
    ensures { IfOk result CanPoll }
{
    let Edges {
        source,
        sink,
        clock,
        gateway,
    } = edges;
    begin(alloc, worker, (source, sink), clock, gateway)
}

/// Whether one poll is put off.
pub(crate) fn is_put_off<F: Future>(task: &MockTask, future: &mut F) -> bool
where
    F::Output: Drop,
    requires { F.can_poll future.old }
    ensures { result ≡ true → F.can_poll future.new }
{
    match task.poll(future) {
        Poll::Ready(_) => false,
        Poll::Pending => true,
    }
}

/// Whether one poll closes the connection behind so many answers, and this was written.
pub(crate) fn closes<F: Future>(
    alloc: Global,
    task: &MockTask,
    future: &mut F,
    answers: usize,
    written: &[u8],
) -> Result<bool, Memory>
where
    F::Output: Told,
    requires { F.can_poll future.old }
{
    match task.poll(future) {
        Poll::Ready(done) => {
            let outcome = done.outcome(alloc)?;
            Ok(outcome.came_to(Ended::Closed, answers, written))
        }
        Poll::Pending => Ok(false),
    }
}

/// What comes of a connection that is polled to its end.
fn polled<R: Wait + RandomSource + AllocGlobal, F: Future>(
    rt: &R,
    connection: Result<F, Memory>,
) -> Result<Outcome, Memory>
where
    F::Output: Told,
    requires { IfOk connection F.can_poll }
{
    match block_on(rt, connection?) {
        Ok(done) => done.outcome(rt.alloc()),
        Err(_) => Err(Memory),
    }
}

/// What comes of a connection of the desk's shop that is polled to its end.
pub(crate) fn polled_at_desk<R: Wait + RandomSource + AllocGlobal>(
    rt: &R,
    case: &Case<'_>,
    waits: Waits<'_>,
) -> Result<Outcome, Memory> {
    let alloc = rt.alloc();
    let edges = edges_of(alloc, case, waits)?;
    polled(rt, connection_of(alloc, worker_at_desk(alloc), edges))
}

/// How often the streams of a connection are polled that waits so, where the same comes of it.
fn polls_where_same<R: Wait + RandomSource + AllocGlobal>(
    rt: &R,
    case: &Case<'_>,
    waits: Waits<'_>,
    outcome: &Outcome,
) -> Result<Option<(u64, u64)>, Memory> {
    let other = polled_at_desk(rt, case, waits)?;
    Ok(if other.is(outcome) {
        Some(other.polls)
    } else {
        None
    })
}

/// Whether this comes of it, whichever one poll of the source or of the sink is put off.
fn is_same_at_each_wait<R: Wait + RandomSource + AllocGlobal>(
    rt: &R,
    case: &Case<'_>,
    outcome: &Outcome,
) -> Result<bool, Memory> {
    let Some((reads, writes)) = polls_where_same(rt, case, Waits::NONE, outcome)? else {
        return Ok(false);
    };
    for poll in 1..=reads {
        let waits = Waits {
            reads: &[poll],
            writes: &[],
        };
        if polls_where_same(rt, case, waits, outcome)?.is_none() {
            return Ok(false);
        }
    }
    for poll in 1..=writes {
        let waits = Waits {
            reads: &[],
            writes: &[poll],
        };
        if polls_where_same(rt, case, waits, outcome)?.is_none() {
            return Ok(false);
        }
    }
    Ok(true)
}

/// Whether the same comes of a connection that is polled as of one that is served, whichever one poll is put off.
pub(crate) fn may_wait<R: Wait + RandomSource + AllocGlobal>(
    rt: &R,
    case: &Case<'_>,
) -> Result<bool, Memory> {
    let outcome = served(rt.alloc(), worker_at_desk(rt.alloc()), case)?;
    is_same_at_each_wait(rt, case, &outcome)
}
