//! The command `poll`.
ghost use Rattle.std.specs.Prelude.{◌≡◌, ◌∷◌, ◌≤◌, ◌<◌, ◌⊎◌, All, Err, IfErr, IfOk, IfSome, IsNone, Some, length, map};
ghost use Rattle.shop_app.specs.Serving.{TellsOfBook};
ghost use Rattle.shop_app.specs.Shared.{IsUntold};
ghost use Rattle.shop_app.specs.Told.{IsTold};
ghost use Rattle.shop_tasks.specs.StationValues.{desk_of};
ghost use Rattle.shop_turn.specs.Desks.{IsOneShop};
ghost use Rattle.shop_turn.specs.Shops.{Closes};
ghost use Rattle.shop_words.specs.declared.polled.Poll.{Poll};
ghost use Rattle.shop_words.specs.Polled.{IsPoll, IsPollable};
ghost use Rattle.shop_poll.specs.Lanes.{HaveLanded};
ghost use Rattle.shop_poll.specs.Runs as spec;

use crate::lanes::lanes_over;
use crate::station::PolledStation;
use crate::workers::open_workers;
use shop_app::{Status, print_lines, race_lines};
use shop_book::Book;
use shop_edges::{Clock, Opened, Sink, write_all};
use shop_engine::{Report, Worker};
use shop_lanes::{Berth, Landed, LanesEnd, PolledListener, Ran, Runner};
use shop_polled::{PolledSink, PolledSource};
use shop_text::{Memory, Text};
use shop_turn::{Desk, Shop};
use shop_words::{Parsed, Poll, poll_of};
use std::alloc::{AllocError, Global};
use std::sync::Wait;

/// The desks of stations, in their order.
fn desks_of<R: Wait + Drop, S: Drop, K: Drop, C: Drop>(
    alloc: Global,
    stations: Vec<PolledStation<R, S, K, C>>,
) -> Result<Vec<Desk<R>>, AllocError>
    ensures { IfOk result (λ desks. desks.items ≡ map desk_of stations.items) }
{
    stations
        .into_iter()
        .map(|station| station.into_worker().into_store())
        .collect(alloc)
}

/// Closes the shop of these stations with a desk that is nobody's.
fn close<R: Wait + Drop, S: Drop, K: Drop, C: Drop>(
    alloc: Global,
    own: Desk<R>,
    stations: Vec<PolledStation<R, S, K, C>>,
) -> Result<Book, Memory>
    requires { All (λ station. IsOneShop own (desk_of station)) stations.items }
    ensures { IfOk result (Closes own.origin (own ∷ map desk_of stations.items)) }
{
    let desks = desks_of(alloc, stations)?;
    Ok(Shop::close(own, desks))
}

/// The lines that tell what the stations' shop came to, which is closed with a desk that is nobody's.
fn lines_of<R: Wait + Drop, S: Drop, K: Drop, C: Drop>(
    alloc: Global,
    own: Desk<R>,
    stations: Vec<PolledStation<R, S, K, C>>,
    lanes: u32,
) -> Result<Text, Memory>
    requires { All (λ station. IsOneShop own (desk_of station)) stations.items }
    ensures { IfOk result (TellsOfBook lanes own stations.items) }
{
    let book = close(alloc, own, stations)?;
    race_lines(alloc, &book, lanes)
}

/// The lines that tell what came of lanes that have ended so, or why there are none.
fn lines_by<R: Wait + Drop, S: Drop, K: Drop, C: Drop>(
    alloc: Global,
    own: Desk<R>,
    stations: Vec<PolledStation<R, S, K, C>>,
    ended: LanesEnd,
    lanes: u32,
) -> Result<Text, Status>
    requires { All (λ station. IsOneShop own (desk_of station)) stations.items }
    ensures { spec.TellsOfEnd lanes own stations.items ended result }
{
    match ended {
        LanesEnd::All => match lines_of(alloc, own, stations, lanes) {
            Ok(lines) => Ok(lines),
            Err(Memory) => Err(Status::Memory),
        },
        LanesEnd::ListenerFault => Err(Status::NetworkFault),
        LanesEnd::Memory => Err(Status::Memory),
    }
}

/// What came of lanes that have ended: the lines that tell it, or why there are none, and their listener.
fn told_by<R: Wait + Drop, S: Drop, K: Drop, L: Drop, C: Drop>(
    alloc: Global,
    own: Desk<R>,
    landed: Landed<L, PolledStation<R, S, K, C>, Report>,
    lanes: u32,
) -> (Result<Text, Status>, Option<L>)
    requires { All (λ station. IsOneShop own (desk_of station)) landed.berths.items }
    ensures told { spec.TellsOfEnd lanes own landed.berths.items landed.ended result.0 }
    ensures back { result.1 ≡ Some landed.listener }
{
    let Landed {
        listener,
        berths,
        reports: _,
        ended,
    } = landed;
    let lines = lines_by(alloc, own, berths, ended, lanes);
    (lines, Some(listener))
}

/// Has workers serve connections at lanes; what the lanes leave, or why they and the listener are lost.
fn run_lanes<
    R: Wait + Drop,
    S: PolledSource + Drop,
    O: PolledSink + Drop,
    L: PolledListener<In = S, Out = O> + Drop,
    U: Runner,
    C: Clock + Drop,
>(
    alloc: Global,
    asked: &Poll,
    workers: Vec<Worker<Desk<R>>>,
    listener: L,
    runner: &mut U,
    clock: &C,
) -> Result<Landed<L, PolledStation<R, S, O, C>, Report>, Status>
    requires { 0 < length workers.items }
    ensures landed { IfOk result (HaveLanded (⟦<PolledStation<R, S, O, C> as Berth>⟧, L.PolledListener) C.readings (C.readings clock.now) workers.items listener asked.now.connections) }
    ensures err { IfErr result (IsUntold ⊥ (spec.runs (U.faults runner.old)) (spec.runs (U.faults runner.new))) }
    ensures later { U.faults runner.old ≤ U.faults runner.new }
{
    let Ok(lanes) = lanes_over(alloc, listener, asked.connections, workers, clock) else {
        return Err(Status::Memory);
    };
    match runner.run(lanes) {
        Ran::Done(landed) => Ok(landed),
        Ran::Failed => Err(Status::WorkerFault),
        Ran::Memory => Err(Status::Memory),
    }
}

/// Has connections served at lanes; the lines that tell what came of it, or why there are none, and the listener, unless
/// it was lost.
fn poll_connections<
    R: Wait + Clone + Drop,
    S: PolledSource + Drop,
    O: PolledSink + Drop,
    L: PolledListener<In = S, Out = O> + Drop,
    U: Runner,
    C: Clock + Drop,
>(
    rt: &R,
    alloc: Global,
    asked: &Poll,
    listener: L,
    runner: &mut U,
    clock: &C,
) -> (Result<Text, Status>, Option<L>)
    requires { IsPollable asked.now }
    ensures told { spec.TellsPolled (U.faults, L.PolledListener, (S.PolledSource, O.PolledSink, C.Clock)) asked.now clock.now
        (runner.old, listener) (runner.new, result.1) result.0 }
    ensures later { U.faults runner.old ≤ U.faults runner.new }
    ensures lost { IsNone result.1 → (result.0 ≡ Err Status.WorkerFault) ⊎ (result.0 ≡ Err Status.Memory) }
    ensures fails { IfSome result.1 (λ after. L.faults listener ≤ L.faults after) }
{
    let Ok((own, workers)) = open_workers(rt, alloc, asked) else {
        return (Err(Status::Memory), Some(listener));
    };
    let mut listener = listener;
    if listener.open(asked.port) == Opened::Failed {
        return (Err(Status::NetworkFault), Some(listener));
    }
    match run_lanes(alloc, asked, workers, listener, runner, clock) {
        Ok(landed) => told_by(alloc, own, landed, asked.lanes),
        Err(status) => (Err(status), None),
    }
}

/// Does what the words say; the lines that tell what came of it, or why there are none, and the listener.
fn told_of<
    R: Wait + Clone + Drop,
    S: PolledSource + Drop,
    O: PolledSink + Drop,
    L: PolledListener<In = S, Out = O> + Drop,
    U: Runner,
    C: Clock + Drop,
>(
    rt: &R,
    alloc: Global,
    words: &[Text],
    listener: L,
    runner: &mut U,
    clock: &C,
) -> (Result<Text, Status>, Option<L>)
    ensures bad_words { result.0 ≡ Err Status.BadWords → (poll : Poll) → ¬ (IsPoll words.now poll) }
    ensures untouched { result.0 ≡ Err Status.BadWords → (result.1 ≡ Some listener) × (runner.new ≡ runner.old) }
    ensures told { spec.TellsRun (U.faults, L.PolledListener, (S.PolledSource, O.PolledSink, C.Clock)) words.now clock.now
        (runner.old, listener) (runner.new, result.1) result.0 }
    ensures later { U.faults runner.old ≤ U.faults runner.new }
    ensures lost { IsNone result.1 → (result.0 ≡ Err Status.WorkerFault) ⊎ (result.0 ≡ Err Status.Memory) }
    ensures fails { IfSome result.1 (λ after. L.faults listener ≤ L.faults after) }
{
    match poll_of(alloc, words) {
        Parsed::Good(asked) => poll_connections(rt, alloc, &asked, listener, runner, clock),
        Parsed::Bad => (Err(Status::BadWords), Some(listener)),
        Parsed::Memory => (Err(Status::Memory), Some(listener)),
    }
}

/// Does what the words say: has as many connections as they say served by workers over the one shop that the options
/// choose, all on the one thread of the runner and none by blocking on it, and prints a summary to the sink, as
/// `run_shared` does for `serve`. Where that doesn't end well, a line on the faults sink tells it; a fault of that sink
/// changes no status. The listener is handed back, unless the runner failed, or memory ran out before the lanes had ended.
pub fn run_polled<
    R: Wait + Clone + Drop,
    S: PolledSource + Drop,
    O: PolledSink + Drop,
    L: PolledListener<In = S, Out = O> + Drop,
    U: Runner,
    K: Sink,
    C: Clock + Drop,
>(
    rt: &R,
    alloc: Global,
    words: &[Text],
    listener: L,
    runner: &mut U,
    sink: &mut K,
    faults: &mut K,
    clock: &C,
) -> (Status, Option<L>)
    ensures bad_words { result.0 ≡ Status.BadWords → (poll : Poll) → ¬ (IsPoll words.now poll) }
    ensures untouched { result.0 ≡ Status.BadWords → (result.1 ≡ Some listener) × (runner.new ≡ runner.old) × (sink.new ≡ sink.old) }
    ensures run { spec.RunsPolled (K.Sink, (U.faults, L.PolledListener, (S.PolledSource, O.PolledSink, C.Clock))) words.now clock.now
        (sink.old, runner.old, listener) (sink.new, runner.new, result.1) result.0 }
    ensures lost { IsNone result.1 → (result.0 ≡ Status.WorkerFault) ⊎ (result.0 ≡ Status.Memory) }
    ensures complete { spec.Completes (K.faults, U.faults, L.faults) (sink.old, runner.old, listener) (sink.new, runner.new, result.1) result.0 }
    ensures runs { U.faults runner.old ≤ U.faults runner.new }
    ensures fails { IfSome result.1 (λ after. L.faults listener ≤ L.faults after) }
    ensures told { IsTold (K.held faults.old) (K.held faults.new) (K.faults faults.old) (K.faults faults.new) result.0 }
    ensures later { K.faults faults.old ≤ K.faults faults.new }
{
    let (lines, listener) = told_of(rt, alloc, words, listener, runner, clock);
    let status = print_lines(sink, lines);
    let _ = write_all(faults, status.line());
    (status, listener)
}
