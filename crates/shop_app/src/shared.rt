//! The calls of several callers.
ghost use Rattle.std.specs.Prelude.{◌≡◌, ◌≤◌, ◌↔◌, ◌⊎◌, Err, IsTrue, codes};
ghost use Rattle.shop_words.specs.declared.command.Command.{Command};
ghost use Rattle.shop_words.specs.Commands.{IsCommand};
ghost use Rattle.shop_app.specs.Shared.{Prints};
ghost use Rattle.shop_app.specs.SharedRuns.{CompletesBy, RunsShared, TellsShared};
ghost use Rattle.shop_app.specs.Told.{IsForSeveral, IsShared, IsTold};

use crate::Status;
use crate::raced::race_browsers;
use crate::served::serve_connections;
use shop_edges::{Clock, LinkIn, LinkOut, Listener, Sink, Spawner, write_all};
use shop_text::Text;
use shop_words::{Command, Parsed, command_of};
use std::alloc::Global;
use std::sync::Wait;
use std::thread::Threads;

/// Whether `run_shared` serves the words, and not `run_alone`: the first of them says so.
pub fn is_shared(words: &[Text]) -> bool
    ensures { IsTrue result ↔ IsShared words.now }
{
    match words {
        [command, ..] => is_shared_command(command.bytes()),
        [] => false,
    }
}

/// Whether several callers serve the command with this name.
fn is_shared_command(name: &[u8]) -> bool
    ensures { IsTrue result ↔ ((name.now ≡ codes "race") ⊎ (name.now ≡ codes "serve")) }
{
    name == b"race".as_slice() || name == b"serve".as_slice()
}

/// Does what the words say, for several callers over the one shop that the options choose, and prints a summary to the
/// sink: `race` has each worker serve a browser in a job of its own; `serve` opens a port and has as many connections as
/// the words say served by workers, each in a job of its own. Where that doesn't end well, a line on the faults sink
/// tells it; a fault of that sink changes no status.
pub fn run_shared<
    R: Threads + Wait + Clone + Drop + Send + 'static,
    I: LinkIn + Drop + Send + 'static,
    O: LinkOut + Drop + Send + 'static,
    L: Listener<In = I, Out = O>,
    K: Sink,
    C: Clock + Drop + Send + 'static,
>(
    rt: &R,
    alloc: Global,
    words: &[Text],
    spawner: &mut Spawner,
    listener: &mut L,
    sink: &mut K,
    faults: &mut K,
    clock: &C,
) -> Status
    ensures bad_words { result ≡ Status.BadWords → (command : Command) → IsCommand words.now command → ¬ (IsForSeveral command) }
    ensures untouched { result ≡ Status.BadWords → (spawner.new ≡ spawner.old) × (listener.new ≡ listener.old) × (sink.new ≡ sink.old) }
    ensures run { RunsShared (K.Sink, L.Listener, (C.Clock, I.Source, O.Sink)) words.now clock.now
        (sink.old, spawner.old, listener.old) (sink.new, spawner.new, listener.new) result }
    ensures complete { CompletesBy (K.Sink, L.Listener) (sink.old, spawner.old, listener.old) (sink.new, spawner.new, listener.new) result }
    ensures told { IsTold (K.held faults.old) (K.held faults.new) (K.faults faults.old) (K.faults faults.new) result }
    ensures later { K.faults faults.old ≤ K.faults faults.new }
{
    let lines = told_of(rt, alloc, words, spawner, listener, clock);
    let status = print_lines(sink, lines);
    let _ = write_all(faults, status.line());
    status
}

/// Does what the words say; the lines that tell what came of it, or why there are none.
fn told_of<
    R: Threads + Wait + Clone + Drop + Send + 'static,
    I: LinkIn + Drop + Send + 'static,
    O: LinkOut + Drop + Send + 'static,
    L: Listener<In = I, Out = O>,
    C: Clock + Drop + Send + 'static,
>(
    rt: &R,
    alloc: Global,
    words: &[Text],
    spawner: &mut Spawner,
    listener: &mut L,
    clock: &C,
) -> Result<Text, Status>
    ensures bad_words { result ≡ Err Status.BadWords → (command : Command) → IsCommand words.now command → ¬ (IsForSeveral command) }
    ensures untouched { result ≡ Err Status.BadWords → (spawner.new ≡ spawner.old) × (listener.new ≡ listener.old) }
    ensures told { TellsShared (L.Listener, (C.Clock, I.Source, O.Sink)) words.now clock.now
        (spawner.old, listener.old) (spawner.new, listener.new) result }
{
    match command_of(alloc, words) {
        Parsed::Good(Command::Race(asked)) => race_browsers(rt, alloc, &asked, spawner, clock),
        Parsed::Good(Command::Serve(asked)) => {
            serve_connections(rt, alloc, &asked, spawner, listener, clock)
        }
        Parsed::Good(Command::Session(_) | Command::Drive(_) | Command::Gateway) | Parsed::Bad => {
            Err(Status::BadWords)
        }
        Parsed::Memory => Err(Status::Memory),
    }
}

/// Prints lines, if there are any.
pub fn print_lines<K: Sink>(sink: &mut K, lines: Result<Text, Status>) -> Status
    ensures prints { Prints lines (K.held sink.old) (K.held sink.new) (K.faults sink.old) (K.faults sink.new) result }
    ensures untouched { (why : Status) → lines ≡ Err why → sink.new ≡ sink.old }
{
    match lines {
        Ok(lines) => {
            if write_all(sink, lines.bytes()) {
                Status::Done
            } else {
                Status::WriteFault
            }
        }
        Err(status) => status,
    }
}
