ghost use Rattle.std.specs.Prelude.{◌≡◌, ◌≢◌, ◌≤◌, IfOk, length};
ghost use Rattle.std.specs.Arc.{arc_value};
ghost use Rattle.shop_book.specs.Openings.{most_entries};
ghost use Rattle.shop_edges.specs.Causes.{Rose};
ghost use Rattle.shop_model.specs.lists.Catalogues.{opened};
ghost use Rattle.shop_words.specs.declared.command.Command.{Command};
ghost use Rattle.shop_words.specs.Commands.{IsCommand};
ghost use Rattle.shop_app.specs.Statuses.{IsFaultless};
ghost use Rattle.shop_app.specs.Runs.{RunsBy, SessionBy};
ghost use Rattle.shop_app.specs.Session.{IsFirst};
ghost use Rattle.shop_app.specs.Told.{IsForSeveral, IsTold};

use crate::Status;
use crate::driven::drive_browsers;
use crate::gateway::answer_lines;
use shop_book::{Book, Solo};
use shop_edges::{Clock, Gateway, Sink, Source, write_all};
use shop_engine::{Worker, serve_connection};
use shop_model::Tables;
use shop_populate::populate;
use shop_search::Index;
use shop_text::{Memory, Text};
use shop_words::{Command, Parsed, Session, command_of};
use std::alloc::Global;
use std::sync::Arc;

/// The caller of a session.
const CALLER: u32 = 1;

/// Does what the words say, for one caller, over the shop that the options choose, whose payments the gateway takes:
/// `session` serves one connection from the source to the sink, `drive` has browsers ask, and prints a summary to the
/// sink, and `gateway` answers lines that ask for payments, by a ledger of its own. Where that doesn't end well, a line
/// on the faults sink tells it; a fault of that sink changes no status.
pub fn run_alone<S: Source, K: Sink, C: Clock, G: Gateway>(
    alloc: Global,
    words: &[Text],
    source: &mut S,
    sink: &mut K,
    faults: &mut K,
    clock: &mut C,
    gateway: &mut G,
) -> Status
    ensures bad_words { result ≡ Status.BadWords → (command : Command) → IsCommand words.now command → IsForSeveral command }
    ensures untouched { result ≡ Status.BadWords → (source.new ≡ source.old) × (sink.new ≡ sink.old) × (clock.new ≡ clock.old) × (gateway.new ≡ gateway.old) }
    ensures run { RunsBy (S.Source, K.Sink, C.Clock, G.Gateway) words.now
        (source.old, sink.old, clock.old, gateway.old) (source.new, sink.new, clock.new, gateway.new) result }
    ensures reads { S.faults source.old ≤ S.faults source.new }
    ensures writes { K.faults sink.old ≤ K.faults sink.new }
    ensures complete { result ≢ Status.BadWords → ¬ (Rose (S.faults source.old) (S.faults source.new)) → ¬ (Rose (K.faults sink.old) (K.faults sink.new)) → IsFaultless result }
    ensures told { IsTold (K.held faults.old) (K.held faults.new) (K.faults faults.old) (K.faults faults.new) result }
    ensures later { K.faults faults.old ≤ K.faults faults.new }
{
    let status = run(alloc, words, source, sink, clock, gateway);
    let _ = write_all(faults, status.line());
    status
}

/// Does what the words say.
fn run<S: Source, K: Sink, C: Clock, G: Gateway>(
    alloc: Global,
    words: &[Text],
    source: &mut S,
    sink: &mut K,
    clock: &mut C,
    gateway: &mut G,
) -> Status
    ensures bad_words { result ≡ Status.BadWords → (command : Command) → IsCommand words.now command → IsForSeveral command }
    ensures untouched { result ≡ Status.BadWords → (source.new ≡ source.old) × (sink.new ≡ sink.old) × (clock.new ≡ clock.old) × (gateway.new ≡ gateway.old) }
    ensures run { RunsBy (S.Source, K.Sink, C.Clock, G.Gateway) words.now
        (source.old, sink.old, clock.old, gateway.old) (source.new, sink.new, clock.new, gateway.new) result }
    ensures reads { S.faults source.old ≤ S.faults source.new }
    ensures writes { K.faults sink.old ≤ K.faults sink.new }
{
    match command_of(alloc, words) {
        Parsed::Good(Command::Session(asked)) => {
            session(alloc, asked, source, sink, clock, gateway)
        }
        Parsed::Good(Command::Drive(asked)) => drive_browsers(alloc, asked, sink, clock, gateway),
        Parsed::Good(Command::Gateway) => answer_lines(alloc, source, sink),
        Parsed::Good(Command::Race(_) | Command::Serve(_)) | Parsed::Bad => Status::BadWords,
        Parsed::Memory => Status::Memory,
    }
}

/// The index of what tables open with, which workers may share.
#[tactic(auto, using(shop_model::proofs::cited::Opened::opened_all))]
pub fn index_of(alloc: Global, tables: &Tables) -> Result<Arc<Index, Global>, Memory>
    requires { tables.now.born_items ≡ length tables.now.items }
    ensures { IfOk result (λ index. arc_value index ≡ opened tables.now) }
{
    let index = Index::build(alloc, tables)?;
    let index = Arc::new(alloc, index)?;
    Ok(index)
}

/// A worker of caller 1, who has the shop of a session alone, that has served no request.
pub fn first_worker(alloc: Global, asked: Session) -> Result<Worker<Solo>, Memory>
    requires { asked.limit ≤ most_entries }
    ensures { IfOk result (IsFirst asked) }
{
    let tables = populate(alloc, asked.seed, &asked.scale)?;
    let index = index_of(alloc, &tables)?;
    let book = Book::open(alloc, tables, asked.limit)?;
    Worker::new(
        alloc,
        Solo::new(book),
        CALLER,
        asked.seed,
        asked.scale,
        index,
    )
}

/// Serves one connection of the caller over a shop of its own.
fn session<S: Source, K: Sink, C: Clock, G: Gateway>(
    alloc: Global,
    asked: Session,
    source: &mut S,
    sink: &mut K,
    clock: &mut C,
    gateway: &mut G,
) -> Status
    requires { asked.limit ≤ most_entries }
    ensures session { SessionBy (S.Source, K.Sink, C.Clock, G.Gateway) asked
        (source.old, sink.old, clock.old, gateway.old) (source.new, sink.new, clock.new, gateway.new) result }
    ensures reads { S.faults source.old ≤ S.faults source.new }
    ensures writes { K.faults sink.old ≤ K.faults sink.new }
{
    let Ok(mut worker) = first_worker(alloc, asked) else {
        return Status::Memory;
    };
    let report = serve_connection(alloc, &mut worker, source, sink, clock, gateway);
    Status::of(report.end)
}
