ghost use Rattle.std.specs.Prelude.{◌≡◌, ◌≤◌, is_some};
ghost use Rattle.shop_app.specs.declared.status.Status.{Status};
ghost use Rattle.shop_app.specs.Told.{IsTold};
ghost use Rattle.shop_words.specs.declared.kept.KeptCommand.{KeptCommand};
ghost use Rattle.shop_words.specs.Kept.{IsKeptCommand};
ghost use Rattle.shop_keep.specs.Runs.{RunsKept};

use crate::moving::move_journal;
use crate::session::keep;
use shop_app::Status;
use shop_disk::Disk;
use shop_edges::{Clock, Gateway, Sink, Source, write_all};
use shop_text::Text;
use shop_words::{KeptCommand, Parsed, kept_command_of};
use std::alloc::Global;

/// Does what the words say, with files that outlive the program: `keep` serves one connection from the source to the sink,
/// over the shop whose log is in a file of the first disk; `migrate` carries a journal of the first format over from a file
/// of the first disk into one of the second, and prints to the sink how many entries it has. Where that doesn't end well,
/// a line on the faults sink tells it; a fault of that sink changes no status. Both disks are handed back.
pub fn run_kept<D: Disk, S: Source, K: Sink, C: Clock, G: Gateway>(
    alloc: Global,
    words: &[Text],
    disk: D,
    other: D,
    source: &mut S,
    sink: &mut K,
    faults: &mut K,
    clock: &mut C,
    gateway: &mut G,
) -> (Status, D, D)
    ensures bad_words { result.0 ≡ Status.BadWords → (command : KeptCommand) → ¬ (IsKeptCommand words.now command) }
    ensures untouched { result.0 ≡ Status.BadWords → (result.1 ≡ disk) × (result.2 ≡ other) × (source.new ≡ source.old) × (sink.new ≡ sink.old)
        × (clock.new ≡ clock.old) × (gateway.new ≡ gateway.old) }
    ensures run { RunsKept (D.state, D.named) (S.Source, K.Sink, C.Clock, G.Gateway) words.now
        ((disk, other), (source.old, sink.old, clock.old, gateway.old)) ((result.1, result.2), (source.new, sink.new, clock.new, gateway.new)) result.0 }
    ensures told { IsTold (K.held faults.old) (K.held faults.new) (K.faults faults.old) (K.faults faults.new) result.0 }
    ensures tells { (is_some (D.state result.1).told ≡ is_some (D.state disk).told) × (is_some (D.state result.2).told ≡ is_some (D.state other).told) }
    ensures fails { ((D.state disk).faults ≤ (D.state result.1).faults) × ((D.state other).faults ≤ (D.state result.2).faults) }
    ensures reads { S.faults source.old ≤ S.faults source.new }
    ensures writes { K.faults sink.old ≤ K.faults sink.new }
    ensures later { K.faults faults.old ≤ K.faults faults.new }
{
    let (status, disk, other) = run(alloc, words, disk, other, source, sink, clock, gateway);
    let _ = write_all(faults, status.line());
    (status, disk, other)
}

/// Does what the words say.
fn run<D: Disk, S: Source, K: Sink, C: Clock, G: Gateway>(
    alloc: Global,
    words: &[Text],
    disk: D,
    other: D,
    source: &mut S,
    sink: &mut K,
    clock: &mut C,
    gateway: &mut G,
) -> (Status, D, D)
    ensures bad_words { result.0 ≡ Status.BadWords → (command : KeptCommand) → ¬ (IsKeptCommand words.now command) }
    ensures untouched { result.0 ≡ Status.BadWords → (result.1 ≡ disk) × (result.2 ≡ other) × (source.new ≡ source.old) × (sink.new ≡ sink.old)
        × (clock.new ≡ clock.old) × (gateway.new ≡ gateway.old) }
    ensures run { RunsKept (D.state, D.named) (S.Source, K.Sink, C.Clock, G.Gateway) words.now
        ((disk, other), (source.old, sink.old, clock.old, gateway.old)) ((result.1, result.2), (source.new, sink.new, clock.new, gateway.new)) result.0 }
    ensures tells { (is_some (D.state result.1).told ≡ is_some (D.state disk).told) × (is_some (D.state result.2).told ≡ is_some (D.state other).told) }
    ensures fails { ((D.state disk).faults ≤ (D.state result.1).faults) × ((D.state other).faults ≤ (D.state result.2).faults) }
    ensures reads { S.faults source.old ≤ S.faults source.new }
    ensures writes { K.faults sink.old ≤ K.faults sink.new }
{
    match kept_command_of(alloc, words) {
        Parsed::Good(KeptCommand::Keep(asked)) => {
            let (status, disk) = keep(alloc, &asked, disk, source, sink, clock, gateway);
            (status, disk, other)
        }
        Parsed::Good(KeptCommand::Migrate(asked)) => move_journal(alloc, &asked, disk, other, sink),
        Parsed::Bad => (Status::BadWords, disk, other),
        Parsed::Memory => (Status::Memory, disk, other),
    }
}
