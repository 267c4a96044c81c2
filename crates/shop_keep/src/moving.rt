//! A journal of the first format, carried over into another file.
ghost use Rattle.std.specs.Prelude.{◌≡◌, ◌≤◌, ◌++◌, [], OnOk, is_some};
ghost use Rattle.shop_keep.specs.Moves.{EndsAs, TellsAs, entries_line};
ghost use Rattle.shop_keep.specs.Runs.{MovesBy};

use shop_app::Status;
use shop_disk::{Disk, Opened};
use shop_edges::{Sink, write_all};
use shop_journal::{Migrated, migrate};
use shop_text::{Memory, Text};
use shop_words::Migrate;
use std::alloc::Global;

/// The bytes that the line has room for.
const ROOM: usize = 40;

/// Adds the line that tells how many entries were carried over.
fn push_entries(text: &mut Text, count: u64) -> Result<(), Memory>
    ensures { OnOk result (text.new ≡ text.old ++ entries_line count) }
{
    text.push(b"entries ")?;
    text.push_decimal(count)?;
    text.push(b"\n")
}

/// Prints that line.
fn tell<K: Sink>(text: &mut Text, count: u64, sink: &mut K) -> Status
    requires { text.old ≡ [] }
    ensures tells { TellsAs count (K.held sink.old) (K.held sink.new) (K.faults sink.old) (K.faults sink.new) result }
    ensures later { K.faults sink.old ≤ K.faults sink.new }
{
    let Ok(()) = push_entries(text, count) else {
        return Status::Memory;
    };
    if write_all(sink, text.bytes()) {
        Status::Done
    } else {
        Status::WriteFault
    }
}

/// The status of a migration, whose line is printed where it was done.
fn outcome<K: Sink>(migrated: Migrated, text: &mut Text, sink: &mut K) -> Status
    requires { text.old ≡ [] }
    ensures ends { EndsAs migrated (K.held sink.old) (K.held sink.new) (K.faults sink.old) (K.faults sink.new) result }
    ensures later { K.faults sink.old ≤ K.faults sink.new }
{
    match migrated {
        Migrated::Done(count) => tell(text, count, sink),
        Migrated::NotAJournal(_) | Migrated::NotEmpty => Status::NotThisJournal,
        Migrated::Failed => Status::DiskFault,
        Migrated::Memory => Status::Memory,
    }
}

/// Carries the journal of one file over into another, which is empty.
pub(crate) fn move_journal<D: Disk, K: Sink>(
    alloc: Global,
    asked: &Migrate,
    old: D,
    new: D,
    sink: &mut K,
) -> (Status, D, D)
    ensures moved { MovesBy (D.state, D.named) K.Sink asked.now (old, new, sink.old) (result.1, result.2, sink.new) result.0 }
    ensures tells { (is_some (D.state result.1).told ≡ is_some (D.state old).told) × (is_some (D.state result.2).told ≡ is_some (D.state new).told) }
    ensures fails { ((D.state old).faults ≤ (D.state result.1).faults) × ((D.state new).faults ≤ (D.state result.2).faults) }
    ensures writes { K.faults sink.old ≤ K.faults sink.new }
{
    let (mut old, mut new) = (old, new);
    let Opened::Open = old.open(asked.from.bytes()) else {
        return (Status::DiskFault, old, new);
    };
    let Opened::Open = new.open(asked.to.bytes()) else {
        return (Status::DiskFault, old, new);
    };
    // Room for the line, so that it can be printed once the file is made.
    let Ok(mut text) = Text::with_capacity(alloc, ROOM) else {
        return (Status::Memory, old, new);
    };
    let (migrated, old, new) = migrate(alloc, old, new);
    (outcome(migrated, &mut text, sink), old, new)
}
