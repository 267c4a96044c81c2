//! The file of a shop: made where it is empty, and else opened.
ghost use Rattle.std.specs.Option.{ForSome};
ghost use Rattle.std.specs.Prelude.{Decides, ◌≡◌, ◌≢◌, ◌≤◌, [], List, ℕ, Some, is_some};
ghost use Rattle.shop_records.specs.Looking.{Looks};
ghost use Rattle.shop_keep.specs.Files as spec;
ghost use Rattle.shop_keep.specs.Files.{OpenedAs, disk_opened};

use shop_app::Status;
use shop_disk::Disk;
use shop_history::Entry;
use shop_journal::{Created, Found, Head, Journal};
use shop_words::Session;
use std::alloc::Global;

/// What the file of a shop gives: its journal with the entries that are in it, or why there is none.
#[derive(Drop)]
pub(crate) enum Opened<D: Disk> {
    Journal(Journal<D>, Vec<Entry>),
    Not(D, Status),
}

/// The shop that the words choose, as a journal names it.
fn head_of(asked: &Session) -> Head
    ensures { result ≡ spec.head_of asked.now }
{
    Head {
        seed: asked.seed,
        scale: asked.scale,
    }
}

/// Whether a journal is of the shop that the words choose.
fn is_of(head: &Head, asked: &Session) -> bool
    ensures { Decides result (head.now ≡ spec.head_of asked.now) }
{
    *head == head_of(asked)
}

/// The journal of the shop that the words choose. A file that is empty becomes one.
pub(crate) fn journal_of<D: Disk>(alloc: Global, disk: D, asked: &Session) -> Opened<D>
    ensures opened { OpenedAs D.state (D.state disk) asked.now result }
    // A file with bytes is left as it was.
    ensures left { (file : List ℕ) → (D.state disk).told ≡ Some file → file ≢ [] → (D.state (disk_opened result)).told ≡ Some file }
    ensures tells { is_some (D.state (disk_opened result)).told ≡ is_some (D.state disk).told }
    ensures later { (D.state disk).faults ≤ (D.state (disk_opened result)).faults }
{
    match Journal::create(alloc, disk, asked.seed, &asked.scale) {
        Created::Done(journal) => Opened::Journal(journal, Vec::new(alloc)),
        Created::NotEmpty(disk) => found(alloc, disk, asked),
        Created::Failed(disk) => Opened::Not(disk, Status::DiskFault),
        Created::Memory(disk) => Opened::Not(disk, Status::Memory),
    }
}

/// The journal that is in a file with bytes.
fn found<D: Disk>(alloc: Global, disk: D, asked: &Session) -> Opened<D>
    requires { ForSome (D.state disk).told (λ file. file ≢ []) }
    ensures opened { OpenedAs D.state (D.state disk) asked.now result }
    ensures looks { Looks (D.state disk) (D.state (disk_opened result)) }
{
    match Journal::open(alloc, disk) {
        Found::Open(journal, head, entries) => {
            if is_of(&head, asked) {
                Opened::Journal(journal, entries)
            } else {
                Opened::Not(journal.into_disk(), Status::NotThisJournal)
            }
        }
        Found::OldFormat(disk) => Opened::Not(disk, Status::NotThisJournal),
        Found::NotAJournal(disk, _) => Opened::Not(disk, Status::NotThisJournal),
        Found::Failed(disk) => Opened::Not(disk, Status::DiskFault),
        Found::Memory(disk) => Opened::Not(disk, Status::Memory),
    }
}
