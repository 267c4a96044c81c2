//! The worker of a shop whose log is given.
ghost use Rattle.std.specs.Prelude.{◌≤◌};
ghost use Rattle.shop_book.specs.Openings.{most_entries};
ghost use Rattle.shop_keep.specs.Workers.{WorksAs};

use shop_app::{Status, index_of};
use shop_book::Solo;
use shop_engine::Worker;
use shop_history::Entry;
use shop_populate::populate;
use shop_replay::{Replayed, replay};
use shop_words::Session;
use std::alloc::Global;

/// The caller of a kept connection.
const CALLER: u32 = 1;

/// A worker of caller 1, who has alone the shop that the words choose, with the log of these entries. It has served no
/// request: its calls begin anew, whoever made the entries.
pub(crate) fn worker_over(
    alloc: Global,
    asked: &Session,
    entries: &[Entry],
) -> Result<Worker<Solo>, Status>
    requires { asked.now.limit ≤ most_entries }
    ensures { WorksAs asked.now entries.now result }
{
    let Ok(tables) = populate(alloc, asked.seed, &asked.scale) else {
        return Err(Status::Memory);
    };
    let Ok(index) = index_of(alloc, &tables) else {
        return Err(Status::Memory);
    };
    match replay(alloc, tables, &index, asked.limit, entries) {
        Replayed::Book(book) => {
            let solo = Solo::new(book);
            match Worker::new(alloc, solo, CALLER, asked.seed, asked.scale, index) {
                Ok(worker) => Ok(worker),
                Err(_) => Err(Status::Memory),
            }
        }
        Replayed::Illegal(_) => Err(Status::NotThisJournal),
        Replayed::Memory => Err(Status::Memory),
    }
}
