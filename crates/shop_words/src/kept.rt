//! The commands of a shop whose log is kept in a file.
ghost use Rattle.std.specs.Prelude.{◌≡◌, ◌↔◌, ◌⊎◌, IsTrue, codes};
ghost use Rattle.shop_words.specs.Commands.{IfGood, IsRead};
ghost use Rattle.shop_words.specs.Kept.{IsKept, IsKeptCommand};

use crate::choices::{keep_of, migrate_of};
use crate::command::{Parsed, Session};
use crate::options::{Refusal, options_of, texts_of};
use shop_text::Text;
use std::alloc::Global;

/// What the words ask of a journal, the file that keeps a shop's log.
#[derive(Debug, Drop, PartialEq, Eq)]
pub enum KeptCommand {
    /// One connection is served, from standard input to standard output, by the shop of a journal.
    Keep(Keep),
    /// A journal of the first format is written anew in the second.
    Migrate(Migrate),
}

/// A shop, and its journal.
#[derive(Debug, Drop, PartialEq, Eq)]
pub struct Keep {
    pub shop: Session,
    /// The name of its file: UTF-8, 1 to 100 bytes.
    pub journal: Text,
}

/// Two journals, each by the name of its file: UTF-8, 1 to 100 bytes. They may be the same.
#[derive(Debug, Drop, PartialEq, Eq)]
pub struct Migrate {
    pub from: Text,
    pub to: Text,
}

/// The names of the options of `keep`.
static KEEP: [&str; 4] = ["journal", "scale", "seed", "limit"];

/// The names of the options of `migrate`.
static MIGRATE: [&str; 2] = ["from", "to"];

/// Whether the words are for `kept_command_of`, and not for `command_of`: the first of them says so.
pub fn is_kept(words: &[Text]) -> bool
    ensures { IsTrue result ↔ IsKept words.now }
{
    match words {
        [command, ..] => is_kept_name(command.bytes()),
        [] => false,
    }
}

/// Whether the command with this name is one of a journal.
fn is_kept_name(name: &[u8]) -> bool
    ensures { IsTrue result ↔ ((name.now ≡ codes "keep") ⊎ (name.now ≡ codes "migrate")) }
{
    name == b"keep".as_slice() || name == b"migrate".as_slice()
}

/// The command of a journal that the words give. Its name and its options are written as those of `command_of`.
pub fn kept_command_of(alloc: Global, words: &[Text]) -> Parsed<KeptCommand>
    ensures command { IfGood result (IsKeptCommand words.now) }
    ensures only { IfGood result (λ command. (other : KeptCommand) → IsKeptCommand words.now other → other ≡ command) }
    ensures bad { result ≡ Parsed.Bad → (command : KeptCommand) → ¬ (IsKeptCommand words.now command) }
{
    match read_kept(alloc, words) {
        Ok(command) => Parsed::Good(command),
        Err(Refusal::Bad) => Parsed::Bad,
        Err(Refusal::Memory) => Parsed::Memory,
    }
}

fn read_kept(alloc: Global, words: &[Text]) -> Result<KeptCommand, Refusal>
    ensures { IsRead (IsKeptCommand words.now) result }
{
    let texts = texts_of(alloc, words)?;
    let texts = texts.as_slice();
    match texts {
        ["keep", ..] => {
            let found = options_of(alloc, &KEEP, texts)?;
            Ok(KeptCommand::Keep(keep_of(alloc, &found)?))
        }
        ["migrate", ..] => {
            let found = options_of(alloc, &MIGRATE, texts)?;
            Ok(KeptCommand::Migrate(migrate_of(alloc, &found)?))
        }
        _ => Err(Refusal::Bad),
    }
}
