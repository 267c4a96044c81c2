//! The command of lanes, at which one thread serves many connections.
ghost use Rattle.std.specs.Prelude.{◌≡◌, ◌↔◌, IsTrue, codes};
ghost use Rattle.shop_words.specs.Commands.{IfGood, IsRead};
ghost use Rattle.shop_words.specs.Polled.{IsPoll, IsPollable, IsPolled};

use crate::choices;
use crate::command::{Parsed, Session};
use crate::options::{Refusal, options_of, texts_of};
use shop_text::Text;
use std::alloc::Global;

/// A port, the lanes at which one thread serves its connections, and the shop that they share.
#[derive(Debug, Drop, PartialEq, Eq)]
pub struct Poll {
    pub shop: Session,
    /// Of this machine: 1 to 65,535.
    pub port: u16,
    /// How many connections are served at once: 1 to 16.
    pub lanes: u32,
    /// 1 to 1,000,000.
    pub connections: u32,
}

/// The names of the options of `poll`. It has no gateway that is dialled: to wait for one would block all lanes.
static POLL: [&str; 6] = ["port", "lanes", "connections", "scale", "seed", "limit"];

/// Whether the words are for `poll_of`, and for no other call that reads words: the first of them says so.
pub fn is_polled(words: &[Text]) -> bool
    ensures { IsTrue result ↔ IsPolled words.now }
{
    match words {
        [command, ..] => is_polled_name(command.bytes()),
        [] => false,
    }
}

/// Whether the command with this name is the one of lanes.
fn is_polled_name(name: &[u8]) -> bool
    ensures { IsTrue result ↔ (name.now ≡ codes "poll") }
{
    name == b"poll".as_slice()
}

/// The command of lanes that the words give. Its name and its options are written as those of `command_of`.
pub fn poll_of(alloc: Global, words: &[Text]) -> Parsed<Poll>
    ensures command { IfGood result (IsPoll words.now) }
    ensures only { IfGood result (λ poll. (other : Poll) → IsPoll words.now other → other ≡ poll) }
    ensures bad { result ≡ Parsed.Bad → (poll : Poll) → ¬ (IsPoll words.now poll) }
    ensures within { IfGood result IsPollable }
{
    match read_poll(alloc, words) {
        Ok(poll) => Parsed::Good(poll),
        Err(Refusal::Bad) => Parsed::Bad,
        Err(Refusal::Memory) => Parsed::Memory,
    }
}

fn read_poll(alloc: Global, words: &[Text]) -> Result<Poll, Refusal>
    ensures { IsRead (IsPoll words.now) result }
{
    let texts = texts_of(alloc, words)?;
    let texts = texts.as_slice();
    match texts {
        ["poll", ..] => {
            let found = options_of(alloc, &POLL, texts)?;
            match choices::poll_of(&found) {
                Some(poll) => Ok(poll),
                None => Err(Refusal::Bad),
            }
        }
        _ => Err(Refusal::Bad),
    }
}
