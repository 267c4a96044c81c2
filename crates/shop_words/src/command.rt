ghost use Rattle.std.specs.Prelude.{◌≡◌};
ghost use Rattle.shop_words.specs.Commands.{IfGood, IsCommand, IsRead};

use crate::choices;
use crate::options::{Refusal, options_of, texts_of};
use shop_browsers::Mix;
use shop_model::Scale;
use shop_text::Text;
use std::alloc::Global;

/// What the words ask for.
#[derive(Clone, Copy, Debug, PartialEq, Eq)]
pub enum Command {
    /// One connection is served, from standard input to standard output.
    Session(Session),
    /// Browsers are driven over a shop of their own, and a summary is printed.
    Drive(Drive),
    /// Workers on threads share a shop, each with a browser, and a summary is printed.
    Race(Race),
    /// Connections that peers open on a port are served by workers who share a shop, and a summary is printed.
    Serve(Serve),
    /// Lines that ask for payments are answered, from standard input to standard output.
    Gateway,
}

/// The shop of a session.
#[derive(Clone, Copy, Debug, PartialEq, Eq)]
pub struct Session {
    pub scale: Scale,
    /// The seed that its population and its words are drawn from.
    pub seed: u32,
    /// How many changes its log may hold: 1 to 1,000,000.
    pub limit: u64,
}

/// Browsers, and the shop that they are driven over.
#[derive(Clone, Copy, Debug, PartialEq, Eq)]
pub struct Drive {
    pub shop: Session,
    /// 1 to 64.
    pub browsers: u32,
    /// 1 to 100,000.
    pub steps: u32,
    pub mix: Mix,
}

/// Workers, and the shop that they share.
#[derive(Clone, Copy, Debug, PartialEq, Eq)]
pub struct Race {
    pub shop: Session,
    /// 1 to 16.
    pub workers: u32,
    /// 1 to 100,000.
    pub steps: u32,
    pub mix: Mix,
}

/// A port, the workers that serve its connections, and the shop that they share.
#[derive(Clone, Copy, Debug, PartialEq, Eq)]
pub struct Serve {
    pub shop: Session,
    /// Of this machine: 1 to 65,535.
    pub port: u16,
    /// 1 to 16.
    pub workers: u32,
    /// 1 to 1,000,000.
    pub connections: u32,
    /// The port of this machine at which payments are asked for; 0 gives each worker a gateway of its own.
    pub gateway: u16,
}

/// What words came to.
#[derive(Clone, Copy, Debug, PartialEq, Eq)]
pub enum Parsed<T> {
    /// They are in the grammar, and ask for this.
    Good(T),
    /// They are not in the grammar.
    Bad,
    /// Memory ran out.
    Memory,
}

/// The names of a session's options.
static SESSION: [&str; 3] = ["scale", "seed", "limit"];

/// The names of a drive's options.
static DRIVE: [&str; 6] = ["browsers", "steps", "mix", "scale", "seed", "limit"];

/// The names of a race's options.
static RACE: [&str; 6] = ["workers", "steps", "mix", "scale", "seed", "limit"];

/// The names of the options of `serve`.
static SERVE: [&str; 7] = [
    "port",
    "workers",
    "connections",
    "gateway",
    "scale",
    "seed",
    "limit",
];

/// A gateway has no options.
static GATEWAY: [&str; 0] = [];

/// The command that the words give. The first one names it, and the others are its options, each written
/// `--name value` or `--name=value`, at most once, in any order.
pub fn command_of(alloc: Global, words: &[Text]) -> Parsed<Command>
    ensures command { IfGood result (IsCommand words.now) }
    ensures only { IfGood result (λ command. (other : Command) → IsCommand words.now other → other ≡ command) }
    ensures bad { result ≡ Parsed.Bad → (command : Command) → ¬ (IsCommand words.now command) }
{
    match read_command(alloc, words) {
        Ok(command) => Parsed::Good(command),
        Err(Refusal::Bad) => Parsed::Bad,
        Err(Refusal::Memory) => Parsed::Memory,
    }
}

fn read_command(alloc: Global, words: &[Text]) -> Result<Command, Refusal>
    ensures { IsRead (IsCommand words.now) result }
{
    let texts = texts_of(alloc, words)?;
    let texts = texts.as_slice();
    match texts {
        ["session", ..] => {
            let found = options_of(alloc, &SESSION, texts)?;
            match choices::session_of(&found) {
                Some(session) => Ok(Command::Session(session)),
                None => Err(Refusal::Bad),
            }
        }
        ["drive", ..] => {
            let found = options_of(alloc, &DRIVE, texts)?;
            match choices::drive_of(&found) {
                Some(drive) => Ok(Command::Drive(drive)),
                None => Err(Refusal::Bad),
            }
        }
        ["race", ..] => {
            let found = options_of(alloc, &RACE, texts)?;
            match choices::race_of(&found) {
                Some(race) => Ok(Command::Race(race)),
                None => Err(Refusal::Bad),
            }
        }
        ["serve", ..] => {
            let found = options_of(alloc, &SERVE, texts)?;
            match choices::serve_of(&found) {
                Some(serve) => Ok(Command::Serve(serve)),
                None => Err(Refusal::Bad),
            }
        }
        ["gateway", ..] => {
            options_of(alloc, &GATEWAY, texts)?;
            Ok(Command::Gateway)
        }
        _ => Err(Refusal::Bad),
    }
}
