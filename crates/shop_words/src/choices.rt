//! What the values of options choose.
ghost use Rattle.std.specs.Prelude.{◌≡◌, ℕ, List, Err, IfOk, IfSome, IfNone};
ghost use Rattle.clap.specs.Words.{first_value, found_of};
ghost use Rattle.shop_words.specs.Commands.{Chooses, ChoosesConnections, ChoosesDrive, ChoosesPort, ChoosesRace, ChoosesServe, ChoosesWorkload};
ghost use Rattle.shop_words.specs.Kept.{ChoosesKeep, ChoosesMigrate};
ghost use Rattle.shop_words.specs.Options.{IsRequired};
ghost use Rattle.shop_words.specs.Polled.{ChoosesPoll};
ghost use Rattle.shop_words.specs.Values.{IsFileName};

use crate::command::{Drive, Race, Serve, Session};
use crate::kept::{Keep, Migrate};
use crate::options::Refusal;
use crate::polled::Poll;
use crate::values::{
    browsers_of, connections_of, gateway_of, is_file_name, limit_of, mix_of, port_of, scale_of,
    steps_of, workers_of,
};
use clap::ArgMatches;
use shop_browsers::Mix;
use shop_model::Scale;
use shop_text::{Text, number_of};
use std::alloc::Global;

/// A shop, and what each browser or worker does there.
#[derive(Clone, Copy)]
pub(crate) struct Workload {
    shop: Session,
    steps: u32,
    mix: Mix,
}

pub(crate) fn session_of(found: &ArgMatches) -> Option<Session>
    ensures some { IfSome result (Chooses (first_value (found_of found.now))) }
    ensures none { IfNone result ((session : Session) → ¬ (Chooses (first_value (found_of found.now)) session)) }
{
    let scale = match found.get_str("scale") {
        Some(text) => scale_of(text)?,
        None => Scale::desk(),
    };
    let seed = match found.get_str("seed") {
        Some(text) => number_of(text.as_bytes())?,
        None => 0,
    };
    let limit = match found.get_str("limit") {
        Some(text) => limit_of(text)?,
        None => 1_000_000,
    };
    Some(Session { scale, seed, limit })
}

fn workload_of(found: &ArgMatches) -> Option<Workload>
    ensures some { IfSome result (ChoosesWorkload (first_value (found_of found.now))) }
    ensures none { IfNone result ((workload : Workload) → ¬ (ChoosesWorkload (first_value (found_of found.now)) workload)) }
{
    let shop = session_of(found)?;
    let steps = match found.get_str("steps") {
        Some(text) => steps_of(text)?,
        None => 100,
    };
    let mix = match found.get_str("mix") {
        Some(text) => mix_of(text)?,
        None => Mix::Shopping,
    };
    Some(Workload { shop, steps, mix })
}

pub(crate) fn drive_of(found: &ArgMatches) -> Option<Drive>
    ensures some { IfSome result (ChoosesDrive (first_value (found_of found.now))) }
    ensures none { IfNone result ((drive : Drive) → ¬ (ChoosesDrive (first_value (found_of found.now)) drive)) }
{
    let Workload { shop, steps, mix } = workload_of(found)?;
    let browsers = match found.get_str("browsers") {
        Some(text) => browsers_of(text)?,
        None => 1,
    };
    Some(Drive {
        shop,
        browsers,
        steps,
        mix,
    })
}

pub(crate) fn race_of(found: &ArgMatches) -> Option<Race>
    ensures some { IfSome result (ChoosesRace (first_value (found_of found.now))) }
    ensures none { IfNone result ((race : Race) → ¬ (ChoosesRace (first_value (found_of found.now)) race)) }
{
    let Workload { shop, steps, mix } = workload_of(found)?;
    let workers = match found.get_str("workers") {
        Some(text) => workers_of(text)?,
        None => 2,
    };
    Some(Race {
        shop,
        workers,
        steps,
        mix,
    })
}

fn chosen_port(found: &ArgMatches) -> Option<u16>
    ensures some { IfSome result (ChoosesPort (first_value (found_of found.now))) }
    ensures none { IfNone result ((port : ℕ) → ¬ (ChoosesPort (first_value (found_of found.now)) port)) }
{
    match found.get_str("port") {
        Some(text) => port_of(text),
        None => Some(8080),
    }
}

fn chosen_connections(found: &ArgMatches) -> Option<u32>
    ensures some { IfSome result (ChoosesConnections (first_value (found_of found.now))) }
    ensures none { IfNone result ((connections : ℕ) → ¬ (ChoosesConnections (first_value (found_of found.now)) connections)) }
{
    match found.get_str("connections") {
        Some(text) => connections_of(text),
        None => Some(1),
    }
}

pub(crate) fn serve_of(found: &ArgMatches) -> Option<Serve>
    ensures some { IfSome result (ChoosesServe (first_value (found_of found.now))) }
    ensures none { IfNone result ((serve : Serve) → ¬ (ChoosesServe (first_value (found_of found.now)) serve)) }
{
    let shop = session_of(found)?;
    let port = chosen_port(found)?;
    let workers = match found.get_str("workers") {
        Some(text) => workers_of(text)?,
        None => 4,
    };
    let connections = chosen_connections(found)?;
    let gateway = match found.get_str("gateway") {
        Some(text) => gateway_of(text)?,
        None => 0,
    };
    Some(Serve {
        shop,
        port,
        workers,
        connections,
        gateway,
    })
}

pub(crate) fn poll_of(found: &ArgMatches) -> Option<Poll>
    ensures some { IfSome result (ChoosesPoll (first_value (found_of found.now))) }
    ensures none { IfNone result ((poll : Poll) → ¬ (ChoosesPoll (first_value (found_of found.now)) poll)) }
{
    let shop = session_of(found)?;
    let port = chosen_port(found)?;
    let lanes = match found.get_str("lanes") {
        Some(text) => workers_of(text)?,
        None => 4,
    };
    let connections = chosen_connections(found)?;
    Some(Poll {
        shop,
        port,
        lanes,
        connections,
    })
}

pub(crate) fn keep_of(alloc: Global, found: &ArgMatches) -> Result<Keep, Refusal>
    ensures keep { IfOk result (ChoosesKeep (first_value (found_of found.now))) }
    ensures bad { result ≡ Err Refusal.Bad → (keep : Keep) → ¬ (ChoosesKeep (first_value (found_of found.now)) keep) }
{
    let Some(shop) = session_of(found) else {
        return Err(Refusal::Bad);
    };
    let journal = file_of(alloc, found, "journal")?;
    Ok(Keep { shop, journal })
}

pub(crate) fn migrate_of(alloc: Global, found: &ArgMatches) -> Result<Migrate, Refusal>
    ensures migrate { IfOk result (ChoosesMigrate (first_value (found_of found.now))) }
    ensures bad { result ≡ Err Refusal.Bad → (migrate : Migrate) → ¬ (ChoosesMigrate (first_value (found_of found.now)) migrate) }
{
    let from = file_of(alloc, found, "from")?;
    let to = file_of(alloc, found, "to")?;
    Ok(Migrate { from, to })
}

/// The name of a file that the option with this name must have.
fn file_of(alloc: Global, found: &ArgMatches, option: &str) -> Result<Text, Refusal>
    ensures file { IfOk result (IsRequired IsFileName (first_value (found_of found.now) option.now)) }
    ensures bad { result ≡ Err Refusal.Bad → (file : List ℕ) → ¬ (IsRequired IsFileName (first_value (found_of found.now) option.now) file) }
{
    match found.get_str(option) {
        Some(name) if is_file_name(name) => Ok(Text::copy(alloc, name.as_bytes())?),
        _ => Err(Refusal::Bad),
    }
}
