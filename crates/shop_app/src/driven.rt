//! The command `drive`.
ghost use Rattle.std.specs.Prelude.{◌≡◌, ◌≢◌, ◌≤◌, IfOk, OnErr, MatchResult, Ok, IsErr};
ghost use Rattle.shop_history.specs.Lawful.{IsLawful};
ghost use Rattle.shop_book.specs.Openings.{most_entries};
ghost use Rattle.shop_book.specs.Solos.{seat_of};
ghost use Rattle.shop_app.specs.Driving as spec;
ghost use Rattle.shop_app.specs.Driving.{DroveTo, Unfinished};
ghost use Rattle.shop_app.specs.Meanings.{DrivenBy, NotedBy};
ghost use Rattle.shop_app.specs.Noted.{TellsOf};
ghost use Rattle.shop_app.specs.Outside.{outside};
ghost use Rattle.shop_app.specs.Session.{IsFirst};
ghost use Rattle.shop_app.specs.Summaries.{drive_lines};

use crate::Status;
use crate::alone::first_worker;
use crate::summary::{authorised_only, summary_lines};
use shop_book::{Book, Solo};
use shop_browsers::Browser;
use shop_drive::{Tally, drive};
use shop_edges::{Answer, Clock, Gateway, Sink, write_all};
use shop_engine::Worker;
use shop_gateway::{GivenBack, Noting, Told};
use shop_text::{Listed, Memory, Text};
use shop_words::Drive;
use std::alloc::Global;
use std::marker::Brand;

/// How the requests of browsers went, and what the gateway answered to each charge first.
#[derive(Drop)]
struct Driven {
    tally: Tally,
    answers: Listed<Answer>,
}

fn with_answers(tally: Result<Tally, Memory>, answers: Listed<Answer>) -> Result<Driven, Memory>
    ensures { MatchResult result (λ driven. (tally ≡ Ok driven.tally) × (driven.answers ≡ answers)) (λ _. IsErr tally) }
{
    match tally {
        Ok(tally) => Ok(Driven { tally, answers }),
        Err(Memory) => Err(Memory),
    }
}

/// The browsers that the words name, which made no request yet.
fn first_browsers(alloc: Global, asked: &Drive) -> Result<Vec<Browser>, Memory>
    ensures { IfOk result (λ browsers. browsers.items ≡ spec.first_browsers asked.now) }
{
    let mut browsers = Vec::new(alloc);
    for before in 0..asked.browsers {
        let number = before + 1;
        browsers.push(Browser::new(asked.shop.seed, number, asked.mix, &asked.shop.scale))?;
    }
    Ok(browsers)
}

/// Drives browsers, notes what the gateway answers, and gives it back.
fn drive_and_give_back<'a, C: Clock, G: Gateway, T: Told>(
    alloc: Global,
    worker: &mut Worker<Solo>,
    clock: &mut C,
    gateway: &'a mut G,
    browsers: &mut [Browser],
    steps: u32,
) -> GivenBack<'a, G, Result<Driven, Memory>>
    requires name { gateway.ghost_name ≡ T.name }
    requires told { G.answers gateway.old ≡ T.told }
    ensures name { result.gateway.ghost_name ≡ gateway.entry.ghost_name }
    ensures driven { NotedBy (C.Clock, G.Gateway) (worker.old, browsers.old, clock.old, gateway.old)
        (worker.new, browsers.new, clock.new, result.gateway.now) steps result.outcome }
    ensures lawful { IsLawful (seat_of worker.new.store).opening (seat_of worker.new.store).seen }
    ensures later { G.faults gateway.old ≤ G.faults result.gateway.now }
{
    let mut noting: Noting<'a, G, T> = Noting::new(alloc, gateway);
    let tally = drive(alloc, worker, clock, &mut noting, browsers, steps);
    let GivenBack {
        gateway,
        outcome: answers,
    } = noting.into_answers();
    GivenBack {
        gateway,
        outcome: with_answers(tally, answers),
    }
}

/// Drives browsers, and notes what the gateway answers.
fn drive_with_notes<C: Clock, G: Gateway>(
    alloc: Global,
    worker: &mut Worker<Solo>,
    clock: &mut C,
    gateway: &mut G,
    browsers: &mut [Browser],
    steps: u32,
) -> Result<Driven, Memory>
    ensures driven { NotedBy (C.Clock, G.Gateway)
        (worker.old, browsers.old, clock.old, gateway.old) (worker.new, browsers.new, clock.new, gateway.new) steps result }
    ensures lawful { IsLawful (seat_of worker.new.store).opening (seat_of worker.new.store).seen }
    ensures later { G.faults gateway.old ≤ G.faults gateway.new }
{
    drive_and_give_back::<C, G, Brand>(
        alloc, worker, clock, gateway, browsers, steps,
    ).into_outcome()
}

/// The lines that tell what a drive came to.
fn lines_of(alloc: Global, driven: &Driven, book: &Book) -> Result<Text, Memory>
    ensures { IfOk result (λ lines. lines ≡ drive_lines driven.now.tally driven.now.answers book.now) }
{
    let unused = authorised_only(driven.answers.as_slice(), book);
    summary_lines(alloc, &driven.tally, &book.summary(), unused)
}

/// The lines of a drive, where memory did not run out.
fn lines_if_driven(
    alloc: Global,
    driven: &Result<Driven, Memory>,
    book: &Book,
) -> Result<Text, Memory>
    ensures { IfOk result (TellsOf driven.now book.now) }
{
    match driven {
        Ok(driven) => lines_of(alloc, driven, book),
        Err(Memory) => Err(Memory),
    }
}

/// Drives the browsers over the first worker; the lines that tell what came of it.
fn drive_first_worker<C: Clock, G: Gateway>(
    alloc: Global,
    asked: &Drive,
    mut browsers: Vec<Browser>,
    mut worker: Worker<Solo>,
    clock: &mut C,
    gateway: &mut G,
) -> Result<Text, Memory>
    requires browsers { browsers.items ≡ spec.first_browsers asked.now }
    requires worker { IsFirst asked.now.shop worker }
    ensures ok { IfOk result (DroveTo asked.now (outside C.Clock G.Gateway clock.old gateway.old) (outside C.Clock G.Gateway clock.new gateway.new)) }
    ensures err { OnErr result (Unfinished asked.now (outside C.Clock G.Gateway clock.old gateway.old) (outside C.Clock G.Gateway clock.new gateway.new)) }
{
    let driven = drive_with_notes(
        alloc,
        &mut worker,
        clock,
        gateway,
        &mut browsers,
        asked.steps,
    );
    let book = worker.into_store().into_book();
    lines_if_driven(alloc, &driven, &book)
}

/// Drives the browsers that the words name over a shop of their own; the lines that tell what came of it.
fn drive_new_shop<C: Clock, G: Gateway>(
    alloc: Global,
    asked: &Drive,
    clock: &mut C,
    gateway: &mut G,
) -> Result<Text, Memory>
    requires { asked.now.shop.limit ≤ most_entries }
    ensures ok { IfOk result (DroveTo asked.now (outside C.Clock G.Gateway clock.old gateway.old) (outside C.Clock G.Gateway clock.new gateway.new)) }
    ensures err { OnErr result (Unfinished asked.now (outside C.Clock G.Gateway clock.old gateway.old) (outside C.Clock G.Gateway clock.new gateway.new)) }
{
    let browsers = first_browsers(alloc, asked)?;
    let worker = first_worker(alloc, asked.shop)?;
    drive_first_worker(alloc, asked, browsers, worker, clock, gateway)
}

/// Drives browsers, and prints what came of it.
pub(crate) fn drive_browsers<K: Sink, C: Clock, G: Gateway>(
    alloc: Global,
    asked: Drive,
    sink: &mut K,
    clock: &mut C,
    gateway: &mut G,
) -> Status
    requires { asked.shop.limit ≤ most_entries }
    ensures driven { DrivenBy (K.Sink, C.Clock, G.Gateway) asked
        (sink.old, clock.old, gateway.old) (sink.new, clock.new, gateway.new) result }
    ensures good_words { result ≢ Status.BadWords }
    ensures writes { K.faults sink.old ≤ K.faults sink.new }
{
    match drive_new_shop(alloc, &asked, clock, gateway) {
        Ok(lines) => {
            if write_all(sink, lines.bytes()) {
                Status::Done
            } else {
                Status::WriteFault
            }
        }
        Err(Memory) => Status::Memory,
    }
}
