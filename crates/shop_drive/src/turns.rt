ghost use Rattle.std.specs.Prelude.{◌≡◌, ◌≤◌};
ghost use Rattle.shop_attempt.specs.Seats.{Follows};
ghost use Rattle.shop_engine.specs.Stores.{Keeps};
ghost use Rattle.shop_history.specs.Lawful.{IsLawful};
ghost use Rattle.shop_drive.specs.Meanings.{DrivesBy, TurnBy};
ghost use Rattle.shop_drive.specs.Turns as spec;

use crate::Tally;
use shop_attempt::Store;
use shop_browsers::Browser;
use shop_edges::{Clock, Gateway};
use shop_engine::Worker;
use shop_message::Message;
use shop_text::Memory;
use std::alloc::Global;

/// Has the browsers take turns, so many steps each: each asks, its message is answered, and it takes what the
/// page shows.
pub fn drive<St: Store, C: Clock, G: Gateway>(
    alloc: Global,
    worker: &mut Worker<St>,
    clock: &mut C,
    gateway: &mut G,
    browsers: &mut [Browser],
    steps: u32,
) -> Result<Tally, Memory>
    ensures drives { DrivesBy (St.Store, C.Clock, G.Gateway)
        (worker.old, browsers.old, clock.old, gateway.old) (worker.new, browsers.new, clock.new, gateway.new) steps result }
    ensures caller { worker.new.caller ≡ worker.old.caller }
    ensures follows { Follows (St.seat worker.old.store) (St.seat worker.new.store) }
    ensures lawful { IsLawful (St.seat worker.new.store).opening (St.seat worker.new.store).seen }
    ensures marks { Keeps St.Store worker.old.store worker.new.store }
    ensures later { G.faults gateway.old ≤ G.faults gateway.new }
{
    let tally = take_turns(alloc, worker, clock, gateway, browsers, steps);
    // Whatever came of it, the log that the worker's store has is lawful.
    let _ = worker.store();
    tally
}

/// Has the browsers take turns.
fn take_turns<St: Store, C: Clock, G: Gateway>(
    alloc: Global,
    worker: &mut Worker<St>,
    clock: &mut C,
    gateway: &mut G,
    browsers: &mut [Browser],
    steps: u32,
) -> Result<Tally, Memory>
    ensures drives { DrivesBy (St.Store, C.Clock, G.Gateway)
        (worker.old, browsers.old, clock.old, gateway.old) (worker.new, browsers.new, clock.new, gateway.new) steps result }
    ensures caller { worker.new.caller ≡ worker.old.caller }
    ensures marks { Keeps St.Store worker.old.store worker.new.store }
    ensures later { G.faults gateway.old ≤ G.faults gateway.new }
{
    let mut message = Browser::empty_message(alloc)?;
    let mut tally = Tally::new();
    for round in 0..steps {
        for place in 0..browsers.len() {
            let browser = &mut browsers[place];
            let is_page = take_turn(worker, clock, gateway, browser, &mut message)?;
            tally.count(is_page);
        }
    }
    Ok(tally)
}

/// Has a browser ask by the message that is kept for it, and lets it take what the reply shows; tells whether that has
/// status 200.
fn take_turn<St: Store, C: Clock, G: Gateway>(
    worker: &mut Worker<St>,
    clock: &mut C,
    gateway: &mut G,
    browser: &mut Browser,
    message: &mut Message,
) -> Result<bool, Memory>
    ensures turn { TurnBy (St.Store, C.Clock, G.Gateway)
        (worker.old, browser.old, clock.old, gateway.old) (worker.new, browser.new, clock.new, gateway.new) result }
    ensures caller { worker.new.caller ≡ worker.old.caller }
    ensures marks { Keeps St.Store worker.old.store worker.new.store }
    ensures later { G.faults gateway.old ≤ G.faults gateway.new }
{
    browser.next_message(message)?;
    let Some(_) = worker.answer(message, false, clock, gateway) else {
        return Err(Memory);
    };
    let reply = worker.reply();
    browser.take_shown(reply);
    Ok(is_page(reply))
}

/// Whether a reply has status 200.
fn is_page(reply: &[u8]) -> bool
    ensures { result ≡ spec.is_page reply.now }
{
    reply.starts_with(b"HTTP/1.1 200 ")
}
