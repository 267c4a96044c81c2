//! Two callers who buy as newcomers: the change of caller 2 falls between the reads of caller 1 and its settle.
ghost use Rattle.std.specs.Prelude.{◌≡◌, ◌≤◌, IfSome};
ghost use Rattle.shop_log.specs.Histories.{Extends};
ghost use Rattle.shop_model.specs.lists.Catalogues.{opened};
ghost use Rattle.shop_model.specs.population.Population.{populated};
ghost use Rattle.shop_model.specs.rows.Limits.{stamp_limit};
ghost use Rattle.shop_model.specs.rows.Sound.{Has};
ghost use Rattle.shop_attempt.specs.Faithful.{Faithful};
ghost use Rattle.shop_attempt.specs.Seats.{Follows};
ghost use Rattle.shop_book.specs.Solos.{seat_of};
ghost use Rattle.shop_browse.specs.Attempts.{Suits};

use crate::cancelling::one_unit;
use crate::deeds::{address_in, filled, settles};
use crate::opened::{book_of, empty_draft, index_of};
use shop_attempt::{Attempt, Settle, Store};
use shop_book::{Book, Solo, Visitor};
use shop_browse::{Ask, Attempted};
use shop_draft::Draft;
use shop_history::{Ids, Key, Row};
use shop_model::{BuyRequest, Buyer, Newcomer, Scale, TaxRule};
use shop_order::buy_request::buy_request;
use shop_search::Index;
use shop_text::{Memory, Shared};
use std::alloc::Global;
use std::test::Fail;

/// A newcomer who has an address in a country.
fn newcomer_in(alloc: Global, country: u32) -> Result<Newcomer, Memory>
    requires { Has 92 country }
{
    Ok(Newcomer {
        first: filled(alloc, b"Zoe")?,
        last: filled(alloc, b"B")?,
        phone: filled(alloc, b"5")?,
        email: filled(alloc, b"z")?,
        address: address_in(alloc, country)?,
    })
}

/// What a newcomer asks for, who buys cart 1 and has an address in a country.
fn asked(alloc: Global, country: u32) -> Result<BuyRequest, Memory>
    requires { Has 92 country }
{
    let newcomer = Shared::new(alloc, newcomer_in(alloc, country)?)?;
    Ok(BuyRequest {
        cart: 1,
        buyer: Buyer::Newcomer(newcomer),
    })
}

/// The attempt of a newcomer.
fn buying<St: Store>(
    alloc: Global,
    store: &mut St,
    ask: &Ask,
    asked: &BuyRequest,
    draft: &mut Draft,
) -> Option<Attempt>
    requires suits { Suits ask.now (St.seat store.old) }
    ensures follows { Follows (St.seat store.old) (St.seat store.new) }
    ensures faithful { IfSome result (Faithful (St.seat store.new).opening (St.seat store.new).seen) }
    ensures moment { IfSome result (λ attempt. attempt.moment ≡ ask.now.moment) }
{
    match buy_request(alloc, store, ask, asked, draft) {
        Attempted::Ready(attempt) => Some(attempt),
        Attempted::Listed(_, _) => None,
        Attempted::Pay(_) => None,
        Attempted::Contradiction(_) => None,
        Attempted::Memory => None,
    }
}

/// What a settle is told.
#[derive(Clone, Copy, PartialEq, Eq)]
enum Answer {
    Done(Ids),
    /// Whether it is an address that was looked for, the version read, and the one found.
    Stale(bool, u64, u64),
    Other,
}

/// What the settle of an attempt is told.
fn told<St: Store>(store: &mut St, attempt: Attempt) -> Answer
    requires faithful { Faithful (St.seat store.old).opening (St.seat store.old).seen attempt }
    requires moment { attempt.moment ≤ stamp_limit }
    ensures follows { Follows (St.seat store.old) (St.seat store.new) }
{
    match store.settle(attempt) {
        Settle::Done(drawn) => Answer::Done(drawn.ids),
        Settle::Stale(conflict) => {
            let address = matches!(conflict.key, Key::SameAddress(_));
            Answer::Stale(address, conflict.read, conflict.found)
        }
        Settle::Full(_) => Answer::Other,
        Settle::Memory => Answer::Other,
    }
}

/// What a newcomer is told whose attempt is settled at once.
#[tactic(auto, using(shop_attempt::proofs::cited::Looks::follows_trans))]
fn bought<St: Store>(
    alloc: Global,
    store: &mut St,
    ask: &Ask,
    asked: &BuyRequest,
    draft: &mut Draft,
) -> Option<Answer>
    requires suits { Suits ask.now (St.seat store.old) }
    requires moment { ask.now.moment ≤ stamp_limit }
    ensures follows { Follows (St.seat store.old) (St.seat store.new) }
{
    let attempt = buying(alloc, store, ask, asked, draft)?;
    Some(told(store, attempt))
}

/// What caller 2 is told, who has the seat meanwhile.
fn told_rival(
    alloc: Global,
    solo: &mut Solo,
    ask: &Ask,
    asked: &BuyRequest,
    draft: &mut Draft,
) -> Option<Answer>
    requires suits { Suits ask.now (seat_of solo.old) }
    requires moment { ask.now.moment ≤ stamp_limit }
    ensures opening { solo.new.book.opening.tables ≡ solo.old.book.opening.tables }
    ensures grows { Extends solo.old.book.log solo.new.book.log }
{
    let visitor = Visitor {
        caller: 2,
        calls: 0,
        settles: 0,
        greatest: 0,
    };
    let was = solo.turn(visitor);
    let told = bought(alloc, solo, ask, asked, draft);
    solo.turn(was);
    told
}

/// What caller 2 is told, and then caller 1 at its settles, of which there is a second one where the first
/// is stale.
#[tactic(auto, using(crate::proofs::Rivals::faithful_grown))]
fn told_in_turn(
    alloc: Global,
    solo: &mut Solo,
    ask: &Ask,
    mine: &BuyRequest,
    other: &BuyRequest,
    draft: &mut Draft,
) -> Option<[Answer; 3]>
    requires suits { Suits ask.now (seat_of solo.old) }
    requires moment { ask.now.moment ≤ stamp_limit }
{
    let cart = one_unit(alloc, solo, ask, None, draft)?;
    settles(solo, cart)?;
    let attempt = buying(alloc, solo, ask, mine, draft)?;
    let rival = told_rival(alloc, solo, ask, other, draft);
    let first = told(solo, attempt);
    let second = match first {
        Answer::Stale(_, _, _) => bought(alloc, solo, ask, mine, draft)?,
        _ => first,
    };
    Some([rival?, first, second])
}

/// The id of a customer's address, and the customer's version.
fn address_of(book: &mut Book, customer: u32) -> Option<(u32, u64)> {
    match book.read(&Key::Customer(customer)) {
        Ok((row, version)) => address_shown(&row, version),
        Err(_) => None,
    }
}

fn address_shown(row: &Row, version: u64) -> Option<(u32, u64)> {
    match row {
        Row::Customer(customer) => Some((customer.address, version)),
        _ => None,
    }
}

/// What the callers were told, and the addresses of the three customers from 41, with their versions.
#[derive(Clone, Copy)]
struct Outcome {
    told: Option<[Answer; 3]>,
    addresses: [Option<(u32, u64)>; 3],
}

fn outcome_in(told: Option<[Answer; 3]>, book: &mut Book) -> Outcome {
    Outcome {
        told,
        addresses: [
            address_of(book, 41),
            address_of(book, 42),
            address_of(book, 43),
        ],
    }
}

/// What comes of it at the desk. The book comes last, so that no refusal has it to let go.
fn outcome_at_desk(
    alloc: Global,
    scale: &Scale,
    index: &Index,
    mine: &BuyRequest,
    other: &BuyRequest,
    draft: &mut Draft,
) -> Result<Outcome, Memory>
    requires { index.now ≡ opened (populated 0 scale.now) }
{
    let ask = Ask {
        index,
        moment: 1_000,
        draw: 0,
        tax: TaxRule::ByCountry,
    };
    let mut solo = Solo::new(book_of(alloc, scale)?);
    let told = told_in_turn(alloc, &mut solo, &ask, mine, other, draft);
    Ok(outcome_in(told, &mut solo.into_book()))
}

/// What comes of these requests.
fn outcome_asked(alloc: Global, mine: &BuyRequest, other: &BuyRequest) -> Result<Outcome, Memory> {
    let scale = Scale::desk();
    let index = index_of(alloc, &scale)?;
    let mut draft = empty_draft(alloc)?;
    outcome_at_desk(alloc, &scale, &index, mine, other, &mut draft)
}

/// What comes of it where caller 2 is of a country, and caller 1 of country 7.
fn outcome_of(alloc: Global, country: u32) -> Result<Outcome, Memory>
    requires { Has 92 country }
{
    let mine = asked(alloc, 7)?;
    let other = asked(alloc, country)?;
    outcome_asked(alloc, &mine, &other)
}

/// What is told where a customer comes, and an address with it or none.
fn came(customer: u32, address: Option<u32>) -> Answer {
    Answer::Done(Ids {
        cart: None,
        customer: Some(customer),
        address,
        order: None,
    })
}

#[test]
fn a_newcomer_shares_the_address_that_another_brought_meanwhile(
    rt: HostRuntime,
) -> Result<(), Fail> {
    let outcome = outcome_of(rt.alloc(), 7)?;
    let told = [
        came(41, Some(81)),
        Answer::Stale(true, 0, 2),
        came(42, None),
    ];
    let addresses = [Some((81, 2)), Some((81, 3)), None];
    assert!(rt; outcome.told == Some(told) && outcome.addresses == addresses);
    Ok(())
}

#[test]
fn a_newcomer_of_another_address_is_not_in_the_way(rt: HostRuntime) -> Result<(), Fail> {
    let outcome = outcome_of(rt.alloc(), 8)?;
    let second = came(42, Some(82));
    let told = [came(41, Some(81)), second, second];
    let addresses = [Some((81, 2)), Some((82, 3)), None];
    assert!(rt; outcome.told == Some(told) && outcome.addresses == addresses);
    Ok(())
}
