//! Replays of legal logs, and of logs with one entry that is not.
use crate::Replayed;
use crate::cases::{AUTH, Made, Outcome, book_of, legal_log, outcome_within, replayed};
use shop_history::{Key, Row};
use shop_model::{AuthId, TaxRule};
use shop_text::Memory;
use std::alloc::Global;
use std::test::Fail;

/// What is written over an entry.
#[derive(Clone, Copy)]
enum Change {
    Caller(u32),
    Number(u64),
    Stamp(u64),
    Draw(u32),
    Auth(u32),
    Tax(TaxRule),
    Target(&'static [u8]),
}

fn changed(made: Made, change: Change) -> Made {
    match change {
        Change::Caller(caller) => Made { caller, ..made },
        Change::Number(number) => Made { number, ..made },
        Change::Stamp(stamp) => Made { stamp, ..made },
        Change::Draw(draw) => Made { draw, ..made },
        Change::Auth(auth) => Made { auth, ..made },
        Change::Tax(tax) => Made { tax, ..made },
        Change::Target(target) => Made { target, ..made },
    }
}

/// The log with one entry changed.
fn log_with(place: usize, change: Change) -> [Made; 7] {
    let mut log = legal_log();
    if let Some(made) = log.get_mut(place) {
        *made = changed(*made, change);
    }
    log
}

/// What a replay of the log with its purchase changed gives.
fn outcome_with(alloc: Global, change: Change) -> Result<Outcome, Memory> {
    outcome_within(alloc, 100, &log_with(3, change))
}

#[test]
fn a_legal_log_gives_its_book(rt: HostRuntime) -> Result<(), Fail> {
    let by_country = outcome_within(rt.alloc(), 100, &legal_log())?;
    assert!(rt; by_country == book_of(7, 2_606, 1_004));
    let flat = outcome_with(rt.alloc(), Change::Tax(TaxRule::Flat))?;
    assert!(rt; flat == book_of(7, 2_776, 1_004));
    Ok(())
}

#[test]
fn a_log_is_as_long_as_the_limit_at_most(rt: HostRuntime) -> Result<(), Fail> {
    let full = outcome_within(rt.alloc(), 7, &legal_log())?;
    assert!(rt; full == book_of(7, 2_606, 1_004));
    assert!(rt; outcome_within(rt.alloc(), 6, &legal_log())? == Outcome::Illegal(7));
    Ok(())
}

#[test]
fn no_entries_are_a_legal_log(rt: HostRuntime) -> Result<(), Fail> {
    match outcome_within(rt.alloc(), 0, &[])? {
        Outcome::Book(summary, latest) => {
            assert!(rt; summary.entries == 0 && summary.orders == 0 && summary.cents == 0);
            assert!(rt; latest == 0);
        }
        Outcome::Illegal(_) | Outcome::Memory => assert!(rt; false),
    }
    Ok(())
}

/// The stamp above the last moment.
const LATE: u64 = 253_402_300_800_000;

/// The purchase of a cart that is empty, and of one that is not there.
const EMPTY: &[u8] =
    b"/buy_confirm?c=10&cart=3&card=VISA&number=4111222233334444&name=F&expiry=2027-05&ship=MAIL";

const MISSING: &[u8] =
    b"/buy_confirm?c=10&cart=0&card=VISA&number=4111222233334444&name=F&expiry=2027-05&ship=MAIL";

/// Changes of the fourth entry, and the number of the one that is illegal then.
const ILLEGAL: [(Change, u64); 10] = [
    (Change::Caller(3), 6),
    (Change::Caller(4), 4),
    (Change::Number(1), 4),
    (Change::Number(3), 4),
    (Change::Number(u64::MAX), 4),
    (Change::Stamp(1_000), 4),
    (Change::Stamp(1_003), 5),
    (Change::Stamp(LATE), 4),
    (Change::Target(EMPTY), 4),
    (Change::Target(MISSING), 4),
];

#[test]
fn the_first_illegal_entry_is_told(rt: HostRuntime) -> Result<(), Fail> {
    for (change, number) in ILLEGAL {
        assert!(rt; outcome_with(rt.alloc(), change)? == Outcome::Illegal(number));
    }
    Ok(())
}

/// The discount of the customer who is new.
fn discount_in(row: &Row) -> Option<u32> {
    match row {
        Row::Customer(customer) => Some(customer.details.get().discount),
        _ => None,
    }
}

fn discount(replayed: &Replayed) -> Option<u32> {
    match replayed {
        Replayed::Book(book) => match book.look(&Key::Customer(41)) {
            Some(Ok((row, _))) => discount_in(&row),
            Some(Err(_)) | None => None,
        },
        Replayed::Illegal(_) | Replayed::Memory => None,
    }
}

/// That of a newcomer with a draw.
fn discount_with(alloc: Global, draw: u32) -> Result<Option<u32>, Memory> {
    let one = replayed(alloc, 100, &log_with(2, Change::Draw(draw)))?;
    Ok(discount(&one))
}

#[test]
fn a_draw_is_that_of_the_entry(rt: HostRuntime) -> Result<(), Fail> {
    assert!(rt; discount_with(rt.alloc(), 5)? == Some(5));
    assert!(rt; discount_with(rt.alloc(), 57)? == Some(6));
    Ok(())
}

/// Whether a purchase has an authorisation.
fn is_authorised(replayed: &Replayed, auth: u32) -> bool {
    match replayed {
        Replayed::Book(book) => book.has_auth(&AuthId::of(u64::from(auth))),
        _ => false,
    }
}

/// Whether a purchase that was authorised otherwise has that authorisation, and no other.
fn has_another(alloc: Global) -> Result<bool, Memory> {
    let one = replayed(alloc, 100, &log_with(3, Change::Auth(7)))?;
    Ok(is_authorised(&one, 7) && !is_authorised(&one, AUTH))
}

#[test]
fn an_authorisation_is_that_of_the_entry(rt: HostRuntime) -> Result<(), Fail> {
    assert!(rt; has_another(rt.alloc())?);
    assert!(rt; outcome_with(rt.alloc(), Change::Auth(7))? == book_of(7, 2_606, 1_004));
    Ok(())
}
