//! What connections leave in the file of a shop, and what later ones find there.
use crate::cases::{
    CART, CART_FILE, CART_OF_ITEM_1, Case, ITEM, LAST_ORDER, OLD_FILE, PURCHASE, TWO_CARTS_FILE,
    outcome_of,
};
use shop_app::Status;
use shop_text::{Memory, Text};
use std::alloc::Global;
use std::test::Fail;

const LINE: &str = "keep --journal shop.journal";

/// Whether a connection that is answered with a page for each request leaves this of a file.
fn leaves(alloc: Global, asks: &[&str], file: &[u8], want: &[u8]) -> Result<bool, Memory> {
    let outcome = outcome_of(alloc, Case::of(LINE, asks, file))?;
    Ok(
        outcome.is(Status::Done)
            && outcome.has_pages(asks.len())
            && outcome.disk.bytes() == want
            && outcome.other.calls().is_empty(),
    )
}

/// A journal of the desk without entries.
const MADE: &[u8] = b"TPCWLOG2\0\0\0\0\0\0\0\x64\0\0\0\x19\0\0\0\x28\0\0\0\x50\0\0\0\x24\0";

#[test]
fn a_connection_that_only_reads_makes_a_file_of_33_bytes(rt: HostRuntime) -> Result<(), Fail> {
    assert!(rt; MADE.len() == 33);
    assert!(rt; leaves(rt.alloc(), &[ITEM], &[], MADE)?);
    assert!(rt; leaves(rt.alloc(), &[ITEM, LAST_ORDER], CART_FILE, CART_FILE)?);
    Ok(())
}

#[test]
fn a_cart_makes_a_file_of_92_bytes(rt: HostRuntime) -> Result<(), Fail> {
    assert!(rt; CART_FILE.len() == 92);
    assert!(rt; leaves(rt.alloc(), &[CART], &[], CART_FILE)?);
    Ok(())
}

#[test]
fn a_caller_goes_on_with_the_next_number(rt: HostRuntime) -> Result<(), Fail> {
    assert!(rt; leaves(rt.alloc(), &[CART], CART_FILE, TWO_CARTS_FILE)?);
    Ok(())
}

/// Whether a record behind a gate that is shut is written over by the same one, whatever of it is there.
fn is_written_over(alloc: Global, len: usize) -> Result<bool, Memory> {
    let mut torn = Vec::from_slice(alloc, CART_FILE.get(..len).unwrap_or(CART_FILE))?;
    if let Some(gate) = torn.get_mut(32) {
        *gate = 0;
    }
    leaves(alloc, &[CART], &torn, CART_FILE)
}

#[test]
fn a_record_behind_a_gate_that_is_shut_is_written_over(rt: HostRuntime) -> Result<(), Fail> {
    for len in [33, 36, 60, 91, 92] {
        assert!(rt; is_written_over(rt.alloc(), len)?, "of {len} bytes");
    }
    Ok(())
}

/// The record of a purchase that is made with its cart in one connection, and of one that another connection makes: the
/// draw, and the authorisation, are those of its call.
const SECOND_CALL: &[u8] =
    b"\0\0\0\x01\0\0\0\0\0\0\0\x02\0\0\0\0\0\0\x03\xe8\0\0\x3f\x82\x01111224839362277/buy_confirm?\
    c=10&cart=1&card=VISA&number=4111222233334444&name=F&expiry=2027-05&ship=MAIL\0";

const FIRST_CALL: &[u8] =
    b"\0\0\0\x01\0\0\0\0\0\0\0\x02\0\0\0\0\0\0\x03\xe8\0\0\x3f\x75\x01111224839352270/buy_confirm?\
    c=10&cart=1&card=VISA&number=4111222233334444&name=F&expiry=2027-05&ship=MAIL\0";

/// Whether a file of a cart and its purchase has this record behind that of the cart.
fn has_purchase(file: &[u8], record: &[u8]) -> bool {
    file.len() == 234 && file[98..103] == [1, 0, 0, 0, 130] && &file[103..] == record
}

/// Whether a connection that makes a cart and buys it leaves the record of its second call.
fn buys_at_once(alloc: Global) -> Result<bool, Memory> {
    let outcome = outcome_of(alloc, Case::of(LINE, &[CART_OF_ITEM_1, PURCHASE], &[]))?;
    Ok(
        outcome.is(Status::Done)
            && outcome.has_pages(2)
            && outcome.has(b"<p>Authorisation 111224839362277</p>")
            && has_purchase(outcome.disk.bytes(), SECOND_CALL),
    )
}

#[test]
fn a_purchase_is_kept_with_its_draw_and_its_authorisation(rt: HostRuntime) -> Result<(), Fail> {
    assert!(rt; buys_at_once(rt.alloc())?);
    Ok(())
}

/// What a connection that is served leaves of a file.
fn file_behind(alloc: Global, target: &str, file: &[u8]) -> Result<Option<Text>, Memory> {
    let outcome = outcome_of(alloc, Case::of(LINE, &[target], file))?;
    if !outcome.is(Status::Done) || !outcome.has_pages(1) {
        return Ok(None);
    }
    Ok(Some(Text::copy(alloc, outcome.disk.bytes())?))
}

/// The file of a cart that one connection made and another one bought.
fn bought(alloc: Global) -> Result<Option<Text>, Memory> {
    match file_behind(alloc, CART_OF_ITEM_1, &[])? {
        Some(file) => file_behind(alloc, PURCHASE, file.bytes()),
        None => Ok(None),
    }
}

/// Whether a page of the last order over a file has these lines.
fn shows(alloc: Global, file: &[u8], lines: [&[u8]; 3]) -> Result<bool, Memory> {
    let outcome = outcome_of(alloc, Case::of(LINE, &[LAST_ORDER], file))?;
    let [placed, totals, card] = lines;
    Ok(
        outcome.is(Status::Done)
            && outcome.disk.bytes() == file
            && outcome.has(placed)
            && outcome.has(totals)
            && outcome.has(card),
    )
}

/// Whether a purchase over several connections is kept, and shown by a later one.
fn buys_in_turn(alloc: Global) -> Result<bool, Memory> {
    let Some(file) = bought(alloc)? else {
        return Ok(false);
    };
    let shown = shows(
        alloc,
        file.bytes(),
        [
            b"<p>Placed 1970-01-01, ships 1970-01-07, status PENDING</p>",
            b"<p>Subtotal 21.95, tax 0.11, shipping 4.00, total 26.06</p>",
            b"<p>Card VISA, authorisation 111224839352270</p>",
        ],
    )?;
    Ok(shown && has_purchase(file.bytes(), FIRST_CALL))
}

#[test]
fn a_cart_of_one_connection_is_bought_by_another(rt: HostRuntime) -> Result<(), Fail> {
    assert!(rt; buys_in_turn(rt.alloc())?);
    Ok(())
}

const MIGRATION: &str = "migrate --from old.journal --to shop.journal";

/// Whether a journal of the first format is written anew, and its order is shown with the tax that it was sold with.
fn is_migrated(alloc: Global) -> Result<bool, Memory> {
    let outcome = outcome_of(alloc, Case::of(MIGRATION, &[ITEM], OLD_FILE))?;
    let moved = outcome.is(Status::Done)
        && outcome.unread
        && outcome.sink.bytes() == b"entries 2\n".as_slice()
        && outcome.disk.bytes() == OLD_FILE
        && outcome.other.bytes().len() == 234;
    let shown = shows(
        alloc,
        outcome.other.bytes(),
        [
            b"<p>Placed 1970-01-01, ships 1970-01-06, status PENDING</p>",
            b"<p>Subtotal 21.95, tax 1.81, shipping 4.00, total 27.76</p>",
            b"<p>Card VISA, authorisation 111225009362787</p>",
        ],
    )?;
    Ok(moved && shown)
}

#[test]
fn an_order_of_the_first_format_keeps_its_tax(rt: HostRuntime) -> Result<(), Fail> {
    assert!(rt; is_migrated(rt.alloc())?);
    Ok(())
}
