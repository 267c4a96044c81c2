//! Entries by their bytes.
use crate::cases::{NO_IDS, cart_entry, parts, purchase_entry};
use crate::headers::Format;
use crate::payloads::payload_of;
use crate::reading::{Parts, entry_in, entry_of};
use crate::target_of;
use shop_history::Entry;
use shop_http::Routes;
use shop_model::{CartRequest, Home, Request, TaxRule};
use shop_text::{Listed, Memory, Text};
use std::alloc::Global;
use std::test::Fail;

/// A cart without anything.
const CART: &[u8] =
    b"\0\0\0\x01\0\0\0\0\0\0\0\x01\0\0\0\0\0\0\x03\xe8\0\0\x3f\x75\0000000000000000/shopping_cart";

/// The purchase of one, taxed by country.
const PURCHASE: &[u8] =
    b"\0\0\0\x01\0\0\0\0\0\0\0\x02\0\0\0\0\0\0\x03\xe8\0\0\x3f\x82\x01111224839362277/buy_confirm?c=10&cart=1&card=VISA&number=4111222233334444&name=F&expiry=2027-05&ship=MAIL";

/// Whether an entry has this payload, and is read of it.
fn is_kept(alloc: Global, format: Format, entry: &Entry, payload: &[u8]) -> Result<bool, Memory> {
    let routes = Routes::new(alloc)?;
    let written = payload_of(alloc, format, entry)?;
    let read = entry_in(alloc, &routes, format, payload)?;
    match read {
        None => Ok(false),
        Some(again) => {
            let rewritten = payload_of(alloc, format, &again)?;
            Ok(written.bytes() == payload && rewritten.bytes() == payload)
        }
    }
}

#[test]
fn entries_have_these_bytes(rt: HostRuntime) -> Result<(), Fail> {
    let alloc = rt.alloc();
    assert!(rt; CART.len() == 54);
    assert!(rt; PURCHASE.len() == 130);
    assert!(rt; is_kept(alloc, Format::Second, &cart_entry(alloc, None), CART)?);
    assert!(rt;
        is_kept(
            alloc,
            Format::Second,
            &purchase_entry(alloc, TaxRule::ByCountry)?,
            PURCHASE
        )?
    );
    assert!(rt; payload_of(alloc, Format::Second, &cart_entry(alloc, Some(1)))?.len() == 61);
    assert!(rt;
        payload_of(alloc, Format::First, &purchase_entry(alloc, TaxRule::Flat)?)?.len() == 129
    );
    Ok(())
}

/// The target in which `~` stands for a text of 100 bytes that are each escaped.
fn filled(alloc: Global, form: &[u8]) -> Result<Text, Memory> {
    let mut target = Text::new(alloc);
    for byte in form {
        if *byte == b'~' {
            for _ in 0u8..100 {
                target.push(b"%25")?;
            }
        } else {
            target.push(&[*byte])?;
        }
    }
    Ok(target)
}

/// The target of a request that changes the quantities of 100 items.
fn hundred_sets(alloc: Global) -> Result<Text, Memory> {
    let mut target = Text::copy(alloc, b"/shopping_cart?item=4294967295")?;
    for item in 0u32..100 {
        target.push(b"&qty_")?;
        target.push_decimal(u64::from(u32::MAX - item))?;
        target.push(b"=999")?;
    }
    target.push(b"&c=4294967295&cart=0")?;
    Ok(target)
}

/// Whether the entry of these parts has a payload of so many bytes, which end in the target, and is read of it.
fn comes_again(alloc: Global, parts: &Parts, len: usize) -> Result<bool, Memory> {
    let routes = Routes::new(alloc)?;
    let Some(entry) = entry_of(alloc, &routes, Format::Second, parts)? else {
        return Ok(false);
    };
    let payload = payload_of(alloc, Format::Second, &entry)?;
    let bytes = payload.bytes();
    Ok(
        bytes.len() == len
            && bytes.ends_with(parts.target)
            && is_kept(alloc, Format::Second, &entry, bytes)?,
    )
}

/// The largest numbers that a caller, a change and a moment have.
fn largest(target: &[u8]) -> Parts<'_> {
    Parts {
        caller: u32::MAX,
        number: u64::MAX,
        stamp: 253_402_300_799_999,
        ..parts(target)
    }
}

/// Requests of a kind that is drawn for, with all that may be absent and with none of it, and the bytes of the payloads.
const DRAWN: [(&[u8], usize); 5] = [
    (b"/shopping_cart", 54),
    (
        b"/buy_request?cart=7&fn=~&ln=~&street1=~&street2=~&city=~&state=~&zip=~&country=92&phone=~&email=~",
        2828,
    ),
    (
        b"/buy_request?cart=7&fn=~&ln=~&street1=~&street2=&city=~&state=&zip=~&country=92&phone=~&email=~",
        2228,
    ),
    (b"/buy_request?cart=7&user=~&pass=~", 671),
    (b"/buy_request?cart=7&user=~&pass=", 371),
];

/// The same of purchases.
const BOUGHT: [(&[u8], usize); 2] = [
    (
        b"/buy_confirm?c=4294967295&cart=0&card=MASTERCARD&number=4111222233334444555&name=~&expiry=9999-12&ship=COURIER&street1=~&street2=~&city=~&state=~&zip=~&country=92",
        1996,
    ),
    (
        b"/buy_confirm?c=4294967295&cart=0&card=MASTERCARD&number=4111222233334444555&name=~&expiry=9999-12&ship=COURIER",
        449,
    ),
];

/// The same of requests of a kind that no word is drawn for.
const UNDRAWN: [(&[u8], usize); 4] = [
    (
        b"/admin_confirm?item=1&cost=999999&image=~&thumb=~&c=4294967295&cart=0",
        707,
    ),
    (b"/admin_confirm?item=1&cost=999999&image=~&thumb=~", 687),
    (
        b"/admin_add?title=~&author=1&subject=SCIENCE-FICTION&publisher=~&about=~&image=~&thumb=~&srp=1&cost=999999&stock=10&pages=9999&backing=LIMITED-EDITION&c=4294967295&cart=0",
        1704,
    ),
    (
        b"/admin_add?title=~&author=1&subject=SCIENCE-FICTION&publisher=~&about=~&image=~&thumb=~&srp=1&cost=999999&stock=10&pages=9999&backing=LIMITED-EDITION",
        1684,
    ),
];

#[test]
fn entries_that_are_drawn_for_come_again(rt: HostRuntime) -> Result<(), Fail> {
    let alloc = rt.alloc();
    for (form, len) in DRAWN {
        let target = filled(alloc, form)?;
        let parts = Parts {
            draw: u32::MAX,
            ..largest(target.bytes())
        };
        assert!(rt; comes_again(alloc, &parts, len)?);
    }
    let target = hundred_sets(alloc)?;
    assert!(rt; comes_again(alloc, &largest(target.bytes()), 1990)?);
    Ok(())
}

#[test]
fn purchases_come_again(rt: HostRuntime) -> Result<(), Fail> {
    let alloc = rt.alloc();
    for (form, len) in BOUGHT {
        let target = filled(alloc, form)?;
        let parts = Parts {
            draw: 2,
            auth: b"000000000000007",
            ..largest(target.bytes())
        };
        assert!(rt; comes_again(alloc, &parts, len)?);
    }
    Ok(())
}

#[test]
fn entries_that_are_not_drawn_for_come_again(rt: HostRuntime) -> Result<(), Fail> {
    let alloc = rt.alloc();
    for (form, len) in UNDRAWN {
        let target = filled(alloc, form)?;
        assert!(rt; comes_again(alloc, &largest(target.bytes()), len)?);
    }
    Ok(())
}

/// The target of a request for a cart with an item, and that of one that changes nothing.
fn targets(alloc: Global) -> Result<(Text, Text), Memory> {
    let asked = CartRequest {
        item: Some(1),
        sets: Listed::new(alloc),
        ids: NO_IDS,
    };
    let cart = target_of(alloc, &Request::CartRequest(asked))?;
    let home = target_of(alloc, &Request::Home(Home { ids: NO_IDS }))?;
    Ok((cart, home))
}

#[test]
fn a_request_that_changes_something_has_a_target(rt: HostRuntime) -> Result<(), Fail> {
    let (cart, home) = targets(rt.alloc())?;
    assert!(rt; cart.bytes() == b"/shopping_cart?item=1".as_slice() && home.is_empty());
    Ok(())
}
