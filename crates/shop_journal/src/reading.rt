//! Entries that are read from the payloads of records.
ghost use Rattle.std.specs.Prelude.{◌≡◌, ◌≢◌, ◌+◌, ◌≤◌, length, take, drop, Ok, Some, true, false, IfOk, IfSome, IsSomeAnd};
ghost use Rattle.std.specs.Int.{from_be_bytes, w64};
ghost use Rattle.shop_history.specs.declared.acts.Entry.{Entry};
ghost use Rattle.shop_history.specs.Acts as acts;
ghost use Rattle.shop_journal.specs.Payloads as spec;
ghost use Rattle.shop_journal.specs.Parts.{ArePartsOf};

use crate::digits::auth_of;
use crate::headers::{Format, word_at};
use crate::payloads::payload_of;
use shop_history::{Act, Entry};
use shop_http::{Asked, Routes, asked_of};
use shop_model::{Request, STAMP_LIMIT, TaxRule};
use shop_text::Memory;
use std::alloc::Global;

/// The parts of a payload.
#[derive(Clone, Copy)]
pub(crate) struct Parts<'a> {
    pub(crate) caller: u32,
    pub(crate) number: u64,
    pub(crate) stamp: u64,
    pub(crate) draw: u32,
    /// 0 where the format has no such byte.
    pub(crate) tax: u8,
    pub(crate) auth: &'a [u8],
    pub(crate) target: &'a [u8],
}

/// The number of eight bytes, the highest first.
fn long_at(bytes: &[u8], at: usize) -> u64
    requires { at + 8 ≤ length bytes.now }
    ensures { result ≡ from_be_bytes w64 (take 8 (drop at bytes.now)) }
{
    let mut long = [0; 8];
    long.copy_from_slice(&bytes[at..at + 8]);
    u64::from_be_bytes(long)
}

/// The byte for the rule of the tax.
fn tax_at(format: Format, payload: &[u8]) -> u8
    requires { 25 ≤ length payload.now }
    ensures { (e : Entry) → spec.IsEntry format e → payload.now ≡ spec.payload_of format e → result ≡ spec.tax_of e.act }
{
    match format {
        Format::First => 0,
        Format::Second => payload[24],
    }
}

/// The place of the digits of an authorisation.
fn auth_place(format: Format) -> usize
    ensures place { result ≡ spec.auth_place format }
    ensures low { 24 ≤ result }
    ensures high { result ≤ 25 }
{
    match format {
        Format::First => 24,
        Format::Second => 25,
    }
}

/// The parts of a payload that is long enough.
fn parts_of(format: Format, payload: &[u8]) -> Option<Parts<'_>>
    ensures { (e : Entry) → spec.IsEntry format e → payload.now ≡ spec.payload_of format e → IsSomeAnd result (ArePartsOf e) }
{
    let place = auth_place(format);
    if payload.len() < place + 15 {
        return None;
    }
    Some(Parts {
        caller: word_at(payload, 0),
        number: long_at(payload, 4),
        stamp: long_at(payload, 12),
        draw: word_at(payload, 20),
        tax: tax_at(format, payload),
        auth: &payload[place..place + 15],
        target: &payload[place + 15..],
    })
}

/// The rule of the tax that a byte tells.
fn rule_of(format: Format, tax: u8) -> TaxRule
    ensures { result ≡ spec.rule_of format tax }
{
    match format {
        Format::First => TaxRule::Flat,
        Format::Second => {
            if tax == 1 {
                TaxRule::ByCountry
            } else {
                TaxRule::Flat
            }
        }
    }
}

/// What a request did, with what else is kept of it.
fn act_of(format: Format, parts: &Parts, request: Request) -> Option<Act>
    ensures kept { (e : Entry) → spec.IsEntry format e → ArePartsOf e parts.now → request ≡ acts.request_of e.act → result ≡ Some e.act }
    ensures kind { IfSome result (spec.IsActIn format) }
{
    match request {
        Request::CartRequest(asked) => Some(Act::Cart(asked, parts.draw)),
        Request::BuyRequest(asked) => Some(Act::Enter(asked, parts.draw)),
        Request::BuyConfirm(asked) => match auth_of(parts.auth) {
            Some(auth) => {
                let rule = rule_of(format, parts.tax);
                Some(Act::Confirm(asked, parts.draw, auth, rule))
            }
            None => None,
        },
        Request::AdminConfirm(asked) => Some(Act::Admin(asked)),
        Request::AdminAdd(asked) => match format {
            Format::First => None,
            Format::Second => Some(Act::Add(asked)),
        },
        _ => None,
    }
}

/// The entry of these parts, where there is one.
pub(crate) fn entry_of(
    alloc: Global,
    routes: &Routes,
    format: Format,
    parts: &Parts,
) -> Result<Option<Entry>, Memory>
    ensures kept { (e : Entry) → spec.IsEntry format e → ArePartsOf e parts.now → IfOk result (λ found. found ≡ Some e) }
    ensures kind { IfOk result (λ found. IfSome found (λ e. spec.IsActIn format e.act)) }
{
    let request = match asked_of(alloc, routes, b"GET", parts.target, &[]) {
        Asked::Request(request) => request,
        Asked::Refuse(_) => return Ok(None),
        Asked::Memory => return Err(Memory),
    };
    match act_of(format, parts, request) {
        Some(act) => Ok(Some(Entry {
            caller: parts.caller,
            number: parts.number,
            stamp: parts.stamp,
            act,
        })),
        None => Ok(None),
    }
}

/// Whether these bytes spell an entry. A number with leading zeros, for one, is read as well, but is not written so.
fn spells(alloc: Global, format: Format, payload: &[u8], entry: &Entry) -> Result<bool, Memory>
    ensures spelled { result ≡ Ok true → spec.IsBounded entry.now × (payload.now ≡ spec.payload_of format entry.now) }
    ensures other { result ≡ Ok false → payload.now ≢ spec.payload_of format entry.now }
{
    let written = payload_of(alloc, format, entry)?;
    Ok(written.bytes() == payload)
}

/// The entry of a payload, where it is that of one.
pub(crate) fn entry_in(
    alloc: Global,
    routes: &Routes,
    format: Format,
    payload: &[u8],
) -> Result<Option<Entry>, Memory>
    ensures some { IfOk result (λ found. IfSome found (λ e. spec.IsEntry format e × (payload.now ≡ spec.payload_of format e))) }
    ensures kept { (e : Entry) → spec.IsEntry format e → payload.now ≡ spec.payload_of format e → IfOk result (λ found. found ≡ Some e) }
{
    let Some(parts) = parts_of(format, payload) else {
        return Ok(None);
    };
    let found = entry_of(alloc, routes, format, &parts)?;
    match found {
        None => Ok(None),
        Some(entry) => {
            if entry.stamp > STAMP_LIMIT {
                return Ok(None);
            }
            match spells(alloc, format, payload, &entry) {
                Ok(true) => Ok(Some(entry)),
                Ok(false) => Ok(None),
                Err(Memory) => Err(Memory),
            }
        }
    }
}
