//! Entries as the payloads of records.
ghost use Rattle.std.specs.Prelude.{◌≡◌, IfOk};
ghost use Rattle.shop_model.specs.asked.CustomersAsked.{IsId};
ghost use Rattle.shop_model.specs.rows.AuthIds.{IsAuthId};
ghost use Rattle.shop_history.specs.Acts as acts;
ghost use Rattle.shop_journal.specs.Payloads as spec;
ghost use Rattle.shop_journal.specs.Targets as targets;

use crate::headers::Format;
use crate::targets::{add_target, admin_target, buy_target, cart_target, purchase_target};
use shop_history::{Act, Entry};
use shop_model::{Buyer, TaxRule};
use shop_text::{Memory, Text};
use std::alloc::Global;

/// The digits of an act that no card paid for.
const NO_AUTH: &[u8] = b"000000000000000";

/// The target that spells an act's request.
fn act_target(alloc: Global, act: &Act) -> Result<Text, Memory>
    ensures target { IfOk result (λ text. text ≡ targets.target_of (acts.request_of act.now)) }
    ensures form { IfOk result (λ text. acts.IsInForm act.now) }
{
    match act {
        Act::Cart(asked, _) => cart_target(alloc, asked),
        Act::Enter(asked, _) => buy_target(alloc, asked),
        Act::Confirm(asked, _, _, _) => purchase_target(alloc, asked.get()),
        Act::Admin(asked) => admin_target(alloc, asked.get()),
        Act::Add(asked) => add_target(alloc, asked.get()),
    }
}

/// The word that was drawn for an act, and 0 where none was.
fn draw_of(act: &Act) -> u32
    ensures draw { result ≡ spec.draw_of act.now }
    ensures word { IsId (spec.draw_of act.now) }
{
    match act {
        Act::Cart(_, draw) | Act::Enter(_, draw) | Act::Confirm(_, draw, _, _) => *draw,
        Act::Admin(_) | Act::Add(_) => 0,
    }
}

/// 1 for a purchase that is taxed by country.
fn tax_of(act: &Act) -> u8
    ensures { result ≡ spec.tax_of act.now }
{
    match act {
        Act::Confirm(_, _, _, TaxRule::ByCountry) => 1,
        _ => 0,
    }
}

/// The digits of what a purchase was authorised by.
fn auth_bytes(act: &Act) -> &[u8]
    ensures digits { result.now ≡ spec.auth_of act.now }
    ensures form { IsAuthId (spec.auth_of act.now) }
{
    match act {
        Act::Confirm(_, _, auth, _) => auth.bytes(),
        _ => NO_AUTH,
    }
}

/// The payload of an entry.
pub(crate) fn payload_of(alloc: Global, format: Format, entry: &Entry) -> Result<Text, Memory>
    ensures payload { IfOk result (λ text. text ≡ spec.payload_of format entry.now) }
    ensures bounded { IfOk result (λ text. spec.IsBounded entry.now) }
{
    let mut text = Text::new(alloc);
    text.push(&entry.caller.to_be_bytes())?;
    text.push(&entry.number.to_be_bytes())?;
    text.push(&entry.stamp.to_be_bytes())?;
    text.push(&draw_of(&entry.act).to_be_bytes())?;
    if format == Format::Second {
        text.push(&[tax_of(&entry.act)])?;
    }
    text.push(auth_bytes(&entry.act))?;
    text.push(act_target(alloc, &entry.act)?.bytes())?;
    Ok(text)
}
