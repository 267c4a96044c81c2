//! The line that replies to one that asks for a charge.
ghost use Rattle.std.specs.Prelude.{◌≡◌, ◌<◌, length, true, IfSome};
ghost use Rattle.std.specs.List.{list_all};
ghost use Rattle.std.specs.Char.{is_ascii_digit};
ghost use Rattle.shop_gateway.specs.Emulators.{IsSaid};
ghost use Rattle.shop_gateway.specs.Protocol as spec;

use crate::charge_line::all_digits;
use crate::first::number_of;
use shop_edges::{Reason, Verdict};
use shop_model::AuthId;

/// The reply to a line that is not in the grammar, with its line feed.
pub(crate) fn bad_line() -> &'static [u8]
    ensures { result.now ≡ spec.ended spec.bad }
{
    b"BAD\n"
}

/// The reply that tells an approval, with its line feed.
pub(crate) fn approval_line(auth: &AuthId) -> [u8; 19]
    ensures { result ≡ spec.ended (spec.said (Verdict.Approved auth.now)) }
{
    let mut line = *b"OK 000000000000000\n";
    line[3..18].copy_from_slice(auth.bytes());
    line
}

/// The reply that tells a denial, with its line feed.
pub(crate) fn denial_line(reason: &Reason) -> &'static [u8]
    ensures { result.now ≡ spec.ended (spec.said (Verdict.Denied reason.now)) }
{
    match reason {
        Reason::Reused => b"NO reused\n",
        Reason::Stolen => b"NO stolen\n",
        Reason::Limit => b"NO limit\n",
    }
}

/// The authorisation of these digits.
fn auth_of(digits: &[u8]) -> AuthId
    requires fifteen { length digits.now ≡ 15 }
    requires digits { list_all is_ascii_digit digits.now ≡ true }
    ensures { result ≡ digits.now }
{
    AuthId::of(number_of(digits))
}

/// The approval that a reply tells, where it tells one.
#[tactic(auto, unfolding(crate::specs::Protocol::approval_told))]
fn approval_told(line: &[u8]) -> Option<Verdict>
    ensures told { result ≡ spec.approval_told line.now }
    ensures said { IfSome result IsSaid }
{
    if line.len() == 18 && line.starts_with(b"OK ".as_slice()) && all_digits(&line[3..]) {
        Some(Verdict::Approved(auth_of(&line[3..])))
    } else {
        None
    }
}

/// The verdict that a reply tells, where it tells one.
#[tactic(auto, unfolding(crate::specs::Protocol::verdict_told))]
pub(crate) fn verdict_told(line: &[u8]) -> Option<Verdict>
    ensures told { result ≡ spec.verdict_told line.now }
    ensures said { IfSome result IsSaid }
{
    if line == b"NO reused".as_slice() {
        Some(Verdict::Denied(Reason::Reused))
    } else if line == b"NO stolen".as_slice() {
        Some(Verdict::Denied(Reason::Stolen))
    } else if line == b"NO limit".as_slice() {
        Some(Verdict::Denied(Reason::Limit))
    } else {
        approval_told(line)
    }
}
