//! The log of a shop as the records of a file.
#![tactic(auto)]

ghost use Rattle.std.specs.Prelude.{◌≡◌, ◌≤◌, [], codes, length, Ok};
ghost use Rattle.shop_history.specs.declared.acts.Act.{Act};
ghost use Rattle.shop_history.specs.declared.acts.Entry.{Entry};
ghost use Rattle.shop_history.specs.Acts.{IsInForm, request_of};
ghost use Rattle.shop_http.specs.Requests.{asked_of};
ghost use Rattle.shop_journal.specs.declared.headers.Format.{Format};
ghost use Rattle.shop_journal.specs.Payloads as payloads;
ghost use Rattle.shop_journal.specs.Targets as targets;

mod appending;
#[cfg(test)]
mod broken_files;
#[cfg(test)]
mod cases;
mod digits;
mod fronts;
mod headers;
mod journal;
#[cfg(test)]
mod kept_entries;
#[cfg(test)]
mod kept_files;
mod logs;
mod migrating;
#[cfg(test)]
mod migrations;
mod opening;
mod payloads;
mod reading;
#[cfg(test)]
mod stopped_calls;
mod target;
mod targets;

pub use appending::Appended;
pub use headers::{Format, Head};
pub use journal::Journal;
pub use migrating::{Migrated, migrate};
pub use opening::{Created, Found};
pub use targets::target_of;

/// The target of an act's request is read as that request.
pub fn written_again()
    ensures { (act : Act) → IsInForm act → asked_of (codes "GET") (targets.target_of (request_of act)) [] ≡ Ok (request_of act) }
{}

/// The payload of every entry fits into a record.
pub fn fits()
    ensures { (format : Format) (entry : Entry) → payloads.IsBounded entry → length (payloads.payload_of format entry) ≤ 16_384 }
{}
