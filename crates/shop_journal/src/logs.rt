//! The log that the records of a file keep.
ghost use Rattle.std.specs.Prelude.{◌≡◌, ◌+◌, Err, List, ℕ, map, IfOk, OnErr};
ghost use Rattle.std.specs.List.{AllByRecursion};
ghost use Rattle.shop_records.specs.Records as records;
ghost use Rattle.shop_journal.specs.declared.logs.ReadError.{ReadError};
ghost use Rattle.shop_journal.specs.declared.logs.ReadError.TheVariants as read_error;
ghost use Rattle.shop_journal.specs.Journals as spec;
ghost use Rattle.shop_journal.specs.Payloads.{IsEntry};

use crate::headers::{Format, Head, head_in};
use crate::reading::entry_in;
use shop_history::Entry;
use shop_http::Routes;
use shop_records::{Contents, HEADER};
use shop_text::{Listed, Memory};
use std::alloc::{AllocError, Global};

/// Why no log is read.
#[derive(Clone, Copy, Debug, PartialEq, Eq)]
pub(crate) enum ReadError {
    /// The header is none, or the record behind the gate at this place keeps no entry.
    Broken(u64),
    Memory,
}

impl From<AllocError> for ReadError {
    ghost from_gives = { λ _ e. e ≡ read_error.Memory };

    fn from(_: AllocError) -> Self {
        ReadError::Memory
    }
}

impl From<Memory> for ReadError {
    ghost from_gives = { λ _ e. e ≡ read_error.Memory };

    fn from(_: Memory) -> Self {
        ReadError::Memory
    }
}

/// The shop whose log it is, and its entries.
#[derive(Drop)]
pub(crate) struct Log {
    pub(crate) head: Head,
    pub(crate) entries: Listed<Entry>,
}

/// The place of the gate behind a record with a payload of so many bytes.
fn place_behind(place: u64, len: usize) -> Result<u64, ReadError>
    ensures place { IfOk result (λ next. next ≡ place + 5 + len) }
    ensures memory { OnErr result (result ≡ Err ReadError.Memory) }
{
    // No file is so long.
    match place.checked_add(5) {
        Some(start) => match start.checked_add(len as u64) {
            Some(next) => Ok(next),
            None => Err(ReadError::Memory),
        },
        None => Err(ReadError::Memory),
    }
}

/// The entries of these payloads.
fn entries_in(
    alloc: Global,
    routes: &Routes,
    format: Format,
    payloads: &[&[u8]],
) -> Result<Listed<Entry>, ReadError>
    ensures each { IfOk result (λ entries. AllByRecursion (IsEntry format) entries) }
    ensures payloads { IfOk result (λ entries. map (λ p. p.now) payloads.now ≡ spec.payloads_of format entries) }
    ensures stops { (at : ℕ) → result ≡ Err (ReadError.Broken at) → spec.StopsAt format at (map (λ p. p.now) payloads.now) }
{
    let mut entries = Listed::new(alloc);
    let mut place = HEADER as u64;
    for payload in payloads {
        let Some(entry) = entry_in(alloc, routes, format, payload)? else {
            return Err(ReadError::Broken(place));
        };
        place = place_behind(place, payload.len())?;
        entries.push(entry)?;
    }
    Ok(entries)
}

/// The log that these bytes keep.
pub(crate) fn log_in(alloc: Global, format: Format, contents: &Contents) -> Result<Log, ReadError>
    ensures log { (header : List ℕ) (payloads : List (List ℕ)) → records.Keeps header payloads contents.now
        → IfOk result (λ log. spec.IsLog format header payloads log.head log.entries) }
    ensures broken { (header : List ℕ) (payloads : List (List ℕ)) (at : ℕ) → records.Keeps header payloads contents.now
        → result ≡ Err (ReadError.Broken at) → spec.Breaks format at header payloads }
{
    let Some(head) = head_in(alloc, format, contents.header())? else {
        return Err(ReadError::Broken(0));
    };
    let payloads = contents.payloads(alloc)?;
    let routes = Routes::new(alloc)?;
    match entries_in(alloc, &routes, format, &payloads) {
        Ok(entries) => Ok(Log { head, entries }),
        Err(fault) => Err(fault),
    }
}
