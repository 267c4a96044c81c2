//! A journal of the first format, written anew in the second.
ghost use Rattle.std.specs.List.{flat_map};
ghost use Rattle.std.specs.Option.{ForSome};
ghost use Rattle.std.specs.Prelude.{◌≡◌, ◌≢◌, ◌≤◌, ◌⊎◌, ◌++◌, ◌∷◌, [], List, ℕ, Some, is_some, IfOk, OnOk};
ghost use Rattle.shop_edges.specs.Causes.{Rose};
ghost use Rattle.shop_records.specs.Looking.{Looks};
ghost use Rattle.shop_records.specs.Opening.{IsOpen};
ghost use Rattle.shop_records.specs.Records.{IsPayload, record_of};
ghost use Rattle.shop_records.specs.Scanning.{IsNone};
ghost use Rattle.shop_journal.specs.declared.headers.Format.TheVariants.{Second};
ghost use Rattle.shop_journal.specs.Journals.{front_of, payloads_of};
ghost use Rattle.shop_journal.specs.Migrating.{MigratesAs, ReadsAs, WritesAs, disk_read};
ghost use Rattle.shop_journal.specs.Payloads as payloads;

use crate::fronts::{DiskError, read_all};
use crate::headers::{Format, header_of};
use crate::logs::{Log, ReadError, log_in};
use crate::opening::broken_place;
use crate::payloads::payload_of;
use shop_disk::{Disk, Length, Wrote};
use shop_history::Entry;
use shop_records::{Contents, Found, Records};
use shop_text::{Memory, Text};
use std::alloc::Global;

/// What became of a journal of the first format.
#[derive(Clone, Copy, Debug, PartialEq, Eq)]
pub enum Migrated {
    /// The new file is a journal of so many entries.
    Done(u64),
    /// The old file is none of the first format, as this place tells.
    NotAJournal(u64),
    /// The new file has bytes.
    NotEmpty,
    /// One of the disks failed.
    Failed,
    Memory,
}

/// Adds the record of a payload.
fn push_record(text: &mut Text, payload: &[u8]) -> Result<(), Memory>
    requires { IsPayload payload.now }
    ensures { OnOk result (text.new ≡ text.old ++ record_of payload.now) }
{
    text.push(&[1])?;
    text.push(&(payload.len() as u32).to_be_bytes())?;
    text.push(payload)
}

/// Adds the record of an entry.
fn push_entry(alloc: Global, text: &mut Text, entry: &Entry) -> Result<(), Memory>
    ensures { OnOk result (text.new ≡ text.old ++ record_of (payloads.payload_of Second entry.now)) }
{
    let payload = payload_of(alloc, Format::Second, entry)?;
    push_record(text, payload.bytes())
}

/// Adds the records of entries.
fn push_entries(alloc: Global, text: &mut Text, entries: &[Entry]) -> Result<(), Memory>
    ensures { OnOk result (text.new ≡ text.old ++ flat_map record_of (payloads_of Second entries.now)) }
{
    for entry in entries {
        push_entry(alloc, text, entry)?;
    }
    Ok(())
}

/// The bytes of a journal of this log, in the second format.
fn journal_of(alloc: Global, log: &Log) -> Result<Text, Memory>
    ensures { IfOk result (λ text. text ≡ front_of Second log.now.head log.now.entries ++ 0 ∷ []) }
{
    let header = header_of(alloc, Format::Second, &log.head)?;
    let mut text = Text::copy(alloc, &header)?;
    push_entries(alloc, &mut text, log.entries.as_slice())?;
    text.push(&[0])?;
    Ok(text)
}

/// Writes a journal of this log into a file that is empty.
fn write_to<E: Disk>(alloc: Global, log: &Log, new: &mut E) -> Migrated
    ensures writes { WritesAs result (E.state new.old).told (E.state new.new) log.now.head log.now.entries }
    ensures left { (file : List ℕ) → (E.state new.old).told ≡ Some file → file ≢ [] → Looks (E.state new.old) (E.state new.new) }
    ensures tells { is_some (E.state new.new).told ≡ is_some (E.state new.old).told }
    ensures later { (E.state new.old).faults ≤ (E.state new.new).faults }
    ensures failed { result ≡ Migrated.Failed → Rose (E.state new.old).faults (E.state new.new).faults }
{
    match new.length() {
        Length::Failed => return Migrated::Failed,
        Length::Bytes(0) => {}
        Length::Bytes(_) => return Migrated::NotEmpty,
    }
    let Ok(text) = journal_of(alloc, log) else {
        return Migrated::Memory;
    };
    let Wrote::Done = new.write_at(0, text.bytes()) else {
        return Migrated::Failed;
    };
    let Wrote::Done = new.sync() else {
        return Migrated::Failed;
    };
    Migrated::Done(log.entries.as_slice().len() as u64)
}

/// What was read of a file.
#[derive(Drop)]
pub(crate) enum Old<D: Disk> {
    /// A journal of the first format.
    Log(D, Log),
    NotAJournal(D, u64),
    Failed(D),
    Memory(D),
}

/// What a file is whose records are these.
fn old_in<D: Disk>(alloc: Global, records: Records<D>, contents: &Contents) -> Old<D>
    requires { IsOpen (D.state records) contents.now }
    ensures read { ReadsAs D.state result }
    ensures disk { disk_read result ≡ records }
    ensures failed { (failed : D) → result ≢ Old.Failed failed }
{
    match log_in(alloc, Format::First, contents) {
        Ok(log) => Old::Log(records.into_disk(), log),
        Err(ReadError::Broken(at)) => Old::NotAJournal(records.into_disk(), at),
        Err(ReadError::Memory) => Old::Memory(records.into_disk()),
    }
}

/// What a file is that keeps no records, as this place tells.
fn old_unkept<D: Disk>(alloc: Global, disk: D, at: u64) -> Old<D>
    requires { ForSome (D.state disk).told (IsNone at) }
    ensures read { ReadsAs D.state result }
    ensures looks { Looks (D.state disk) (D.state (disk_read result)) }
    ensures failed { (failed : D) → result ≡ Old.Failed failed → Rose (D.state disk).faults (D.state failed).faults }
{
    let mut disk = disk;
    match read_all(alloc, &mut disk) {
        Ok(bytes) => match broken_place(alloc, Format::First, &bytes, at as usize) {
            Ok(place) => Old::NotAJournal(disk, place),
            Err(Memory) => Old::Memory(disk),
        },
        Err(DiskError::Failed) => Old::Failed(disk),
        Err(DiskError::Memory) => Old::Memory(disk),
    }
}

/// Reads a file as a journal of the first format.
fn read_old<D: Disk>(alloc: Global, disk: D) -> Old<D>
    ensures read { ReadsAs D.state result }
    ensures looks { Looks (D.state disk) (D.state (disk_read result)) }
    ensures failed { (failed : D) → result ≡ Old.Failed failed → Rose (D.state disk).faults (D.state failed).faults }
{
    match Records::open(alloc, disk) {
        Found::Open(records, contents) => old_in(alloc, records, &contents),
        Found::NotAJournal(disk, at) => old_unkept(alloc, disk, at),
        Found::Failed(disk) => Old::Failed(disk),
        Found::Memory(disk) => Old::Memory(disk),
    }
}

/// Writes the entries of a journal of the first format into another file, which is empty, in the second format. Until it is
/// done, a crash may leave any bytes in the new file.
pub fn migrate<D: Disk, E: Disk>(alloc: Global, old: D, new: E) -> (Migrated, D, E)
    ensures migrates { MigratesAs result.0 (D.state old).told (E.state new).told (E.state result.2) }
    ensures old { Looks (D.state old) (D.state result.1) }
    // A new file with bytes is left as it was, whatever the answer.
    ensures left { (file : List ℕ) → (E.state new).told ≡ Some file → file ≢ [] → Looks (E.state new) (E.state result.2) }
    ensures tells { is_some (E.state result.2).told ≡ is_some (E.state new).told }
    ensures later { (E.state new).faults ≤ (E.state result.2).faults }
    ensures failed { result.0 ≡ Migrated.Failed
        → Rose (D.state old).faults (D.state result.1).faults ⊎ Rose (E.state new).faults (E.state result.2).faults }
{
    let mut new = new;
    match read_old(alloc, old) {
        Old::Log(old, log) => {
            let migrated = write_to(alloc, &log, &mut new);
            (migrated, old, new)
        }
        Old::NotAJournal(old, at) => (Migrated::NotAJournal(at), old, new),
        Old::Failed(old) => (Migrated::Failed, old, new),
        Old::Memory(old) => (Migrated::Memory, old, new),
    }
}
