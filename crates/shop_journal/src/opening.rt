ghost use Rattle.std.specs.Option.{ForSome};
ghost use Rattle.std.specs.Prelude.{Decides, ◌≡◌, ◌≢◌, ◌≤◌, [], List, ℕ, Some, true, length, IfOk, is_some};
ghost use Rattle.shop_edges.specs.Causes.{Rose};
ghost use Rattle.shop_history.specs.declared.acts.Entry.{Entry};
ghost use Rattle.shop_records.specs.Looking.{Looks};
ghost use Rattle.shop_records.specs.Opening as opening;
ghost use Rattle.shop_records.specs.Runs.{done_by};
ghost use Rattle.shop_records.specs.Scanning as scanning;
ghost use Rattle.shop_records.specs.Scanning.{ReadsWhole};
ghost use Rattle.shop_journal.specs.declared.headers.Head.{Head};
ghost use Rattle.shop_journal.specs.declared.headers.Format.TheVariants.{First, Second};
ghost use Rattle.shop_journal.specs.Journals.{BeginsAs, IsNone, Keeps};
ghost use Rattle.shop_journal.specs.Opening.{CreatedAs, FoundAs, FindsJust, FindsFront, disk_made, disk_found};
ghost use Rattle.shop_journal.specs.Runs.{Run, Leaves, MayBeLeft};

use crate::Journal;
use crate::fronts::{DiskError, contents_of, read_all};
use crate::headers::{Format, Head, header_of};
use crate::logs::{ReadError, log_in};
use shop_disk::Disk;
use shop_history::Entry;
use shop_model::Scale;
use shop_records::{self as records, Contents, HEADER, Records};
use shop_text::Memory;
use std::alloc::Global;

/// What making a journal gives.
#[derive(Drop)]
pub enum Created<D: Disk> {
    Done(Journal<D>),
    /// The file has bytes.
    NotEmpty(D),
    Failed(D),
    Memory(D),
}

/// What a file is.
#[derive(Drop)]
pub enum Found<D: Disk> {
    /// A journal of this shop, and its entries.
    Open(Journal<D>, Head, Vec<Entry>),
    /// It begins as a journal of the first format, which `migrate` reads.
    OldFormat(D),
    /// None: at this place the header is missing, or a gate, or what stands behind one that is open is no record of an
    /// entry.
    NotAJournal(D, u64),
    Failed(D),
    Memory(D),
}

/// Whether a file begins as one of the first format.
fn is_old(bytes: &[u8]) -> bool
    ensures { Decides result (BeginsAs First bytes.now) }
{
    bytes.starts_with(Format::First.magic())
}

/// The same of a file that keeps records.
fn is_old_journal(contents: &Contents) -> bool
    ensures { Decides result (BeginsAs First contents.now) }
{
    is_old(contents.header())
}

/// What a file is whose records are these.
fn found_in<D: Disk>(alloc: Global, records: Records<D>, contents: &Contents) -> Found<D>
    requires open { opening.IsOpen (D.state records) contents.now }
    ensures found { FoundAs D.state result }
    ensures kept { (head : Head) (entries : List Entry) → Keeps Second head entries contents.now → FindsJust head entries result }
    ensures disk { disk_found result ≡ records }
    ensures failed { (failed : D) → result ≢ Found.Failed failed }
{
    if is_old_journal(contents) {
        return Found::OldFormat(records.into_disk());
    }
    match log_in(alloc, Format::Second, contents) {
        Ok(log) => Found::Open(Journal { records }, log.head, log.entries.into_vec()),
        Err(ReadError::Broken(at)) => Found::NotAJournal(records.into_disk(), at),
        Err(ReadError::Memory) => Found::Memory(records.into_disk()),
    }
}

/// The place at which bytes are none of a journal, of which so many are records that break off behind them.
pub(crate) fn broken_place(
    alloc: Global,
    format: Format,
    bytes: &[u8],
    at: usize,
) -> Result<u64, Memory>
    ensures { scanning.IsNone at bytes.now → IfOk result (λ place. IsNone format place bytes.now) }
{
    let front = at.min(bytes.len());
    if front < HEADER {
        return Ok(0);
    }
    let contents = contents_of(alloc, &bytes[..front])?;
    match log_in(alloc, format, &contents) {
        Ok(_) => Ok(at as u64),
        Err(ReadError::Broken(place)) => Ok(place),
        Err(ReadError::Memory) => Err(Memory),
    }
}

/// What a file is that keeps no records, as this place tells.
fn unkept_in<D: Disk>(alloc: Global, disk: D, bytes: &[u8], at: u64) -> Found<D>
    requires whole { ReadsWhole (D.state disk).told bytes.now }
    requires none { ForSome (D.state disk).told (scanning.IsNone at) }
    ensures found { FoundAs D.state result }
    ensures disk { disk_found result ≡ disk }
    ensures failed { (failed : D) → result ≢ Found.Failed failed }
{
    if is_old(bytes) {
        return Found::OldFormat(disk);
    }
    match broken_place(alloc, Format::Second, bytes, at as usize) {
        Ok(place) => Found::NotAJournal(disk, place),
        Err(Memory) => Found::Memory(disk),
    }
}

/// What a file is that keeps no records, as this place tells. Its bytes are read once more, since what stands in front of
/// that place may be no journal's either.
fn unkept<D: Disk>(alloc: Global, disk: D, at: u64) -> Found<D>
    requires { ForSome (D.state disk).told (scanning.IsNone at) }
    ensures found { FoundAs D.state result }
    ensures looks { Looks (D.state disk) (D.state (disk_found result)) }
    ensures failed { (failed : D) → result ≡ Found.Failed failed → Rose (D.state disk).faults (D.state failed).faults }
{
    let mut disk = disk;
    match read_all(alloc, &mut disk) {
        Ok(bytes) => unkept_in(alloc, disk, &bytes, at),
        Err(DiskError::Failed) => Found::Failed(disk),
        Err(DiskError::Memory) => Found::Memory(disk),
    }
}

/// What a file is.
fn find<D: Disk>(alloc: Global, disk: D) -> Found<D>
    ensures found { FoundAs D.state result }
    ensures exact { (head : Head) (entries : List Entry) (file : List ℕ) → (D.state disk).told ≡ Some file → Keeps Second head entries file → FindsJust head entries result }
    ensures looks { Looks (D.state disk) (D.state (disk_found result)) }
    ensures run { (run : Run) → Leaves (D.state disk) run → is_some (D.state disk).told ≡ true → Leaves (D.state (disk_found result)) run }
    ensures failed { (failed : D) → result ≡ Found.Failed failed → Rose (D.state disk).faults (D.state failed).faults }
{
    match Records::open(alloc, disk) {
        records::Found::Open(records, contents) => found_in(alloc, records, &contents),
        records::Found::NotAJournal(disk, at) => unkept(alloc, disk, at),
        records::Found::Failed(disk) => Found::Failed(disk),
        records::Found::Memory(disk) => Found::Memory(disk),
    }
}

impl<D: Disk> Journal<D> {
    /// Makes a journal without entries of a file that is empty. A crash before it is done may leave a file that has bytes
    /// and is none.
    pub fn create(alloc: Global, disk: D, seed: u32, scale: &Scale) -> Created<D>
        ensures created { CreatedAs D.state (D.state disk).told (record { seed = seed; scale = scale.now }) result }
        // A file with bytes is left as it was, whatever the answer, and a crash at no moment leaves more than before.
        ensures left { (file : List ℕ) → (D.state disk).told ≡ Some file → file ≢ [] → Looks (D.state disk) (D.state (disk_made result)) }
        ensures tells { is_some (D.state (disk_made result)).told ≡ is_some (D.state disk).told }
        ensures later { (D.state disk).faults ≤ (D.state (disk_made result)).faults }
        ensures failed { (failed : D) → result ≡ Created.Failed failed → Rose (D.state disk).faults (D.state failed).faults }
    {
        let head = Head {
            seed,
            scale: *scale,
        };
        let Ok(header) = header_of(alloc, Format::Second, &head) else {
            return Created::Memory(disk);
        };
        match Records::create(alloc, disk, &header) {
            records::Created::Done(records) => Created::Done(Journal { records }),
            records::Created::NotEmpty(disk) => Created::NotEmpty(disk),
            records::Created::Failed(disk) => Created::Failed(disk),
            records::Created::Memory(disk) => Created::Memory(disk),
        }
    }

    /// Opens a journal that a crash may have left. It puts onto the disk what may not be there, and writes nothing.
    pub fn open(alloc: Global, disk: D) -> Found<D>
        ensures found { FoundAs D.state result }
        // What is kept is found, and nothing else.
        ensures exact { (head : Head) (entries : List Entry) (file : List ℕ) → (D.state disk).told ≡ Some file → Keeps Second head entries file → FindsJust head entries result }
        // A crash at a moment of a run of appends, and then an opening, loses no entry that was acknowledged by then.
        ensures survives { (before : D) (run : Run) (at : ℕ) (image : List ℕ) → MayBeLeft (D.state before) run at image
            → (D.state disk).told ≡ Some image → FindsFront run (done_by at run.moments) result }
        // An opening without a crash, as behind an append that failed, loses none either.
        ensures again { (run : Run) → Leaves (D.state disk) run → is_some (D.state disk).told ≡ true → FindsFront run (length run.moments) result }
        ensures looks { Looks (D.state disk) (D.state (disk_found result)) }
        // A run goes on over an opening, also where that fails.
        ensures run { (run : Run) → Leaves (D.state disk) run → is_some (D.state disk).told ≡ true → Leaves (D.state (disk_found result)) run }
        ensures failed { (failed : D) → result ≡ Found.Failed failed → Rose (D.state disk).faults (D.state failed).faults }
    {
        find(alloc, disk)
    }
}
