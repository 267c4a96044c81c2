ghost use Rattle.std.specs.Prelude.{◌≡◌, ◌≢◌, ◌≤◌, ◌++◌, ◌∷◌, [], List, ℕ, IfOk, Some, is_some};
ghost use Rattle.shop_edges.specs.Causes.{Rose};
ghost use Rattle.shop_records.specs.Records.{Keeps};
ghost use Rattle.shop_records.specs.Standing.{IsDurable};
ghost use Rattle.shop_records.specs.Scanning.{ReadsWhole};
ghost use Rattle.shop_records.specs.Looking.{Looks};
ghost use Rattle.shop_records.specs.Runs.{Run, Leaves};
ghost use Rattle.shop_records.specs.Creating.{CreatedAs, disk_made};
ghost use Rattle.shop_records.specs.Opening.{FoundAs, FindsJust, disk_found};

use crate::reading::{ReadError, read_all};
use crate::scanning::scan;
use crate::{Contents, HEADER, Records};
use shop_disk::{Disk, Length, Wrote};
use shop_text::Memory;
use std::alloc::Global;

/// What making a file of records gives.
#[derive(Drop)]
pub enum Created<D: Disk> {
    Done(Records<D>),
    /// The file has bytes.
    NotEmpty(D),
    Failed(D),
    Memory(D),
}

/// What a file is.
#[derive(Drop)]
pub enum Found<D: Disk> {
    /// One of records, and its bytes.
    Open(Records<D>, Contents),
    /// None: at this place the header is missing, or a gate, or what stands behind one that is open is no record.
    NotAJournal(D, u64),
    Failed(D),
    Memory(D),
}

/// The header, and a gate that is shut.
fn first_bytes(alloc: Global, header: &[u8; HEADER]) -> Result<Vec<u8>, Memory>
    ensures { IfOk result (λ bytes. bytes.items ≡ header.now ++ 0 ∷ []) }
{
    let mut bytes = header.to_vec(alloc)?;
    bytes.push(0)?;
    Ok(bytes)
}

/// What these bytes of a disk are, all of which are on it.
fn found_in<D: Disk>(disk: D, bytes: Vec<u8>) -> Found<D>
    requires whole { ReadsWhole (D.state disk).told bytes.items }
    requires durable { IsDurable (D.state disk) }
    ensures found { FoundAs D.state result }
    ensures disk { disk_found result ≡ disk }
    ensures failed { (failed : D) → result ≢ Found.Failed failed }
{
    if bytes.len() < HEADER {
        return Found::NotAJournal(disk, 0);
    }
    let scanned = scan(&bytes[HEADER..]);
    let at = (bytes.len() - scanned.rest.len()) as u64;
    if !scanned.is_shut {
        return Found::NotAJournal(disk, at);
    }
    Found::Open(Records { disk, gate: at }, Contents { bytes })
}

impl<D: Disk> Records<D> {
    /// Makes a file without records of one that is empty. A crash before it is done may leave one that has bytes and is
    /// none.
    pub fn create(alloc: Global, disk: D, header: &[u8; HEADER]) -> Created<D>
        ensures created { CreatedAs D.state (D.state disk).told header.now result }
        // A file with bytes is left as it was, whatever the answer, and a crash at no moment leaves more than before.
        ensures left { (file : List ℕ) → (D.state disk).told ≡ Some file → file ≢ [] → Looks (D.state disk) (D.state (disk_made result)) }
        ensures tells { is_some (D.state (disk_made result)).told ≡ is_some (D.state disk).told }
        ensures later { (D.state disk).faults ≤ (D.state (disk_made result)).faults }
        ensures failed { (failed : D) → result ≡ Created.Failed failed → Rose (D.state disk).faults (D.state failed).faults }
    {
        let mut disk = disk;
        match disk.length() {
            Length::Failed => return Created::Failed(disk),
            Length::Bytes(0) => {}
            Length::Bytes(_) => return Created::NotEmpty(disk),
        }
        let Ok(bytes) = first_bytes(alloc, header) else {
            return Created::Memory(disk);
        };
        let Wrote::Done = disk.write_at(0, &bytes) else {
            return Created::Failed(disk);
        };
        let Wrote::Done = disk.sync() else {
            return Created::Failed(disk);
        };
        Created::Done(Records {
            disk,
            gate: HEADER as u64,
        })
    }

    /// Opens a file that a crash may have left. It puts onto the disk what may not be there, and writes nothing.
    pub fn open(alloc: Global, disk: D) -> Found<D>
        ensures found { FoundAs D.state result }
        // What is kept is found, and nothing else.
        ensures exact { (header : List ℕ) (payloads : List (List ℕ)) (file : List ℕ) → (D.state disk).told ≡ Some file
            → Keeps header payloads file → FindsJust header payloads result }
        ensures looks { Looks (D.state disk) (D.state (disk_found result)) }
        ensures run { (run : Run) → Leaves (D.state disk) run → Leaves (D.state (disk_found result)) run }
        ensures failed { (failed : D) → result ≡ Found.Failed failed → Rose (D.state disk).faults (D.state failed).faults }
    {
        let mut disk = disk;
        let Wrote::Done = disk.sync() else {
            return Found::Failed(disk);
        };
        match read_all(alloc, &mut disk) {
            Ok(bytes) => found_in(disk, bytes),
            Err(ReadError::Failed) => Found::Failed(disk),
            Err(ReadError::Memory) => Found::Memory(disk),
        }
    }
}
