//! The front of a file that keeps no records: those that stand before the place where they break off.
ghost use Rattle.std.specs.Prelude.{◌≡◌, ◌<◌, ◌++◌, ◌∷◌, [], List, ℕ, Err, length, IfOk, IfErr};
ghost use Rattle.shop_edges.specs.Causes.{Rose};
ghost use Rattle.shop_records.specs.Looking.{Looks};
ghost use Rattle.shop_records.specs.Records as records;
ghost use Rattle.shop_records.specs.Scanning.{ReadsWhole};
ghost use Rattle.shop_journal.specs.declared.fronts.DiskError.{DiskError};
ghost use Rattle.shop_journal.specs.declared.fronts.DiskError.TheVariants as disk_error;

use shop_disk::{Disk, Got, MemoryDisk};
use shop_records::{Contents, Found, Records};
use shop_text::{Listed, Memory, Text};
use std::alloc::{AllocError, Global};

/// Why a file was not read.
#[derive(Clone, Copy, Debug, PartialEq, Eq)]
pub(crate) enum DiskError {
    Failed,
    Memory,
}

impl From<AllocError> for DiskError {
    ghost from_gives = { λ _ e. e ≡ disk_error.Memory };

    fn from(_: AllocError) -> Self {
        DiskError::Memory
    }
}

/// How many bytes are read at once.
const PIECE: usize = 65_536;

/// The bytes of the file, read by pieces into this room.
fn read_by<D: Disk>(alloc: Global, disk: &mut D, room: &mut [u8]) -> Result<Vec<u8>, DiskError>
    requires { 0 < length room.old }
    ensures bytes { IfOk result (λ bytes. ReadsWhole (D.state disk.old).told bytes.items) }
    ensures looks { Looks (D.state disk.old) (D.state disk.new) }
    ensures failed { IfErr result (λ e. e ≡ DiskError.Failed → Rose (D.state disk.old).faults (D.state disk.new).faults) }
{
    let mut bytes = Vec::new(alloc);
    for _ in 0..u64::MAX {
        match disk.read_at(bytes.len() as u64, room) {
            Got::Bytes(count) => bytes.extend_from_slice(&room[..count])?,
            Got::End => return Ok(bytes),
            Got::Failed => return Err(DiskError::Failed),
        }
    }
    // No file is so long.
    Err(DiskError::Memory)
}

/// The bytes of the file.
pub(crate) fn read_all<D: Disk>(alloc: Global, disk: &mut D) -> Result<Vec<u8>, DiskError>
    ensures bytes { IfOk result (λ bytes. ReadsWhole (D.state disk.old).told bytes.items) }
    ensures looks { Looks (D.state disk.old) (D.state disk.new) }
    ensures failed { IfErr result (λ e. e ≡ DiskError.Failed → Rose (D.state disk.old).faults (D.state disk.new).faults) }
{
    let mut room = vec![in alloc; 0; PIECE]?;
    read_by(alloc, disk, &mut room)
}

/// The bytes that stand in front of a place, with a gate that is shut.
fn shut_behind(alloc: Global, bytes: &[u8]) -> Result<Text, Memory>
    ensures { IfOk result (λ text. text ≡ bytes.now ++ 0 ∷ []) }
{
    let mut text = Text::copy(alloc, bytes)?;
    text.push(&[0])?;
    Ok(text)
}

/// The records that these bytes are.
pub(crate) fn contents_of(alloc: Global, bytes: &[u8]) -> Result<Contents, Memory>
    ensures { (header : List ℕ) (payloads : List (List ℕ)) → records.Keeps header payloads (bytes.now ++ 0 ∷ [])
        → IfOk result (λ contents. records.Keeps header payloads contents) }
{
    let text = shut_behind(alloc, bytes)?;
    let disk = MemoryDisk::new(alloc, text, Listed::new(alloc))?;
    match Records::open(alloc, disk) {
        Found::Open(_, contents) => Ok(contents),
        // A disk in memory fails where there is none.
        Found::NotAJournal(_, _) | Found::Failed(_) | Found::Memory(_) => Err(Memory),
    }
}
