ghost use Rattle.std.specs.Prelude.{◌≡◌, ◌≤◌, ◌++◌, [], ◌∷◌, List, ℕ, length, is_some, IfOk, Some};
ghost use Rattle.std.specs.Int.{to_be_bytes, w32};
ghost use Rattle.shop_edges.specs.Causes.{Rose};
ghost use Rattle.shop_disk.specs.DiskStates.{LeavesOnly};
ghost use Rattle.shop_records.specs.Records.{IsPayload, Keeps};
ghost use Rattle.shop_records.specs.Standing.{Stands, KeepsOr};
ghost use Rattle.shop_records.specs.Runs.{Run, Standing};
ghost use Rattle.shop_records.specs.Appending.{AppendsAs, RunsAs, disk_after};

use crate::put::put;
use shop_disk::{Disk, Wrote};
use shop_text::Memory;
use std::alloc::Global;
use std::marker::Model;

/// The bytes of a header.
pub const HEADER: usize = 32;

/// The most bytes of a payload.
pub const PAYLOAD_LIMIT: usize = 16_384;

/// Records in a file, all of it on the disk, with the place of the shut gate behind them. Contracts see its disk.
#[derive(Drop)]
pub struct Records<D: Disk> {
    pub(crate) disk: D,
    pub(crate) gate: u64,
}

impl<D: Disk> Model for Records<D> {
    ghost use Rattle.shop_records.specs.Standing.{IsSettled};

    ghost Value = { D };

    ghost view = { λ r. r.disk };

    ghost invariant = { λ r. IsSettled (D.state r.disk) r.gate };
}

/// What became of a record.
#[derive(Drop)]
pub enum Appended<D: Disk> {
    /// It is on the disk.
    Done(Records<D>),
    /// The disk failed. The file is to be opened again.
    Failed(D),
    /// Nothing was written.
    Memory(Records<D>),
}

/// What is written behind a gate: the length of a payload, the payload, and a gate that is shut.
fn tail_of(alloc: Global, payload: &[u8]) -> Result<Vec<u8>, Memory>
    requires { IsPayload payload.now }
    ensures { IfOk result (λ tail. tail.items ≡ to_be_bytes w32 (length payload.now) ++ payload.now ++ 0 ∷ []) }
{
    let mut tail = Vec::with_capacity(alloc, payload.len() + 5)?;
    tail.extend_from_slice(&(payload.len() as u32).to_be_bytes())?;
    tail.extend_from_slice(payload)?;
    tail.push(0)?;
    Ok(tail)
}

impl<D: Disk> Records<D> {
    /// Adds a record. From Done on a crash leaves a file that has it.
    pub fn append(self, alloc: Global, payload: &[u8]) -> Appended<D>
        requires { IsPayload payload.now }
        ensures kept { (header : List ℕ) (payloads : List (List ℕ)) → Stands (D.state self) header payloads
            → AppendsAs D.state header payloads payload.now result }
        ensures any_moment { (header : List ℕ) (payloads : List (List ℕ)) (file : List ℕ) → (D.state self).told ≡ Some file
            → Keeps header payloads file → LeavesOnly (D.state self) (D.state (disk_after result)) (KeepsOr header payloads payload.now) }
        ensures run { (run : Run) → Standing (D.state self) run → RunsAs D.state run payload.now result }
        ensures tells { is_some (D.state (disk_after result)).told ≡ is_some (D.state self).told }
        ensures later { (D.state self).faults ≤ (D.state (disk_after result)).faults }
        ensures failed { (disk : D) → result ≡ Appended.Failed disk → Rose (D.state self).faults (D.state disk).faults }
        ensures memory { (records : D) → result ≡ Appended.Memory records → records ≡ self }
    {
        let Records { mut disk, gate } = self;
        let Ok(tail) = tail_of(alloc, payload) else {
            return Appended::Memory(Records { disk, gate });
        };
        // No file is so long.
        let Some(next) = gate.checked_add(tail.len() as u64) else {
            return Appended::Memory(Records { disk, gate });
        };
        let Wrote::Done = put(&mut disk, gate + 1, &tail) else {
            return Appended::Failed(disk);
        };
        // The record is on the disk: behind a gate that was open before, a crash could leave any bytes.
        let Wrote::Done = put(&mut disk, gate, &[1]) else {
            return Appended::Failed(disk);
        };
        Appended::Done(Records { disk, gate: next })
    }

    /// The disk, on which nothing is called.
    pub fn into_disk(self) -> D
        ensures { result ≡ self }
    {
        let Records { disk, gate: _ } = self;
        disk
    }
}
