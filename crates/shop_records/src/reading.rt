ghost use Rattle.std.specs.Prelude.{◌≡◌, ◌<◌, length, IfOk, IfErr};
ghost use Rattle.shop_edges.specs.Causes.{Rose};
ghost use Rattle.shop_records.specs.Looking.{Looks};
ghost use Rattle.shop_records.specs.Scanning.{ReadsWhole};
ghost use Rattle.shop_records.specs.declared.reading.ReadError.{ReadError};
ghost use Rattle.shop_records.specs.declared.reading.ReadError.TheVariants as read_error;

use shop_disk::{Disk, Got};
use std::alloc::{AllocError, Global};

/// Why a file was not read.
#[derive(Clone, Copy, Debug, PartialEq, Eq)]
pub(crate) enum ReadError {
    Failed,
    Memory,
}

impl From<AllocError> for ReadError {
    ghost from_gives = { λ _ e. e ≡ read_error.Memory };

    fn from(_: AllocError) -> Self {
        ReadError::Memory
    }
}

/// How many bytes are read at once.
const PIECE: usize = 65_536;

/// The bytes of the file, read by pieces into this room.
fn read_by<D: Disk>(alloc: Global, disk: &mut D, room: &mut [u8]) -> Result<Vec<u8>, ReadError>
    requires { 0 < length room.old }
    ensures bytes { IfOk result (λ bytes. ReadsWhole (D.state disk.old).told bytes.items) }
    ensures looks { Looks (D.state disk.old) (D.state disk.new) }
    ensures failed { IfErr result (λ e. e ≡ ReadError.Failed → Rose (D.state disk.old).faults (D.state disk.new).faults) }
{
    let mut bytes = Vec::new(alloc);
    for _ in 0..u64::MAX {
        match disk.read_at(bytes.len() as u64, room) {
            Got::Bytes(count) => bytes.extend_from_slice(&room[..count])?,
            Got::End => return Ok(bytes),
            Got::Failed => return Err(ReadError::Failed),
        }
    }
    // No file is so long.
    Err(ReadError::Memory)
}

/// The bytes of the file.
pub(crate) fn read_all<D: Disk>(alloc: Global, disk: &mut D) -> Result<Vec<u8>, ReadError>
    ensures bytes { IfOk result (λ bytes. ReadsWhole (D.state disk.old).told bytes.items) }
    ensures looks { Looks (D.state disk.old) (D.state disk.new) }
    ensures failed { IfErr result (λ e. e ≡ ReadError.Failed → Rose (D.state disk.old).faults (D.state disk.new).faults) }
{
    let mut room = vec![in alloc; 0; PIECE]?;
    read_by(alloc, disk, &mut room)
}
