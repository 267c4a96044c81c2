//! A file on a disk that may crash, in memory, where all that a crash may leave is known, and of the system.
#![tactic(auto)]

mod disk;
mod file_disk;
mod memory_disk;

pub use disk::{Disk, Got, Length, Opened, Wrote};
pub use file_disk::FileDisk;
pub use memory_disk::{Call, MemoryDisk};
