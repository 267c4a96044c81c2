//! Records of bytes in a file: a crash at any moment loses none that was acknowledged.
//!
//! A file has a header of 32 bytes, and behind it records, each behind a gate, a byte that is 1 where it is open. A record
//! is the length of its payload, four bytes with the highest first, and the payload. The first gate that is not open ends
//! them, and what stands behind it is no part of them.
//!
//! An append writes the record and a shut gate behind it, syncs, opens the gate before it in a write of its own, and
//! syncs again.
#![tactic(auto)]

#[cfg(test)]
mod cases;
mod contents;
mod opening;
mod put;
mod reading;
#[cfg(test)]
mod real_files;
mod records;
mod scanning;
#[cfg(test)]
mod stopped_calls;
#[cfg(test)]
mod torn_files;

pub use contents::Contents;
pub use opening::{Created, Found};
pub use records::{Appended, HEADER, PAYLOAD_LIMIT, Records};
