//! A file in memory.
ghost use Rattle.std.specs.Prelude.{◌≡◌, ◌==◌, List, length, IfOk, OnOk, OnErr};
ghost use Rattle.std.specs.List.{list_any};
ghost use Rattle.shop_edges.specs.Causes.{count_up, Rose};
ghost use Rattle.shop_disk.specs.MemoryFiles.{FileState, Replays, after, overwritten};

use crate::{Disk, Got, Length, Opened, Wrote};
use shop_text::{Listed, Memory, Text};
use std::alloc::Global;
use std::marker::Model;

/// What a disk in memory was asked for.
#[derive(Debug, Drop)]
pub enum Call {
    Open,
    Length,
    /// A read from this place on.
    Read(u64),
    /// A write of these bytes from this place on, and its answer.
    Write(u64, Text, Wrote),
    /// A sync, and its answer.
    Sync(Wrote),
}

/// A disk with one file in memory, all of it on the disk at first. The calls whose numbers are listed fail, counted from
/// 1, and those that find no memory. It keeps a list of its calls but for the latter, and so tells all that a crash may
/// leave, now and at each moment since its start.
#[derive(Drop)]
pub struct MemoryDisk {
    alloc: Global,
    first: Text,
    calls: Vec<Call>,
    bytes: Vec<u8>,
    fails: Listed<u64>,
    faults: u64,
}

impl Model for MemoryDisk {
    ghost use Rattle.std.specs.Prelude.{◌≡◌};
    ghost use Rattle.shop_disk.specs.MemoryStates.{MemoryState, file_after};

    ghost Value = { MemoryState };

    ghost use Rattle.shop_disk.specs.MemoryView.{state_of};

    ghost view = { state_of };

    ghost invariant = { λ m. m.bytes.items ≡ (file_after m.first m.calls.items).bytes };
}

/// Puts bytes over those that are there from a place on, and past the end.
fn overwrite(file: &mut Vec<u8>, at: usize, from: &[u8]) -> Result<(), Memory>
    ensures ok { OnOk result (file.new.items ≡ overwritten file.old.items at from.now) }
    ensures err { OnErr result (file.new.items ≡ file.old.items) }
{
    let at = at.min(file.len());
    let within = from.len().min(file.len() - at);
    let (over, past) = from.split_at(within);
    file.extend_from_slice(past)?;
    file[at..at + within].copy_from_slice(over);
    Ok(())
}

/// Whether the next call, behind so many, is one of those that fail.
fn is_next(fails: &Listed<u64>, count: usize) -> bool
    ensures { result ≡ list_any (λ n. n == count_up count) fails.now }
{
    let next = (count as u64).saturating_add(1);
    fails.as_slice().contains(&next)
}

/// A file as its calls are done again: its bytes, what a crash leaves of it, and how many bytes more it may keep.
#[derive(Drop)]
struct Replay {
    bytes: Vec<u8>,
    image: Vec<u8>,
    left: usize,
}

impl Replay {
    /// Does a call again.
    fn step(&mut self, alloc: Global, keep: usize, call: &Call) -> Result<(), Memory>
        ensures { OnOk result ((file : FileState) → Replays keep file self.old.bytes.items self.old.image.items self.old.left
            → Replays keep (after file call.now) self.new.bytes.items self.new.image.items self.new.left) }
    {
        match call {
            Call::Write(at, from, wrote) => {
                let count = from.len().min(self.left);
                overwrite(&mut self.image, *at as usize, &from.bytes()[..count])?;
                self.left -= count;
                if *wrote == Wrote::Done {
                    overwrite(&mut self.bytes, *at as usize, from.bytes())?;
                }
            }
            Call::Sync(Wrote::Done) => {
                self.image = Vec::from_slice(alloc, &self.bytes)?;
                self.left = keep;
            }
            Call::Sync(Wrote::Failed) | Call::Open | Call::Length | Call::Read(_) => {}
        }
        Ok(())
    }
}

impl MemoryDisk {
    ghost use Rattle.std.specs.Prelude.{◌≡◌, ◌≤◌, IfOk, IsTrue};
    ghost use Rattle.shop_disk.specs.declared.memory_disk.Call.TheVariants as call;
    ghost use Rattle.shop_disk.specs.MemoryFiles.{MayLeave, crashed};
    ghost use Rattle.shop_disk.specs.MemoryStates.{fresh, file_of, listed, fails_next, write_fails, Asks, IsLook};

    /// A disk whose file has these bytes.
    pub fn new(alloc: Global, bytes: Text, fails: Listed<u64>) -> Result<MemoryDisk, Memory>
        ensures { IfOk result (λ disk. disk ≡ fresh bytes fails) }
    {
        Ok(MemoryDisk {
            alloc,
            bytes: Vec::from_slice(alloc, bytes.bytes())?,
            first: bytes,
            calls: Vec::new(alloc),
            fails,
            faults: 0,
        })
    }

    /// The bytes that a read gives.
    pub fn bytes(&self) -> &[u8]
        ensures { result.now ≡ (file_of self.now).bytes }
    {
        &self.bytes
    }

    /// The calls so far.
    pub fn calls(&self) -> &[Call]
        ensures { result.now ≡ self.now.calls }
    {
        &self.calls
    }

    /// How many calls have failed.
    pub fn faults(&self) -> u64
        ensures { result ≡ self.now.faults }
    {
        self.faults
    }

    /// What a crash now may leave: the file as it was at the last sync, with the first bytes that were written since, so
    /// many, laid over it in the order of writing.
    pub fn after_crash(&self, keep: usize) -> Result<Text, Memory>
        ensures image { IfOk result (λ image. image ≡ crashed keep (file_of self.now)) }
        ensures left { IfOk result (λ image. MayLeave (file_of self.now) image) }
    {
        let mut replay = Replay {
            bytes: Vec::from_slice(self.alloc, self.first.bytes())?,
            image: Vec::from_slice(self.alloc, self.first.bytes())?,
            left: keep,
        };
        for call in &self.calls {
            replay.step(self.alloc, keep, call)?;
        }
        let Replay {
            bytes: _,
            image,
            left: _,
        } = replay;
        Ok(Text::from_vec(image))
    }

    /// Lists a call that leaves the file, and tells whether it fails.
    fn look(&mut self, call: Call) -> bool
        requires { IsLook call }
        ensures asks { Asks call result self.old self.new }
        ensures later { self.old.faults ≤ self.new.faults }
        ensures rose { IsTrue result → Rose self.old.faults self.new.faults }
    {
        let fails = is_next(&self.fails, self.calls.len());
        let Ok(()) = self.calls.push(call) else {
            self.faults = self.faults.saturating_add(1);
            return true;
        };
        if fails {
            self.faults = self.faults.saturating_add(1);
        }
        fails
    }

    /// Lists a write and makes it, unless it is to fail.
    fn list_write(&mut self, at: u64, from: &[u8]) -> Result<Wrote, Memory>
        ensures ok { IfOk result (λ answer. (write_fails answer ≡ fails_next self.old)
            × (self.new ≡ listed (call.Write at from.now answer) (write_fails answer) self.old)) }
        ensures err { OnErr result (self.new ≡ self.old) }
        ensures later { self.old.faults ≤ self.new.faults }
    {
        let copy = Text::copy(self.alloc, from)?;
        self.calls.reserve(1)?;
        if is_next(&self.fails, self.calls.len()) {
            self.calls
                .push_reserved(Call::Write(at, copy, Wrote::Failed));
            self.faults = self.faults.saturating_add(1);
            return Ok(Wrote::Failed);
        }
        overwrite(&mut self.bytes, at as usize, from)?;
        self.calls.push_reserved(Call::Write(at, copy, Wrote::Done));
        Ok(Wrote::Done)
    }

    /// Lists a sync and makes it, unless it is to fail.
    fn list_sync(&mut self) -> Result<Wrote, Memory>
        ensures ok { IfOk result (λ answer. (write_fails answer ≡ fails_next self.old)
            × (self.new ≡ listed (call.Sync answer) (write_fails answer) self.old)) }
        ensures err { OnErr result (self.new ≡ self.old) }
        ensures later { self.old.faults ≤ self.new.faults }
    {
        if is_next(&self.fails, self.calls.len()) {
            self.calls.push(Call::Sync(Wrote::Failed))?;
            self.faults = self.faults.saturating_add(1);
            return Ok(Wrote::Failed);
        }
        self.calls.push(Call::Sync(Wrote::Done))?;
        Ok(Wrote::Done)
    }
}

impl Disk for MemoryDisk {
    ghost use Rattle.std.specs.Prelude.{Some, length, ◌<◌, ◌≡◌};
    ghost use Rattle.shop_disk.specs.declared.memory_disk.Call.TheVariants as call;
    ghost use Rattle.shop_disk.specs.MemoryStates.{disk_of, file_of};
    ghost use Rattle.shop_disk.specs.MemoryLaws.{memory_is_disk};

    ghost state = { disk_of };

    ghost named = { λ m _. Some (file_of m).bytes };

    ghost is_disk = { memory_is_disk };

    fn open(&mut self, _name: &[u8]) -> Opened {
        if self.look(Call::Open) {
            return Opened::Failed;
        }
        Opened::Open
    }

    fn length(&mut self) -> Length {
        if self.look(Call::Length) {
            return Length::Failed;
        }
        Length::Bytes(self.bytes.len() as u64)
    }

    fn read_at(&mut self, at: u64, into: &mut [u8]) -> Got {
        if self.look(Call::Read(at)) {
            return Got::Failed;
        }
        let at = at as usize;
        if at >= self.bytes.len() {
            return Got::End;
        }
        let rest = &self.bytes[at..];
        let count = rest.len().min(into.len());
        into[..count].copy_from_slice(&rest[..count]);
        Got::Bytes(count)
    }

    fn write_at(&mut self, at: u64, from: &[u8]) -> Wrote {
        let Ok(answer) = self.list_write(at, from) else {
            self.faults = self.faults.saturating_add(1);
            return Wrote::Failed;
        };
        answer
    }

    fn sync(&mut self) -> Wrote {
        let Ok(answer) = self.list_sync() else {
            self.faults = self.faults.saturating_add(1);
            return Wrote::Failed;
        };
        answer
    }
}
