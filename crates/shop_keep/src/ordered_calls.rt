//! In which order a disk and a sink are called, which no contract tells where all calls succeed.
use crate::cases::{
    CART, CART_FILE, ITEM, clock_of, disk_with, requests_of, run, sink_of, source_of, words_of,
};
use shop_app::Status;
use shop_disk::{Disk, Got, Length, MemoryDisk, Opened, Wrote};
use shop_edges::{BytesOut, Sink, Took};
use shop_text::Memory;
use std::alloc::Global;
use std::cell::RefCell;
use std::test::Fail;

/// The calls of several, a letter for each, in their order.
type Calls = RefCell<Vec<u8>>;

/// Adds a call.
fn list(calls: &Calls, letter: u8) {
    if let Ok(mut calls) = calls.try_borrow_mut() {
        let _ = calls.push(letter);
    }
}

/// A disk whose calls are listed with those of others.
#[derive(Drop)]
struct ListedDisk<'a> {
    disk: MemoryDisk,
    calls: &'a Calls,
}

impl<'a> Disk for ListedDisk<'a> {
    ghost use Rattle.std.specs.Prelude.{Some};
    ghost use Rattle.shop_disk.specs.MemoryStates.{disk_of, file_of};
    ghost use Rattle.shop_disk.specs.MemoryLaws.{memory_is_disk};

    ghost state = { λ d. disk_of d.disk };

    ghost named = { λ d _. Some (file_of d.disk).bytes };

    ghost is_disk = { λ d. memory_is_disk d.disk };

    fn open(&mut self, name: &[u8]) -> Opened {
        list(self.calls, b'o');
        self.disk.open(name)
    }

    fn length(&mut self) -> Length {
        list(self.calls, b'l');
        self.disk.length()
    }

    fn read_at(&mut self, at: u64, into: &mut [u8]) -> Got {
        list(self.calls, b'r');
        self.disk.read_at(at, into)
    }

    fn write_at(&mut self, at: u64, from: &[u8]) -> Wrote {
        list(self.calls, b'w');
        self.disk.write_at(at, from)
    }

    fn sync(&mut self) -> Wrote {
        list(self.calls, b's');
        self.disk.sync()
    }
}

/// A sink whose writes are listed with the calls of others, each as a reply.
#[derive(Drop)]
struct ListedOut<'a> {
    bytes: BytesOut,
    calls: &'a Calls,
}

impl<'a> Sink for ListedOut<'a> {
    ghost use Rattle.std.specs.Prelude.{Some};

    ghost held = { λ s. Some s.bytes.pieces.bytes };

    ghost faults = { λ s. s.bytes.pieces.faults };

    fn write(&mut self, from: &[u8]) -> Took {
        list(self.calls, b'R');
        self.bytes.write(from)
    }
}

/// Whether a connection over a file is served by these calls of its disk and its sink, of which each reply takes one.
fn is_called(alloc: Global, asks: &[&str], file: &[u8], letters: &[u8]) -> Result<bool, Memory> {
    let calls = RefCell::new(Vec::new(alloc));
    let words = words_of(alloc, "keep --journal shop.journal")?;
    let mut source = source_of(alloc, requests_of(alloc, asks)?);
    let mut clock = clock_of(alloc)?;
    let disks = (
        ListedDisk {
            disk: disk_with(alloc, file, 0)?,
            calls: &calls,
        },
        ListedDisk {
            disk: disk_with(alloc, &[], 0)?,
            calls: &calls,
        },
    );
    let mut sink = ListedOut {
        bytes: sink_of(alloc, 1_000_000),
        calls: &calls,
    };
    let mut faults = ListedOut {
        bytes: sink_of(alloc, 1_000_000),
        calls: &calls,
    };
    let streams = (&mut sink, &mut faults);
    let (status, _, _) = run(alloc, &words, disks, &mut source, streams, &mut clock);
    Ok(status == Status::Done && are_listed(&calls, letters))
}

/// Whether these were called.
fn are_listed(calls: &Calls, letters: &[u8]) -> bool {
    match calls.try_borrow() {
        Ok(calls) => calls.as_slice() == letters,
        Err(_) => false,
    }
}

#[test]
fn a_change_is_on_the_disk_before_its_reply_is_written(rt: HostRuntime) -> Result<(), Fail> {
    assert!(rt; is_called(rt.alloc(), &[CART], &[], b"olwswswsR")?);
    assert!(rt; is_called(rt.alloc(), &[CART], CART_FILE, b"olsrrwswsR")?);
    Ok(())
}

#[test]
fn a_reading_calls_no_disk(rt: HostRuntime) -> Result<(), Fail> {
    let asks = [ITEM, CART, ITEM, ITEM, CART];
    let letters = b"olwsRwswsRRRwswsR";
    assert!(rt; is_called(rt.alloc(), &asks, &[], letters)?);
    Ok(())
}
