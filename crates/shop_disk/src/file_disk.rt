use crate::{Disk, Got, Length, Opened, Wrote};
use std::fs::{File, OpenOptions};
use std::marker::Model;
use std::os::unix::fs::FileExt;
use std::rt::Files;
use std::str;

/// A file of the system, of which nothing is told. Each call is a fault until a file is open.
///
/// Trusted: that the system keeps the file as the model of a disk says.
#[derive(Drop)]
pub struct FileDisk<R: Files<File = File>> {
    files: R,
    file: Option<File>,
    faults: u64,
}

impl<R: Files<File = File>> Model for FileDisk<R> {
    ghost use Rattle.std.specs.Prelude.{ℕ};

    ghost Value = { ℕ };

    ghost view = { λ d. d.faults };
}

/// The folder that a file of this name lies in.
fn folder_of(name: &[u8]) -> &[u8] {
    match name.iter().rposition(|byte| *byte == b'/') {
        None => b".",
        Some(0) => b"/",
        Some(end) => &name[..end],
    }
}

/// Opens a file, or makes it, and puts its name onto the disk: a new name may be lost while its folder isn't synced, also
/// that of a file which another run made.
fn opened<R: Files<File = File>>(files: &R, name: &[u8]) -> Option<File> {
    let folder = str::from_utf8(folder_of(name)).ok()?;
    let name = str::from_utf8(name).ok()?;
    let mut how = OpenOptions::new();
    how.read(true).write(true).create(true);
    let file = how.open(files, name).ok()?;
    let folder = File::open(files, folder).ok()?;
    folder.sync_all().ok()?;
    Some(file)
}

impl<R: Files<File = File> + Drop> FileDisk<R> {
    ghost use Rattle.std.specs.Prelude.{◌≡◌};

    /// No file is open yet.
    pub fn new(files: R) -> FileDisk<R>
        ensures { result ≡ 0 }
    {
        FileDisk {
            files,
            file: None,
            faults: 0,
        }
    }

    /// How many calls have failed.
    pub fn faults(&self) -> u64
        ensures { result ≡ self.now }
    {
        self.faults
    }
}

impl<R: Files<File = File> + Drop> Disk for FileDisk<R> {
    ghost use Rattle.std.specs.Prelude.{None};
    ghost use Rattle.shop_disk.specs.FileStates.{untold, untold_is_disk};

    ghost state = { untold };

    ghost named = { λ _ _. None };

    ghost is_disk = { untold_is_disk };

    fn open(&mut self, name: &[u8]) -> Opened {
        self.file = opened(&self.files, name);
        if self.file.is_some() {
            return Opened::Open;
        }
        self.faults = self.faults.saturating_add(1);
        Opened::Failed
    }

    fn length(&mut self) -> Length {
        if let Some(file) = &self.file {
            if let Ok(data) = file.metadata() {
                return Length::Bytes(data.len());
            }
        }
        self.faults = self.faults.saturating_add(1);
        Length::Failed
    }

    fn read_at(&mut self, at: u64, into: &mut [u8]) -> Got {
        if let Some(file) = &self.file {
            match file.read_at(into, at) {
                Ok(0) => return Got::End,
                Ok(count) => return Got::Bytes(count),
                Err(_) => {}
            }
        }
        self.faults = self.faults.saturating_add(1);
        Got::Failed
    }

    fn write_at(&mut self, at: u64, from: &[u8]) -> Wrote {
        if let Some(file) = &self.file {
            if file.write_all_at(from, at).is_ok() {
                return Wrote::Done;
            }
        }
        self.faults = self.faults.saturating_add(1);
        Wrote::Failed
    }

    fn sync(&mut self) -> Wrote {
        if let Some(file) = &self.file {
            if file.sync_data().is_ok() {
                return Wrote::Done;
            }
        }
        self.faults = self.faults.saturating_add(1);
        Wrote::Failed
    }
}
