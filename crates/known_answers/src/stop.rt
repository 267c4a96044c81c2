//! Why the program ends before all is printed.
use shop_text::Memory;
use std::alloc::{AllocError, AllocFailed};
use std::io;

/// What went wrong.
#[derive(Debug, Drop)]
pub enum Stop {
    Memory,
    Stream(io::Error),
    /// There is no row where one must be.
    NoRow,
    /// There is no such scale.
    NoScale,
}

impl From<Memory> for Stop {
    fn from(_: Memory) -> Self {
        Stop::Memory
    }
}

impl From<AllocError> for Stop {
    fn from(_: AllocError) -> Self {
        Stop::Memory
    }
}

impl<T: Drop> From<AllocFailed<T>> for Stop {
    fn from(_: AllocFailed<T>) -> Self {
        Stop::Memory
    }
}

impl From<io::Error> for Stop {
    fn from(error: io::Error) -> Self {
        Stop::Stream(error)
    }
}
