//! The two sides of a link.
use shop_edges::{Got, LinkIn, LinkOut, Linked, Sink, Source, Took};
use std::alloc::Global;
use std::io::{self, Read, Write};
use std::marker::Model;
use std::net::{Shutdown, TcpStream};
use std::sync::Arc;
use std::time::Duration;

/// How many seconds a read or a write may wait for the peer.
const PATIENCE: u64 = 5;

/// How many milliseconds each read waits for the peer once the link is let go.
const LAST_PATIENCE: u64 = 100;

/// How many reads take what a peer still sends once the link is let go.
const LAST_READS: u32 = 64;

/// How many reads a link may have.
const FIRST_READS: u64 = 1 << 63;

/// The side of a link that bytes come from.
#[derive(Drop)]
pub struct TcpIn {
    stream: Option<Arc<TcpStream, Global>>,
    at_end: bool,
    reads: u64,
    faults: u64,
}

impl Model for TcpIn {
    ghost use Rattle.shop_tcp.specs.Counts.{Reads};

    ghost Value = { Reads };

    ghost view = { λ s. record { left = s.reads; faults = s.faults } };
}

/// The side of a link that bytes go to.
#[derive(Drop)]
pub struct TcpOut {
    stream: Option<Arc<TcpStream, Global>>,
    faults: u64,
}

impl Model for TcpOut {
    ghost use Rattle.std.specs.Prelude.{ℕ};

    ghost Value = { ℕ };

    ghost view = { λ s. s.faults };
}

/// Sends pieces as they are written, and bounds how long the peer is waited for.
fn set_up(stream: &TcpStream) -> io::Result<()> {
    let patience = Some(Duration::from_secs(PATIENCE));
    stream.set_nodelay(true)?;
    stream.set_read_timeout(patience)?;
    stream.set_write_timeout(patience)
}

/// The link of a socket.
pub(crate) fn link_of(alloc: Global, stream: TcpStream) -> Linked<TcpIn, TcpOut> {
    if set_up(&stream).is_err() {
        return Linked::Failed;
    }
    let Ok(from) = Arc::new(alloc, stream) else {
        return Linked::Memory;
    };
    let Ok(to) = Arc::try_clone(&from) else {
        return Linked::Memory;
    };
    let source = TcpIn {
        stream: Some(from),
        at_end: false,
        reads: FIRST_READS,
        faults: 0,
    };
    let sink = TcpOut {
        stream: Some(to),
        faults: 0,
    };
    Linked::Linked(source, sink)
}

/// Takes and drops what the peer still sends, so that the system does not cut off the last page by a reset.
fn linger(stream: &TcpStream) {
    let patience = Some(Duration::from_millis(LAST_PATIENCE));
    if stream.set_read_timeout(patience).is_err() {
        return;
    }
    let mut from = stream;
    let mut into = [0; 4096];
    for _ in 0..LAST_READS {
        match from.read(&mut into) {
            Ok(0) | Err(_) => return,
            Ok(_) => {}
        }
    }
}

impl TcpIn {
    ghost use Rattle.std.specs.Prelude.{◌<◌, length};
    ghost use Rattle.shop_edges.specs.Streams.{GotFits};

    /// A read of the socket, if there still is one.
    fn receive(&self, into: &mut [u8]) -> Got
        requires { 0 < length into.old }
        ensures { GotFits result into.new }
    {
        let Some(stream) = &self.stream else {
            return Got::Failed;
        };
        let mut from = &**stream;
        match from.read(into) {
            Ok(0) => Got::End,
            Ok(count) => Got::Bytes(count),
            Err(_) => Got::Failed,
        }
    }
}

impl Source for TcpIn {
    ghost use Rattle.std.specs.Prelude.{None};

    ghost left = { λ _. None };

    ghost faults = { λ s. s.faults };

    ghost reads = { λ s. s.left };

    fn read(&mut self, into: &mut [u8]) -> Got {
        if self.reads > 0 {
            match self.receive(into) {
                Got::Bytes(count) => {
                    self.reads -= 1;
                    return Got::Bytes(count);
                }
                Got::End => {
                    self.at_end = true;
                    return Got::End;
                }
                Got::Failed => {}
            }
        }
        self.faults = self.faults.saturating_add(1);
        Got::Failed
    }
}

impl LinkIn for TcpIn {
    /// Takes at most 64 reads of what the peer still sends, each of which waits at most 100 milliseconds, and lets the
    /// socket go. A read after it is a fault.
    fn end(&mut self) {
        if let Some(stream) = self.stream.take() {
            if !self.at_end {
                linger(&stream);
            }
        }
    }
}

impl TcpOut {
    ghost use Rattle.std.specs.Prelude.{◌<◌, length};
    ghost use Rattle.shop_edges.specs.Streams.{TookFits};

    /// A write to the socket, if there still is one.
    fn send(&self, from: &[u8]) -> Took
        requires { 0 < length from.now }
        ensures { TookFits result from.now }
    {
        let Some(stream) = &self.stream else {
            return Took::Failed;
        };
        let mut to = &**stream;
        match to.write(from) {
            Ok(0) | Err(_) => Took::Failed,
            Ok(count) => Took::Bytes(count),
        }
    }
}

impl Sink for TcpOut {
    ghost use Rattle.std.specs.Prelude.{None};

    ghost held = { λ _. None };

    ghost faults = { λ faults. faults };

    fn write(&mut self, from: &[u8]) -> Took {
        match self.send(from) {
            Took::Bytes(count) => Took::Bytes(count),
            Took::Failed => {
                self.faults = self.faults.saturating_add(1);
                Took::Failed
            }
        }
    }
}

impl LinkOut for TcpOut {
    /// Tells the peer that nothing more comes, and lets the socket go. A write after it is a fault.
    fn end(&mut self) {
        if let Some(stream) = self.stream.take() {
            let _ = stream.shutdown(Shutdown::Write);
        }
    }
}
