use crate::streams::{TcpIn, TcpOut, link_of};
use shop_edges::{Linked, Listener, Opened};
use std::alloc::Global;
use std::io::ErrorKind;
use std::marker::Model;
use std::net::{Ipv4Addr, Net, TcpListener, TcpStream};

/// Links over TCP. It opens one port at a time, and tells its counts alone.
#[derive(Drop)]
pub struct TcpLinks<R: Net<Listener = TcpListener, Stream = TcpStream> + Drop> {
    rt: R,
    alloc: Global,
    listener: Option<TcpListener>,
    faults: u64,
    accepted: u64,
    dialled: u64,
}

impl<R: Net<Listener = TcpListener, Stream = TcpStream> + Drop> Model for TcpLinks<R> {
    ghost use Rattle.shop_tcp.specs.Counts.{Links};

    ghost Value = { Links };

    ghost view = { λ l. record { faults = l.faults; accepted = l.accepted; dialled = l.dialled } };
}

/// The next peer that dials. One that has gone before it was accepted is passed over.
fn next_peer(listener: &TcpListener) -> Option<TcpStream> {
    for stream in listener.incoming() {
        match stream {
            Ok(stream) => return Some(stream),
            Err(error) if error.kind() == ErrorKind::ConnectionAborted => {}
            Err(_) => return None,
        }
    }
    None
}

impl<R: Net<Listener = TcpListener, Stream = TcpStream> + Drop> TcpLinks<R> {
    ghost use Rattle.std.specs.Prelude.{◌≡◌};

    /// No port is open.
    pub fn new(rt: R, alloc: Global) -> TcpLinks<R>
        ensures { result ≡ record { faults = 0; accepted = 0; dialled = 0 } }
    {
        TcpLinks {
            rt,
            alloc,
            listener: None,
            faults: 0,
            accepted: 0,
            dialled: 0,
        }
    }

    /// The port that is open. Where port 0 was asked for, the system chose it.
    pub fn port(&self) -> Option<u16> {
        let listener = self.listener.as_ref()?;
        let address = listener.local_addr().ok()?;
        Some(address.port())
    }

    /// The link of the next peer.
    fn accepted(&self) -> Linked<TcpIn, TcpOut> {
        let Some(listener) = &self.listener else {
            return Linked::Failed;
        };
        match next_peer(listener) {
            Some(stream) => link_of(self.alloc, stream),
            None => Linked::Failed,
        }
    }

    /// A link to a port of this machine.
    fn dialled(&self, port: u16) -> Linked<TcpIn, TcpOut> {
        match TcpStream::connect(&self.rt, (Ipv4Addr::new(127, 0, 0, 1), port)) {
            Ok(stream) => link_of(self.alloc, stream),
            Err(_) => Linked::Failed,
        }
    }
}

impl<R: Net<Listener = TcpListener, Stream = TcpStream> + Drop> Listener for TcpLinks<R> {
    ghost use Rattle.std.specs.Prelude.{None};

    type In = TcpIn;

    type Out = TcpOut;

    ghost links = { λ _. None };

    ghost faults = { λ l. l.faults };

    ghost accepted = { λ l. l.accepted };

    ghost dialled = { λ l. l.dialled };

    fn open(&mut self, port: u16) -> Opened {
        match TcpListener::bind(&self.rt, (Ipv4Addr::new(127, 0, 0, 1), port)) {
            Ok(listener) => {
                self.listener = Some(listener);
                Opened::Open
            }
            Err(_) => {
                self.faults = self.faults.saturating_add(1);
                Opened::Failed
            }
        }
    }

    fn accept(&mut self) -> Linked<TcpIn, TcpOut> {
        match self.accepted() {
            Linked::Linked(source, sink) => {
                self.accepted = self.accepted.saturating_add(1);
                Linked::Linked(source, sink)
            }
            Linked::Failed => {
                self.faults = self.faults.saturating_add(1);
                Linked::Failed
            }
            Linked::Memory => Linked::Memory,
        }
    }

    fn dial(&mut self, port: u16) -> Linked<TcpIn, TcpOut> {
        match self.dialled(port) {
            Linked::Linked(source, sink) => {
                self.dialled = self.dialled.saturating_add(1);
                Linked::Linked(source, sink)
            }
            Linked::Failed => {
                self.faults = self.faults.saturating_add(1);
                Linked::Failed
            }
            Linked::Memory => Linked::Memory,
        }
    }

    fn give_back(&mut self, _link: u64, _source: TcpIn, _sink: TcpOut) {}
}
