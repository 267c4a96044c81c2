ghost use Rattle.std.specs.Prelude.{◌≡◌};
ghost use Rattle.futures.specs.Poll.{OnPending};
ghost use Rattle.futures.specs.Task.{Covers, Keeps};
ghost use Rattle.tokio.specs.Net.{listener_readable};

use crate::halves::{TokioIn, TokioOut};
use crate::patience::Patience;
use futures::task::{Context, Poll};
use shop_edges::{Linked, Opened};
use shop_lanes::PolledListener;
use std::io::{self, ErrorKind};
use std::net::{Ipv4Addr, Net, SocketAddr};
use std::time::Clock;
use tokio::net::{TcpListener, TcpStream};
use tokio::runtime::Handle;

/// How many peers that have gone before they were accepted are passed over in one poll.
const GONE: u32 = 64;

/// Links over TCP, which are polled. It opens one port at a time, and tells its counts alone.
#[derive(Drop)]
pub struct TokioLinks<R> {
    rt: R,
    runtime: Handle,
    listener: Option<TcpListener>,
    faults: u64,
    waits: u64,
    accepted: u64,
}

/// The next peer that dials. One that has gone before it was accepted is passed over.
fn next_peer(listener: &mut TcpListener, cx: &mut Context<'_>) -> Poll<io::Result<TcpStream>>
    ensures registered { OnPending result (Covers cx.new (λ event. event ≡ listener_readable listener.new)) }
    ensures kept { Keeps cx.old cx.new }
{
    for _ in 0..GONE {
        match listener.poll_accept(cx) {
            Poll::Ready(Ok((stream, _))) => return Poll::Ready(Ok(stream)),
            Poll::Ready(Err(error)) if error.kind() == ErrorKind::ConnectionAborted => {}
            Poll::Ready(Err(error)) => return Poll::Ready(Err(error)),
            Poll::Pending => return Poll::Pending,
        }
    }
    cx.yield_now()
}

impl<R: Net + Clock + Copy + Drop> TokioLinks<R> {
    /// No port is open. Its links can be polled by the runtime of this handle alone.
    pub fn new(rt: R, runtime: Handle) -> TokioLinks<R>
        ensures counts { (result.faults ≡ 0) × (result.waits ≡ 0) × (result.accepted ≡ 0) }
    {
        TokioLinks {
            rt,
            runtime,
            listener: None,
            faults: 0,
            waits: 0,
            accepted: 0,
        }
    }

    /// The port that is open. Where port 0 was asked for, the system chose it.
    pub fn port(&self) -> Option<u16> {
        let address = self.listener.as_ref()?.local_addr().ok()?;
        Some(address.port())
    }

    /// The link of a socket, which sends pieces as they are written.
    fn link_of(&self, stream: TcpStream) -> io::Result<(TokioIn<R>, TokioOut<R>)> {
        stream.set_nodelay(true)?;
        let (reader, writer) = stream.into_split()?;
        let source = TokioIn::new(reader, Patience::new(self.rt, self.runtime.time())?);
        let sink = TokioOut::new(writer, Patience::new(self.rt, self.runtime.time())?);
        Ok((source, sink))
    }
}

impl<R: Net + Clock + Copy + Drop> PolledListener for TokioLinks<R> {
    ghost use Rattle.std.specs.Prelude.{IsSomeAnd, None};

    type In = TokioIn<R>;

    type Out = TokioOut<R>;

    ghost links = { λ _. None };

    ghost faults = { λ links. links.faults };

    ghost waits = { λ links. links.waits };

    ghost accepted = { λ links. links.accepted };

    ghost needs = { λ links event. IsSomeAnd links.listener (λ listener. event ≡ listener_readable listener) };

    fn open(&mut self, port: u16) -> Opened {
        let address = SocketAddr::from((Ipv4Addr::LOCALHOST, port));
        match TcpListener::bind(&self.rt, address, self.runtime.reactor()) {
            Ok(listener) => {
                self.listener = Some(listener);
                Opened::Open
            }
            Err(_) => {
                self.faults = self.faults.saturating_add(1);
                Opened::Failed
            }
        }
    }

    fn poll_accept(&mut self, cx: &mut Context<'_>) -> Poll<Linked<TokioIn<R>, TokioOut<R>>> {
        let accepted = match &mut self.listener {
            Some(listener) => next_peer(listener, cx),
            None => Poll::Ready(Err(ErrorKind::NotConnected.into())),
        };
        let stream = match accepted {
            Poll::Ready(stream) => stream,
            Poll::Pending => {
                self.waits = self.waits.saturating_add(1);
                return Poll::Pending;
            }
        };
        match stream.and_then(|stream| self.link_of(stream)) {
            Ok((source, sink)) => {
                self.accepted = self.accepted.saturating_add(1);
                Poll::Ready(Linked::Linked(source, sink))
            }
            Err(error) if error.kind() == ErrorKind::OutOfMemory => Poll::Ready(Linked::Memory),
            Err(_) => {
                self.faults = self.faults.saturating_add(1);
                Poll::Ready(Linked::Failed)
            }
        }
    }

    fn give_back(&mut self, _link: u64, source: TokioIn<R>, sink: TokioOut<R>) {
        drop(sink);
        source.drain();
    }
}
