//! `poll` over sockets of this machine, and its peers in another thread of the test.
use crate::pages::{Answer, ITEM, ITEM_46, written_of};
use crate::peers::requests_of;
use crate::polled_runs::run;
use crate::targets;
use shop_app::Status;
use shop_edges::{Got, LinkOut, Linked, Listener, Opened, Source, write_all};
use shop_tcp::{TcpIn, TcpLinks, TcpOut};
use shop_text::{Memory, Text};
use shop_tokio::{TokioLinks, TokioRunner};
use std::alloc::{AllocGlobal, Global};
use std::net::{Net, TcpListener, TcpStream};
use std::random::RandomSource;
use std::sync::Wait;
use std::test::Fail;
use std::thread::{self, Threads};
use std::time::{Clock, Duration};

/// How often a port is dialled that is not open yet, every 10 milliseconds.
const DIALS: u32 = 2_000;

/// More reads than an answer takes.
const READS: u32 = 100;

/// A peer of the shop.
#[derive(Drop)]
struct Peer {
    source: TcpIn,
    sink: TcpOut,
}

impl Peer {
    /// A peer that has dialled a port, if that is open.
    fn dial<R: Net<Listener = TcpListener, Stream = TcpStream> + Drop>(
        links: &mut TcpLinks<R>,
        port: u16,
    ) -> Option<Peer> {
        match links.dial(port) {
            Linked::Linked(source, sink) => Some(Peer { source, sink }),
            Linked::Failed | Linked::Memory => None,
        }
    }

    /// The same, where the port may not be open yet.
    fn dial_first<R: Net<Listener = TcpListener, Stream = TcpStream> + Clock + Drop>(
        rt: &R,
        links: &mut TcpLinks<R>,
        port: u16,
    ) -> Option<Peer> {
        for _ in 0..DIALS {
            if let Some(peer) = Peer::dial(links, port) {
                return Some(peer);
            }
            thread::sleep(rt, Duration::from_millis(10));
        }
        None
    }

    /// Sends these bytes.
    fn send(&mut self, bytes: &[u8]) {
        let _ = write_all(&mut self.sink, bytes);
    }

    /// What comes until the end, if there is one.
    fn read_all(&mut self, alloc: Global) -> Option<Text> {
        let mut all = Text::new(alloc);
        let mut into = [0; 1_000];
        for _ in 0..READS {
            match self.source.read(&mut into) {
                Got::Bytes(count) => all.push(&into[..count]).ok()?,
                Got::End => return Some(all),
                Got::Failed => return None,
            }
        }
        None
    }

    /// Whether it is answered so where it sends these bytes and no more.
    fn gets(mut self, alloc: Global, bytes: &[u8], answer: &[u8]) -> bool {
        self.send(bytes);
        self.sink.end();
        match self.read_all(alloc) {
            Some(all) => all.bytes() == answer,
            None => false,
        }
    }
}

/// A port that the system has chosen, and which is not open any more.
fn free_port<R: Net<Listener = TcpListener, Stream = TcpStream> + Drop>(
    rt: R,
    alloc: Global,
) -> Option<u16> {
    let mut links = TcpLinks::new(rt, alloc);
    match links.open(0) {
        Opened::Open => links.port(),
        Opened::Failed => None,
    }
}

/// Whether a run over sockets ends well, and this is printed.
fn is_polled<
    R: Wait
        + Net<Listener = TcpListener, Stream = TcpStream>
        + Clock
        + RandomSource
        + AllocGlobal
        + Copy
        + Drop,
>(rt: &R, alloc: Global, line: &str, printed: &str) -> bool {
    let Ok(mut runner) = TokioRunner::new(*rt) else {
        return false;
    };
    let Ok(handle) = runner.handle().clone() else {
        return false;
    };
    let links = TokioLinks::new(*rt, handle);
    match run(rt, alloc, line, links, &mut runner) {
        Ok(outcome) => outcome.is_told(Status::Done, printed, ""),
        Err(_) => false,
    }
}

/// Whether both peers get their pages, the second one before the first one asks.
fn two_get_pages<R: Net<Listener = TcpListener, Stream = TcpStream> + Clock + Copy + Drop>(
    rt: &R,
    alloc: Global,
    port: u16,
) -> Option<bool> {
    let cart = written_of(alloc, &[Answer::Cart(1, ITEM_46)]).ok()?;
    let asks_cart = requests_of(alloc, &[targets::CART]).ok()?;
    let asks_item = requests_of(alloc, &[targets::ITEM]).ok()?;
    let mut links = TcpLinks::new(*rt, alloc);
    let first = Peer::dial_first(rt, &mut links, port)?;
    let second = Peer::dial(&mut links, port)?;
    let second_gets = second.gets(alloc, asks_item.bytes(), ITEM.as_bytes());
    let first_gets = first.gets(alloc, asks_cart.bytes(), cart.as_bytes());
    Some(first_gets && second_gets)
}

/// Whether two peers are served at once.
fn two_are_served<
    R: Threads
        + Wait
        + Net<Listener = TcpListener, Stream = TcpStream>
        + Clock
        + RandomSource
        + AllocGlobal
        + Copy
        + Drop
        + Send
        + Sync
        + 'static,
>(rt: &R, alloc: Global) -> Result<bool, Memory> {
    let Some(port) = free_port(*rt, alloc) else {
        return Ok(false);
    };
    let line = format!(in alloc; "poll --port {port} --lanes 2 --connections 2")?;
    let printed = "entries 1\norders 0\ncents 0\ncaller 1 1\ncaller 2 0\n";
    let (is_polled, get_pages) = thread::join(
        rt,
        || is_polled(rt, alloc, line.as_str(), printed),
        || two_get_pages(rt, alloc, port),
    );
    Ok(is_polled && get_pages == Some(true))
}

#[test]
fn two_peers_are_served_at_once_over_sockets(rt: HostRuntime) -> Result<(), Fail> {
    assert!(rt; two_are_served(&rt, rt.alloc())?);
    Ok(())
}

/// What a peer does that has dialled.
#[derive(Clone, Copy)]
enum Manner {
    /// It breaks off before it sends anything.
    Silent,
    /// It breaks off within its request.
    Cut,
    /// It breaks off with all its requests sent, and reads no answer.
    Deaf,
    /// It sends a request, and reads the answer.
    Whole,
}

/// What the peers of a round do, one after another, once all have dialled.
const ROUND: [Manner; 8] = [
    Manner::Silent,
    Manner::Cut,
    Manner::Whole,
    Manner::Whole,
    Manner::Deaf,
    Manner::Cut,
    Manner::Whole,
    Manner::Whole,
];

/// How many rounds there are.
const ROUNDS: u32 = 25;

/// A request for item 1, and many of them.
#[derive(Drop)]
struct Requests {
    one: Text,
    many: Text,
}

/// Whether a peer gets what is due to it, if it stays to get it.
fn acts(peer: Peer, alloc: Global, manner: Manner, requests: &Requests) -> bool {
    let mut peer = peer;
    let one = requests.one.bytes();
    match manner {
        Manner::Silent => {}
        Manner::Cut => peer.send(&one[..one.len() / 2]),
        Manner::Deaf => peer.send(requests.many.bytes()),
        Manner::Whole => return peer.gets(alloc, one, ITEM.as_bytes()),
    }
    true
}

/// The peers of a round.
fn dial_all<R: Net<Listener = TcpListener, Stream = TcpStream> + Clock + Drop>(
    rt: &R,
    alloc: Global,
    links: &mut TcpLinks<R>,
    port: u16,
) -> Option<Vec<Peer>> {
    let mut peers = Vec::new(alloc);
    for _ in 0..ROUND.len() {
        peers.push(Peer::dial_first(rt, links, port)?).ok()?;
    }
    Some(peers)
}

/// Whether the peers of a round get what is due to them.
fn all_act<R: Net<Listener = TcpListener, Stream = TcpStream> + Clock + Drop>(
    rt: &R,
    alloc: Global,
    links: &mut TcpLinks<R>,
    port: u16,
    requests: &Requests,
) -> Option<bool> {
    let peers = dial_all(rt, alloc, links, port)?;
    for (peer, manner) in peers.into_iter().zip(ROUND.iter()) {
        if !acts(peer, alloc, *manner, requests) {
            return Some(false);
        }
    }
    Some(true)
}

/// Whether the peers of all rounds get what is due to them.
fn half_get_pages<R: Net<Listener = TcpListener, Stream = TcpStream> + Clock + Copy + Drop>(
    rt: &R,
    alloc: Global,
    port: u16,
) -> Option<bool> {
    let requests = Requests {
        one: requests_of(alloc, &[targets::ITEM]).ok()?,
        many: requests_of(alloc, &[targets::ITEM; 50]).ok()?,
    };
    let mut links = TcpLinks::new(*rt, alloc);
    for _ in 0..ROUNDS {
        if !all_act(rt, alloc, &mut links, port, &requests)? {
            return Some(false);
        }
    }
    Some(true)
}

/// Whether a hundred peers are served while as many break off.
fn half_are_served<
    R: Threads
        + Wait
        + Net<Listener = TcpListener, Stream = TcpStream>
        + Clock
        + RandomSource
        + AllocGlobal
        + Copy
        + Drop
        + Send
        + Sync
        + 'static,
>(rt: &R, alloc: Global) -> Result<bool, Memory> {
    let Some(port) = free_port(*rt, alloc) else {
        return Ok(false);
    };
    let line = format!(in alloc; "poll --port {port} --lanes 4 --connections 200")?;
    let printed = "entries 0\norders 0\ncents 0\ncaller 1 0\ncaller 2 0\ncaller 3 0\ncaller 4 0\n";
    let (is_polled, get_pages) = thread::join(
        rt,
        || is_polled(rt, alloc, line.as_str(), printed),
        || half_get_pages(rt, alloc, port),
    );
    Ok(is_polled && get_pages == Some(true))
}

#[test]
fn peers_that_break_off_hold_up_nobody(rt: HostRuntime) -> Result<(), Fail> {
    assert!(rt; half_are_served(&rt, rt.alloc())?);
    Ok(())
}
