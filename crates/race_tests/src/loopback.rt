//! `serve` and a gateway over sockets of this machine, each in a thread of the test.
use crate::pages::{Answer, ITEM_1, Sale, written_of};
use crate::peers::requests_of;
use crate::runs::{Outcome, is_told, run};
use crate::targets;
use shop_app::Status;
use shop_edges::{Got, Linked, Listener, Opened, Source, Way, write_all};
use shop_gateway::{Emulator, Served, serve_gateway};
use shop_tcp::{TcpIn, TcpLinks, TcpOut};
use shop_text::{Memory, Text};
use std::alloc::Global;
use std::net::{Net, TcpListener, TcpStream};
use std::sync::Wait;
use std::test::Fail;
use std::thread::{self, Threads};

/// More reads than an answer takes.
const READS: u32 = 100;

/// What a purchase came to: how the gateway's service ended, how many charges it had, and what was answered.
#[derive(Drop)]
struct Bought {
    end: Served,
    charges: usize,
    answer: Text,
}

/// The two sides of a link, where there is one.
fn sides(link: Linked<TcpIn, TcpOut>) -> Option<(TcpIn, TcpOut)> {
    match link {
        Linked::Linked(source, sink) => Some((source, sink)),
        Linked::Failed | Linked::Memory => None,
    }
}

/// What comes until the end, if there is one.
fn read_all(alloc: Global, source: &mut TcpIn) -> Option<Text> {
    let mut all = Text::new(alloc);
    let mut into = [0; 1_000];
    for _ in 0..READS {
        match source.read(&mut into) {
            Got::Bytes(count) => all.push(&into[..count]).ok()?,
            Got::End => return Some(all),
            Got::Failed => return None,
        }
    }
    None
}

/// Has a purchase made at a port, and serves the gateway that is asked for it. By dialling the gateway the port tells that
/// it is open.
fn buy<R: Net<Listener = TcpListener, Stream = TcpStream> + Drop>(
    alloc: Global,
    gateway: &mut TcpLinks<R>,
    port: u16,
    requests: &[u8],
) -> Option<Bought> {
    let (mut lines, mut replies) = sides(gateway.accept())?;
    let (mut source, mut sink) = sides(gateway.dial(port))?;
    if !write_all(&mut sink, requests) {
        return None;
    }
    let mut emulator = Emulator::new(alloc);
    let end = serve_gateway(&mut emulator, &mut lines, &mut replies);
    Some(Bought {
        end,
        charges: emulator.ledger().len(),
        answer: read_all(alloc, &mut source)?,
    })
}

/// A port that the system has chosen, and which is not open any more.
fn free_port<R: Net<Listener = TcpListener, Stream = TcpStream> + Drop>(
    rt: R,
    alloc: Global,
) -> Option<u16> {
    let mut links = TcpLinks::new(rt, alloc);
    match links.open(0) {
        Opened::Open => links.port(),
        Opened::Failed => None,
    }
}

/// The port at which a gateway is open, and one at which nothing is.
#[derive(Clone, Copy)]
struct Ports {
    gateway: u16,
    shop: u16,
}

/// Opens a gateway at a port that the system chooses.
fn open_gateway<R: Net<Listener = TcpListener, Stream = TcpStream> + Drop>(
    rt: R,
    alloc: Global,
    gateway: &mut TcpLinks<R>,
) -> Option<Ports> {
    match gateway.open(0) {
        Opened::Open => Some(Ports {
            gateway: gateway.port()?,
            shop: free_port(rt, alloc)?,
        }),
        Opened::Failed => None,
    }
}

/// What comes of words. In the end the gateway is dialled once more, so that nobody waits there in vain.
fn serve<
    R: Threads
        + Wait
        + Net<Listener = TcpListener, Stream = TcpStream>
        + Clone
        + Drop
        + Send
        + 'static,
>(
    rt: &R,
    alloc: Global,
    line: &str,
    links: &mut TcpLinks<R>,
    gateway: u16,
) -> Result<Outcome, Memory> {
    let outcome = run(rt, alloc, line, Way::Threads, links);
    drop(links.dial(gateway));
    outcome
}

/// The requests of a purchase, the last ones of their link.
fn purchase(alloc: Global) -> Result<Text, Memory> {
    let mut requests = requests_of(alloc, &[targets::CART_OF_ITEM_1])?;
    requests.push(b"GET ")?;
    requests.push(targets::PURCHASE.as_bytes())?;
    requests.push(b" HTTP/1.1\r\nHost: shop\r\nConnection: close\r\n\r\n")?;
    Ok(requests)
}

/// Whether both sides of a purchase went well.
fn is_paid(alloc: Global, outcome: &Outcome, bought: &Bought) -> Result<bool, Memory> {
    let lines = "entries 2\norders 1\ncents 2606\ncaller 1 2\n";
    let answers = [Answer::Cart(1, ITEM_1), Answer::LastOrder(Sale::FIRST)];
    let written = written_of(alloc, &answers)?;
    Ok(
        is_told(outcome, Status::Done, (1, 0), lines, "")
            && (bought.end, bought.charges) == (Served::Closed, 1)
            && bought.answer.bytes() == written.as_bytes(),
    )
}

/// Whether a purchase that is served in one thread, and made and paid for in another, goes well.
fn is_bought<
    R: Threads
        + Wait
        + Net<Listener = TcpListener, Stream = TcpStream>
        + Clone
        + Drop
        + Send
        + Sync
        + 'static,
>(rt: &R, alloc: Global, gateway: &mut TcpLinks<R>, ports: Ports) -> Result<bool, Memory> {
    let line = format!(in alloc;
        "serve --port {} --workers 1 --gateway {}",
        ports.shop, ports.gateway
    )?;
    let requests = purchase(alloc)?;
    let mut links = TcpLinks::new(rt.clone()?, alloc);
    let (outcome, bought) = thread::join(
        rt,
        || serve(rt, alloc, line.as_str(), &mut links, ports.gateway),
        || buy(alloc, gateway, ports.shop, requests.bytes()),
    );
    match (outcome, bought) {
        (Ok(outcome), Some(bought)) => is_paid(alloc, &outcome, &bought),
        _ => Ok(false),
    }
}

#[test]
fn a_purchase_over_sockets_is_paid_at_a_gateway_over_sockets(rt: HostRuntime) -> Result<(), Fail> {
    let alloc = rt.alloc();
    let mut gateway = TcpLinks::new(rt, alloc);
    let ports = open_gateway(rt, alloc, &mut gateway).ok_or("no port")?;
    assert!(rt; is_bought(&rt, alloc, &mut gateway, ports)?);
    Ok(())
}
