use crate::{TcpIn, TcpLinks, TcpOut};
use shop_edges::{Got, LinkIn, LinkOut, Linked, Listener, Opened, Sink, Source, Took};
use std::net::{Net, TcpListener, TcpStream};
use std::test::Fail;

/// A link that was dialled, and the same one as it was accepted.
#[derive(Drop)]
struct Both {
    near: (TcpIn, TcpOut),
    far: (TcpIn, TcpOut),
}

/// The two sides of a link, where there is one.
fn sides(link: Linked<TcpIn, TcpOut>) -> Option<(TcpIn, TcpOut)> {
    match link {
        Linked::Linked(source, sink) => Some((source, sink)),
        Linked::Failed | Linked::Memory => None,
    }
}

/// A link of a port that the system chooses.
fn dialled_and_accepted<R: Net<Listener = TcpListener, Stream = TcpStream> + Drop>(
    links: &mut TcpLinks<R>,
) -> Option<Both> {
    if links.open(0) == Opened::Failed {
        return None;
    }
    let port = links.port()?;
    let near = sides(links.dial(port))?;
    let far = sides(links.accept())?;
    Some(Both { near, far })
}

/// Whether a write takes these bytes whole.
fn takes(sink: &mut TcpOut, bytes: &[u8; 4]) -> bool {
    sink.write(bytes) == Took::Bytes(4)
}

/// Whether the next four bytes are these, in at most two reads.
fn gives(source: &mut TcpIn, bytes: &[u8; 4]) -> bool {
    let mut into = [0; 4];
    match source.read(&mut into) {
        Got::Bytes(4) => into == *bytes,
        Got::Bytes(_) | Got::End | Got::Failed => false,
    }
}

/// What a read gives.
fn read_of(source: &mut TcpIn) -> Got {
    let mut into = [0; 4];
    source.read(&mut into)
}

#[test]
fn bytes_go_both_ways_until_the_end(rt: HostRuntime) -> Result<(), Fail> {
    let mut links = TcpLinks::new(rt.clone()?, rt.alloc());
    let Some(Both { mut near, mut far }) = dialled_and_accepted(&mut links) else {
        return Err(Fail::from("no link"));
    };
    assert!(rt; takes(&mut near.1, b"ping"));
    assert!(rt; gives(&mut far.0, b"ping"));
    assert!(rt; takes(&mut far.1, b"pong"));
    far.1.end();
    far.0.end();
    assert!(rt; gives(&mut near.0, b"pong"));
    assert!(rt; read_of(&mut near.0) == Got::End);
    assert!(rt; read_of(&mut far.0) == Got::Failed);
    assert!(rt; far.1.write(b"late") == Took::Failed);
    Ok(())
}

#[test]
fn what_is_not_there_is_a_fault(rt: HostRuntime) -> Result<(), Fail> {
    let mut links = TcpLinks::new(rt.clone()?, rt.alloc());
    assert!(rt; links.port().is_none());
    assert!(rt; sides(links.accept()).is_none());
    assert!(rt; links.open(0) == Opened::Open);
    let Some(port) = links.port() else {
        return Err(Fail::from("no port"));
    };
    let mut others = TcpLinks::new(rt.clone()?, rt.alloc());
    assert!(rt; others.open(port) == Opened::Failed);
    drop(links);
    assert!(rt; sides(others.dial(port)).is_none());
    Ok(())
}
