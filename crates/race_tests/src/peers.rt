//! A listener whose links are in memory.
use shop_edges::{BytesIn, BytesOut, LinkIn, LinkOut, Linked, Listener, Opened};
use shop_text::{Listed, Memory, Text};
use std::alloc::Global;

/// More bytes than come with a read or go with a write.
const ALL: usize = 1_000_000;

/// A side of a link whose bytes are kept.
pub(crate) trait Written {
    /// What was written.
    fn written(&self) -> &[u8];
}

impl Written for BytesOut {
    fn written(&self) -> &[u8] {
        self.bytes()
    }
}

/// Gives the links that it has, and fails where none is left. Of each that comes back it keeps the number and the side
/// that was written to.
#[derive(Drop)]
pub(crate) struct Peers<I: LinkIn + Drop, O: LinkOut + Drop> {
    /// Whether its ports open.
    opens: bool,
    /// The links that are accepted, the next one last.
    links: Vec<(I, O)>,
    /// The links that are dialled, the next one last.
    gateways: Vec<(I, O)>,
    back: Vec<(u64, O)>,
    accepted: u64,
    dialled: u64,
    faults: u64,
}

impl<I: LinkIn + Drop, O: LinkOut + Drop> Listener for Peers<I, O> {
    ghost use Rattle.std.specs.Prelude.{None};

    type In = I;

    type Out = O;

    ghost links = { λ _. None };

    ghost faults = { λ peers. peers.faults };

    ghost accepted = { λ peers. peers.accepted };

    ghost dialled = { λ peers. peers.dialled };

    fn open(&mut self, _port: u16) -> Opened {
        if self.opens {
            return Opened::Open;
        }
        self.faults = self.faults.saturating_add(1);
        Opened::Failed
    }

    fn accept(&mut self) -> Linked<I, O> {
        match self.links.pop() {
            Some((source, sink)) => {
                self.accepted = self.accepted.saturating_add(1);
                Linked::Linked(source, sink)
            }
            None => {
                self.faults = self.faults.saturating_add(1);
                Linked::Failed
            }
        }
    }

    fn dial(&mut self, _port: u16) -> Linked<I, O> {
        match self.gateways.pop() {
            Some((source, sink)) => {
                self.dialled = self.dialled.saturating_add(1);
                Linked::Linked(source, sink)
            }
            None => {
                self.faults = self.faults.saturating_add(1);
                Linked::Failed
            }
        }
    }

    fn give_back(&mut self, link: u64, _source: I, sink: O) {
        let _ = self.back.push((link, sink));
    }
}

impl<I: LinkIn + Drop, O: LinkOut + Drop> Peers<I, O> {
    /// These links, in their order. None is dialled.
    pub(crate) fn new(alloc: Global, links: Vec<(I, O)>) -> Peers<I, O> {
        let mut links = links;
        links.reverse();
        Peers {
            opens: true,
            links,
            gateways: Vec::new(alloc),
            back: Vec::new(alloc),
            accepted: 0,
            dialled: 0,
            faults: 0,
        }
    }

    /// From now on no port opens.
    pub(crate) fn shut(&mut self) {
        self.opens = false;
    }

    /// How many links it gave that were accepted, how many that were dialled, and how often it failed.
    pub(crate) fn counts(&self) -> (u64, u64, u64) {
        (self.accepted, self.dialled, self.faults)
    }

    /// Whether the links of these numbers came back, in this order, and no others.
    pub(crate) fn came_back(&self, links: &[u64]) -> bool {
        let numbers = self.back.iter().map(|(link, _)| *link);
        numbers.eq(links.iter().copied())
    }

    /// Whether the link of this number came back, and this was written to it.
    pub(crate) fn got(&self, link: u64, written: &str) -> bool
    where
        O: Written,
    {
        for (number, sink) in &self.back {
            if *number == link {
                return sink.written() == written.as_bytes();
            }
        }
        false
    }
}

/// The requests of these targets.
pub(crate) fn requests_of(alloc: Global, targets: &[&str]) -> Result<Text, Memory> {
    let mut requests = Text::new(alloc);
    for target in targets {
        requests.push(b"GET ")?;
        requests.push(target.as_bytes())?;
        requests.push(b" HTTP/1.1\r\nHost: shop\r\n\r\n")?;
    }
    Ok(requests)
}

/// The link of a peer that sends these bytes.
pub(crate) fn link_of(alloc: Global, bytes: Text) -> (BytesIn, BytesOut) {
    let source = BytesIn::new(bytes, ALL, Listed::new(alloc));
    let sink = BytesOut::new(alloc, ALL, Listed::new(alloc));
    (source, sink)
}

impl Peers<BytesIn, BytesOut> {
    /// Links of peers who send the requests of these targets, each its own.
    pub(crate) fn asking(
        alloc: Global,
        peers: &[&[&str]],
    ) -> Result<Peers<BytesIn, BytesOut>, Memory> {
        let mut links = Vec::new(alloc);
        for targets in peers {
            links.push(link_of(alloc, requests_of(alloc, targets)?))?;
        }
        Ok(Peers::new(alloc, links))
    }

    /// Gives it links of gateways that reply this, to be dialled in this order.
    pub(crate) fn add_gateways(&mut self, alloc: Global, gateways: &[&str]) -> Result<(), Memory> {
        for replies in gateways.iter().rev() {
            let replies = Text::copy(alloc, replies.as_bytes())?;
            self.gateways.push(link_of(alloc, replies))?;
        }
        Ok(())
    }
}
