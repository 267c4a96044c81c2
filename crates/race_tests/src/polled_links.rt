//! Links in memory that are polled.
use crate::peers::{Written, requests_of};
use shop_edges::{BytesIn, BytesOut};
use shop_lanes::PolledLinks;
use shop_polled::{PolledBytesIn, PolledBytesOut};
use shop_text::{Listed, Memory, Text};
use std::alloc::Global;

/// How many bytes come with a read.
const READ: usize = 20;

/// How many bytes go with a write.
const WRITE: usize = 200;

/// The two sides of a link.
pub(crate) type Link = (PolledBytesIn, PolledBytesOut);

/// A listener over links in memory.
pub(crate) type Links = PolledLinks<PolledBytesIn, PolledBytesOut>;

/// A peer that asks for a target once, and the polls of its two sides that are put off.
#[derive(Clone, Copy)]
pub(crate) struct Peer {
    pub(crate) target: &'static str,
    pub(crate) reads: &'static [u64],
    pub(crate) writes: &'static [u64],
}

/// The calls of a listener that are put off, and those that fail.
#[derive(Clone, Copy)]
pub(crate) struct Calls {
    pub(crate) waits: &'static [u64],
    pub(crate) fails: &'static [u64],
}

impl Written for PolledBytesOut {
    fn written(&self) -> &[u8] {
        self.bytes()
    }
}

/// A list of these numbers.
pub(crate) fn listed(alloc: Global, numbers: &[u64]) -> Result<Listed<u64>, Memory> {
    Ok(Listed::from_vec(Vec::from_slice(alloc, numbers)?))
}

/// A side that this is read from.
pub(crate) fn read_side(alloc: Global, bytes: Text) -> BytesIn {
    BytesIn::new(bytes, READ, Listed::new(alloc))
}

/// A side that is written to.
pub(crate) fn written_side(alloc: Global) -> BytesOut {
    BytesOut::new(alloc, WRITE, Listed::new(alloc))
}

/// The link of a peer.
pub(crate) fn link_of(alloc: Global, peer: &Peer) -> Result<Link, Memory> {
    let bytes = read_side(alloc, requests_of(alloc, &[peer.target])?);
    let source = PolledBytesIn::new(bytes, listed(alloc, peer.reads)?);
    let sink = PolledBytesOut::new(written_side(alloc), listed(alloc, peer.writes)?);
    Ok((source, sink))
}

/// A listener over the links of these peers.
pub(crate) fn links_of(alloc: Global, peers: &[Peer], calls: Calls) -> Result<Links, Memory> {
    let mut links = Vec::new(alloc);
    for peer in peers {
        links.push(link_of(alloc, peer)?)?;
    }
    let waits = listed(alloc, calls.waits)?;
    PolledLinks::new(alloc, links, waits, listed(alloc, calls.fails)?)
}

/// Whether the links of these numbers came back, in this order, and no others.
pub(crate) fn came_back<S, O>(back: &[(u64, S, O)], links: &[u64]) -> bool {
    let numbers = back.iter().map(|(link, _, _)| *link);
    numbers.eq(links.iter().copied())
}

/// Whether the link of this number came back, and this was written to it.
pub(crate) fn got<S, O: Written>(back: &[(u64, S, O)], link: u64, written: &str) -> bool {
    for (number, _, sink) in back {
        if *number == link {
            return sink.written() == written.as_bytes();
        }
    }
    false
}
