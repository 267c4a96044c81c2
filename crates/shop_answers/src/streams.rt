//! Streams of bytes in memory, of which one call fails, counted from 1; none does where its number is 0.
use shop_edges::{BytesIn, BytesOut};
use shop_text::{Listed, Memory, Text};
use std::alloc::Global;

fn one(alloc: Global, call: u64) -> Result<Listed<u64>, Memory> {
    Ok(Listed::from_vec(vec![in alloc; call; 1]?))
}

/// So many bytes come with a read at most.
pub fn source(alloc: Global, input: &[u8], piece: usize, fault: u64) -> Result<BytesIn, Memory> {
    let fails = one(alloc, fault)?;
    let input = Text::copy(alloc, input)?;
    Ok(BytesIn::new(input, piece.max(1), fails))
}

/// So many bytes go with a write at most.
pub fn sink(alloc: Global, piece: usize, fault: u64) -> Result<BytesOut, Memory> {
    let fails = one(alloc, fault)?;
    Ok(BytesOut::new(alloc, piece, fails))
}
