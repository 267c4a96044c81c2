//! How a worker is served with requests.
ghost use Rattle.std.specs.Prelude.{◌≡◌};

use shop_attempt::Store;
use shop_edges::{BytesIn, BytesOut, ListClock};
use shop_engine::{Report, Worker, serve_connection};
use shop_gateway::Emulator;
use shop_text::{Listed, Memory, Text};
use std::alloc::Global;

/// Has a worker serve the bytes of a connection at moment 1,000, with a gateway that takes its payments.
pub(crate) fn serve<St: Store>(
    alloc: Global,
    worker: &mut Worker<St>,
    input: &[u8],
    gateway: &mut Emulator,
) -> Result<Report, Memory>
    ensures shop { (St.seat worker.new.store).shop ≡ (St.seat worker.old.store).shop }
{
    let mut clock = ListClock::new(alloc, Listed::from_vec(vec![in alloc; 1_000]?))?;
    let input = Text::copy(alloc, input)?;
    let mut source = BytesIn::new(input, 1_000_000, Listed::new(alloc));
    let mut sink = BytesOut::new(alloc, 1_000_000, Listed::new(alloc));
    Ok(serve_connection(alloc, worker, &mut source, &mut sink, &mut clock, gateway))
}
