//! Runs of the program over streams of bytes in memory.
use shop_app::{Status, run_alone};
use shop_edges::{BytesIn, BytesOut, Gateway, ListClock};
use shop_text::Text;
use std::alloc::Global;

/// The status of a run, what it wrote, and what it told.
#[derive(Drop)]
pub struct Told {
    pub status: Status,
    pub sink: BytesOut,
    pub faults: BytesOut,
}

/// The status of a run. Its callers need none of what is promised of it.
fn status_of<G: Gateway>(
    alloc: Global,
    words: &[Text],
    source: &mut BytesIn,
    (sink, faults): (&mut BytesOut, &mut BytesOut),
    clock: &mut ListClock,
    gateway: &mut G,
) -> Status {
    run_alone(alloc, words, source, sink, faults, clock, gateway)
}

/// Runs words.
pub fn run<G: Gateway>(
    alloc: Global,
    words: &[Text],
    source: &mut BytesIn,
    (sink, faults): (BytesOut, BytesOut),
    clock: &mut ListClock,
    gateway: &mut G,
) -> Told {
    let mut sink = sink;
    let mut faults = faults;
    let streams = (&mut sink, &mut faults);
    let status = status_of(alloc, words, source, streams, clock, gateway);
    Told {
        status,
        sink,
        faults,
    }
}
