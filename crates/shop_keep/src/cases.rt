//! What the tests share: files by their bytes, and runs over disks in memory at a clock that always reads 1,000.
use crate::run_kept;
use shop_app::Status;
use shop_disk::{Disk, MemoryDisk};
use shop_edges::{BytesIn, BytesOut, Got, ListClock, Sink, Source};
use shop_gateway::Emulator;
use shop_text::{Listed, Memory, Text};
use std::alloc::Global;

/// More bytes than come with a read or go with a write.
const ALL: usize = 1_000_000;

/// What the desk's shop of seed 0 is asked for: a new cart with an item that is drawn, a new cart with item 1, its purchase
/// by customer 10, the last order of that customer, and item 1.
pub(crate) const CART: &str = "/shopping_cart";

pub(crate) const CART_OF_ITEM_1: &str = "/shopping_cart?item=1";

pub(crate) const PURCHASE: &str =
    "/buy_confirm?c=10&cart=1&card=VISA&number=4111222233334444&name=F&expiry=2027-05";

pub(crate) const LAST_ORDER: &str = "/order_display?user=OGBA&pass=ogba";

pub(crate) const ITEM: &str = "/product_detail?item=1";

/// A journal of the desk with the entry of a new cart.
pub(crate) const CART_FILE: &[u8] =
    b"TPCWLOG2\0\0\0\0\0\0\0\x64\0\0\0\x19\0\0\0\x28\0\0\0\x50\0\0\0\x24\
    \x01\0\0\0\x36\0\0\0\x01\0\0\0\0\0\0\0\x01\0\0\0\0\0\0\x03\xe8\0\0\x3f\x75\0000000000000000/shopping_cart\0";

/// The same with a second cart, which another run made.
pub(crate) const TWO_CARTS_FILE: &[u8] =
    b"TPCWLOG2\0\0\0\0\0\0\0\x64\0\0\0\x19\0\0\0\x28\0\0\0\x50\0\0\0\x24\
    \x01\0\0\0\x36\0\0\0\x01\0\0\0\0\0\0\0\x01\0\0\0\0\0\0\x03\xe8\0\0\x3f\x75\0000000000000000/shopping_cart\
    \x01\0\0\0\x36\0\0\0\x01\0\0\0\0\0\0\0\x02\0\0\0\0\0\0\x03\xe8\0\0\x3f\x75\0000000000000000/shopping_cart\0";

/// A journal of the first format, of a cart and its purchase.
pub(crate) const OLD_FILE: &[u8] =
    b"TPCWLOG1\0\0\0\0\0\0\0\x64\0\0\0\x19\0\0\0\x28\0\0\0\x50\0\0\0\x24\
    \x01\0\0\0\x3c\0\0\0\x01\0\0\0\0\0\0\0\x01\0\0\0\0\0\0\x03\xe8\0\0\x3f\x75000000000000000/shopping_cart?item=1\
    \x01\0\0\0\x81\0\0\0\x01\0\0\0\0\0\0\0\x02\0\0\0\0\0\0\x03\xe8\0\0\x3f\x82111225009362787/buy_confirm?\
    c=10&cart=1&card=VISA&number=4111222233334444&name=F&expiry=2027-05&ship=MAIL\0";

/// The words between blanks.
pub(crate) fn words_of(alloc: Global, line: &str) -> Result<Vec<Text>, Memory> {
    let mut words = Vec::new(alloc);
    for word in line.split_whitespace() {
        words.push(Text::copy(alloc, word.as_bytes())?)?;
    }
    Ok(words)
}

/// The requests of these targets.
pub(crate) fn requests_of(alloc: Global, targets: &[&str]) -> Result<Text, Memory> {
    let mut requests = Text::new(alloc);
    for target in targets {
        requests.push(b"GET ")?;
        requests.push(target.as_bytes())?;
        requests.push(b" HTTP/1.1\r\n\r\n")?;
    }
    Ok(requests)
}

/// A source of these bytes.
pub(crate) fn source_of(alloc: Global, bytes: Text) -> BytesIn {
    BytesIn::new(bytes, ALL, Listed::new(alloc))
}

/// A sink that takes so many bytes with a write, and none where that is 0.
pub(crate) fn sink_of(alloc: Global, piece: usize) -> BytesOut {
    BytesOut::new(alloc, piece, Listed::new(alloc))
}

/// A clock that always reads 1,000.
pub(crate) fn clock_of(alloc: Global) -> Result<ListClock, Memory> {
    ListClock::new(alloc, Listed::from_vec(vec![in alloc; 1_000]?))
}

/// A disk in memory that holds these bytes, and fails at one call, or at none where that is 0.
pub(crate) fn disk_with(alloc: Global, bytes: &[u8], fail: u64) -> Result<MemoryDisk, Memory> {
    let mut fails = Listed::new(alloc);
    fails.push(fail)?;
    MemoryDisk::new(alloc, Text::copy(alloc, bytes)?, fails)
}

/// The status of a run, and its disks. Its callers need none of what is promised of it.
pub(crate) fn run<D: Disk, K: Sink>(
    alloc: Global,
    words: &[Text],
    (disk, other): (D, D),
    source: &mut BytesIn,
    (sink, faults): (&mut K, &mut K),
    clock: &mut ListClock,
) -> (Status, D, D) {
    let mut gateway = Emulator::new(alloc);
    run_kept(
        alloc,
        words,
        disk,
        other,
        source,
        sink,
        faults,
        clock,
        &mut gateway,
    )
}

/// How many bytes of a source are left, of which there are at most 1,024.
pub(crate) fn left_in(source: &mut BytesIn) -> usize {
    let mut into = [0; 1_024];
    match source.read(&mut into) {
        Got::Bytes(count) => count,
        Got::End | Got::Failed => 0,
    }
}

/// What is run: the words, what the shop is asked for, the bytes of both files, the call of each disk that fails, or 0, and
/// how many bytes go with a write.
#[derive(Clone, Copy)]
pub(crate) struct Case<'a> {
    pub(crate) line: &'a str,
    pub(crate) asks: &'a [&'a str],
    pub(crate) files: (&'a [u8], &'a [u8]),
    pub(crate) fails: (u64, u64),
    pub(crate) piece: usize,
}

impl<'a> Case<'a> {
    /// Words, with what is asked for over one file.
    pub(crate) fn of(line: &'a str, asks: &'a [&'a str], file: &'a [u8]) -> Case<'a> {
        Case {
            line,
            asks,
            files: (file, &[]),
            fails: (0, 0),
            piece: ALL,
        }
    }
}

/// What came of a run.
#[derive(Drop)]
pub(crate) struct Outcome {
    pub(crate) status: Status,
    pub(crate) disk: MemoryDisk,
    pub(crate) other: MemoryDisk,
    pub(crate) sink: BytesOut,
    pub(crate) faults: BytesOut,
    /// Whether nothing of the input was read.
    pub(crate) unread: bool,
}

/// Runs a case.
pub(crate) fn outcome_of(alloc: Global, case: Case) -> Result<Outcome, Memory> {
    let words = words_of(alloc, case.line)?;
    let mut clock = clock_of(alloc)?;
    let input = requests_of(alloc, case.asks)?;
    let len = input.len();
    let mut source = source_of(alloc, input);
    let disk = disk_with(alloc, case.files.0, case.fails.0)?;
    let other = disk_with(alloc, case.files.1, case.fails.1)?;
    let mut sink = sink_of(alloc, case.piece);
    let mut faults = sink_of(alloc, ALL);
    let (status, disk, other) = run(
        alloc,
        &words,
        (disk, other),
        &mut source,
        (&mut sink, &mut faults),
        &mut clock,
    );
    let unread = left_in(&mut source) == len;
    Ok(Outcome {
        status,
        disk,
        other,
        sink,
        faults,
        unread,
    })
}

impl Outcome {
    /// Whether it has this status, and told its line.
    pub(crate) fn is(&self, status: Status) -> bool {
        self.status == status && self.faults.bytes() == status.line()
    }

    /// Whether these bytes stand in what was written.
    pub(crate) fn has(&self, part: &[u8]) -> bool {
        count_of(self.sink.bytes(), part) > 0
    }

    /// Whether so many pages were written.
    pub(crate) fn has_pages(&self, count: usize) -> bool {
        count_of(self.sink.bytes(), b"HTTP/1.1 200 OK") == count
    }
}

/// How often these bytes stand in others.
pub(crate) fn count_of(bytes: &[u8], part: &[u8]) -> usize {
    bytes
        .windows(part.len().max(1))
        .filter(|window| *window == part)
        .count()
}
