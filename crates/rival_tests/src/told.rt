//! What is told of a session: of its answers, of the charges that its gateway answered, and of the book then.
use shop_attempt::Conflict;
use shop_book::Book;
use shop_engine::{Ended, Point, PointKind, Report};
use shop_gateway::Emulator;
use shop_history::{Key, Row};
use shop_model::AuthId;

const BUSY: &[u8] =
    b"HTTP/1.1 503 Service Unavailable\r\nContent-Type: text/html; charset=utf-8\r\n\
Content-Length: 106\r\n\r\n\
<html><head><title>Service Unavailable</title></head><body>
<p>The rows kept changing.</p>
</body></html>
";

/// What decided an answer, its front, and its tries.
#[derive(Clone, Copy, PartialEq, Eq)]
pub(crate) enum Decided {
    Change(u64, u32),
    At(u64, u32),
    List(u64, u32),
    /// And how many conflicts there were, each of cart 1 or of item 1 with the change behind the one before, and the
    /// version that was read first.
    Busy(u64, u32, usize, u64),
    Other,
}

impl Decided {
    fn of(point: &Point) -> Decided {
        let Point { front, tries, .. } = point;
        match &point.kind {
            PointKind::Change => Decided::Change(*front, *tries),
            PointKind::At => Decided::At(*front, *tries),
            PointKind::List => Decided::List(*front, *tries),
            PointKind::Busy(conflicts) => busy_by(*front, *tries, conflicts.as_slice()),
            _ => Decided::Other,
        }
    }

    fn at(points: &[Point], at: usize) -> Option<Decided> {
        Some(Decided::of(points.get(at)?))
    }
}

/// The caller, the call and the cents of a charge.
type Charge = (u32, u64, u64);

/// The customer of an order, what was paid, its authorisation, and which change made it.
type Sale = (u32, u64, AuthId, u64);

/// The charges that were answered, in turn; the orders from 37; and how many changes there are, of caller 1 and of
/// caller 2.
#[derive(Clone, Copy)]
pub(crate) struct Sold {
    pub(crate) charges: [Option<Charge>; 3],
    pub(crate) orders: [Option<Sale>; 3],
    pub(crate) counts: (u64, u64, u64),
}

/// What a session shows: its end, the first answers, how many pages there are and how many that tell of rows that kept
/// changing, how many show the costs of item 1: at first, and as caller 2 lets it cost at first and at last; and how
/// many links there are to items 101 and 102.
#[derive(Clone, Copy)]
pub(crate) struct Shown {
    pub(crate) end: Ended,
    pub(crate) answers: [Option<Decided>; 4],
    pub(crate) pages: (usize, usize),
    pub(crate) costs: (usize, usize, usize),
    pub(crate) added: (usize, usize),
}

/// What is told of a session: what it shows, and what was sold.
#[derive(Clone, Copy)]
pub(crate) struct Told {
    pub(crate) shown: Shown,
    pub(crate) sold: Sold,
}

impl Told {
    pub(crate) fn of(report: &Report, reply: &[u8], gateway: &Emulator, book: &mut Book) -> Told {
        Told {
            shown: Shown::of(report, reply),
            sold: Sold::of(gateway, book),
        }
    }
}

impl Shown {
    pub(crate) fn of(report: &Report, reply: &[u8]) -> Shown {
        let points = report.points.as_slice();
        Shown {
            end: report.end,
            answers: [
                Decided::at(points, 0),
                Decided::at(points, 1),
                Decided::at(points, 2),
                Decided::at(points, 3),
            ],
            pages: (count_of(reply, b"HTTP/1.1 200 OK"), count_of(reply, BUSY)),
            costs: (
                count_of(reply, b"our price 41.42"),
                count_of(reply, b"our price 20.00"),
                count_of(reply, b"our price 20.06"),
            ),
            added: (
                count_of(reply, b"/product_detail?item=101\""),
                count_of(reply, b"/product_detail?item=102\""),
            ),
        }
    }
}

impl Sold {
    fn of(gateway: &Emulator, book: &mut Book) -> Sold {
        Sold {
            charges: [
                charge_at(gateway, 0),
                charge_at(gateway, 1),
                charge_at(gateway, 2),
            ],
            counts: (book.size(), book.count_of(1), book.count_of(2)),
            orders: [order_of(book, 37), order_of(book, 38), order_of(book, 39)],
        }
    }
}

fn charge_at(gateway: &Emulator, at: usize) -> Option<Charge> {
    let charge = &gateway.answers().get(at)?.get().charge;
    Some((charge.caller, charge.call, charge.cents))
}

fn order_in(row: &Row, version: u64) -> Option<Sale> {
    let Row::Order(order) = row else {
        return None;
    };
    let order = order.get();
    Some((order.customer, order.card.total, order.card.auth, version))
}

fn order_of(book: &mut Book, order: u32) -> Option<Sale> {
    match book.read(&Key::Order(order)) {
        Ok((row, version)) => order_in(&row, version),
        Err(_) => None,
    }
}

/// The version that the first of the conflicts read, where they are those of cart 1 or of item 1 with one change after
/// another.
fn first_read(conflicts: &[Conflict]) -> Option<u64> {
    let first = conflicts.first()?.read;
    let mut read = first;
    for conflict in conflicts {
        let found = read.saturating_add(1);
        if !matches!(conflict.key, Key::Cart(1) | Key::Item(1))
            || (conflict.read, conflict.found) != (read, found)
        {
            return None;
        }
        read = found;
    }
    Some(first)
}

/// What decided an answer behind these conflicts.
fn busy_by(front: u64, tries: u32, conflicts: &[Conflict]) -> Decided {
    match first_read(conflicts) {
        Some(first) => Decided::Busy(front, tries, conflicts.len(), first),
        None => Decided::Other,
    }
}

/// How often these bytes stand in others.
fn count_of(bytes: &[u8], part: &[u8]) -> usize {
    bytes
        .windows(part.len().max(1))
        .filter(|window| *window == part)
        .count()
}
