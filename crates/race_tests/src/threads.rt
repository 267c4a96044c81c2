//! Two callers at their desks, each in a thread of its own.
ghost use Rattle.std.specs.Prelude.{◌≡◌, IfOk};
ghost use Rattle.shop_turn.specs.Desks.{IsOneShop, seat_of};

use crate::opened::{Caller, Callers, open_callers};
use crate::serving::serve;
use shop_attempt::Store;
use shop_book::Book;
use shop_engine::{PointKind, Report, Worker};
use shop_gateway::Emulator;
use shop_text::{Memory, Text};
use shop_turn::{Desk, Shop};
use std::alloc::Global;
use std::sync::Wait;
use std::test::Fail;
use std::thread;

/// How often each caller changes cart 1.
const ASKS: u64 = 500;

/// A request that makes a cart, which is cart 1 where there is none, and those that change cart 1.
fn changes_of_cart(alloc: Global) -> Result<Text, Memory> {
    let mut input = Text::new(alloc);
    input.push(b"GET /shopping_cart?item=1 HTTP/1.1\r\nHost: shop\r\n\r\n")?;
    for _ in 0..ASKS {
        input.push(b"GET /shopping_cart?cart=1&qty_46=1 HTTP/1.1\r\nHost: shop\r\n\r\n")?;
    }
    Ok(input)
}

fn changes_in(report: &Report) -> u64 {
    let mut changes = 0_u64;
    for point in report.points.as_slice() {
        if matches!(point.kind, PointKind::Change) {
            changes = changes.saturating_add(1);
        }
    }
    changes
}

/// How many changes a worker makes that serves these requests.
fn changes_by<St: Store>(
    alloc: Global,
    worker: &mut Worker<St>,
    input: &[u8],
) -> Result<u64, Memory>
    ensures { (St.seat worker.new.store).shop ≡ (St.seat worker.old.store).shop }
{
    let mut gateway = Emulator::new(alloc);
    let report = serve(alloc, worker, input, &mut gateway)?;
    Ok(changes_in(&report))
}

/// A desk whose worker has served, and how many changes it made.
#[derive(Drop)]
struct Done<R: Wait + Drop> {
    desk: Desk<R>,
    changes: Result<u64, Memory>,
}

/// Has the caller's worker serve these requests, and leave its desk.
fn done_by<R: Wait + Drop>(
    alloc: Global,
    caller: Caller<R>,
    input: &[u8],
) -> Result<Done<R>, Memory>
    ensures { IfOk result (λ done. (seat_of done.desk).shop ≡ (seat_of caller).shop) }
{
    let mut worker = caller.worker(alloc)?;
    let changes = changes_by(alloc, &mut worker, input);
    Ok(Done {
        desk: worker.into_store(),
        changes,
    })
}

/// The changes that two callers made, and those in the book: of either caller, and in all.
#[derive(Clone, Copy)]
struct Counted {
    made: (u64, u64),
    counts: (u64, u64),
    size: u64,
}

/// The counts of a book, where both callers were served.
fn counts_in(
    first: Result<u64, Memory>,
    second: Result<u64, Memory>,
    book: &Book,
) -> Result<Counted, Memory> {
    Ok(Counted {
        made: (first?, second?),
        counts: (book.count_of(1), book.count_of(2)),
        size: book.size(),
    })
}

/// Closes the shop of two desks, and counts.
fn close_both<R: Wait + Drop>(
    alloc: Global,
    first: Done<R>,
    second: Done<R>,
) -> Result<Counted, Memory>
    requires { IsOneShop first.desk second.desk }
{
    let mut others = Vec::with_capacity(alloc, 1)?;
    others.push_reserved(second.desk);
    let book = Shop::close(first.desk, others);
    counts_in(first.changes, second.changes, &book)
}

/// Whether both callers changed something, and the book has what each of them changed and nothing else.
fn is_all(counted: &Counted) -> bool {
    let (of_first, of_second) = counted.made;
    of_first > 1
        && of_second > 1
        && counted.counts == counted.made
        && counted.size == of_first.saturating_add(of_second)
}

#[test]
fn each_change_that_threads_settle_is_in_the_book(rt: HostRuntime) -> Result<(), Fail> {
    let alloc = rt.alloc();
    let input = changes_of_cart(alloc)?;
    let Callers { first, second } = open_callers(&rt, alloc)?;
    let (first, second) = thread::join(
        &rt,
        || done_by(alloc, first, input.bytes()),
        || done_by(alloc, second, input.bytes()),
    );
    let counted = close_both(alloc, first?, second?)?;
    assert!(rt; is_all(&counted));
    Ok(())
}
