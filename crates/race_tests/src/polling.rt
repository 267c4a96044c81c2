//! Connections that are polled: nothing that a poll waits for changes what comes of them.
ghost use Rattle.std.specs.Prelude.{IfOk};

use crate::opened::{Callers, open_callers};
use crate::pages::{Answer, EMPTY_CART, ITEM, ITEM_1, Sale, written_of};
use crate::polled::{
    Answering, Case, Told, Waits, closes, connection_of, edges_of, is_put_off, may_wait,
    polled_at_desk, worker_at_desk,
};
use futures::Future;
use futures::test::MockTask;
use shop_engine::Ended;
use shop_text::Memory;
use std::alloc::{AllocGlobal, Global};
use std::sync::Wait;
use std::test::Fail;

/// Item 1.
const PRODUCT: &[u8] = b"GET /product_detail?item=1 HTTP/1.1\r\nHost: shop\r\n\r\n";

/// Makes cart 1 with a unit of item 1, and buys it for customer 10, twice: the second time it is empty.
const PURCHASES: &[u8] = b"GET /shopping_cart?item=1 HTTP/1.1\r\nHost: shop\r\n\r\n\
GET /buy_confirm?c=10&cart=1&card=VISA&number=4111222233334444&name=F&expiry=2027-05 HTTP/1.1\r\n\
Host: shop\r\n\r\n\
GET /buy_confirm?c=10&cart=1&card=VISA&number=4111222233334444&name=F&expiry=2027-05 HTTP/1.1\r\n\
Host: shop\r\n\r\n";

/// A search in a body of 23 bytes, the same list again, a message that asks for the end, and one behind it.
const SEARCH: &[u8] = b"POST /search_results HTTP/1.1\r\nHost: shop\r\nContent-Length: 23\r\n\r\n\
kind=title&text=harbour\
GET /search_results?kind=title&text=harbour HTTP/1.1\r\nHost: shop\r\n\r\n\
GET /nothing HTTP/1.1\r\nHost: shop\r\nConnection: close\r\n\r\n\
GET /home HTTP/1.1\r\nHost: shop\r\n\r\n";

/// A message that is refused, behind one that is not.
const REFUSED: &[u8] = b"GET /product_detail?item=1 HTTP/1.1\r\nHost: shop\r\n\r\n\
GET /home HTTP/1.1\r\nHost: shop\r\nTransfer-Encoding: chunked\r\n\r\n";

/// A part of a message.
const PART: &[u8] = b"GET /pro";

/// More bytes than come or go.
const ALL: usize = 1_000_000;

/// The waits stand between two messages, inside a head, inside a body, and inside a reply; at last before a read or a
/// write that fails, and before the end of a message that is cut.
const CASES: [Case; 8] = [
    Case {
        asked: PRODUCT,
        pieces: (7, 100),
        faults: (0, 0),
    },
    Case {
        asked: PURCHASES,
        pieces: (60, 400),
        faults: (0, 0),
    },
    Case {
        asked: SEARCH,
        pieces: (30, 700),
        faults: (0, 0),
    },
    Case {
        asked: REFUSED,
        pieces: (40, 300),
        faults: (0, 0),
    },
    Case {
        asked: PURCHASES,
        pieces: (ALL, ALL),
        faults: (0, 0),
    },
    Case {
        asked: PURCHASES,
        pieces: (60, 400),
        faults: (5, 0),
    },
    Case {
        asked: PURCHASES,
        pieces: (60, 400),
        faults: (0, 4),
    },
    Case {
        asked: PART,
        pieces: (3, 100),
        faults: (0, 0),
    },
];

#[test]
fn each_poll_may_wait(rt: HostRuntime) -> Result<(), Fail> {
    let mut all = true;
    for case in &CASES {
        all = all && may_wait(&rt, case)?;
    }
    assert!(rt; all);
    Ok(())
}

/// Every second one of the first polls.
fn every_second(alloc: Global, polls: u64) -> Result<Vec<u64>, Memory> {
    let mut odd = Vec::new(alloc);
    for poll in 0..polls {
        if poll % 2 == 1 {
            odd.push(poll)?;
        }
    }
    Ok(odd)
}

#[test]
fn a_wait_comes_before_each_byte(rt: HostRuntime) -> Result<(), Fail> {
    let reads = every_second(rt.alloc(), 200)?;
    let waits = Waits {
        reads: &reads,
        writes: &[],
    };
    let case = Case {
        asked: PRODUCT,
        pieces: (1, ALL),
        faults: (0, 0),
    };
    let outcome = polled_at_desk(&rt, &case, waits)?;
    assert!(rt; outcome.came_to(Ended::Closed, 1, ITEM.as_bytes()));
    Ok(())
}

#[test]
fn a_message_is_cut(rt: HostRuntime) -> Result<(), Fail> {
    let case = Case {
        asked: PART,
        pieces: (ALL, ALL),
        faults: (0, 0),
    };
    let outcome = polled_at_desk(&rt, &case, Waits::NONE)?;
    assert!(rt; outcome.came_to(Ended::Cut, 0, b""));
    Ok(())
}

#[test]
fn the_second_write_fails(rt: HostRuntime) -> Result<(), Fail> {
    let case = Case {
        asked: PRODUCT,
        pieces: (ALL, 1),
        faults: (0, 2),
    };
    let outcome = polled_at_desk(&rt, &case, Waits::NONE)?;
    assert!(rt; outcome.came_to(Ended::WriteFault, 1, b"H"));
    Ok(())
}

/// Whether one poll makes sixteen answers, and wakes the task, and the next one ends with one more.
fn is_in_two_polls<F: Future + Answering>(
    alloc: Global,
    task: &MockTask,
    connection: Result<F, Memory>,
    written: &[u8],
) -> Result<bool, Memory>
where
    F::Output: Told,
    requires { IfOk connection F.can_poll }
{
    let mut connection = connection?;
    if !is_put_off(task, &mut connection) {
        return Ok(false);
    }
    let first = connection.answers() == 16 && task.is_woken();
    Ok(closes(alloc, task, &mut connection, 17, written)? && first)
}

#[test]
fn others_have_their_turn_behind_sixteen_answers(rt: HostRuntime) -> Result<(), Fail> {
    let alloc = rt.alloc();
    let mut asked = Vec::new(alloc);
    for _ in 0..17 {
        asked.extend_from_slice(PRODUCT)?;
    }
    let case = Case {
        asked: &asked,
        pieces: (ALL, ALL),
        faults: (0, 0),
    };
    let answers = vec![in alloc; Answer::Page(ITEM); 17]?;
    let written = written_of(alloc, &answers)?;
    let task = MockTask::new(&rt)?;
    let edges = edges_of(alloc, &case, Waits::NONE)?;
    let connection = connection_of(alloc, worker_at_desk(alloc), edges);
    assert!(rt; is_in_two_polls(alloc, &task, connection, written.as_bytes())?);
    Ok(())
}

/// Makes cart 1 with a unit of item 1, buys it, fills it again, and buys it again.
const SALES: &[u8] = b"GET /shopping_cart?item=1 HTTP/1.1\r\nHost: shop\r\n\r\n\
GET /buy_confirm?c=10&cart=1&card=VISA&number=4111222233334444&name=F&expiry=2027-05 HTTP/1.1\r\n\
Host: shop\r\n\r\n\
GET /shopping_cart?cart=1&item=1 HTTP/1.1\r\nHost: shop\r\n\r\n\
GET /buy_confirm?c=10&cart=1&card=VISA&number=4111222233334444&name=F&expiry=2027-05 HTTP/1.1\r\n\
Host: shop\r\n\r\n";

/// Buys cart 1.
const PURCHASE: &[u8] =
    b"GET /buy_confirm?c=10&cart=1&card=VISA&number=4111222233334444&name=F&expiry=2027-05 HTTP/1.1\r\n\
Host: shop\r\n\r\n";

/// Two of what connections have.
type Both<T> = (T, T);

/// Whether the first connection waits, and the second one is served to its end before the first one is.
fn are_in_turn<F: Future>(
    alloc: Global,
    tasks: Both<&MockTask>,
    first: Result<F, Memory>,
    second: Result<F, Memory>,
    written: Both<&[u8]>,
) -> Result<bool, Memory>
where
    F::Output: Told,
    requires first { IfOk first F.can_poll }
    requires second { IfOk second F.can_poll }
{
    let (mut first, mut second) = (first?, second?);
    if !is_put_off(tasks.0, &mut first) {
        return Ok(false);
    }
    let meanwhile = closes(alloc, tasks.1, &mut second, 1, written.1)?;
    Ok(closes(alloc, tasks.0, &mut first, 4, written.0)? && meanwhile)
}

/// Whether the first caller's connection waits behind the first of its writes, and the second caller's is served then.
fn are_callers_in_turn<R: Wait + Clone + Drop + AllocGlobal>(
    rt: &R,
    tasks: Both<&MockTask>,
    written: Both<&[u8]>,
) -> Result<bool, Memory> {
    let alloc = rt.alloc();
    let waits = Waits {
        reads: &[],
        writes: &[2],
    };
    let sales = Case {
        asked: SALES,
        pieces: (ALL, ALL),
        faults: (0, 0),
    };
    let purchase = Case {
        asked: PURCHASE,
        ..sales
    };
    let (edges, others) = (
        edges_of(alloc, &sales, waits)?,
        edges_of(alloc, &purchase, Waits::NONE)?,
    );
    let Callers { first, second } = open_callers(rt, alloc)?;
    let first = connection_of(alloc, first.worker(alloc), edges);
    let second = connection_of(alloc, second.worker(alloc), others);
    are_in_turn(alloc, tasks, first, second, written)
}

/// The reply to the first purchase waits while another caller finds the cart empty.
#[test]
fn two_callers_are_polled_in_turn(rt: HostRuntime) -> Result<(), Fail> {
    let alloc = rt.alloc();
    let answers = [
        Answer::Cart(1, ITEM_1),
        Answer::Order(Sale::FIRST),
        Answer::Cart(1, ITEM_1),
        Answer::Order(Sale::SECOND),
    ];
    let written = written_of(alloc, &answers)?;
    let written = (written.as_bytes(), EMPTY_CART.as_bytes());
    let tasks = (MockTask::new(&rt)?, MockTask::new(&rt)?);
    assert!(rt; are_callers_in_turn(&rt, (&tasks.0, &tasks.1), written)?);
    Ok(())
}
