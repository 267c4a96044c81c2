//! Connections over bytes in memory while each read, and then each write, fails in turn: whether the end, the bytes
//! written, the log and what the gateway was asked are what they must be.
use crate::answers::answer;
use crate::faulty::{Calls, Left, Outcome, serve};
use anyhow::{Context, Result, ensure};
use shop_engine::Ended;
use std::alloc::Global;

/// What there is once a message is answered: the bytes that have come with it, those that are written then, and what
/// is left.
#[derive(Clone, Copy)]
struct Mark {
    came: usize,
    went: usize,
    left: Left,
}

const NONE: Left = ((0, 0, 0), (0, None));

/// Before any message.
const FIRST: Mark = Mark {
    came: 0,
    went: 0,
    left: NONE,
};

/// What comes in, and what there is behind each of its messages.
#[derive(Clone, Copy)]
struct Case {
    name: &'static str,
    input: &'static [u8],
    marks: &'static [Mark],
}

const PRODUCT_DETAIL: Case = Case {
    name: "product detail",
    input: b"GET /product_detail?item=1 HTTP/1.1\r\nHost: shop\r\n\r\n",
    marks: &[Mark {
        came: 51,
        went: 557,
        left: NONE,
    }],
};

const SHOPPING_CART: Case = Case {
    name: "shopping cart",
    input: b"GET /shopping_cart?item=46 HTTP/1.1\r\nHost: shop\r\n\r\n",
    marks: &[Mark {
        came: 51,
        went: 549,
        left: ((1, 0, 0), (0, None)),
    }],
};

const PURCHASE: Case = Case {
    name: "a purchase",
    input: b"GET /shopping_cart?item=1 HTTP/1.1\r\nHost: shop\r\n\r\n\
GET /buy_confirm?c=10&cart=1&card=VISA&number=4111222233334444&name=F&expiry=2027-05 HTTP/1.1\r\n\
Host: shop\r\n\r\n",
    marks: &[
        Mark {
            came: 50,
            went: 546,
            left: ((1, 0, 0), (0, None)),
        },
        Mark {
            came: 159,
            went: 1_086,
            left: ((2, 1, 2_606), (1, Some((2, 2_606)))),
        },
    ],
};

const CASES: [Case; 3] = [PRODUCT_DETAIL, SHOPPING_CART, PURCHASE];

/// More bytes than an input or an output has.
const ALL: usize = 100_000;

const PIECES: [usize; 3] = [1, 7, ALL];

/// Calls that take all bytes, and of which none fails.
const WHOLE: Calls = Calls {
    piece: ALL,
    fault: 0,
};

/// The last of the marks that are reached where so many bytes came.
fn reached(marks: &[Mark], came: usize) -> Mark {
    let mut last = FIRST;
    for mark in marks {
        if mark.came <= came {
            last = *mark;
        }
    }
    last
}

/// Whether this came of a connection, which wrote a front of all.
fn is(got: &Outcome, end: Ended, all: &[u8], went: usize, left: Left) -> bool {
    let front = all.get(..went).unwrap_or(all);
    got.end == end && got.sink.bytes() == front && got.left == left
}

/// Whether exactly the messages are answered that came whole before the read that fails.
fn is_read_fault(alloc: Global, case: Case, all: &[u8], reads: Calls) -> Result<bool> {
    let got = serve(alloc, case.input, reads, WHOLE)?;
    let came = reads.fault.saturating_sub(1).saturating_mul(reads.piece);
    let mark = reached(case.marks, came);
    Ok(is(&got, Ended::ReadFault, all, mark.went, mark.left))
}

/// Whether each read of so many bytes at most may fail in turn.
fn reads_may_fail(alloc: Global, case: Case, all: &[u8], piece: usize) -> Result<bool> {
    for fault in 1..=reads_of(case, piece) {
        if !is_read_fault(alloc, case, all, Calls { piece, fault })? {
            return Ok(false);
        }
    }
    Ok(true)
}

/// The bytes and the writes before a reply.
type Before = (usize, usize);

/// Whether a reply is cut to what went before the write of it that fails, and its change and its charge stand.
fn is_write_fault(
    alloc: Global,
    case: Case,
    all: &[u8],
    writes: Calls,
    (before, mark): (Before, Mark),
) -> Result<bool> {
    let got = serve(alloc, case.input, WHOLE, writes)?;
    let own = writes.fault.saturating_sub(1).saturating_sub(before.1);
    let went = before.0.saturating_add(own.saturating_mul(writes.piece));
    Ok(is(&got, Ended::WriteFault, all, went, mark.left))
}

/// Whether each write of a reply may fail in turn.
fn reply_may_fail(
    alloc: Global,
    case: Case,
    all: &[u8],
    piece: usize,
    (before, mark): (Before, Mark),
) -> Result<bool> {
    let last = before
        .1
        .saturating_add(writes_between(before.0, mark.went, piece));
    for fault in before.1.saturating_add(1)..=last {
        if !is_write_fault(alloc, case, all, Calls { piece, fault }, (before, mark))? {
            return Ok(false);
        }
    }
    Ok(true)
}

/// Whether each write of so many bytes at most may fail in turn.
fn writes_may_fail(alloc: Global, case: Case, all: &[u8], piece: usize) -> Result<bool> {
    let mut before = (0, 0);
    for mark in case.marks {
        if !reply_may_fail(alloc, case, all, piece, (before, *mark))? {
            return Ok(false);
        }
        let writes = writes_between(before.0, mark.went, piece);
        before = (mark.went, before.1.saturating_add(writes));
    }
    Ok(true)
}

/// The reads of an input, and one that finds the end.
fn reads_of(case: Case, piece: usize) -> usize {
    case.input.len().div_ceil(piece.max(1)).saturating_add(1)
}

/// The writes of a reply that stands between these places.
fn writes_between(from: usize, to: usize, piece: usize) -> usize {
    to.saturating_sub(from).div_ceil(piece.max(1))
}

/// The writes of all replies.
fn writes_of(case: Case, piece: usize) -> usize {
    let mut from = 0;
    let mut writes = 0_usize;
    for mark in case.marks {
        writes = writes.saturating_add(writes_between(from, mark.went, piece));
        from = mark.went;
    }
    writes
}

/// Prints what came of the faults of a connection where a call has so many bytes at most, behind how many reads and
/// writes there are, and answers whether all is right.
fn is_right_by(
    rt: &(impl Print + AllocGlobal),
    case: Case,
    all: &[u8],
    piece: usize,
) -> Result<bool> {
    let read = reads_may_fail(rt.alloc(), case, all, piece)?;
    let written = writes_may_fail(rt.alloc(), case, all, piece)?;
    let right = read && written;
    let told = if right { "ok" } else { "wrong" };
    let calls = (reads_of(case, piece), writes_of(case, piece));
    answer(rt, &(case.name, piece, calls), &told)?;
    Ok(right)
}

/// Prints what came of the faults of a connection, and answers whether all is right.
fn is_right(rt: &(impl Print + AllocGlobal), case: Case, all: &[u8]) -> Result<bool> {
    let mut right = true;
    for piece in &PIECES {
        right = is_right_by(rt, case, all, *piece)? && right;
    }
    Ok(right)
}

/// Whether a connection without faults came to its last mark.
fn is_whole(whole: &Outcome, last: Mark) -> bool {
    let all = whole.sink.bytes();
    all.len() == last.went && is(whole, Ended::Closed, all, last.went, last.left)
}

/// Prints what came of the faults of a connection, which came to this without them.
fn print_faults(rt: &(impl Print + AllocGlobal), case: Case, whole: &Outcome) -> Result<()> {
    let name = case.name;
    let last = case.marks.last().context("no messages")?;
    ensure!(is_whole(whole, *last), "{name} is not served");
    ensure!(
        is_right(rt, case, whole.sink.bytes())?,
        "{name}: a fault is not what it must be"
    );
    Ok(())
}

fn print_case(rt: &(impl Print + AllocGlobal), case: Case) -> Result<()> {
    let whole = serve(rt.alloc(), case.input, WHOLE, WHOLE)?;
    print_faults(rt, case, &whole)
}

/// Prints what comes of a sink that takes nothing: the end, how many bytes it holds, and how many writes failed.
fn print_full_sink(rt: &(impl Print + AllocGlobal)) -> Result<()> {
    let full = Calls { piece: 0, fault: 0 };
    let got = serve(rt.alloc(), PRODUCT_DETAIL.input, WHOLE, full)?;
    let told = (got.end, got.sink.bytes().len(), got.sink.faults());
    answer(rt, &"a sink that takes nothing", &told)
}

pub fn print(rt: &(impl Print + AllocGlobal)) -> Result<()> {
    for case in &CASES {
        print_case(rt, *case)?;
    }
    print_full_sink(rt)
}
