//! Connections over the desk's shop with seed 0. Call n of caller 1 draws 16245 + 13 (n - 1) there.
use crate::answers::answer;
use crate::done;
use crate::records::{Lookup, print_row};
use crate::shops::{Outcome, Setting, clock, outcome_of, worker};
use anyhow::{Result, anyhow};
use http::Method;
use shop_book::{Book, Solo};
use shop_edges::ListClock;
use shop_engine::{Answered, Point, Report, Worker, serve_message};
use shop_gateway::Emulator;
use shop_message::Message;
use shop_text::{Memory, Text};
use std::alloc::Global;

/// What a connection gives, the readings of its clock, and how many changes the log may have.
#[derive(Clone, Copy)]
struct Case {
    name: &'static str,
    input: &'static [u8],
    readings: [u64; 4],
    limit: u8,
}

const CASES: [Case; 6] = [
    Case {
        name: "readings",
        input: b"GET /?c=010 HTTP/1.1\r\n\r\n\
GET /home?c=41 HTTP/1.1\r\n\r\n\
GET /new_products?subject=NON-FICTION HTTP/1.1\r\n\r\n\
GET /best_sellers?subject=NON-FICTION HTTP/1.1\r\n\r\n\
GET /search_results?kind=author&text=ow HTTP/1.1\r\n\r\n",
        readings: [1_000; 4],
        limit: 10,
    },
    Case {
        name: "moments",
        input: b"GET /product_detail?item=101 HTTP/1.1\r\n\r\n\
GET /product_detail?item=0 HTTP/1.1\r\n\r\n\
GET /nothing HTTP/1.1\r\n\r\n\
GET /product_detail?item=4294967295 HTTP/1.1\r\n\r\n\
GET /product_detail?item=0000000001 HTTP/1.1\r\n\r\n",
        readings: [5_000, 4_000, 253_402_300_800_000, 6_000],
        limit: 10,
    },
    Case {
        name: "changes",
        input: b"GET /shopping_cart?qty_46=1 HTTP/1.1\r\n\r\n\
GET /shopping_cart?cart=9 HTTP/1.1\r\n\r\n\
GET /shopping_cart?qty_46=2 HTTP/1.1\r\n\r\n\
GET /shopping_cart?cart=1&qty_46=1 HTTP/1.1\r\n\r\n\
GET /shopping_cart?cart=2&qty_46=3 HTTP/1.1\r\n\r\n\
GET /shopping_cart?cart=2&qty_46=1000 HTTP/1.1\r\n\r\n",
        readings: [5_000, 4_000, 6_000, 6_000],
        limit: 10,
    },
    Case {
        name: "a full log",
        input: b"GET /shopping_cart HTTP/1.1\r\n\r\n\
GET /shopping_cart HTTP/1.1\r\n\r\n\
GET /shopping_cart HTTP/1.1\r\n\r\n\
GET /home HTTP/1.1\r\n\r\n\
GET /shopping_cart?cart=9 HTTP/1.1\r\n\r\n",
        readings: [1_000; 4],
        limit: 2,
    },
    Case {
        name: "a head that is none",
        input: b"GET\r\n\r\nGET / HTTP/1.1\r\n\r\n",
        readings: [1_000; 4],
        limit: 10,
    },
    Case {
        name: "part of a head",
        input: b"GET /pro",
        readings: [1_000; 4],
        limit: 10,
    },
];

/// Prints the kind of a point: its front, moment, call, word and tries.
pub fn print_point(rt: &impl Print, point: &Point) -> Result<()> {
    let numbers = (
        point.front,
        point.moment,
        point.call,
        point.draw,
        point.tries,
    );
    answer(rt, &point.kind, &numbers)
}

/// Prints the end of a connection, and its points.
pub fn print_report(rt: &impl Print, name: &str, report: &Report) -> Result<()> {
    answer(rt, &name, &report.end)?;
    for point in report.points.as_slice() {
        print_point(rt, point)?;
    }
    Ok(())
}

/// Prints what the log has come to, and the versions of three rows.
fn print_book(rt: &(impl Print + AllocGlobal), book: &mut Book) -> Result<()> {
    answer(rt, &"changes of caller 1", &book.count_of(1))?;
    answer(rt, &"all changes", &book.summary())?;
    print_row(rt, book, Lookup::Cart(1))?;
    print_row(rt, book, Lookup::Cart(2))?;
    print_row(rt, book, Lookup::Item(46))
}

/// Prints the end, the points, what the log has come to, and the versions of three rows.
fn print_outcome(rt: &(impl Print + AllocGlobal), name: &str, outcome: &mut Outcome) -> Result<()> {
    print_report(rt, name, &outcome.report)?;
    print_book(rt, &mut outcome.book)
}

/// What comes of a case at the desk's shop.
fn outcome_of_case(alloc: Global, case: Case) -> Result<Outcome, Memory> {
    let setting = Setting {
        readings: case.readings,
        limit: case.limit,
        fails: 0,
        twins: false,
    };
    let input = Text::copy(alloc, case.input)?;
    outcome_of(alloc, input, setting)
}

fn print_case(rt: &(impl Print + AllocGlobal), case: Case) -> Result<()> {
    let mut outcome = done(outcome_of_case(rt.alloc(), case))?;
    print_outcome(rt, case.name, &mut outcome)
}

pub fn print(rt: &(impl Print + AllocGlobal)) -> Result<()> {
    for case in &CASES {
        print_case(rt, *case)?;
    }
    Ok(())
}

/// The answer of a worker to one message, without a connection. Its callers need none of what is promised of it.
fn answer_of(
    alloc: Global,
    worker: &mut Worker<Solo>,
    message: &Message,
    last: bool,
    clock: &mut ListClock,
    gateway: &mut Emulator,
) -> Answered {
    serve_message(alloc, worker, message, last, clock, gateway)
}

fn message_of(alloc: Global, target: &str) -> Result<Message, Memory> {
    Ok(Message {
        method: Method::GET,
        target: Text::copy(alloc, target.as_bytes())?,
        body: Text::new(alloc),
        close: false,
    })
}

/// The answer of a worker of its own.
fn answered(alloc: Global, message: &Message, last: bool) -> Result<Answered, Memory> {
    let mut clock = clock(alloc, [1_000; 4])?;
    let mut gateway = Emulator::new(alloc);
    let mut worker = worker(alloc, 10)?;
    Ok(answer_of(alloc, &mut worker, message, last, &mut clock, &mut gateway))
}

fn answered_target(alloc: Global, target: &str, last: bool) -> Result<Answered, Memory> {
    let message = message_of(alloc, target)?;
    answered(alloc, &message, last)
}

/// Prints how long a reply is, and its point.
fn print_answered(rt: &impl Print, asked: (&str, bool), answered: &Answered) -> Result<()> {
    match answered {
        Answered::Reply(reply, point) => {
            answer(rt, &asked, &reply.len())?;
            print_point(rt, point)
        }
        Answered::Memory => Err(anyhow!("no memory")),
    }
}

fn print_message(rt: &(impl Print + AllocGlobal), target: &str, last: bool) -> Result<()> {
    let answered = done(answered_target(rt.alloc(), target, last))?;
    print_answered(rt, (target, last), &answered)
}

pub fn print_messages(rt: &(impl Print + AllocGlobal)) -> Result<()> {
    print_message(rt, "/product_detail?item=1", false)?;
    print_message(rt, "/home?c=x", true)
}
