//! Purchases at shops with more orders than are counted: the first of them is counted no more, and the
//! lists are looked up as they are then. What is wanted comes from a model in Python.
use crate::answers::answer;
use crate::done;
use crate::records::{Lookup, row_of};
use crate::sales::{Ask, buy, push_ask};
use crate::shops::{Pieces, book_of, clock, serve_input, worker_of};
use anyhow::{Context, Result};
use shop_book::{Book, Solo};
use shop_engine::Worker;
use shop_gateway::Emulator;
use shop_model::{Scale, Subject};
use shop_text::{Memory, Text};
use std::alloc::Global;
use std::boxed::Box;
use std::ops::Range;

/// More bytes than come or are written.
const WHOLE: Pieces = Pieces {
    read: 1_000_000,
    write: 1_000_000,
};

/// Serves a connection for a worker, at one moment.
fn serve(alloc: Global, worker: &mut Worker<Solo>, input: Text) -> Result<(), Memory> {
    let mut clock = clock(alloc, [1_000; 4])?;
    let mut gateway = Emulator::new(alloc);
    let _report = serve_input(alloc, worker, input, WHOLE, &mut clock, &mut gateway);
    Ok(())
}

/// Adds a purchase by customer 1 of one unit of item 1, from the cart with this id.
fn push_unit(input: &mut Text, cart: u32) -> Result<(), Memory> {
    push_ask(input, Ask::Of("/shopping_cart?item=1"))?;
    push_ask(input, buy(1, cart))
}

/// Purchases by customer 1 of one unit of item 1 each, from carts with these ids.
fn purchases(alloc: Global, carts: Range<u32>) -> Result<Text, Memory> {
    let mut input = Text::new(alloc);
    for cart in carts {
        push_unit(&mut input, cart)?;
    }
    Ok(input)
}

fn serve_carts(alloc: Global, worker: &mut Worker<Solo>, carts: Range<u32>) -> Result<(), Memory> {
    let input = purchases(alloc, carts)?;
    serve(alloc, worker, input)
}

/// Serves so many purchases more than 371.
fn serve_purchases(alloc: Global, worker: &mut Worker<Solo>, more: u32) -> Result<(), Memory> {
    serve_carts(alloc, worker, 1..372)?;
    serve_carts(alloc, worker, 372..more.saturating_add(372))
}

/// The book of a shop after so many purchases more than 371. What could not be served is missing in it.
fn book_after(alloc: Global, scale: Scale, more: u32) -> Result<Box<Book>, Memory> {
    let mut worker = worker_of(alloc, scale)?;
    let _ = serve_purchases(alloc, &mut worker, more);
    book_of(alloc, worker)
}

fn print_counted(rt: &impl Print, more: u32, book: &Book) -> Result<()> {
    answer(
        rt,
        &("purchases", more.saturating_add(371)),
        &book.summary(),
    )?;
    let units = (book.sold().quantity(1), book.sold().quantity(181));
    answer(rt, &"units of item 1 and of item 181", &units)
}

/// With 2,592 orders at the opening, the 742nd purchase is the first that makes an order leave.
fn print_leaving(rt: &(impl Print + AllocGlobal), more: u32) -> Result<()> {
    let scale = Scale::of(1000, 1).context("no scale")?;
    let book = done(book_after(rt.alloc(), scale, more))?;
    print_counted(rt, more, &book)
}

/// What a customer buys, in cart 1.
#[derive(Clone, Copy)]
struct Purchase {
    customer: u32,
    cart: &'static str,
}

const PURCHASES: [Purchase; 4] = [
    Purchase {
        customer: 7,
        cart: "/shopping_cart?qty_5=1",
    },
    // The lines of the order that is counted no more among the 3,333.
    Purchase {
        customer: 7,
        cart: "/shopping_cart?qty_498=4&qty_515=5&qty_532=1&qty_549=2",
    },
    // The lines of the order that is counted no more among the 10,000, by its own customer.
    Purchase {
        customer: 5708,
        cart: "/shopping_cart?qty_286=4&qty_303=5&qty_320=1&qty_337=2&qty_354=3",
    },
    Purchase {
        customer: 5708,
        cart: "/shopping_cart?qty_286=4&qty_303=5",
    },
];

fn asks_of(alloc: Global, purchase: Purchase) -> Result<Text, Memory> {
    let mut input = Text::new(alloc);
    push_ask(&mut input, Ask::Of(purchase.cart))?;
    push_ask(&mut input, buy(purchase.customer, 1))?;
    Ok(input)
}

fn serve_purchase(
    alloc: Global,
    worker: &mut Worker<Solo>,
    purchase: Purchase,
) -> Result<(), Memory> {
    let input = asks_of(alloc, purchase)?;
    serve(alloc, worker, input)
}

/// The book of a shop after a purchase.
fn sold(alloc: Global, scale: Scale, purchase: Purchase) -> Result<Box<Book>, Memory> {
    let mut worker = worker_of(alloc, scale)?;
    let _ = serve_purchase(alloc, &mut worker, purchase);
    book_of(alloc, worker)
}

fn version_of(alloc: Global, book: &mut Book, lookup: Lookup) -> Result<u64> {
    let (_, version) = row_of(alloc, book, lookup)?;
    Ok(version)
}

/// Prints what is looked up where it has risen.
fn print_if_risen(rt: &(impl Print + AllocGlobal), book: &mut Book, lookup: Lookup) -> Result<()> {
    if version_of(rt.alloc(), book, lookup)? > 0 {
        return answer(rt, &"risen", &lookup);
    }
    Ok(())
}

/// Prints which best sellers have risen, and of which items the buyers, and of which customers what they
/// bought.
fn print_risen(rt: &(impl Print + AllocGlobal), book: &mut Book, scale: &Scale) -> Result<()> {
    for subject in Subject::all() {
        print_if_risen(rt, book, Lookup::BestIn(subject))?;
    }
    for item in 1..=scale.items {
        print_if_risen(rt, book, Lookup::Buyers(item))?;
    }
    for customer in 1..=scale.customers {
        print_if_risen(rt, book, Lookup::Bought(customer))?;
    }
    Ok(())
}

/// With 10,368 orders at the opening, a purchase makes an order leave both windows.
fn print_rising(rt: &(impl Print + AllocGlobal), purchase: Purchase) -> Result<()> {
    let scale = Scale::of(1000, 4).context("no scale")?;
    answer(rt, &purchase.customer, &purchase.cart)?;
    let mut book = done(sold(rt.alloc(), scale, purchase))?;
    print_risen(rt, &mut book, &scale)
}

pub fn print(rt: &(impl Print + AllocGlobal)) -> Result<()> {
    print_leaving(rt, 370)?;
    print_leaving(rt, 371)?;
    for purchase in &PURCHASES {
        print_rising(rt, *purchase)?;
    }
    Ok(())
}
