//! Purchases at the desk's shop with seed 0: the rows that they leave, their versions, and what the
//! gateway said. What is wanted comes from a model in Python.
use crate::answers::{answer, text_of};
use crate::connections::print_report;
use crate::done;
use crate::records::{Lookup, print_record, print_row};
use crate::shops::{Outcome, Setting, outcome_of};
use anyhow::Result;
use shop_book::Book;
use shop_edges::{Answer, Verdict};
use shop_gateway::{Emulator, ScriptGateway};
use shop_model::Subject;
use shop_text::{Memory, Shared, Text};
use std::alloc::Global;

/// What is asked for.
#[derive(Clone, Copy)]
pub enum Ask {
    Of(&'static str),
    /// A purchase by a customer of the cart with an id, and what else it says.
    Buy(u32, u32, &'static str),
    /// That an item with a title is added.
    Add(&'static str),
}

/// A card, and one that was stolen.
pub const GOOD: &str = "&card=VISA&number=4111222233334444&name=F&expiry=2027-05";

const STOLEN: &str = "&card=VISA&number=4111222233330000&name=F&expiry=2027-05";

/// The good one, and where the order ships to: an address that is there, and a new one.
const RIVER_STREET: &str = "&card=VISA&number=4111222233334444&name=F&expiry=2027-05&ship=UPS\
&street1=83+River+Street&city=Masonton&state=Jade&zip=18534&country=84";

const NEW_ROAD: &str = "&card=VISA&number=4111222233334444&name=F&expiry=2027-05\
&street1=5+New+Road&street2=b&city=Ulm&zip=1&country=92";

/// What is said of an item that is added, beside its title.
const ADDED: &str =
    "&author=3&subject=NON-FICTION&publisher=Elm+Press&about=New.&image=/i.gif&thumb=/t.gif\
&srp=2000&cost=1500&stock=20&pages=100&backing=AUDIO";

/// Adds a purchase to a target.
fn push_purchase(text: &mut Text, customer: u32, cart: u32, rest: &str) -> Result<(), Memory> {
    text.push(b"/buy_confirm?c=")?;
    text.push_decimal(u64::from(customer))?;
    text.push(b"&cart=")?;
    text.push_decimal(u64::from(cart))?;
    text.push(rest.as_bytes())
}

/// Adds an item with a title to a target.
fn push_item(text: &mut Text, title: &str) -> Result<(), Memory> {
    text.push(b"/admin_add?title=")?;
    text.push(title.as_bytes())?;
    text.push(ADDED.as_bytes())
}

/// Adds a message.
pub fn push_ask(text: &mut Text, ask: Ask) -> Result<(), Memory> {
    text.push(b"GET ")?;
    match ask {
        Ask::Of(target) => text.push(target.as_bytes())?,
        Ask::Buy(customer, cart, rest) => push_purchase(text, customer, cart, rest)?,
        Ask::Add(title) => push_item(text, title)?,
    }
    text.push(b" HTTP/1.1\r\n\r\n")
}

/// A purchase by a customer of the cart with an id, with a card that is good.
pub fn buy(customer: u32, cart: u32) -> Ask {
    Ask::Buy(customer, cart, GOOD)
}

/// What is asked for in turn, how many changes the log may have, which call of the gateway fails, counted from 1 (none
/// does where it is 0), and what is looked up then: of some rows what they show, of others all.
#[derive(Clone, Copy)]
struct Case {
    name: &'static str,
    asks: &'static [Ask],
    limit: u8,
    fails: u64,
    rows: &'static [Lookup],
    records: &'static [Lookup],
}

/// A purchase of item 1, and the same again.
const PURCHASE: Case = Case {
    name: "a purchase",
    asks: &[
        Ask::Of("/shopping_cart?item=1"),
        Ask::Buy(10, 1, GOOD),
        Ask::Buy(10, 1, GOOD),
    ],
    limit: 10,
    fails: 0,
    rows: &[
        Lookup::Item(1),
        Lookup::Label(1),
        Lookup::Cart(1),
        Lookup::Customer(10),
        Lookup::Address(64),
        Lookup::LastOrder(10),
        Lookup::BestIn(Subject::NonFiction),
        Lookup::BestIn(Subject::Arts),
        Lookup::NewIn(Subject::NonFiction),
        Lookup::Buyers(1),
        Lookup::Bought(10),
        Lookup::Bought(35),
    ],
    records: &[Lookup::Order(37)],
};

/// A purchase of item 25, whose subject's best sellers stay as they are.
const STAY: Case = Case {
    name: "a purchase of item 25",
    asks: &[Ask::Of("/shopping_cart?item=25"), Ask::Buy(10, 1, GOOD)],
    limit: 10,
    fails: 0,
    rows: &[
        Lookup::Item(25),
        Lookup::BestIn(Subject::NonFiction),
        Lookup::Buyers(25),
        Lookup::Bought(10),
    ],
    records: &[],
};

/// The gateway is asked last: what is refused before costs no answer.
const CHECKS: Case = Case {
    name: "the order of the checks",
    asks: &[
        Ask::Buy(41, 5, STOLEN),
        Ask::Buy(10, 5, STOLEN),
        Ask::Of("/shopping_cart?item=1"),
        Ask::Buy(10, 1, GOOD),
        Ask::Buy(10, 1, STOLEN),
        Ask::Buy(41, 1, STOLEN),
        Ask::Of("/shopping_cart?item=2"),
        Ask::Buy(10, 2, STOLEN),
    ],
    limit: 10,
    fails: 0,
    rows: &[Lookup::Cart(2)],
    records: &[],
};

/// The gateway is asked for a purchase that a full log refuses, and one that is denied needs no room.
const FULL: Case = Case {
    name: "a purchase and a full log",
    asks: &[
        Ask::Of("/shopping_cart?item=1"),
        Ask::Buy(10, 1, GOOD),
        Ask::Buy(10, 1, STOLEN),
        Ask::Of("/home"),
    ],
    limit: 1,
    fails: 0,
    rows: &[Lookup::Item(1), Lookup::Cart(1)],
    records: &[],
};

/// The gateway fails once.
const FAILURE: Case = Case {
    name: "a gateway that fails",
    asks: &[
        Ask::Of("/shopping_cart?item=1"),
        Ask::Buy(10, 1, GOOD),
        Ask::Of("/shopping_cart?cart=1"),
        Ask::Buy(10, 1, GOOD),
    ],
    limit: 10,
    fails: 1,
    rows: &[Lookup::Item(1), Lookup::Cart(1)],
    records: &[],
};

/// Orders to an address that is there, to a new one, and to the new one again; and sixty units of one
/// item.
const ORDERS: Case = Case {
    name: "orders to addresses",
    asks: &[
        Ask::Of("/shopping_cart?item=1"),
        Ask::Buy(10, 1, RIVER_STREET),
        Ask::Of("/shopping_cart?item=2"),
        Ask::Buy(10, 2, NEW_ROAD),
        Ask::Of("/shopping_cart?item=3"),
        Ask::Buy(10, 3, NEW_ROAD),
        Ask::Of("/shopping_cart?qty_1=60"),
        Ask::Buy(10, 4, GOOD),
    ],
    limit: 10,
    fails: 0,
    rows: &[Lookup::Item(1), Lookup::Item(2)],
    records: &[
        Lookup::Order(37),
        Lookup::Order(38),
        Lookup::Order(39),
        Lookup::Order(40),
        Lookup::Address(81),
        Lookup::Address(82),
    ],
};

const CASES: [Case; 6] = [PURCHASE, STAY, CHECKS, FULL, FAILURE, ORDERS];

fn input_of(alloc: Global, asks: &[Ask]) -> Result<Text, Memory> {
    let mut input = Text::new(alloc);
    for ask in asks {
        push_ask(&mut input, *ask)?;
    }
    Ok(input)
}

/// What comes of a case at the desk's shop.
fn outcome_of_case(alloc: Global, case: Case) -> Result<Outcome, Memory> {
    let setting = Setting {
        readings: [1_000; 4],
        limit: case.limit,
        fails: case.fails,
        twins: false,
    };
    let input = input_of(alloc, case.asks)?;
    outcome_of(alloc, input, setting)
}

/// Prints the caller, the call and the cents of a charge, and what was said to it.
fn print_answer(rt: &impl Print, said: &Answer) -> Result<()> {
    let asked = (said.charge.caller, said.charge.call, said.charge.cents);
    match &said.verdict {
        Verdict::Approved(auth) => answer(rt, &asked, &text_of(auth.bytes())),
        verdict => answer(rt, &asked, verdict),
    }
}

fn print_answers(rt: &impl Print, answers: &[Shared<Answer>]) -> Result<()> {
    for said in answers {
        print_answer(rt, said.get())?;
    }
    Ok(())
}

/// Prints what the gateway said, how many charges it knows and how often it failed.
fn print_gateway(rt: &impl Print, gateway: &ScriptGateway<Emulator>) -> Result<()> {
    print_answers(rt, gateway.inner().answers())?;
    let sums = (gateway.inner().ledger().len(), gateway.faults());
    answer(rt, &"ledger and failures", &sums)
}

/// Prints what the book has come to, and the rows that are looked up.
fn print_book(rt: &(impl Print + AllocGlobal), case: Case, book: &mut Book) -> Result<()> {
    answer(rt, &"all changes", &book.summary())?;
    for lookup in case.rows {
        print_row(rt, book, *lookup)?;
    }
    for lookup in case.records {
        print_record(rt, book, *lookup)?;
    }
    Ok(())
}

/// Prints the points of a case, what the gateway said, and what the book has come to.
fn print_outcome(rt: &(impl Print + AllocGlobal), case: Case, outcome: &mut Outcome) -> Result<()> {
    print_report(rt, case.name, &outcome.report)?;
    print_gateway(rt, &outcome.gateway)?;
    print_book(rt, case, &mut outcome.book)
}

fn print_case(rt: &(impl Print + AllocGlobal), case: Case) -> Result<()> {
    let mut outcome = done(outcome_of_case(rt.alloc(), case))?;
    print_outcome(rt, case, &mut outcome)
}

pub fn print(rt: &(impl Print + AllocGlobal)) -> Result<()> {
    for case in &CASES {
        print_case(rt, *case)?;
    }
    Ok(())
}
