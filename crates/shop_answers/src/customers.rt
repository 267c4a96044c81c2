//! Customers who buy at the desk's shop with seed 0, known and new, and the rows that they leave. What is
//! wanted comes from the population's formula and from a model in Python.
use crate::connections::print_report;
use crate::done;
use crate::records::{Lookup, print_record};
use crate::shops::{Outcome, Setting, outcome_of};
use anyhow::Result;
use shop_text::{Memory, Text};
use std::alloc::Global;

/// What is asked for in turn, the readings of the clock, and what is looked up then.
#[derive(Clone, Copy)]
struct Case {
    name: &'static str,
    targets: &'static [&'static str],
    readings: [u64; 4],
    lookups: &'static [Lookup],
}

const OPENING: Case = Case {
    name: "opening",
    targets: &[],
    readings: [1_000; 4],
    lookups: &[
        Lookup::Customer(10),
        Lookup::Customer(35),
        Lookup::Customer(41),
        Lookup::Name("OGBA"),
        Lookup::Name("BA"),
        Lookup::Name("BARISE"),
        Lookup::Address(64),
        Lookup::Address(81),
        Lookup::SameAs(64),
        Lookup::Country(84),
        Lookup::LastOrder(10),
        Lookup::LastOrder(13),
        Lookup::LastOrder(35),
        Lookup::Order(20),
    ],
};

const KNOWN: [Case; 2] = [
    Case {
        name: "a known customer",
        targets: &[
            "/shopping_cart?item=1",
            "/buy_request?cart=2&user=X&pass=y",
            "/buy_request?cart=0&user=OGBA&pass=ogba",
            "/buy_request?cart=1&user=X&pass=ogba",
            "/buy_request?cart=1&user=OGBA&pass=x",
            "/buy_request?cart=1&user=OGBA&pass=",
            "/buy_request?cart=1&user=OGBA&pass=ogba",
            "/buy_request?cart=1&user=OGBA&pass=ogba",
        ],
        readings: [1_000; 4],
        lookups: &[
            Lookup::Customer(10),
            Lookup::Name("OGBA"),
            Lookup::Address(81),
            Lookup::LastOrder(10),
            Lookup::Cart(1),
        ],
    },
    Case {
        name: "a later login",
        targets: &[
            "/shopping_cart?item=1",
            "/buy_request?cart=1&user=OGBA&pass=ogba",
            "/buy_request?cart=1&user=OGBA&pass=ogba",
        ],
        readings: [1_000, 1_000, 1_001, 1_001],
        lookups: &[Lookup::Customer(10)],
    },
];

const NEW: [Case; 2] = [
    Case {
        name: "a newcomer",
        targets: &[
            "/shopping_cart?item=1",
            "/buy_request?cart=1&fn=Zoe&ln=O%27Hara+%26+Co&street1=1+Way&city=Ulm&zip=89073\
&country=7&phone=5550000000&email=z@shop.example",
        ],
        readings: [1_000; 4],
        lookups: &[
            Lookup::Customer(41),
            Lookup::Name("REOG"),
            Lookup::LastOrder(41),
            Lookup::Address(81),
            Lookup::SameAs(81),
            Lookup::Customer(42),
            Lookup::Address(82),
        ],
    },
    Case {
        name: "addresses",
        targets: &[
            "/shopping_cart?item=1",
            "/buy_request?cart=1&fn=A&ln=B&street1=83+River+Street&city=Masonton&state=Jade\
&zip=18534&country=84&phone=1&email=e",
            "/buy_request?cart=1&fn=A&ln=B&street1=83+River+Street&city=Masonton&state=Jade\
&zip=00000&country=84&phone=1&email=e",
            "/buy_request?cart=1&fn=A&ln=B&street1=83+River+Street&city=Masonton&state=Jade\
&zip=00000&country=84&phone=1&email=e",
            "/buy_request?cart=1&fn=A&ln=B&street1=83+River+Street&street2=Flat&city=Masonton\
&state=Jade&zip=18534&country=84&phone=1&email=e",
        ],
        readings: [1_000; 4],
        lookups: &[
            Lookup::Customer(41),
            Lookup::Customer(42),
            Lookup::Customer(43),
            Lookup::Customer(44),
            Lookup::Name("REOG"),
            Lookup::Name("REAL"),
            Lookup::SameAs(64),
            Lookup::SameAs(81),
            Lookup::Address(81),
            Lookup::Address(82),
            Lookup::Address(83),
            Lookup::LastOrder(41),
            Lookup::Cart(1),
        ],
    },
];

const TWINS: Case = Case {
    name: "two addresses that say the same",
    targets: &[
        "/shopping_cart?item=1",
        "/buy_request?cart=1&fn=A&ln=B&street1=120+Engine+Street&city=Bakerton&state=Open\
&zip=12171&country=69&phone=1&email=e",
    ],
    readings: [1_000; 4],
    lookups: &[
        Lookup::Address(1),
        Lookup::Address(2),
        Lookup::SameAs(1),
        Lookup::SameAs(2),
        Lookup::Customer(41),
        Lookup::Address(81),
    ],
};

/// Adds a message for a target.
fn push_target(text: &mut Text, target: &str) -> Result<(), Memory> {
    text.push(b"GET ")?;
    text.push(target.as_bytes())?;
    text.push(b" HTTP/1.1\r\n\r\n")
}

/// A message for each target.
fn messages(alloc: Global, targets: &[&str]) -> Result<Text, Memory> {
    let mut text = Text::new(alloc);
    for target in targets {
        push_target(&mut text, target)?;
    }
    Ok(text)
}

/// Prints what came of a case, and the rows that are looked up.
fn print_outcome(rt: &(impl Print + AllocGlobal), case: Case, outcome: &mut Outcome) -> Result<()> {
    print_report(rt, case.name, &outcome.report)?;
    for lookup in case.lookups {
        print_record(rt, &mut outcome.book, *lookup)?;
    }
    Ok(())
}

/// What comes of a case.
fn outcome_of_case(alloc: Global, case: Case, twins: bool) -> Result<Outcome, Memory> {
    let setting = Setting {
        readings: case.readings,
        limit: 10,
        fails: 0,
        twins,
    };
    let input = messages(alloc, case.targets)?;
    outcome_of(alloc, input, setting)
}

fn print_case(rt: &(impl Print + AllocGlobal), case: Case, twins: bool) -> Result<()> {
    let mut outcome = done(outcome_of_case(rt.alloc(), case, twins))?;
    print_outcome(rt, case, &mut outcome)
}

fn print_cases(rt: &(impl Print + AllocGlobal), cases: &[Case]) -> Result<()> {
    for case in cases {
        print_case(rt, *case, false)?;
    }
    Ok(())
}

pub fn print(rt: &(impl Print + AllocGlobal)) -> Result<()> {
    print_case(rt, OPENING, false)?;
    print_cases(rt, &KNOWN)?;
    print_cases(rt, &NEW)?;
    print_case(rt, TWINS, true)
}
