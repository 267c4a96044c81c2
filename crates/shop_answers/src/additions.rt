//! Items that are added to the desk's shop with seed 0: the points of who looks at them and buys them, the rows that they
//! leave, and their versions. What is wanted comes from a model in Python.
use crate::answers::answer;
use crate::connections::print_point;
use crate::done;
use crate::records::{Lookup, print_row};
use crate::sales::{Ask, GOOD, push_ask};
use crate::shops::{Outcome, Setting, outcome_of};
use anyhow::Result;
use shop_engine::Point;
use shop_model::{SearchKind, Subject};
use shop_text::{Memory, Text};
use std::alloc::Global;

/// How many items of one title are added first, what is asked for then, and what is looked up.
#[derive(Clone, Copy)]
struct Case {
    name: &'static str,
    first: u8,
    asks: &'static [Ask],
    rows: &'static [Lookup],
}

const AMBER: Ask = Ask::Add("Amber+Harbour");

const CASES: [Case; 5] = [
    Case {
        name: "an item is added",
        first: 0,
        asks: &[
            AMBER,
            Ask::Of("/search_results?kind=title&text=HARBOUR"),
            Ask::Of("/new_products?subject=NON-FICTION"),
            Ask::Of("/home"),
        ],
        rows: &[
            Lookup::Count,
            Lookup::Item(101),
            Lookup::Label(101),
            Lookup::Label(100),
            Lookup::Item(102),
            Lookup::Label(102),
            Lookup::NewIn(Subject::NonFiction),
            Lookup::NewIn(Subject::Arts),
            Lookup::BestIn(Subject::NonFiction),
            Lookup::Buyers(101),
            Lookup::Added(SearchKind::Title, "harbour"),
            Lookup::Added(SearchKind::Title, "HARBOUR"),
            Lookup::Added(SearchKind::Title, "amber"),
            Lookup::Added(SearchKind::Title, "castle"),
            Lookup::Added(SearchKind::Author, ""),
            Lookup::Added(SearchKind::Author, "c"),
            Lookup::Added(SearchKind::Author, "ab"),
            Lookup::Added(SearchKind::Author, "Abbotx"),
            Lookup::Added(SearchKind::Subject, "NON-FICTION"),
            Lookup::Added(SearchKind::Subject, "non-fiction"),
        ],
    },
    Case {
        name: "an item that was added is bought and administered",
        first: 0,
        asks: &[
            AMBER,
            Ask::Of("/product_detail?item=101"),
            Ask::Of("/admin_request?item=101"),
            Ask::Of("/product_detail?item=102"),
            Ask::Of("/shopping_cart?item=102"),
            Ask::Of("/shopping_cart?item=101"),
            Ask::Of("/buy_request?cart=1&user=OGBA&pass=ogba"),
            Ask::Buy(10, 1, GOOD),
            Ask::Of("/order_display?user=OGBA&pass=ogba"),
            Ask::Of("/product_detail?item=101"),
            Ask::Of("/best_sellers?subject=NON-FICTION"),
            Ask::Of("/admin_confirm?item=101&cost=1600&image=/j.gif&thumb=/u.gif"),
            Ask::Of("/admin_confirm?item=100&cost=100&image=/i.gif&thumb=/t.gif"),
            Ask::Of("/product_detail?item=101"),
        ],
        rows: &[
            Lookup::Count,
            Lookup::Item(101),
            Lookup::Label(101),
            Lookup::Item(100),
            Lookup::BestIn(Subject::NonFiction),
            Lookup::NewIn(Subject::NonFiction),
            Lookup::Buyers(101),
            Lookup::Bought(10),
            Lookup::Added(SearchKind::Title, "harbour"),
        ],
    },
    Case {
        name: "one more than fifty, behind them",
        first: 50,
        asks: &[Ask::Add("Zinc+Harbour")],
        rows: &[
            Lookup::Count,
            Lookup::Added(SearchKind::Title, "harbour"),
            Lookup::Added(SearchKind::Title, "zinc"),
            Lookup::Added(SearchKind::Title, "amber"),
            Lookup::Added(SearchKind::Subject, "NON-FICTION"),
            Lookup::Added(SearchKind::Author, ""),
            Lookup::NewIn(Subject::NonFiction),
            Lookup::Label(101),
            Lookup::Label(151),
        ],
    },
    Case {
        name: "one more than fifty, before them",
        first: 50,
        asks: &[Ask::Add("Aaa+Harbour")],
        rows: &[Lookup::Count, Lookup::Added(SearchKind::Title, "harbour")],
    },
    Case {
        name: "a word twice, blanks, and the title of item 1",
        first: 0,
        asks: &[
            Ask::Add("Amber+Amber"),
            Ask::Add("harbour+harbour"),
            Ask::Add("++x++Harbour+"),
            Ask::Add("Kind+Harbour+OG"),
        ],
        rows: &[
            Lookup::Added(SearchKind::Title, "harbour"),
            Lookup::Added(SearchKind::Title, ""),
            Lookup::Added(SearchKind::Title, "x"),
            Lookup::Added(SearchKind::Title, "amber"),
        ],
    },
];

/// The messages of a case.
fn input_of(alloc: Global, case: Case) -> Result<Text, Memory> {
    let mut input = Text::new(alloc);
    for _ in 0..case.first {
        push_ask(&mut input, AMBER)?;
    }
    for ask in case.asks {
        push_ask(&mut input, *ask)?;
    }
    Ok(input)
}

/// What comes of a case at the desk's shop.
fn outcome_of_case(alloc: Global, case: Case) -> Result<Outcome, Memory> {
    let setting = Setting {
        readings: [1_000; 4],
        limit: 100,
        fails: 0,
        twins: false,
    };
    let input = input_of(alloc, case)?;
    outcome_of(alloc, input, setting)
}

/// Prints the points behind the first so many.
fn print_later(rt: &impl Print, points: &[Point], first: usize) -> Result<()> {
    let Some(later) = points.get(first..) else {
        return Ok(());
    };
    for point in later {
        print_point(rt, point)?;
    }
    Ok(())
}

/// Prints the points behind those of the first items, and what the book has come to.
fn print_outcome(rt: &(impl Print + AllocGlobal), case: Case, outcome: &mut Outcome) -> Result<()> {
    answer(rt, &case.name, &outcome.book.summary())?;
    print_later(
        rt,
        outcome.report.points.as_slice(),
        usize::from(case.first),
    )?;
    for lookup in case.rows {
        print_row(rt, &mut outcome.book, *lookup)?;
    }
    Ok(())
}

fn print_case(rt: &(impl Print + AllocGlobal), case: Case) -> Result<()> {
    let mut outcome = done(outcome_of_case(rt.alloc(), case))?;
    print_outcome(rt, case, &mut outcome)
}

pub fn print(rt: &(impl Print + AllocGlobal)) -> Result<()> {
    for case in &CASES {
        print_case(rt, *case)?;
    }
    Ok(())
}
