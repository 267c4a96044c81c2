//! What emulated browsers ask for, by the pages that they got.
use crate::answers::{answer, heading, text_of};
use crate::links::page;
use crate::stop::Stop;
use shop_browsers::{Browser, Mix};
use shop_message::Message;
use shop_model::Scale;
use shop_text::Memory;
use std::alloc::Global;

pub fn print(rt: &(impl Print + AllocGlobal)) -> Result<(), Stop> {
    heading(rt, "browsers ask by their words and by what pages showed")?;
    print_ordering(rt)?;
    print_shopping(rt)?;
    print_browsing(rt)
}

/// What a browser is to do.
#[derive(Clone, Copy)]
enum Step {
    /// To ask, and what it asks for is printed.
    Ask,
    /// To ask so often.
    GoOn(u32),
    /// To take a page with this body, and whether it took it is printed.
    Show(&'static str),
}

/// Requests 1, 8 to 10, 12, 33 and 34.
const ORDERING: [Step; 13] = [
    Step::Ask,
    Step::GoOn(6),
    Step::Ask,
    Step::Ask,
    Step::Show("<a href=\"/x?cart=1\">L</a>\n"),
    Step::Ask,
    Step::GoOn(1),
    Step::Ask,
    Step::GoOn(20),
    Step::Show("<a href=\"/x?c=3\">L</a>\n"),
    Step::Ask,
    Step::Show("<a href=\"/x?cart=7\">L</a>\n"),
    Step::Ask,
];

/// Requests 1, 2 and 5.
const SHOPPING: [Step; 5] = [
    Step::Ask,
    Step::Show("<a href=\"/x?cart=1\">L</a>\n"),
    Step::Ask,
    Step::GoOn(2),
    Step::Ask,
];

/// What a browser takes of pages.
const BROWSING: [Step; 12] = [
    Step::Ask,
    Step::Ask,
    Step::Show(
        "<p>?c=5&amp;cart=6</p>\n<form action=\"/f?c=1\"><input name=\"cart\" value=\"9\"></form>\n<img src=\"/i?c=2\" alt=\"\">\n",
    ),
    Step::Ask,
    Step::Show("<a href=\"/x?acart=7&amp;c=x&amp;c=3\">L</a>\n<a href=\"/x?cart=8\">L</a>\n"),
    Step::Ask,
    Step::Show("<a href=\"/x?cart=7&amp;c=4\">L</a>\n<a href=\"/x?cart=6&amp;c=5\">L</a>\n"),
    Step::Ask,
    Step::Show("<a href=\"/x?cart=4294967296\">L</a>\n<a href=\"/x?c=&amp;cart=+1\">L</a>\n"),
    Step::Ask,
    Step::Show("<a href=\"/x?cart=1\">L</a>"),
    Step::Ask,
];

/// Browser 1 of the desk, who orders.
fn print_ordering(rt: &(impl Print + AllocGlobal)) -> Result<(), Stop> {
    let mut browser = Browser::new(0, 1, Mix::Ordering, &Scale::desk());
    take_steps(rt, &mut browser, &ORDERING)
}

/// Browser 3 of a larger shop.
fn print_shopping(rt: &(impl Print + AllocGlobal)) -> Result<(), Stop> {
    let scale = Scale::of(1_000, 1).ok_or(Stop::NoScale)?;
    let mut browser = Browser::new(5, 3, Mix::Shopping, &scale);
    take_steps(rt, &mut browser, &SHOPPING)
}

/// The last browser of the desk with the last seed.
fn print_browsing(rt: &(impl Print + AllocGlobal)) -> Result<(), Stop> {
    let mut browser = Browser::new(u32::MAX, 64, Mix::Browsing, &Scale::desk());
    take_steps(rt, &mut browser, &BROWSING)
}

/// Has a browser take these steps.
fn take_steps(
    rt: &(impl Print + AllocGlobal),
    browser: &mut Browser,
    steps: &[Step],
) -> Result<(), Stop> {
    for step in steps {
        take_step(rt, browser, *step)?;
    }
    Ok(())
}

fn take_step(
    rt: &(impl Print + AllocGlobal),
    browser: &mut Browser,
    step: Step,
) -> Result<(), Stop> {
    match step {
        Step::Ask => ask(rt, browser),
        Step::GoOn(requests) => Ok(go_on(rt.alloc(), browser, requests)?),
        Step::Show(body) => show(rt, browser, body),
    }
}

/// Prints what the browser asks for.
fn ask(rt: &(impl Print + AllocGlobal), browser: &mut Browser) -> Result<(), Stop> {
    ask_by(rt, browser, &mut Browser::empty_message(rt.alloc())?)
}

/// The same, by a message that is lent.
fn ask_by(
    rt: &(impl Print + AllocGlobal),
    browser: &mut Browser,
    message: &mut Message,
) -> Result<(), Stop> {
    browser.next_message(message)?;
    answer(rt, &"asks", &text_of(message.target.bytes()))
}

/// Has the browser ask so often.
fn go_on(alloc: Global, browser: &mut Browser, requests: u32) -> Result<(), Memory> {
    for _ in 0..requests {
        let _ = browser.next_request(alloc)?;
    }
    Ok(())
}

/// Shows it a page with this body, and prints whether it took it.
fn show(rt: &(impl Print + AllocGlobal), browser: &mut Browser, body: &str) -> Result<(), Stop> {
    let text = page(rt.alloc(), body)?;
    answer(rt, &body, &browser.take_page(rt.alloc(), text.bytes()))
}
