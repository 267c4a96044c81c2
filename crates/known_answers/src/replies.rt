//! Replies to a draft with each kind of block and of hole, and in each form.
use crate::answers::{answer, heading, made, text_of};
use crate::stop::Stop;
use shop_draft::{Draft, Hole, Template};
use shop_history::{Drawn, Ids};
use shop_pages::{Form, Reply};
use shop_text::{Memory, Text};
use std::alloc::Global;

pub fn print(rt: &(impl Print + AllocGlobal)) -> Result<(), Stop> {
    print_filled(rt)?;
    print_closing(rt)?;
    print_bodiless(rt)
}

/// Writes a page with each kind of block and of hole.
fn write_waiting(draft: &mut Draft) -> Result<(), Memory> {
    draft.status = 200;
    write_front(&mut draft.page)?;
    write_table(&mut draft.page)?;
    write_form(&mut draft.page)
}

/// Writes a title, a heading, and a paragraph.
fn write_front(page: &mut Template) -> Result<(), Memory> {
    page.clear();
    page.escaped(b"<html><head><title>", b"T&T")?;
    page.escaped(b"</title></head><body>\n<h1>", b"a<b ")?;
    page.hole(b"", Hole::CartId)?;
    page.hole(b"</h1>\n<p>", Hole::User)?;
    page.escaped(b"", b" & ")?;
    page.hole(b"", Hole::Day(18))?;
    Ok(())
}

/// Writes a link, a picture, and a table.
fn write_table(page: &mut Template) -> Result<(), Memory> {
    page.hole(b"</p>\n<a href=\"/p?c=", Hole::CustomerId)?;
    page.hole(b"&amp;o=", Hole::OrderId)?;
    page.hole(b"\">L</a>\n<img src=\"/i.gif\" alt=\"", Hole::CartId)?;
    page.hole(b"\">\n<table><tr><td>", Hole::OrderId)?;
    page.escaped(b"</td><td>", b"<2>")?;
    page.hole(b"</td></tr><tr><td>", Hole::Day(0))?;
    Ok(())
}

/// Writes a form, and a paragraph.
fn write_form(page: &mut Template) -> Result<(), Memory> {
    page.escaped(b"</td></tr></table>\n<form action=\"", b"/f?a&b")?;
    page.hole(b"\"><input name=\"c\" value=\"", Hole::CartId)?;
    page.hole(b"\"><input name=\"\" value=\"", Hole::CustomerId)?;
    page.hole(b"", Hole::OrderId)?;
    page.escaped(b"\"></form>\n<p>", b"say \"x\"")?;
    page.put(b"</p>\n</body></html>\n")?;
    Ok(())
}

/// Writes a page that waits for nothing.
fn write_whole(draft: &mut Draft, status: u16, title: &str) -> Result<(), Memory> {
    draft.status = status;
    let page = &mut draft.page;
    page.clear();
    page.escaped(b"<html><head><title>", title.as_bytes())?;
    page.put(b"</title></head><body>\n<p>No.</p>\n</body></html>\n")?;
    Ok(())
}

const NONE: Ids = Ids {
    cart: None,
    customer: None,
    address: None,
    order: None,
};

const SHORT: Ids = Ids {
    cart: Some(7),
    customer: Some(0),
    address: Some(1),
    order: Some(9),
};

const LONG: Ids = Ids {
    cart: Some(u32::MAX),
    customer: Some(u32::MAX),
    address: Some(1),
    order: Some(1_234_567_890),
};

fn drawn(stamp: u64, ids: Ids) -> Drawn {
    Drawn {
        front: 1,
        stamp,
        ids,
    }
}

/// Prints how much of the last reply a buffer has after a reserve, and then the reply to its draft.
fn print_reply(rt: &impl Print, reply: &mut Reply, drawn: &Drawn, form: Form) -> Result<(), Stop> {
    reply.reserve()?;
    answer(rt, &"reserved", &reply.bytes().len())?;
    reply.finish(drawn, form);
    heading(rt, text_of(reply.bytes()))
}

fn print_filled(rt: &(impl Print + AllocGlobal)) -> Result<(), Stop> {
    heading(rt, "each part is filled")?;
    print_waiting(rt, &mut Reply::new(rt.alloc())?)
}

fn print_waiting(rt: &impl Print, reply: &mut Reply) -> Result<(), Stop> {
    let form = Form {
        close: false,
        bodiless: false,
    };
    for (stamp, ids) in [
        (763_516_800_005, SHORT),
        (253_402_300_799_999, LONG),
        (86_399_999, NONE),
    ] {
        write_waiting(reply.draft())?;
        print_reply(rt, reply, &drawn(stamp, ids), form)?;
    }
    Ok(())
}

fn print_closing(rt: &(impl Print + AllocGlobal)) -> Result<(), Stop> {
    heading(rt, "a reply that closes")?;
    print_last(rt, &mut Reply::new(rt.alloc())?)
}

fn print_last(rt: &impl Print, reply: &mut Reply) -> Result<(), Stop> {
    let form = Form {
        close: true,
        bodiless: false,
    };
    write_whole(reply.draft(), 405, "Method Not Allowed")?;
    print_reply(rt, reply, &drawn(0, NONE), form)
}

/// Writes the reply to a page without its body.
fn write_bodiless(reply: &mut Reply) -> Result<(), Memory> {
    write_whole(reply.draft(), 404, "Gone &c.")?;
    reply.reserve()?;
    let form = Form {
        close: false,
        bodiless: true,
    };
    reply.finish(&drawn(0, NONE), form);
    Ok(())
}

/// The reply to a page without its body.
fn bodiless(alloc: Global) -> Result<Text, Memory> {
    let mut reply = Reply::new(alloc)?;
    write_bodiless(&mut reply)?;
    Ok(reply.into_text())
}

fn print_bodiless(rt: &(impl Print + AllocGlobal)) -> Result<(), Stop> {
    heading(rt, "a reply without its body")?;
    made(rt, bodiless(rt.alloc()))
}
