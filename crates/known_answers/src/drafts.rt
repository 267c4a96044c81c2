//! Pages as they are written in place, and as a settle fills their gaps.
use crate::answers::{answer, heading, text_of};
use crate::stop::Stop;
use shop_draft::{Draft, Hole, Id, ItemLinks, Out, PageIds, Template, refusal};
use shop_history::{Drawn, Ids};
use shop_model::{IdsAsked, Item, Order, Refusal, Scale, Subject, Tables};
use shop_populate::populate;
use shop_text::{Caption, Memory};
use std::alloc::Global;
use std::fmt::Debug;

const NONE: Ids = Ids {
    cart: None,
    customer: None,
    address: None,
    order: None,
};

const NO_IDS: PageIds = PageIds {
    c: None,
    cart: None,
};

/// What a settle drew at 2000-02-29.
fn drawn(ids: Ids) -> Drawn {
    Drawn {
        front: 1,
        stamp: 951_782_400_001,
        ids,
    }
}

/// The page, filled, and how long it was told to be.
fn filled(alloc: Global, page: &Template, drawn: &Drawn) -> Result<(Out, usize), Memory> {
    let mut out = Out::with_capacity(alloc, 0)?;
    let Some(room) = page.room() else {
        return Err(Memory);
    };
    out.reserve(room)?;
    page.fill(&mut out, drawn);
    Ok((out, page.len(drawn)))
}

/// Prints what is told of a text, and the text.
fn print_text(rt: &impl Print, what: &str, told: &impl Debug, text: &[u8]) -> Result<(), Stop> {
    answer(rt, &what, told)?;
    heading(rt, text_of(text))
}

/// Prints a page, and whether no gap of it is to be filled.
fn print_page(rt: &impl Print, what: &str, page: &Template) -> Result<(), Stop> {
    print_text(rt, what, &page.is_whole(), page.bytes())
}

/// Prints a page that a settle filled, and whether it is as long as was told.
fn print_filled(
    rt: &(impl Print + AllocGlobal),
    what: &str,
    page: &Template,
    ids: Ids,
) -> Result<(), Stop> {
    let (out, len) = filled(rt.alloc(), page, &drawn(ids))?;
    let told = (page.is_whole(), out.bytes().len() == len);
    print_text(rt, what, &told, out.bytes())
}

fn put_item(page: &mut Template, title: &Caption, first: &Caption) -> Result<(), Memory> {
    put_blocks(page, title, first)?;
    put_published(page)
}

fn put_blocks(page: &mut Template, title: &Caption, first: &Caption) -> Result<(), Memory> {
    page.begin(b"Item")?;
    page.heading(title)?;
    page.text(b"<p>By ", first)?;
    page.put(b"</p>\n")?;
    page.para(title)?;
    page.picture(title, first)?;
    Ok(())
}

fn put_published(page: &mut Template) -> Result<(), Memory> {
    page.day(b"<p>Published ", 11_016)?;
    page.money(b", our price ", 1_205)?;
    page.escaped(b" by ", b"\"A&B\"")?;
    page.put(b"</p>\n")?;
    page.end()?;
    Ok(())
}

fn print_item(rt: &(impl Print + AllocGlobal), page: &mut Template) -> Result<(), Stop> {
    let title = Caption::copy(rt.alloc(), b"fish & <chips>")?;
    let first = Caption::copy(rt.alloc(), b"ANN")?;
    print_items(rt, page, &title, &first)
}

/// Prints a page behind the second of two heads, and the page that comes next.
fn print_items(
    rt: &impl Print,
    page: &mut Template,
    title: &Caption,
    first: &Caption,
) -> Result<(), Stop> {
    put_item(page, title, first)?;
    page.put_before(b"long head\n");
    page.put_before(b"head\n");
    print_page(rt, "texts and blocks behind a head", page)?;
    put_item(page, first, first)?;
    print_page(rt, "the next page", page)
}

fn put_links(
    page: &mut Template,
    caption: &Caption,
    links: &ItemLinks,
    asked: IdsAsked,
) -> Result<(), Memory> {
    let ids = PageIds::of(asked);
    page.clear();
    page.plain_link(b"/home", ids, b"Home")?;
    page.item_link(b"/item", 7, ids, b"Item")?;
    page.title_link(8, ids, caption)?;
    page.put_links(links, asked)?;
    page.subject_link(b"/new", Subject::Arts, ids, b"New ")?;
    page.search_form(ids)?;
    Ok(())
}

fn print_links(rt: &(impl Print + AllocGlobal), page: &mut Template) -> Result<(), Stop> {
    let caption = Caption::copy(rt.alloc(), b"a<b")?;
    print_each_links(rt, page, &caption, &one_link(rt.alloc(), &caption)?)
}

/// Links to item 9.
fn one_link(alloc: Global, caption: &Caption) -> Result<ItemLinks, Memory> {
    let mut links = ItemLinks::with_capacity(alloc, 1)?;
    links.push(9, caption, caption, caption)?;
    Ok(links)
}

/// Prints links that hand on no ids, and such that do.
fn print_each_links(
    rt: &impl Print,
    page: &mut Template,
    caption: &Caption,
    links: &ItemLinks,
) -> Result<(), Stop> {
    let mut asked = IdsAsked {
        c: None,
        cart: None,
    };
    put_links(page, caption, links, asked)?;
    print_page(rt, "links", page)?;
    asked.c = Some(5);
    asked.cart = Some(6);
    put_links(page, caption, links, asked)?;
    print_page(rt, "links that hand on ids", page)
}

fn put_cart(page: &mut Template, title: &Caption, ids: PageIds) -> Result<(), Memory> {
    page.begin(b"Cart")?;
    page.id(b"<h1>Cart ", Id::NewCart)?;
    put_table(page, title)?;
    page.cart_form(&[(3, 12), (4, 1)], ids)?;
    page.nav(ids)?;
    page.end()?;
    Ok(())
}

fn put_table(page: &mut Template, title: &Caption) -> Result<(), Memory> {
    page.put(b"</h1>\n<table>")?;
    page.line_row(3, title, 12, 250)?;
    page.put(b"<tr>")?;
    page.text_cell(title)?;
    page.number_cell(1)?;
    page.money_cell(5)?;
    page.put(b"</tr></table>\n")?;
    Ok(())
}

fn print_cart(rt: &(impl Print + AllocGlobal), page: &mut Template) -> Result<(), Stop> {
    print_waiting(rt, page, &Caption::copy(rt.alloc(), b"A&B")?)
}

fn print_waiting(
    rt: &(impl Print + AllocGlobal),
    page: &mut Template,
    title: &Caption,
) -> Result<(), Stop> {
    let waiting = PageIds {
        c: None,
        cart: Some(Id::NewCart),
    };
    put_cart(page, title, waiting)?;
    let ids = Ids {
        cart: Some(u32::MAX),
        ..NONE
    };
    print_filled(rt, "a page that waits for the id of a cart", page, ids)
}

fn put_each_hole(page: &mut Template) -> Result<(), Memory> {
    page.clear();
    page.hole(b"", Hole::CartId)?;
    for hole in [
        Hole::CustomerId,
        Hole::OrderId,
        Hole::User,
        Hole::Day(1),
        Hole::Day(u32::MAX),
    ] {
        page.hole(b" ", hole)?;
    }
    page.id(b" ", Id::NewCustomer)?;
    page.id(b" ", Id::NewOrder)?;
    page.put(b".")?;
    Ok(())
}

fn print_holes(rt: &(impl Print + AllocGlobal), page: &mut Template) -> Result<(), Stop> {
    put_each_hole(page)?;
    let ids = Ids {
        cart: Some(7),
        customer: Some(10),
        address: Some(1),
        order: Some(9),
    };
    print_filled(rt, "each gap", page, ids)?;
    print_filled(rt, "each gap where nothing is drawn", page, NONE)
}

fn put_customer(page: &mut Template, customer: Id, ids: PageIds) -> Result<(), Memory> {
    page.clear();
    page.buyer(customer, b"A&B", b"<C>", 50)?;
    page.payment_form(b"A&B", b"<C>", ids)?;
    page.newcomer_form(ids)?;
    page.login_form(b"/buy_request", None, ids)?;
    page.login_form(b"/order_display", Some(1_234_567_890), ids)?;
    Ok(())
}

fn print_customers(rt: &(impl Print + AllocGlobal), page: &mut Template) -> Result<(), Stop> {
    put_customer(page, Id::Known(95), NO_IDS)?;
    print_page(rt, "a known customer", page)?;
    let waiting = PageIds {
        c: Some(Id::NewCustomer),
        cart: Some(Id::Known(6)),
    };
    put_customer(page, Id::NewCustomer, waiting)?;
    let ids = Ids {
        customer: Some(2_881),
        ..NONE
    };
    print_filled(rt, "a new customer", page, ids)
}

fn put_order(page: &mut Template, order: &Order, item: &Item) -> Result<(), Memory> {
    page.clear();
    page.placed(order)?;
    page.totals(order.sub, order.tax, order.ship, order.total)?;
    page.ship_to(b"A&B", b"<C>")?;
    page.paid(&order.card)?;
    page.admin_form(item, NO_IDS)?;
    Ok(())
}

/// The twentieth order and the first item of the smallest shop.
fn print_order(rt: &(impl Print + AllocGlobal), page: &mut Template) -> Result<(), Stop> {
    print_rows(rt, page, &populate(rt.alloc(), 0, &Scale::desk())?)
}

fn print_rows(rt: &impl Print, page: &mut Template, tables: &Tables) -> Result<(), Stop> {
    let order = tables.orders.as_slice().get(19).ok_or(Stop::NoRow)?;
    let item = tables.items.as_slice().first().ok_or(Stop::NoRow)?;
    put_order(page, order.get(), item)?;
    print_page(rt, "an order, and an item", page)
}

fn print_refusal(rt: &(impl Print + AllocGlobal)) -> Result<(), Stop> {
    let mut draft = Draft {
        status: 200,
        page: Template::with_room(rt.alloc(), 0)?,
    };
    print_refused(rt, &mut draft)
}

fn print_refused(rt: &impl Print, draft: &mut Draft) -> Result<(), Stop> {
    refusal(draft, Refusal::NoCart)?;
    print_text(rt, "a refusal", &draft.status, draft.page.bytes())
}

pub fn print(rt: &(impl Print + AllocGlobal)) -> Result<(), Stop> {
    print_pages(rt, &mut Template::with_room(rt.alloc(), 0)?)?;
    print_refusal(rt)
}

/// Prints pages that are written one after another in the same place.
fn print_pages(rt: &(impl Print + AllocGlobal), page: &mut Template) -> Result<(), Stop> {
    print_item(rt, page)?;
    print_links(rt, page)?;
    print_cart(rt, page)?;
    print_holes(rt, page)?;
    print_customers(rt, page)?;
    print_order(rt, page)
}
