//! Copies of rows of populated tables. Those of the larger scale come from a model in Python, with a PCG32 of its own.
use crate::answers::{answer, heading, text_of};
use crate::stop::Stop;
use shop_model::*;
use shop_populate::populate;
use shop_text::{Memory, Text, digsyl, digsyl_lower};
use std::alloc::Global;

pub fn print(rt: &(impl Print + AllocGlobal)) -> Result<(), Stop> {
    print_desk(rt)?;
    print_larger(rt)
}

fn print_desk(rt: &(impl Print + AllocGlobal)) -> Result<(), Stop> {
    heading(rt, "desk scale, seed 0")?;
    print_desk_rows(rt, &populate(rt.alloc(), 0, &Scale::desk())?)
}

fn print_larger(rt: &(impl Print + AllocGlobal)) -> Result<(), Stop> {
    heading(rt, "scale 1000x1, seed 0")?;
    let scale = Scale::of(1000, 1).ok_or(Stop::NoScale)?;
    print_larger_rows(rt, &populate(rt.alloc(), 0, &scale)?)
}

fn print_desk_rows(rt: &(impl Print + AllocGlobal), tables: &Tables) -> Result<(), Stop> {
    print_rows(rt, tables, [1, 10, 29, 20])?;
    print_country(rt, row(tables.countries.as_slice(), 45)?.get())?;
    print_author(rt, row(tables.authors.as_slice(), 1)?.get())?;
    print_subject(rt, tables.items.as_slice())?;
    print_last_orders(rt, tables.last.as_slice())
}

/// The last item, customer, address and order.
fn print_larger_rows(rt: &(impl Print + AllocGlobal), tables: &Tables) -> Result<(), Stop> {
    print_rows(rt, tables, [1000, 2880, 5760, 2592])
}

/// The item, customer, address and order of these ids.
fn print_rows(
    rt: &(impl Print + AllocGlobal),
    tables: &Tables,
    [item, customer, address, order]: [usize; 4],
) -> Result<(), Stop> {
    share_item(rt, row(tables.items.as_slice(), item)?)?;
    share_customer(rt, row(tables.customers.as_slice(), customer)?)?;
    copy_address(rt, row(tables.addresses.as_slice(), address)?.get())?;
    copy_order(rt, row(tables.orders.as_slice(), order)?.get())
}

/// The row of this id.
fn row<T>(rows: &[T], id: usize) -> Result<&T, Stop> {
    rows.get(id.saturating_sub(1)).ok_or(Stop::NoRow)
}

fn share_item(rt: &impl Print, item: &Item) -> Result<(), Stop> {
    print_item(rt, &item.share()?)
}

fn print_item(rt: &impl Print, item: &Item) -> Result<(), Stop> {
    let details = item.details.get();
    let numbers = [
        item.id,
        details.author,
        item.stock,
        item.published,
        details.pages,
    ];
    answer(rt, &"item, author, stock, published, pages", &numbers)?;
    answer(rt, &"srp, cost", &[details.srp, details.cost])?;
    answer(rt, &"related", &details.related)?;
    let kinds = (details.subject, details.backing);
    answer(rt, &"subject, backing", &kinds)?;
    let texts = [
        text_of(details.title.bytes()),
        text_of(details.publisher.bytes()),
        text_of(details.about.bytes()),
        text_of(details.thumb.bytes()),
        text_of(details.image.bytes()),
    ];
    answer(rt, &"title, publisher, about, pictures", &texts)
}

fn share_customer(rt: &(impl Print + AllocGlobal), customer: &Customer) -> Result<(), Stop> {
    print_customer(rt, &customer.share()?)
}

/// A customer's user name and password.
fn names_of(alloc: Global, customer: &Customer) -> Result<(Text, Text), Memory> {
    Ok((
        digsyl(alloc, customer.id)?,
        digsyl_lower(alloc, customer.id)?,
    ))
}

fn print_customer(rt: &(impl Print + AllocGlobal), customer: &Customer) -> Result<(), Stop> {
    let details = customer.details.get();
    let numbers = [customer.id, details.discount, customer.address];
    answer(rt, &"customer, discount, address", &numbers)?;
    let (user, password) = names_of(rt.alloc(), customer)?;
    let texts = [
        text_of(user.bytes()),
        text_of(password.bytes()),
        text_of(details.first.bytes()),
        text_of(details.last.bytes()),
        text_of(details.phone.bytes()),
        text_of(details.email.bytes()),
    ];
    answer(rt, &"user, password, names, phone, email", &texts)
}

fn copy_address(rt: &(impl Print + AllocGlobal), address: &Address) -> Result<(), Stop> {
    print_address(rt, &address.copy(rt.alloc())?)
}

fn print_address(rt: &impl Print, address: &Address) -> Result<(), Stop> {
    let text = &address.text;
    answer(rt, &"address, country", &[address.id, text.country])?;
    let texts = [
        text_of(text.street1.bytes()),
        text_of(text.street2.bytes()),
        text_of(text.city.bytes()),
        text_of(text.state.bytes()),
        text_of(text.zip.bytes()),
    ];
    answer(rt, &"streets, city, state, zip", &texts)
}

fn copy_order(rt: &(impl Print + AllocGlobal), order: &Order) -> Result<(), Stop> {
    print_order(rt, &order.copy(rt.alloc())?)
}

fn print_order(rt: &impl Print, order: &Order) -> Result<(), Stop> {
    let numbers = [
        order.id,
        order.customer,
        order.discount,
        order.rate,
        order.ship_address,
        order.ship_day,
    ];
    answer(
        rt,
        &"order, customer, discount, rate, ship address, ship day",
        &numbers,
    )?;
    let amounts = [order.sub, order.tax, order.ship, order.total, order.placed];
    answer(rt, &"sub, tax, ship, total, placed", &amounts)?;
    answer(rt, &"status, ship type", &(order.status, order.ship_type))?;
    for line in order.lines.as_slice() {
        answer(rt, &line.number, &(line.item, line.quantity, line.cost))?;
    }
    print_payment(rt, &order.card)
}

fn print_payment(rt: &impl Print, card: &CardUse) -> Result<(), Stop> {
    answer(
        rt,
        &"card, country, total, stamp",
        &(card.card, card.country, card.total, card.stamp),
    )?;
    let texts = [
        text_of(card.number.bytes()),
        text_of(card.name.bytes()),
        text_of(card.expiry.bytes()),
        text_of(card.auth.bytes()),
    ];
    answer(rt, &"number, name, expiry, authorisation", &texts)
}

fn print_country(rt: &impl Print, country: &Country) -> Result<(), Stop> {
    let name = text_of(country.name.bytes());
    answer(rt, &"country, rate", &(country.id, name, country.rate))
}

fn print_author(rt: &impl Print, author: &Author) -> Result<(), Stop> {
    let names = (text_of(author.first.bytes()), text_of(author.last.bytes()));
    answer(rt, &"author", &(author.id, names))
}

/// The items of one subject.
fn print_subject(rt: &impl Print, items: &[Item]) -> Result<(), Stop> {
    for item in items {
        let subject = item.details.get().subject;
        if subject == Subject::NonFiction {
            answer(rt, &item.id, &subject)?;
        }
    }
    Ok(())
}

/// The last orders of customers 35 and 13.
fn print_last_orders(rt: &impl Print, last: &[Option<u32>]) -> Result<(), Stop> {
    answer(rt, &"last orders", &(row(last, 35)?, row(last, 13)?))
}
