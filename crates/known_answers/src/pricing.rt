//! Lines of carts, requests for them, and totals.
ghost use Rattle.std.specs.Prelude.{◌≤◌, length, All};
ghost use Rattle.shop_model.specs.asked.CustomersAsked.{IsId};

use crate::answers::{answer, heading};
use crate::stop::Stop;
use shop_model::{Cart, CartRequest, IdsAsked};
use shop_pricing::*;
use shop_text::{Listed, Memory, Shared};
use std::alloc::Global;

pub fn print(rt: &(impl Print + AllocGlobal)) -> Result<(), Stop> {
    print_full(rt)?;
    print_closing_up(rt)?;
    print_carts(rt)?;
    print_drawn(rt)?;
    print_one_more(rt)?;
    print_refusals(rt)?;
    print_full_cart(rt)?;
    print_totals(rt)
}

/// A request for one unit more of an item, and for quantities.
fn asked(alloc: Global, item: Option<u32>, sets: &[(u32, u32)]) -> Result<CartRequest, Memory>
    requires few { length sets.now ≤ 100 }
    requires sets { All (λ set. IsId set.0 × (set.1 ≤ 999)) sets.now }
{
    Ok(CartRequest {
        item,
        sets: Listed::from_vec(Vec::from_slice(alloc, sets)?),
        ids: IdsAsked {
            c: None,
            cart: None,
        },
    })
}

/// The lines of a cart that has one unit of each item up to this one.
fn one_of_each(alloc: Global, items: u32) -> Result<Lines, Memory> {
    let mut lines = Lines::new(alloc);
    for item in 1..=items {
        match change(&mut lines, item, 1) {
            Changed::Done => {}
            Changed::TooMany | Changed::Memory => return Err(Memory),
        }
    }
    Ok(lines)
}

/// Changes a line: what came of it, and which lines there are then.
fn print_change(
    rt: &(impl Print + AllocGlobal),
    lines: &mut Lines,
    item: u32,
    quantity: u32,
) -> Result<(), Stop>
    requires { quantity ≤ 999 }
{
    let changed = change(lines, item, quantity);
    let pairs = lines.to_pairs(rt.alloc())?;
    answer(rt, &(item, quantity), &(changed, pairs.as_slice()))
}

/// Changes a line: what came of it, how many lines and units of the item there are then, and the last line.
fn print_last(
    rt: &(impl Print + AllocGlobal),
    lines: &mut Lines,
    item: u32,
    quantity: u32,
) -> Result<(), Stop>
    requires { quantity ≤ 999 }
{
    let changed = change(lines, item, quantity);
    let pairs = lines.to_pairs(rt.alloc())?;
    let last = pairs.as_slice().last();
    answer(
        rt,
        &(item, quantity),
        &(changed, lines.len(), lines.quantity(item), last),
    )
}

fn print_full(rt: &(impl Print + AllocGlobal)) -> Result<(), Stop> {
    heading(rt, "a hundred lines are the most")?;
    print_most(rt, &mut one_of_each(rt.alloc(), 100)?)
}

fn print_most(rt: &(impl Print + AllocGlobal), lines: &mut Lines) -> Result<(), Stop> {
    print_last(rt, lines, 101, 1)?;
    print_last(rt, lines, 100, 5)
}

fn print_closing_up(rt: &(impl Print + AllocGlobal)) -> Result<(), Stop> {
    heading(rt, "lines close up")?;
    print_changes(rt, &mut one_of_each(rt.alloc(), 4)?)
}

fn print_changes(rt: &(impl Print + AllocGlobal), lines: &mut Lines) -> Result<(), Stop> {
    for (item, quantity) in [(2, 0), (7, 0), (2, 9)] {
        print_change(rt, lines, item, quantity)?;
    }
    Ok(())
}

/// The lines of cart 8.
fn lines_of_cart(alloc: Global) -> Result<Lines, Memory> {
    let pairs = Vec::from_slice(alloc, &[(5, 999), (3, 1), (4, 20)])?;
    let lines = Shared::new(alloc, Listed::from_vec(pairs))?;
    Lines::of(alloc, &Cart { id: 8, lines })
}

fn print_carts(rt: &(impl Print + AllocGlobal)) -> Result<(), Stop> {
    heading(rt, "carts keep their lines")?;
    print_lines(rt, &lines_of_cart(rt.alloc())?)?;
    answer(rt, &"no lines", &Lines::new(rt.alloc()).is_empty())
}

fn print_lines(rt: &(impl Print + AllocGlobal), lines: &Lines) -> Result<(), Stop> {
    let told = (lines.len(), lines.is_empty(), lines.quantity(4));
    answer(rt, &"item 4", &told)?;
    print_cart(rt, &lines.to_cart(rt.alloc(), 9)?)
}

fn print_cart(rt: &impl Print, cart: &Cart) -> Result<(), Stop> {
    answer(rt, &cart.id, &cart.lines.get().as_slice())
}

/// Fills lines as a request asks, in a shop of a hundred items.
fn print_filled(
    rt: &(impl Print + AllocGlobal),
    lines: &mut Lines,
    request: &CartRequest,
    draw: u32,
) -> Result<(), Stop> {
    let filled = fill(lines, request, 100, draw);
    let pairs = lines.to_pairs(rt.alloc())?;
    answer(rt, &draw, &(filled, pairs.as_slice()))
}

/// The same for one unit more of an item, and for quantities.
fn print_asked(
    rt: &(impl Print + AllocGlobal),
    lines: &mut Lines,
    item: Option<u32>,
    sets: &[(u32, u32)],
    draw: u32,
) -> Result<(), Stop>
    requires few { length sets.now ≤ 100 }
    requires sets { All (λ set. IsId set.0 × (set.1 ≤ 999)) sets.now }
{
    print_filled(rt, lines, &asked(rt.alloc(), item, sets)?, draw)
}

fn print_drawn(rt: &(impl Print + AllocGlobal)) -> Result<(), Stop> {
    heading(rt, "empty carts get a drawn item")?;
    print_draws(rt, &mut Lines::new(rt.alloc()))
}

fn print_draws(rt: &(impl Print + AllocGlobal), lines: &mut Lines) -> Result<(), Stop> {
    print_asked(rt, lines, None, &[], 16_245)?;
    print_asked(rt, lines, None, &[(46, 0)], 16_258)
}

fn print_one_more(rt: &(impl Print + AllocGlobal)) -> Result<(), Stop> {
    heading(rt, "one more comes before the sets")?;
    let mut lines = one_of_each(rt.alloc(), 3)?;
    print_asked(rt, &mut lines, Some(2), &[(1, 0), (2, 7), (9, 4)], 0)
}

/// Asks for what lines with 999 units of item 1 can't have.
fn print_refused(
    rt: &(impl Print + AllocGlobal),
    item: Option<u32>,
    sets: &[(u32, u32)],
) -> Result<(), Stop>
    requires few { length sets.now ≤ 100 }
    requires sets { All (λ set. IsId set.0 × (set.1 ≤ 999)) sets.now }
{
    let request = asked(rt.alloc(), item, sets)?;
    let mut lines = Lines::new(rt.alloc());
    let full = change(&mut lines, 1, 999);
    let filled = fill(&mut lines, &request, 100, 0);
    answer(rt, &(item, sets), &(full, filled))
}

fn print_refusals(rt: &(impl Print + AllocGlobal)) -> Result<(), Stop> {
    heading(rt, "requests are refused")?;
    print_refused(rt, Some(1), &[])?;
    print_refused(rt, Some(101), &[])?;
    print_refused(rt, Some(0), &[])?;
    print_refused(rt, None, &[(101, 0)])?;
    print_refused(rt, None, &[(2, 3), (0, 0)])?;
    print_refused(rt, Some(1), &[(101, 0)])
}

fn print_full_cart(rt: &(impl Print + AllocGlobal)) -> Result<(), Stop> {
    let request = asked(rt.alloc(), Some(101), &[])?;
    let mut lines = one_of_each(rt.alloc(), 100)?;
    answer(rt, &"a hundred lines", &fill(&mut lines, &request, 101, 0))
}

/// By lines of an item, a quantity and a cost, a discount, and a rate of tax.
fn print_totals(rt: &impl Print) -> Result<(), Stop> {
    heading(rt, "totals follow the money rule")?;
    let cases = [
        (&[(7, 3, 199)][..], 50, 825),
        (&[(7, 3, 199)][..], 50, 0),
        (&[(7, 3, 199)][..], 50, 10_000),
        (&[][..], 0, 1_000),
        (&[(1, 999, 999_999), (2, 1, 1)][..], 0, 825),
    ];
    for (lines, discount, rate) in cases {
        let totals = Totals::of(lines, discount, rate);
        answer(rt, &(lines, discount, rate), &totals)?;
    }
    Ok(())
}
