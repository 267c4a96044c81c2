//! Connections of caller 1 at the desk with seed 0, where caller 2 changes the cart or the cost of an item meanwhile.
use crate::deeds::Deed;
use crate::sessions::shown_after;
use crate::told::Decided;
use shop_engine::Ended;
use std::test::Fail;

/// Makes cart 1, and then adds to it twice.
const INPUT: &[u8] = b"GET /shopping_cart HTTP/1.1\r\nHost: shop\r\n\r\n\
GET /shopping_cart?cart=1&item=1 HTTP/1.1\r\nHost: shop\r\n\r\n\
GET /shopping_cart?cart=1&item=1 HTTP/1.1\r\nHost: shop\r\n\r\n";

/// An item, twice.
const ITEMS: &[u8] = b"GET /product_detail?item=1 HTTP/1.1\r\nHost: shop\r\n\r\n\
GET /product_detail?item=1 HTTP/1.1\r\nHost: shop\r\n\r\n";

#[test]
fn eight_changes_of_another_caller_are_too_many(rt: HostRuntime) -> Result<(), Fail> {
    let shown = shown_after(rt.alloc(), &[1_000], INPUT, Deed::AddUnit, 8)?;
    let answers = [
        Some(Decided::Change(1, 1)),
        Some(Decided::Busy(0, 8, 8, 1)),
        Some(Decided::Change(10, 1)),
        None,
    ];
    assert!(rt; shown.end == Ended::Closed && shown.answers == answers && shown.pages == (2, 1));
    Ok(())
}

#[test]
fn seven_changes_of_another_caller_are_not(rt: HostRuntime) -> Result<(), Fail> {
    let shown = shown_after(rt.alloc(), &[1_000], INPUT, Deed::AddUnit, 7)?;
    let answers = [
        Some(Decided::Change(1, 1)),
        Some(Decided::Change(9, 8)),
        Some(Decided::Change(10, 1)),
        None,
    ];
    assert!(rt; shown.end == Ended::Closed && shown.answers == answers && shown.pages == (3, 0));
    Ok(())
}

#[test]
fn eight_costs_are_too_many_for_a_page(rt: HostRuntime) -> Result<(), Fail> {
    let shown = shown_after(rt.alloc(), &[1_000], ITEMS, Deed::Raise(1), 8)?;
    let answers = [
        Some(Decided::Busy(0, 8, 8, 0)),
        Some(Decided::At(8, 1)),
        None,
        None,
    ];
    assert!(rt; shown.answers == answers && shown.pages == (1, 1) && shown.costs == (0, 0, 0));
    Ok(())
}

#[test]
fn seven_costs_are_not_and_the_page_shows_the_last(rt: HostRuntime) -> Result<(), Fail> {
    let shown = shown_after(rt.alloc(), &[1_000], ITEMS, Deed::Raise(1), 7)?;
    let answers = [Some(Decided::At(7, 8)), Some(Decided::At(7, 1)), None, None];
    assert!(rt; shown.answers == answers && shown.pages == (2, 0) && shown.costs == (0, 0, 2));
    Ok(())
}

#[test]
fn a_page_shows_the_cost_that_came_before_its_settle(rt: HostRuntime) -> Result<(), Fail> {
    let shown = shown_after(rt.alloc(), &[1_000], ITEMS, Deed::Raise(2), 1)?;
    let answers = [Some(Decided::At(0, 1)), Some(Decided::At(1, 2)), None, None];
    assert!(rt; shown.answers == answers && shown.pages == (2, 0) && shown.costs == (1, 1, 0));
    Ok(())
}
