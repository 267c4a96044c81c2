//! Pages of caller 1 at the desk with seed 0, and an item that it adds, where caller 2 adds item 101 meanwhile.
use crate::deeds::Deed;
use crate::sessions::shown_after;
use crate::told::{Decided, Shown};
use shop_text::Memory;
use std::alloc::Global;
use std::test::Fail;

/// A search that finds the item, and one that does not.
const SEARCH: &[u8] = b"GET /search_results?kind=title&text=HARBOUR HTTP/1.1\r\nHost: shop\r\n\r\n";

const OTHER_SEARCH: &[u8] =
    b"GET /search_results?kind=title&text=CASTLE HTTP/1.1\r\nHost: shop\r\n\r\n";

const HOME: &[u8] = b"GET /home HTTP/1.1\r\nHost: shop\r\n\r\n";

const ADDITION: &[u8] = b"GET /admin_add?title=Zinc+Harbour&author=3&subject=NON-FICTION\
&publisher=Elm+Press&about=New.&image=/i.gif&thumb=/t.gif&srp=2000&cost=1500&stock=20&pages=100\
&backing=AUDIO HTTP/1.1\r\nHost: shop\r\n\r\n";

fn shown_of(alloc: Global, input: &[u8]) -> Result<Shown, Memory> {
    shown_after(alloc, &[1_000], input, Deed::AddItem, 1)
}

#[test]
fn a_search_shows_an_item_that_was_added_meanwhile(rt: HostRuntime) -> Result<(), Fail> {
    let shown = shown_of(rt.alloc(), SEARCH)?;
    assert!(rt; shown.answers[0] == Some(Decided::At(1, 2)) && shown.added == (1, 0));
    Ok(())
}

#[test]
fn a_search_that_does_not_match_what_was_added_is_no_conflict(rt: HostRuntime) -> Result<(), Fail> {
    let shown = shown_of(rt.alloc(), OTHER_SEARCH)?;
    assert!(rt; shown.answers[0] == Some(Decided::At(1, 1)) && shown.added == (0, 0));
    Ok(())
}

#[test]
fn items_are_counted_anew_for_a_promotion(rt: HostRuntime) -> Result<(), Fail> {
    let shown = shown_of(rt.alloc(), HOME)?;
    assert!(rt; shown.answers[0] == Some(Decided::At(1, 2)) && shown.pages == (1, 0));
    Ok(())
}

#[test]
fn an_item_has_the_number_behind_that_of_one_added_meanwhile(rt: HostRuntime) -> Result<(), Fail> {
    let shown = shown_of(rt.alloc(), ADDITION)?;
    assert!(rt; shown.answers[0] == Some(Decided::Change(2, 2)) && shown.added == (0, 1));
    Ok(())
}
