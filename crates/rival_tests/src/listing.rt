//! A list that caller 1 reads at the desk with seed 0, where caller 2 administers an item of it meanwhile.
use crate::deeds::Deed;
use crate::sessions::shown_after;
use crate::told::Decided;
use std::test::Fail;

/// The newest items of a subject, three times.
const LISTS: &[u8] = b"GET /new_products?subject=NON-FICTION HTTP/1.1\r\nHost: shop\r\n\r\n\
GET /new_products?subject=NON-FICTION HTTP/1.1\r\nHost: shop\r\n\r\n\
GET /new_products?subject=NON-FICTION HTTP/1.1\r\nHost: shop\r\n\r\n";

/// The second one comes thirty seconds after the first, and the third a millisecond later.
#[test]
fn a_list_is_kept_as_the_settle_that_was_done_found_it(rt: HostRuntime) -> Result<(), Fail> {
    let readings = [1_000, 31_000, 31_001];
    let shown = shown_after(rt.alloc(), &readings, LISTS, Deed::Reprice, 1)?;
    let answers = [
        Some(Decided::At(1, 2)),
        Some(Decided::List(1, 0)),
        Some(Decided::At(1, 1)),
        None,
    ];
    assert!(rt; shown.answers == answers);
    Ok(())
}
