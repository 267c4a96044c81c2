use shop_model::{QUANTITY_LIMIT, STOCK_LIMIT};
use shop_pricing::restock;

/// What a sale leaves, where the stock and the units are within their bounds.
fn sold(stock: u32, units: u32) -> Option<(u32, u32)> {
    if stock < 10 || STOCK_LIMIT < stock || QUANTITY_LIMIT < units {
        return None;
    }
    Some(restock(stock, units))
}

#[test]
fn stocks_after_sales(rt: HostRuntime) {
    for (stock, units, after, times) in [
        (18, 10, 29, 1),
        (29, 8, 21, 0),
        (18, 60, 21, 3),
        (18, 0, 18, 0),
        (10, 1, 30, 1),
        (10, 60, 13, 3),
        (31, 21, 10, 0),
        (1_000_000, 999, 999_001, 0),
    ] {
        assert!(rt; sold(stock, units) == Some((after, times)));
    }
}
