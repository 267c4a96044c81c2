//! The bounds of the numbers in rows.

/// The largest discount, in per cent.
pub const DISCOUNT_LIMIT: u32 = 50;

/// The largest price of one unit, in cents.
pub const PRICE_LIMIT: u64 = 999_999;

/// The most units of one line.
pub const QUANTITY_LIMIT: u32 = 999;

/// The most lines of an order or a cart.
pub const LINES_LIMIT: usize = 100;

/// The most quantities that one request for the cart sets.
pub const SETS_LIMIT: usize = 100;

/// The most bytes of a parameter that is a text.
pub const TEXT_LIMIT: usize = 100;

/// A shop of so many items takes no more.
pub const ITEMS_LIMIT: u32 = 10_000;

/// The most units of an item in stock.
pub const STOCK_LIMIT: u32 = 1_000_000;

/// The least units in stock.
pub const LEAST_STOCK: u32 = 10;

/// The most units that an item may be added with.
pub const ADDED_STOCK_LIMIT: u32 = 1_000;

/// The most pages that it may have.
pub const PAGES_LIMIT: u32 = 9_999;

/// The milliseconds of a day.
pub const DAY_LENGTH: u64 = 86_400_000;

/// The last day, counted from 1970-01-01: 9999-12-31.
pub const DAY_LIMIT: u32 = 2_932_896;

/// The last moment, in milliseconds since 1970-01-01: the end of 9999-12-31.
pub const STAMP_LIMIT: u64 = 253_402_300_799_999;

/// How long a session lasts after its login, in milliseconds: two hours.
pub const SESSION_TIME: u64 = 7_200_000;
