use std::marker::Model;

/// What an item has in stock.
#[derive(Drop)]
pub struct Stock {
    /// The item's id.
    pub item: u32,
    /// Units, 1,000,000 at most.
    pub stock: u32,
    /// How often 21 units came in, 2^60 at most.
    pub restocks: u64,
}

impl Model for Stock {
    ghost use Rattle.shop_attempt.specs.Stocks.{StockRow, IsStock};

    ghost Value = { StockRow };

    ghost use Rattle.shop_attempt.specs.StockView.{row_of};

    ghost view = { row_of };

    ghost invariant = { λ i. IsStock (row_of i) };
}
