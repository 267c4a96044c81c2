use shop_model::Tables;

/// The tables that a shop opens with, and how many entries its log may have, 1,000,000 at most.
#[derive(Drop)]
pub struct Opening {
    pub tables: Tables,
    pub limit: u64,
}
