/// Which rate a purchase is taxed by.
#[derive(Clone, Copy, Debug, PartialEq, Eq)]
pub enum TaxRule {
    /// One rate for all, 8.25 per cent.
    Flat,
    /// That of the country to which the order ships.
    ByCountry,
}
