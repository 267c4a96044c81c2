use shop_attempt::Attempt;
use shop_cache::ListLines;
use shop_model::TaxRule;
use shop_search::Index;
use shop_text::Listed;

/// What an attempt is made with: the index of what the shop opened with, the moment in milliseconds
/// since 1970-01-01, the word that was drawn for the request, and the rule by which a purchase is taxed.
#[derive(Clone, Copy)]
pub struct Ask<'a> {
    pub index: &'a Index,
    pub moment: u64,
    pub draw: u32,
    pub tax: TaxRule,
}

/// What an attempt call answers.
#[derive(Drop)]
pub enum Attempted {
    /// The page is written.
    Ready(Attempt),
    /// The page of a list is written, by these lines.
    Listed(Attempt, ListLines),
    /// What a purchase needs is read, and nothing is written: a payment decides.
    Pay(Attempt),
    /// What was read can't be so in any one shop: it was read while rows changed.
    Contradiction(Attempt),
    Memory,
}
