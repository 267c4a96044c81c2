/// What a book has come to.
#[derive(Clone, Copy, Debug, PartialEq, Eq)]
pub struct Summary {
    /// How many changes were accepted.
    pub entries: u64,
    /// How many orders came after the opening.
    pub orders: u64,
    /// The sum of what these were charged, in cents.
    pub cents: u64,
}
