use crate::plan::Plan;
use crate::puts::Put;
use shop_history::Entry;

/// A change that is ready to be made in the book that prepared it, as long as no other change is made
/// there.
#[derive(Drop)]
pub struct Prepared {
    /// The entry, if no later stamp is accepted meanwhile.
    pub(crate) entry: Entry,
    /// The moment of the attempt, in milliseconds since 1970-01-01.
    pub(crate) moment: u64,
    pub(crate) plan: Plan,
    /// The writes, as they are at the entry's stamp.
    pub(crate) puts: Vec<Put>,
}
