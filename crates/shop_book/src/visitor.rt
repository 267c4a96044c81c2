/// A caller at a book, and what it has done there: its calls, its settles, and the greatest moment of
/// those that were done, 0 where there is none.
#[derive(Clone, Copy)]
pub struct Visitor {
    /// The number of the caller, from 1.
    pub caller: u32,
    pub calls: u64,
    pub settles: u64,
    /// In milliseconds since 1970-01-01.
    pub greatest: u64,
}
