/// What a place has: a station; or the number of a link, counted from 1, and the ticket of the job that serves it; or
/// nothing, where its station was lost with a job that was not started.
#[derive(Debug, Drop)]
pub enum Spot<S, T> {
    Free(S),
    Busy(u64, T),
    Gone,
}
