use shop_attempt::Store;
use shop_engine::{Report, Worker};

/// A connection that has ended: what it was made of, and what became of it.
#[derive(Drop)]
pub struct Finished<St: Store, S, K, C, G> {
    pub worker: Worker<St>,
    pub source: S,
    pub sink: K,
    pub clock: C,
    pub gateway: G,
    pub report: Report,
}
