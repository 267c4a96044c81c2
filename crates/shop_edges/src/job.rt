use std::sync::Wait;

/// A piece of work that may run in a thread of its own. It may wait, and then it need not return.
pub trait Job: Send + Drop + 'static {
    /// What it waits by. A job that waits keeps its handle itself.
    type Handle: Wait;

    type Out: Send + Drop + 'static;

    /// What its run promises of what it gives.
    ghost promises: { Self → Self.Out → Type 0 };

    fn run(self) -> Self::Out
        ensures { promises self result };
}
