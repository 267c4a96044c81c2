use std::snapshot::Snapshot;

/// A list that contracts alone see: it has no values, and takes no memory.
#[derive(Drop)]
pub(crate) enum Trace<T> {
    Empty,
    Behind(Snapshot<Trace<T>>, Snapshot<T>),
}

impl<T> Trace<T> {
    ghost use Rattle.std.specs.Prelude.{◌≡◌, ◌++◌, ◌∷◌, []};
    ghost use Rattle.shop_lanes.specs.Traces.{traced};

    /// Nothing yet.
    pub(crate) fn new() -> Trace<T>
        ensures { traced result ≡ [] }
    {
        Trace::Empty
    }

    /// The list with one more, behind the others.
    pub(crate) fn with(&self, last: &T) -> Trace<T>
        ensures { traced result ≡ traced self.now ++ last.now ∷ [] }
    {
        Trace::Behind(Snapshot::of(self), Snapshot::of(last))
    }
}
