ghost use Rattle.std.specs.Prelude.{◌≡◌};

use crate::{BytesIn, BytesOut, Sink, Source};

/// The side of a link that bytes come from.
pub trait LinkIn: Source {
    /// Lets the link go: a read after it may fail.
    fn end(&mut self)
        ensures left { Self.left self.new ≡ Self.left self.old }
        ensures faults { Self.faults self.new ≡ Self.faults self.old };
}

/// The side of a link that bytes go to.
pub trait LinkOut: Sink {
    /// Lets the link go: a write after it may fail.
    fn end(&mut self)
        ensures held { Self.held self.new ≡ Self.held self.old }
        ensures faults { Self.faults self.new ≡ Self.faults self.old };
}

impl LinkIn for BytesIn {
    fn end(&mut self)
        ensures { self.new ≡ self.old }
    {}
}

impl LinkOut for BytesOut {
    fn end(&mut self)
        ensures { self.new ≡ self.old }
    {}
}
