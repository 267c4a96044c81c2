ghost use Rattle.std.specs.Prelude.{◌≡◌, ℕ, ◌≤◌, Option, option_map};
ghost use Rattle.shop_edges.specs.Links.{Links, OpenCause, LinkCause, links_after, opened, gave, got_back};

use crate::{LinkIn, LinkOut};

/// Whether a port was opened.
#[derive(Clone, Copy, PartialEq, Eq)]
pub enum Opened {
    Open,
    Failed,
}

/// A link with a peer: what comes from it and what goes to it.
#[derive(Drop)]
pub enum Linked<I, O> {
    Linked(I, O),
    Failed,
    Memory,
}

/// Links with peers on this machine.
pub trait Listener {
    type In: LinkIn;

    type Out: LinkOut;

    /// The links that `accept` gave since the last `open`, and what came back of them, where they
    /// are known.
    ghost links: { Self → Option (Links Self.In Self.Out) };

    /// How many calls have failed, up to `u64::MAX`.
    ghost faults: { Self → ℕ };

    /// How many links `accept` has given, up to `u64::MAX`.
    ghost accepted: { Self → ℕ };

    /// How many links `dial` has given, up to `u64::MAX`.
    ghost dialled: { Self → ℕ };

    /// Opens a port for peers that dial it.
    fn open(&mut self, port: u16) -> Opened
        ensures links { links self.new ≡ option_map opened (links self.old) }
        ensures cause { OpenCause (faults self.old) (faults self.new) result }
        ensures accepted { accepted self.new ≡ accepted self.old }
        ensures dialled { dialled self.new ≡ dialled self.old };

    /// Waits for a peer that dials the open port.
    fn accept(&mut self) -> Linked<Self::In, Self::Out>
        ensures links { links self.new ≡ option_map (gave result) (links self.old) }
        ensures cause { LinkCause (faults self.old) (faults self.new) result }
        ensures accepted { accepted self.new ≡ links_after result (accepted self.old) }
        ensures dialled { dialled self.new ≡ dialled self.old };

    /// Dials a port of this machine.
    fn dial(&mut self, port: u16) -> Linked<Self::In, Self::Out>
        ensures links { links self.new ≡ links self.old }
        ensures cause { LinkCause (faults self.old) (faults self.new) result }
        ensures accepted { accepted self.new ≡ accepted self.old }
        ensures dialled { dialled self.new ≡ links_after result (dialled self.old) };

    /// Takes back a link that `accept` gave. Links are numbered from 1 after each `open`.
    fn give_back(&mut self, link: u64, source: Self::In, sink: Self::Out)
        ensures links { links self.new ≡
            option_map (got_back (record { link = link; source = source; sink = sink })) (links self.old) }
        ensures later { faults self.old ≤ faults self.new }
        ensures accepted { accepted self.new ≡ accepted self.old }
        ensures dialled { dialled self.new ≡ dialled self.old };
}
