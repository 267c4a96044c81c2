use crate::{BytesIn, BytesOut, Linked, Listener, Opened};
use std::marker::Model;

/// Opens no port and gives no link: every call is a fault. Contracts see how many there were.
#[derive(Drop)]
pub struct NoListener {
    faults: u64,
}

impl Model for NoListener {
    ghost use Rattle.std.specs.Prelude.{ℕ};

    ghost Value = { ℕ };

    ghost view = { λ l. l.faults };
}

impl NoListener {
    ghost use Rattle.std.specs.Prelude.{◌≡◌};

    pub fn new() -> NoListener
        ensures { result ≡ 0 }
    {
        NoListener { faults: 0 }
    }

    /// How many calls have failed.
    pub fn faults(&self) -> u64
        ensures { result ≡ self.now }
    {
        self.faults
    }
}

impl Listener for NoListener {
    ghost use Rattle.std.specs.Prelude.{◌≡◌, ◌≤◌, None};
    ghost use Rattle.shop_edges.specs.Causes.{count_up};
    ghost use Rattle.shop_edges.specs.Links.{OpenCause, LinkCause};
    ghost use Rattle.shop_edges.specs.declared.listener.Opened.TheVariants as opened;
    ghost use Rattle.shop_edges.specs.declared.listener.Linked.TheVariants as linked;

    type In = BytesIn;

    type Out = BytesOut;

    ghost links = { λ _. None };

    ghost faults = { λ l. l };

    ghost accepted = { λ _. 0 };

    ghost dialled = { λ _. 0 };

    fn open(&mut self, _port: u16) -> Opened
        ensures failed { result ≡ opened.Failed }
        ensures cause { OpenCause self.old self.new result }
        ensures faults { self.new ≡ count_up self.old }
    {
        self.faults = self.faults.saturating_add(1);
        Opened::Failed
    }

    fn accept(&mut self) -> Linked<BytesIn, BytesOut>
        ensures failed { result ≡ linked.Failed }
        ensures cause { LinkCause self.old self.new result }
        ensures faults { self.new ≡ count_up self.old }
    {
        self.faults = self.faults.saturating_add(1);
        Linked::Failed
    }

    fn dial(&mut self, _port: u16) -> Linked<BytesIn, BytesOut>
        ensures failed { result ≡ linked.Failed }
        ensures cause { LinkCause self.old self.new result }
        ensures faults { self.new ≡ count_up self.old }
    {
        self.faults = self.faults.saturating_add(1);
        Linked::Failed
    }

    fn give_back(&mut self, _link: u64, _source: BytesIn, _sink: BytesOut)
        ensures later { self.old ≤ self.new }
        ensures faults { self.new ≡ count_up self.old }
    {
        self.faults = self.faults.saturating_add(1);
    }
}
