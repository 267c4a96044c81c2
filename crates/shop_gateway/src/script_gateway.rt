ghost use Rattle.std.specs.Prelude.{◌≡◌};
ghost use Rattle.shop_edges.specs.Gateways.{GatewayCause};
ghost use Rattle.shop_gateway.specs.Scripts as spec;

use shop_edges::{Charge, Gateway, Verdict};
use shop_text::Listed;
use std::marker::Model;

/// Asks another gateway, but fails at each listed call, counted from 1. Its count of faults has
/// every call that failed.
#[derive(Drop)]
pub struct ScriptGateway<G: Gateway> {
    inner: G,
    fails: Listed<u64>,
    calls: u64,
    faults: u64,
}

impl<G: Gateway> Model for ScriptGateway<G> {
    ghost use Rattle.shop_gateway.specs.Scripts.{Script};

    ghost Value = { Script G };

    ghost view = { λ s. record { inner = s.inner; fails = s.fails; calls = s.calls; faults = s.faults } };
}

impl<G: Gateway> ScriptGateway<G> {
    ghost use Rattle.std.specs.Prelude.{◌≡◌};

    pub fn new(inner: G, fails: Listed<u64>) -> ScriptGateway<G>
        ensures { result ≡ record { inner = inner; fails = fails; calls = 0; faults = 0 } }
    {
        ScriptGateway {
            inner,
            fails,
            calls: 0,
            faults: 0,
        }
    }

    pub fn inner(&self) -> &G
        ensures { result.now ≡ self.now.inner }
    {
        &self.inner
    }

    /// How many calls have failed.
    pub fn faults(&self) -> u64
        ensures { result ≡ self.now.faults }
    {
        self.faults
    }
}

/// The count of faults after a call with this verdict.
fn faults_after(verdict: &Verdict, faults: u64) -> u64
    ensures count { result ≡ spec.faults_after verdict.now faults }
    ensures cause { GatewayCause faults result verdict.now }
{
    match verdict {
        Verdict::Failed => faults.saturating_add(1),
        Verdict::Approved(_) | Verdict::Denied(_) | Verdict::Memory => faults,
    }
}

impl<G: Gateway> Gateway for ScriptGateway<G> {
    ghost use Rattle.std.specs.Prelude.{◌≡◌, true, false};
    ghost use Rattle.shop_edges.specs.Gateways.{Answers, GatewayCause};
    ghost use Rattle.shop_gateway.specs.Scripts.{IsListed, IsPassed, is_listed, called};

    ghost answers = { λ s. G.answers s.inner };

    ghost faults = { λ s. s.faults };

    fn authorize(&mut self, charge: &Charge) -> Verdict
        ensures told { Answers (G.answers self.old.inner) (G.answers self.new.inner) charge.now result }
        ensures cause { GatewayCause self.old.faults self.new.faults result }
        ensures counts { self.new ≡ called self.old self.new.inner result }
        ensures listed { is_listed self.old ≡ true → IsListed self.old.inner self.new.inner result }
        ensures passed { is_listed self.old ≡ false →
            IsPassed (G.faults self.old.inner) (G.faults self.new.inner) result }
    {
        self.calls = self.calls.saturating_add(1);
        if self.fails.as_slice().contains(&self.calls) {
            self.faults = faults_after(&Verdict::Failed, self.faults);
            return Verdict::Failed;
        }
        let verdict = self.inner.authorize(charge);
        self.faults = faults_after(&verdict, self.faults);
        verdict
    }
}
