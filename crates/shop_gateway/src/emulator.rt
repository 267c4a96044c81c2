ghost use Rattle.std.specs.Prelude.{◌≡◌, IfOk};
ghost use Rattle.shop_gateway.specs.Verdicts as spec;
ghost use Rattle.shop_gateway.specs.Emulators.{IsSaid};

use crate::first::first_verdict;
use shop_edges::{Answer, Charge, Gateway, Reason, Verdict};
use shop_text::{Memory, Shared};
use std::alloc::Global;
use std::collections::HashMap;
use std::marker::Model;

/// A gateway in memory, which decides by its ledger and never fails. The ledger has one entry for
/// each key, with the verdict that the first charge of this key got. An emulator serves one run of
/// one shop, since callers and their calls begin anew with each run.
#[derive(Drop)]
pub struct Emulator {
    ledger: Vec<Shared<Answer>>,
    entries: HashMap<(u32, u64, u64), Shared<Answer>>,
    answers: Vec<Shared<Answer>>,
}

impl Model for Emulator {
    ghost use Rattle.std.specs.HashMap.{get};
    ghost use Rattle.shop_gateway.specs.Verdicts.{same_key};
    ghost use Rattle.shop_gateway.specs.Emulators.{EmulatorValue, IsLedger};

    ghost Value = { EmulatorValue };

    ghost view = { λ e. record { ledger = e.ledger.items; answers = e.answers.items } };

    ghost invariant = { λ e. IsLedger e.ledger.items e.answers.items (get same_key e.entries) };
}

/// The key of a charge.
fn key_of(charge: &Charge) -> (u32, u64, u64)
    ensures { result ≡ spec.key_of charge.now }
{
    (charge.caller, charge.call, charge.cents)
}

/// What is told of a charge whose key the entry has.
fn next_answer(
    alloc: Global,
    entry: &Shared<Answer>,
    charge: &Charge,
) -> Result<Shared<Answer>, Memory>
    ensures { IfOk result (λ answer. answer ≡ spec.next_answer entry.now charge.now) }
{
    if entry.get().charge.is_same(charge) {
        return entry.share();
    }
    let answer = Answer {
        charge: charge.copy(),
        verdict: Verdict::Denied(Reason::Reused),
    };
    Shared::new(alloc, answer)
}

/// What is told of a charge whose key is new.
fn first_answer(alloc: Global, charge: &Charge) -> Result<Shared<Answer>, Memory>
    ensures answer { IfOk result (λ answer. answer ≡ spec.first_answer charge.now) }
    ensures said { IfOk result (λ answer. IsSaid answer.verdict) }
{
    let answer = Answer {
        charge: charge.copy(),
        verdict: first_verdict(charge),
    };
    Shared::new(alloc, answer)
}

impl Emulator {
    ghost use Rattle.std.specs.Prelude.{◌≡◌, [], IfOk, OnErr, None};
    ghost use Rattle.shop_gateway.specs.Verdicts as spec;
    ghost use Rattle.shop_gateway.specs.Emulators.{AreApart, IsAuthorized};

    /// An empty ledger; takes no memory.
    pub fn new(alloc: Global) -> Emulator
        ensures { result ≡ record { ledger = []; answers = [] } }
    {
        Emulator {
            ledger: Vec::new(alloc),
            entries: HashMap::new(alloc),
            answers: Vec::new(alloc),
        }
    }

    /// One entry for each key, as they came.
    pub fn ledger(&self) -> &[Shared<Answer>]
        ensures ledger { result.now ≡ self.now.ledger }
        ensures apart { AreApart self.now.ledger }
    {
        &self.ledger
    }

    /// All its answers, as it gave them.
    pub fn answers(&self) -> &[Shared<Answer>]
        ensures answers { result.now ≡ self.now.answers }
        ensures verdicts { spec.AreVerdicts [] self.now.answers }
    {
        &self.answers
    }

    fn decide(&mut self, charge: &Charge) -> Result<Verdict, Memory>
        ensures ok { IfOk result (IsAuthorized self.old self.new charge.now) }
        ensures err { OnErr result (self.new ≡ self.old) }
    {
        let Some(entry) = self.entries.get(&key_of(charge)) else {
            return self.enter(charge);
        };
        let answer = next_answer(*self.ledger.allocator(), entry, charge)?;
        let verdict = answer.get().verdict;
        self.answers.reserve(1)?;
        self.answers.push_reserved(answer);
        Ok(verdict)
    }

    /// Decides on a charge whose key is new, and enters it.
    fn enter(&mut self, charge: &Charge) -> Result<Verdict, Memory>
        requires { spec.entry_at self.old.ledger (spec.key_of charge.now) ≡ None }
        ensures ok { IfOk result (IsAuthorized self.old self.new charge.now) }
        ensures err { OnErr result (self.new ≡ self.old) }
    {
        let entry = first_answer(*self.ledger.allocator(), charge)?;
        let verdict = entry.get().verdict;
        let found = entry.share()?;
        let told = entry.share()?;
        self.ledger.reserve(1)?;
        self.answers.reserve(1)?;
        self.entries.reserve(1)?;
        match self.entries.insert(key_of(charge), found) {
            Ok(_) => {}
            Err(_) => unreachable!(),
        }
        self.ledger.push_reserved(entry);
        self.answers.push_reserved(told);
        Ok(verdict)
    }
}

impl Gateway for Emulator {
    ghost use Rattle.std.specs.Prelude.{Some};
    ghost use Rattle.shop_edges.specs.Gateways.{Answers, GatewayCause};
    ghost use Rattle.shop_gateway.specs.Emulators.{IsAuthorized};

    ghost answers = { λ e. Some e.answers };

    ghost faults = { λ _. 0 };

    fn authorize(&mut self, charge: &Charge) -> Verdict
        ensures told { Answers (Some self.old.answers) (Some self.new.answers) charge.now result }
        ensures cause { GatewayCause 0 0 result }
        ensures exact { IsAuthorized self.old self.new charge.now result }
    {
        match self.decide(charge) {
            Ok(verdict) => verdict,
            Err(Memory) => Verdict::Memory,
        }
    }
}
