ghost use Rattle.std.specs.Prelude.{◌≡◌, ◌<◌, ◌++◌, ◌∷◌, [], IsTrue, ◌↔◌, OnOk, if◌then◌else◌, vec_len, vec_capacity};
ghost use Rattle.shop_edges.specs.Gateways.{Answered, GatewayCause, answers_of};
ghost use Rattle.shop_gateway.specs.Emulators.{IsSaid};
ghost use Rattle.shop_gateway.specs.Notes as spec;

use crate::charge_key::ChargeKey;
use shop_edges::{Answer, Charge, Gateway, Verdict};
use shop_text::Memory;
use std::alloc::Global;
use std::collections::HashSet;
use std::marker::Model;

/// The answers of a gateway, and the first one to each charge.
#[derive(Drop)]
pub(crate) struct Notes {
    firsts: Vec<Answer>,
    charges: HashSet<ChargeKey>,
    all: Vec<Answer>,
}

impl Model for Notes {
    ghost use Rattle.std.specs.Prelude.{◌-◌, min, vec_len, vec_capacity};
    ghost use Rattle.std.specs.HashSet.{contains, spare};
    ghost use Rattle.shop_gateway.specs.Notes.{NotesValue, AreNoted, alike};

    ghost Value = { NotesValue };

    ghost view = { λ n. record { all = n.all.items; room = min (min (vec_capacity n.firsts - vec_len n.firsts) (vec_capacity n.all - vec_len n.all)) (spare n.charges) } };

    ghost invariant = { λ n. AreNoted n.all.items n.firsts.items (contains alike n.charges) };
}

/// Whether it is an approval or a denial.
fn is_said(verdict: &Verdict) -> bool
    ensures { IsTrue result ↔ IsSaid verdict.now }
{
    match verdict {
        Verdict::Approved(_) | Verdict::Denied(_) => true,
        Verdict::Failed | Verdict::Memory => false,
    }
}

/// The answer to a charge.
fn answer_to(charge: &Charge, verdict: &Verdict) -> Answer
    ensures { result ≡ record { charge = charge.now; verdict = verdict.now } }
{
    Answer {
        charge: charge.copy(),
        verdict: *verdict,
    }
}

/// Adds the answer if it is the first one to its charge; takes no memory.
fn push_first(firsts: &mut Vec<Answer>, is_first: bool, answer: Answer)
    requires { vec_len firsts.old < vec_capacity firsts.old }
    ensures { firsts.new.items ≡ (if is_first then firsts.old.items ++ answer ∷ [] else firsts.old.items) }
{
    if is_first {
        firsts.push_reserved(answer);
    }
}

impl Notes {
    /// No notes; takes no memory.
    pub(crate) fn new(alloc: Global) -> Notes
        ensures { result.all ≡ [] }
    {
        Notes {
            firsts: Vec::new(alloc),
            charges: HashSet::new(alloc),
            all: Vec::new(alloc),
        }
    }

    /// The first answer to each charge.
    pub(crate) fn firsts(&self) -> &[Answer]
        ensures { result.now ≡ spec.firsts self.now.all }
    {
        &self.firsts
    }

    /// The first answer to each charge; takes no memory.
    pub(crate) fn into_firsts(self) -> Vec<Answer>
        ensures { result.items ≡ spec.firsts self.all }
    {
        self.firsts
    }

    /// Asks the gateway for a charge, and notes what it answered. All memory is taken before it is asked.
    pub(crate) fn ask<G: Gateway>(&mut self, gateway: &mut G, charge: &Charge) -> Verdict
        ensures told { Answered (G.answers gateway.old) (G.answers gateway.new) (answers_of charge.now result) }
        ensures cause { GatewayCause (G.faults gateway.old) (G.faults gateway.new) result }
        ensures noted { self.new.all ≡ self.old.all ++ answers_of charge.now result }
    {
        if self.make_room().is_err() {
            return Verdict::Memory;
        }
        let verdict = gateway.authorize(charge);
        self.note(charge, &verdict);
        verdict
    }

    /// Makes room for what will be answered to a charge.
    fn make_room(&mut self) -> Result<(), Memory>
        ensures all { self.new.all ≡ self.old.all }
        ensures room { OnOk result (0 < self.new.room) }
    {
        self.firsts.reserve(1)?;
        self.charges.reserve(1)?;
        self.all.reserve(1)?;
        Ok(())
    }

    /// Notes an approval or a denial; takes no memory.
    fn note(&mut self, charge: &Charge, verdict: &Verdict)
        requires { 0 < self.old.room }
        ensures { self.new.all ≡ self.old.all ++ answers_of charge.now verdict.now }
    {
        if !is_said(verdict) {
            return;
        }
        match self.charges.insert(ChargeKey::of(charge)) {
            Ok(is_first) => {
                let first = answer_to(charge, verdict);
                let again = answer_to(charge, verdict);
                push_first(&mut self.firsts, is_first, first);
                self.all.push_reserved(again);
            }
            Err(_) => unreachable!(),
        }
    }
}
