ghost use base.Fml.{GName};
ghost use Rattle.std.specs.Prelude.{◌≡◌, List, Option};
ghost use Rattle.shop_edges.specs.declared.gateway.Answer.{Answer};

use crate::given_back::GivenBack;
use crate::notes::Notes;
use shop_edges::{Answer, Charge, Gateway, Verdict};
use shop_text::Listed;
use std::alloc::Global;
use std::marker::{Brand, Model, PhantomData};

/// Where a gateway stands before its answers are noted. A caller picks both members at a call that passes `Brand`.
pub trait Told {
    /// What it has told.
    ghost told: { Option (List Answer) };

    /// The name of the reference by which it is asked.
    ghost name: { GName };
}

impl Told for Brand {
    ghost use Rattle.std.specs.Prelude.{None};

    ghost told = { None };

    ghost name = { 0 };
}

/// Asks another gateway, and notes what it answered.
pub struct Noting<'a, G: Gateway, T: Told> {
    gateway: &'a mut G,
    notes: Notes,
    of: PhantomData<T>,
}

impl<'a, G: Gateway, T: Told> Model for Noting<'a, G, T> {
    ghost use Rattle.std.specs.Prelude.{◌≡◌};
    ghost use Rattle.shop_edges.specs.Gateways.{Answered};
    ghost use Rattle.shop_gateway.specs.Notings.{NotingValue};

    ghost Value = { NotingValue G };

    ghost view = { λ n. record { gateway = n.gateway.now; all = n.notes.all } };

    ghost invariant = { λ n. (n.gateway.ghost_name ≡ T.name) × Answered T.told (G.answers n.gateway.now) n.notes.all };
}

impl<'a, G: Gateway, T: Told> Noting<'a, G, T> {
    ghost use Rattle.std.specs.Prelude.{◌≡◌, []};
    ghost use Rattle.shop_edges.specs.Gateways.{Answered};
    ghost use Rattle.shop_gateway.specs.Notes.{firsts};

    /// Nothing is noted yet; takes no memory.
    pub fn new(alloc: Global, gateway: &'a mut G) -> Noting<'a, G, T>
        requires name { gateway.ghost_name ≡ T.name }
        requires told { G.answers gateway.old ≡ T.told }
        ensures gateway { result.gateway ≡ gateway.old }
        ensures all { result.all ≡ [] }
    {
        Noting {
            gateway,
            notes: Notes::new(alloc),
            of: PhantomData,
        }
    }

    /// The first answer to each charge, as they came.
    pub fn answers(&self) -> &[Answer]
        ensures answers { result.now ≡ firsts self.now.all }
        ensures told { Answered T.told (G.answers self.now.gateway) self.now.all }
    {
        self.notes.firsts()
    }

    /// The first answer to each charge, as they came; takes no memory.
    pub fn into_answers(self) -> GivenBack<'a, G, Listed<Answer>>
        ensures name { result.gateway.ghost_name ≡ T.name }
        ensures gateway { result.gateway.now ≡ self.entry.gateway }
        ensures answers { result.outcome ≡ firsts self.entry.all }
        ensures told { Answered T.told (G.answers result.gateway.now) self.entry.all }
    {
        let Noting {
            gateway,
            notes,
            of: _,
        } = self;
        GivenBack {
            gateway,
            outcome: Listed::from_vec(notes.into_firsts()),
        }
    }
}

impl<'a, G: Gateway, T: Told> Gateway for Noting<'a, G, T> {
    ghost use Rattle.std.specs.Prelude.{Some};
    ghost use Rattle.shop_edges.specs.Gateways.{Answered, Answers, GatewayCause, answers_of};

    ghost answers = { λ n. Some n.all };

    ghost faults = { λ n. G.faults n.gateway };

    fn authorize(&mut self, charge: &Charge) -> Verdict
        ensures told { Answers (Some self.old.all) (Some self.new.all) charge.now result }
        ensures cause { GatewayCause (G.faults self.old.gateway) (G.faults self.new.gateway) result }
        ensures asked { Answered (G.answers self.old.gateway) (G.answers self.new.gateway) (answers_of charge.now result) }
    {
        self.notes.ask(self.gateway, charge)
    }
}
