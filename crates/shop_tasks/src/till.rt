use shop_edges::{Charge, Gateway, Sink, Source, Verdict};
use shop_gateway::{Emulator, Remote};

/// What takes the payments of one worker: a gateway of its own, or one that is asked over a link.
#[derive(Drop)]
pub enum Till<I: Source, O: Sink> {
    Own(Emulator),
    Dialled(Remote<I, O>),
}

impl<I: Source, O: Sink> Till<I, O> {
    ghost use Rattle.std.specs.Prelude.{[], IfSome};
    ghost use Rattle.shop_gateway.specs.Verdicts.{AreVerdicts};
    ghost use Rattle.shop_tasks.specs.Tills.{answers_of};

    /// What a gateway of its own has answered are the verdicts of an empty ledger.
    pub(crate) fn audit(&self)
        ensures { IfSome (answers_of self.now) (AreVerdicts []) }
    {
        if let Till::Own(emulator) = self {
            let _ = emulator.answers();
        }
    }
}

impl<I: Source, O: Sink> Gateway for Till<I, O> {
    ghost use Rattle.shop_tasks.specs.Tills.{answers_of, faults_of};

    ghost answers = { answers_of };

    ghost faults = { faults_of I.faults O.faults };

    fn authorize(&mut self, charge: &Charge) -> Verdict {
        match self {
            Till::Own(emulator) => emulator.authorize(charge),
            Till::Dialled(remote) => remote.authorize(charge),
        }
    }
}
