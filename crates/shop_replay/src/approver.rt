ghost use Rattle.std.specs.Prelude.{◌≡◌, []};

use shop_edges::{Charge, Gateway, Verdict};
use shop_model::AuthId;
use shop_text::Listed;
use std::alloc::Global;

/// The gateway of a purchase that was paid once: it approves every charge with the authorisation that is kept.
#[derive(Drop)]
pub(crate) struct Approver {
    pub(crate) auth: AuthId,
    /// What it was asked for.
    pub(crate) charges: Listed<Charge>,
}

/// Takes no memory.
pub(crate) fn approver_of(alloc: Global, auth: AuthId) -> Approver
    ensures { result ≡ record { auth = auth; charges = [] } }
{
    Approver {
        auth,
        charges: Listed::new(alloc),
    }
}

impl Gateway for Approver {
    ghost use Rattle.shop_replay.specs.Approvals.{told};

    ghost answers = { told };

    ghost faults = { λ _. 0 };

    fn authorize(&mut self, charge: &Charge) -> Verdict {
        match self.charges.push(charge.copy()) {
            Ok(()) => Verdict::Approved(self.auth),
            Err(_) => Verdict::Memory,
        }
    }
}
