ghost use Rattle.std.specs.Prelude.{List, ℕ, Option};
ghost use Rattle.shop_edges.specs.declared.gateway.Answer.{Answer};
ghost use Rattle.shop_edges.specs.Gateways.{Answers, GatewayCause};

use crate::Charge;
use shop_model::{AuthId, Refusal};

/// Why a charge was denied.
#[derive(Clone, Copy, Debug, PartialEq, Eq)]
pub enum Reason {
    /// The charge's key was asked for before, with another charge.
    Reused,
    Stolen,
    /// It is too much.
    Limit,
}

impl Reason {
    ghost use Rattle.std.specs.Prelude.{◌≡◌};
    ghost use Rattle.shop_edges.specs.Charges.{denial};

    /// The refusal that tells it.
    pub fn refusal(&self) -> Refusal
        ensures { result ≡ denial self.now }
    {
        match self {
            Reason::Reused => Refusal::CardReused,
            Reason::Stolen => Refusal::CardStolen,
            Reason::Limit => Refusal::CardOverLimit,
        }
    }
}

/// What a gateway says to a charge.
#[derive(Clone, Copy, Debug, PartialEq, Eq)]
pub enum Verdict {
    Approved(AuthId),
    Denied(Reason),
    /// The gateway couldn't be asked, or gave no answer that can be read.
    Failed,
    Memory,
}

/// A charge, and what was said to it.
#[derive(Drop)]
pub struct Answer {
    pub charge: Charge,
    pub verdict: Verdict,
}

/// Takes charges from cards.
pub trait Gateway {
    /// Its answers so far that were Approved or Denied, where they are known.
    ghost answers: { Self → Option (List Answer) };

    /// How many calls have failed, up to `u64::MAX`.
    ghost faults: { Self → ℕ };

    /// Asks for a charge.
    fn authorize(&mut self, charge: &Charge) -> Verdict
        ensures told { Answers (answers self.old) (answers self.new) charge.now result }
        ensures cause { GatewayCause (faults self.old) (faults self.new) result };
}
