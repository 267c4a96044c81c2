//! The payment of a purchase that was paid once.
ghost use Rattle.std.specs.Prelude.{IfOk};
ghost use Rattle.shop_model.specs.declared.requests.Request.TheVariants as request_kinds;
ghost use Rattle.shop_browse.specs.Baskets.{HasBasket};
ghost use Rattle.shop_order.specs.BuyConfirm.{asking_for};
ghost use Rattle.shop_replay.specs.Tries.{MayBePaid, IsPaidBy};

use crate::approver::approver_of;
use shop_attempt::Attempt;
use shop_draft::Draft;
use shop_model::AuthId;
use shop_order::buy_confirm::{Paid, Paying, pay};
use shop_text::Memory;
use std::alloc::Global;

/// Pays for a purchase by the authorisation that is kept; no gateway is asked.
pub(crate) fn pay_again(
    alloc: Global,
    paying: &Paying,
    auth: AuthId,
    attempt: Attempt,
    draft: &mut Draft,
) -> Result<Attempt, Memory>
    requires basket { HasBasket paying.now.ask.now.index.now paying.now.ask.now.tax (request_kinds.BuyConfirm paying.now.asked.now) attempt.reads }
    requires may { MayBePaid (asking_for paying.now) attempt }
    ensures { IfOk result (IsPaidBy (asking_for paying.now) paying.now.asked.now auth attempt) }
{
    let mut approver = approver_of(alloc, auth);
    let mut kept = None;
    match pay(alloc, paying, attempt, &mut kept, &mut approver, draft) {
        Paid::Approved(attempt) => Ok(attempt),
        Paid::Memory => Err(Memory),
        Paid::Denied(_, _) | Paid::Failed => unreachable!(),
    }
}
