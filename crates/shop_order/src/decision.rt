//! What is decided of a purchase that was read: a gateway approves what it costs, denies it, or fails.
ghost use Rattle.std.specs.Prelude.{◌≡◌, ◌≤◌, IfOk};
ghost use Rattle.shop_model.specs.rows.Limits.{charged_rate_limit};
ghost use Rattle.shop_edges.specs.Causes.{Rose};
ghost use Rattle.shop_edges.specs.Payments.{AsksOnce};
ghost use Rattle.shop_order.specs.BuyConfirm.{asking_for};
ghost use Rattle.shop_order.specs.Decisions as spec;
ghost use Rattle.shop_order.specs.Purchases.{IsRead, AreGoods, IsBill};

use crate::buy_confirm::Paying;
use crate::confirm_page::write_page;
use crate::new_order::order;
use crate::payment::{ask_gateway, charge_of};
use crate::purchase::{Bill, Purchase};
use crate::sale::{purchase_act, purchase_writes};
use shop_attempt::{ReadOf, Write};
use shop_draft::{Draft, refusal};
use shop_edges::{Answer, Gateway, Reason, Verdict};
use shop_history::Act;
use shop_model::AuthId;
use shop_text::{Listed, Memory};
use std::alloc::Global;

/// What is decided of a purchase.
#[derive(Drop)]
pub(crate) enum Decision {
    /// It is done, by this act and its writes, and its page is written.
    Approved(Act, Listed<Write>),
    /// The page that tells why is written.
    Denied(Reason),
    Failed,
}

/// What a purchase does that is approved.
fn approved(
    alloc: Global,
    purchase: &Purchase,
    bill: &Bill,
    auth: &AuthId,
    draw: u32,
    draft: &mut Draft,
) -> Result<Decision, Memory>
    requires goods { AreGoods purchase.now.lines.now purchase.now.items.now }
    requires bill { IsBill purchase.now bill.now }
    requires rate { purchase.now.rate ≤ charged_rate_limit }
    ensures { IfOk result (spec.IsApproved (record { purchase = purchase.now; bill = bill.now; auth = auth.now; draw = draw }) draft.new) }
{
    write_page(draft, purchase, bill, auth, draw)?;
    let placed = order(alloc, purchase, bill, *auth)?;
    let writes = purchase_writes(alloc, purchase, placed, draw)?;
    let act = purchase_act(purchase, draw, *auth)?;
    Ok(Decision::Approved(act, writes))
}

/// Tells why a card was denied.
fn denied(reason: Reason, draft: &mut Draft) -> Result<Decision, Memory>
    ensures { IfOk result (spec.IsDenied reason draft.new) }
{
    refusal(draft, reason.refusal())?;
    Ok(Decision::Denied(reason))
}

/// Asks a gateway for what a purchase costs, unless the answer that is kept is to the same charge, and
/// keeps its answer.
pub(crate) fn decide<G: Gateway>(
    alloc: Global,
    paying: &Paying,
    reads: &[ReadOf],
    kept: &mut Option<Answer>,
    gateway: &mut G,
    draft: &mut Draft,
) -> Result<Decision, Memory>
    requires { IsRead paying.now.ask.now.tax paying.now.asked.now reads.now }
    ensures decides { IfOk result (spec.Decides paying.now.asked.now paying.now.call (asking_for paying.now) reads.now draft.new kept.new) }
    ensures asks { AsksOnce paying.now.asked.now paying.now.call kept.old kept.new (G.answers gateway.old) (G.answers gateway.new) }
    ensures failed { IfOk result (λ decision. decision ≡ Decision.Failed → Rose (G.faults gateway.old) (G.faults gateway.new)) }
    ensures later { G.faults gateway.old ≤ G.faults gateway.new }
{
    let draw = paying.ask.draw;
    let purchase = Purchase::of(paying.ask.tax, paying.asked, reads);
    let bill = Bill::of(alloc, &purchase)?;
    let charge = charge_of(paying.asked.get(), paying.call, bill.totals.total);
    match ask_gateway(charge, kept, gateway) {
        Verdict::Approved(auth) => approved(alloc, &purchase, &bill, &auth, draw, draft),
        Verdict::Denied(reason) => denied(reason, draft),
        Verdict::Failed => Ok(Decision::Failed),
        Verdict::Memory => Err(Memory),
    }
}
