//! The charge of a purchase, and what a gateway says to it.
ghost use Rattle.std.specs.Prelude.{◌≡◌, ◌≤◌};
ghost use Rattle.shop_edges.specs.Causes.{Rose};
ghost use Rattle.shop_edges.specs.Charges.{charge_to};
ghost use Rattle.shop_order.specs.Charging as spec;

use shop_edges::{Answer, Call, Charge, Gateway, Verdict};
use shop_model::BuyConfirm;

/// The charge of so many cents to the card of a purchase, which is asked for in a call.
pub(crate) fn charge_of(asked: &BuyConfirm, call: Call, cents: u64) -> Charge
    ensures { result ≡ charge_to asked.now call cents }
{
    let payment = &asked.payment;
    Charge {
        caller: call.caller,
        call: call.number,
        cents,
        card: payment.card,
        number: payment.number,
        expiry: payment.expiry,
    }
}

/// The verdict that is kept on a charge, if one is.
fn kept_for(kept: &Option<Answer>, charge: &Charge) -> Option<Verdict>
    ensures { spec.IsKeptFor kept.now charge.now result }
{
    let answer = kept.as_ref()?;
    if answer.charge.is_same(charge) {
        return Some(answer.verdict);
    }
    None
}

/// A verdict that was kept: an approval or a denial. No other is ever kept, and none is acted on.
fn known(verdict: Verdict) -> Verdict
    ensures { result ≡ spec.known verdict }
{
    match verdict {
        Verdict::Approved(auth) => Verdict::Approved(auth),
        Verdict::Denied(reason) => Verdict::Denied(reason),
        _ => Verdict::Memory,
    }
}

/// Keeps an approval or a denial.
fn keep(kept: &mut Option<Answer>, charge: Charge, verdict: &Verdict)
    ensures { kept.new ≡ spec.kept_after kept.old charge verdict.now }
{
    match verdict {
        Verdict::Approved(_) | Verdict::Denied(_) => {
            *kept = Some(Answer {
                charge,
                verdict: *verdict,
            });
        }
        _ => {}
    }
}

/// Asks a gateway for a charge, unless the answer that is kept is to the same one, and keeps what it
/// approves or denies.
pub(crate) fn ask_gateway<G: Gateway>(
    charge: Charge,
    kept: &mut Option<Answer>,
    gateway: &mut G,
) -> Verdict
    ensures kept { spec.IsKept kept.new charge result }
    ensures asks { spec.Asks charge kept.old kept.new (G.answers gateway.old) (G.answers gateway.new) }
    ensures failed { result ≡ Verdict.Failed → Rose (G.faults gateway.old) (G.faults gateway.new) }
    ensures later { G.faults gateway.old ≤ G.faults gateway.new }
{
    if let Some(verdict) = kept_for(kept, &charge) {
        return known(verdict);
    }
    let verdict = gateway.authorize(&charge);
    keep(kept, charge, &verdict);
    verdict
}
