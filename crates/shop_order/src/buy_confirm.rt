//! Buy Confirm: a customer buys what a cart has, once a gateway approved what it costs.
ghost use Rattle.std.specs.Prelude.{◌≡◌, ◌≤◌};
ghost use Rattle.shop_model.specs.declared.requests.Request.TheVariants as request_kinds;
ghost use Rattle.shop_edges.specs.Causes.{Rose};
ghost use Rattle.shop_edges.specs.Payments.{AsksOnce};
ghost use Rattle.shop_attempt.specs.Marks.{Looks};
ghost use Rattle.shop_browse.specs.Attempts.{AttemptedAs, Suits, asking_of};
ghost use Rattle.shop_browse.specs.Baskets.{HasBasket};
ghost use Rattle.shop_order.specs.BuyConfirm.{FollowsConfirm, asking_for};
ghost use Rattle.shop_order.specs.Payments.{PaidFor};

use crate::basket::{begin, country_key, first_keys, is_country, is_ship, second_keys};
use crate::decision::{Decision, decide};
use crate::stops::stopped;
use shop_attempt::{Attempt, ReadOf, Store};
use shop_browse::{Ask, Attempted, Interaction, Next, attempt_by};
use shop_draft::Draft;
use shop_edges::{Answer, Call, Gateway, Reason};
use shop_model::{BuyConfirm, Request, TaxRule};
use shop_text::{Memory, Shared};
use std::alloc::Global;

/// What came of a purchase whose rows are read.
#[derive(Drop)]
pub enum Paid {
    /// The gateway approved: this attempt does it, and its page is written.
    Approved(Attempt),
    /// The gateway denied the card: this attempt changes nothing, and the page that tells it is written.
    Denied(Attempt, Reason),
    /// The gateway failed.
    Failed,
    Memory,
}

/// A purchase that is to be paid: what is asked for, and in which call.
#[derive(Clone, Copy)]
pub struct Paying<'a> {
    pub ask: &'a Ask<'a>,
    pub asked: &'a Shared<BuyConfirm>,
    pub call: Call,
}

/// Pays for a purchase: asks the gateway, unless the answer that is kept is to the same charge, and
/// keeps its answer.
#[inline(never)]
pub fn pay<G: Gateway>(
    alloc: Global,
    paying: &Paying,
    attempt: Attempt,
    kept: &mut Option<Answer>,
    gateway: &mut G,
    draft: &mut Draft,
) -> Paid
    requires { HasBasket paying.now.ask.now.index.now paying.now.ask.now.tax (request_kinds.BuyConfirm paying.now.asked.now) attempt.reads }
    ensures paid { PaidFor (asking_for paying.now) paying.now.asked.now paying.now.call attempt draft.new kept.new result }
    ensures asks { AsksOnce paying.now.asked.now paying.now.call kept.old kept.new (G.answers gateway.old) (G.answers gateway.new) }
    ensures failed { result ≡ Paid.Failed → Rose (G.faults gateway.old) (G.faults gateway.new) }
    ensures later { G.faults gateway.old ≤ G.faults gateway.new }
{
    let reads = attempt.reads.as_slice();
    match decide(alloc, paying, reads, kept, gateway, draft) {
        Ok(Decision::Approved(act, writes)) => Paid::Approved(Attempt {
            writes: Some(writes),
            act: Some(act),
            ..attempt
        }),
        Ok(Decision::Denied(reason)) => Paid::Denied(attempt, reason),
        Ok(Decision::Failed) => Paid::Failed,
        Err(Memory) => Paid::Memory,
    }
}

/// A purchase before it is paid.
#[derive(Drop)]
struct Confirming<'a> {
    asked: &'a BuyConfirm,
}

impl<'a> Interaction for Confirming<'a> {
    ghost use Rattle.shop_model.specs.declared.requests.Request.TheVariants as request_kinds;

    ghost request = { λ confirming. request_kinds.BuyConfirm confirming.asked.now };

    ghost follows = { λ confirming ask. FollowsConfirm confirming.asked.now ask.tax };

    fn next(
        &mut self,
        alloc: Global,
        ask: &Ask,
        round: u32,
        reads: &[ReadOf],
        draft: &mut Draft,
    ) -> Result<Next, Memory> {
        let asked = self.asked;
        if round == 0 {
            return Ok(Next::Read(first_keys(alloc, asked)?));
        }
        let basket = match begin(asked, &reads[0], &reads[1]) {
            Ok(basket) => basket,
            Err(stop) => return stopped(draft, stop),
        };
        if round == 1 {
            return Ok(Next::Read(second_keys(alloc, &asked.address, &basket)?));
        }
        let ship = &reads[2].row;
        if !is_ship(&asked.address, ship) {
            return Ok(Next::Never);
        }
        if let TaxRule::Flat = ask.tax {
            return Ok(Next::Pay);
        }
        if round == 2 {
            return Ok(Next::ReadOne(country_key(&asked.address, ship)));
        }
        if is_country(&reads[reads.len() - 1].row) {
            return Ok(Next::Pay);
        }
        Ok(Next::Never)
    }
}

/// An attempt at a purchase: it reads what the payment needs.
#[inline(never)]
pub fn buy_confirm<St: Store>(
    alloc: Global,
    store: &mut St,
    ask: &Ask,
    asked: &BuyConfirm,
    draft: &mut Draft,
) -> Attempted
    requires suits { Suits ask.now (St.seat store.old) }
    ensures looks { Looks St.seat St.marked store.old store.new }
    ensures attempted { AttemptedAs (St.seat store.old) (St.seat store.new) (asking_of ask.now (Request.BuyConfirm asked.now)) draft.new result }
{
    attempt_by(alloc, store, ask, Confirming { asked }, draft)
}
