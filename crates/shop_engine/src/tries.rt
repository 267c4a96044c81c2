ghost use Rattle.std.specs.Prelude.{◌≡◌, ◌≤◌, None, Some, IfSome, IsSome, IsNone};
ghost use Rattle.shop_model.specs.declared.tax.TaxRule.TheVariants.{ByCountry};
ghost use Rattle.shop_model.specs.rows.Limits.{stamp_limit};
ghost use Rattle.shop_edges.specs.Causes.{Rose};
ghost use Rattle.shop_edges.specs.declared.gateway.Answer.{Answer as AnswerValue};
ghost use Rattle.shop_attempt.specs.Seats.{IsSeat};
ghost use Rattle.shop_browse.specs.Attempts.{Suits};
ghost use Rattle.shop_engine.specs.Failures.{RoseBy, failures_as};
ghost use Rattle.shop_engine.specs.Settling.{TriesBy, TriesOnBy, DecidesBy, GivesUpBy};
ghost use Rattle.shop_engine.specs.Stores.{Keeps};
ghost use Rattle.shop_engine.specs.Tries.{LeavesListMark, LeavesMarkOf, WasAttempted, asking_for, denial};

use crate::replies::refusal_reply;
use crate::report::PointKind;
use crate::settles::{settle_denied, settle_list, settle_page};
use shop_attempt::{Conflict, Settle, Store};
use shop_browse::{Ask, Attempted};
use shop_cache::ListLines;
use shop_edges::{Answer, Call, Gateway, Reason};
use shop_model::{Refusal, Request};
use shop_order::attempt;
use shop_order::buy_confirm::{Paid, Paying, pay};
use shop_pages::{Form, Reply};
use shop_text::{Boxed, Listed};
use std::alloc::Global;

/// How often a request is tried.
pub const TRIES: u32 = 8;

/// A request that is to be decided, the form of its reply, and who asks, in which call; and where memory is
/// taken from.
#[derive(Clone, Copy)]
pub(crate) struct Job<'a, 'r> {
    pub(crate) alloc: Global,
    pub(crate) ask: Ask<'a>,
    pub(crate) request: &'r Request,
    pub(crate) form: Form,
    pub(crate) call: Call,
}

/// What came of one try.
#[derive(Drop)]
pub(crate) enum Tried {
    /// This decided, at this front, and the reply is made.
    Settled(PointKind, u64),
    /// A list was read, with these lines, at this front, and the reply is made.
    Listed(ListLines, u64),
    /// The charge of the answer that is kept was denied, at this front, and the reply is made.
    Denied(Reason, u64),
    Again(Conflict),
    /// The gateway failed, and the reply is made.
    Failed,
    Memory,
}

/// What decided a request, at which front, how many attempts were settled, and the lines of a list that
/// was read. The reply is made.
#[derive(Drop)]
pub(crate) struct Outcome {
    pub(crate) kind: PointKind,
    pub(crate) front: u64,
    pub(crate) tries: u32,
    pub(crate) lines: Option<ListLines>,
}

/// Reads what the request is about, writes its page, makes room for its reply, settles it, and finishes
/// the reply. A purchase is paid before it is settled.
fn try_once<St: Store, G: Gateway>(
    store: &mut St,
    job: &Job,
    reply: &mut Reply,
    kept: &mut Option<Answer>,
    gateway: &mut G,
) -> Tried
    requires valid { IsSeat (St.seat store.old) }
    requires caller { (St.seat store.old).caller ≡ job.now.call.caller }
    requires suits { Suits job.now.ask (St.seat store.old) }
    requires moment { job.now.ask.moment ≤ stamp_limit }
    ensures tried { TriesBy (St.Store, G.Gateway) job.now
        (store.old, reply.old, kept.old, gateway.old) (store.new, reply.new, kept.new, gateway.new) result }
    ensures marks { Keeps St.Store store.old store.new }
    ensures mark { LeavesListMark (St.marked store.new) (St.seat store.new).seen job.now.ask.moment result }
    ensures failed { result ≡ Tried.Failed → Rose (G.faults gateway.old) (G.faults gateway.new) }
    ensures later { G.faults gateway.old ≤ G.faults gateway.new }
{
    match attempt(job.alloc, store, &job.ask, job.request, reply.draft()) {
        Attempted::Ready(attempt) => settle_page(store, job, attempt, reply),
        other => try_other(store, job, other, reply, kept, gateway),
    }
}

/// Settles an attempt at a list, or at a purchase, which is paid before. It stands apart, so that most
/// requests make no room for it.
#[inline(never)]
fn try_other<St: Store, G: Gateway>(
    store: &mut St,
    job: &Job,
    attempted: Attempted,
    reply: &mut Reply,
    kept: &mut Option<Answer>,
    gateway: &mut G,
) -> Tried
    requires attempted { WasAttempted (St.seat store.old) (asking_for job.now) reply.old.draft attempted }
    requires suits { Suits job.now.ask (St.seat store.old) }
    requires caller { (St.seat store.old).caller ≡ job.now.call.caller }
    requires moment { job.now.ask.moment ≤ stamp_limit }
    ensures tried { TriesOnBy (St.Store, G.Gateway) job.now attempted
        (store.old, reply.old, kept.old, gateway.old) (store.new, reply.new, kept.new, gateway.new) result }
    ensures marks { Keeps St.Store store.old store.new }
    ensures mark { LeavesListMark (St.marked store.new) (St.seat store.new).seen job.now.ask.moment result }
    ensures failed { result ≡ Tried.Failed → Rose (G.faults gateway.old) (G.faults gateway.new) }
    ensures later { G.faults gateway.old ≤ G.faults gateway.new }
{
    match attempted {
        Attempted::Ready(attempt) => settle_page(store, job, attempt, reply),
        Attempted::Listed(attempt, lines) => settle_list(store, job, attempt, lines, reply),
        Attempted::Pay(attempt) => {
            let Request::BuyConfirm(asked) = job.request else {
                unreachable!()
            };
            let draft = reply.draft();
            let paying = Paying {
                ask: &job.ask,
                asked,
                call: job.call,
            };
            match pay(job.alloc, &paying, attempt, kept, gateway, draft) {
                Paid::Approved(attempt) => settle_page(store, job, attempt, reply),
                Paid::Denied(attempt, reason) => settle_denied(store, job, attempt, reason, reply),
                Paid::Failed => match refusal_reply(reply, Refusal::GatewayFailed, job.form) {
                    Ok(()) => Tried::Failed,
                    Err(_) => Tried::Memory,
                },
                Paid::Memory => Tried::Memory,
            }
        }
        Attempted::Contradiction(attempt) => match store.settle(attempt) {
            Settle::Stale(conflict) => Tried::Again(conflict),
            _ => unreachable!(),
        },
        Attempted::Memory => Tried::Memory,
    }
}

/// What a denial decides: the charge of the answer that is kept was denied.
fn denied(
    alloc: Global,
    kept: Option<Answer>,
    reason: Reason,
    front: u64,
    tries: u32,
) -> Option<Outcome>
    requires { IsSome kept }
    ensures { IfSome result (λ outcome. (answer : AnswerValue) → kept ≡ Some answer → outcome ≡ denial answer reason front tries) }
{
    let Some(answer) = kept else { unreachable!() };
    let Ok(charge) = Boxed::new(alloc, answer.charge) else {
        return None;
    };
    Some(Outcome {
        kind: PointKind::Denied(charge, reason),
        front,
        tries,
        lines: None,
    })
}

/// Tries a request until it is decided, eight times at most. There is no outcome where memory ran out.
/// What the gateway said is kept from try to try, so that it is not asked again for an equal charge.
pub(crate) fn try_all<St: Store, G: Gateway>(
    store: &mut St,
    job: &Job,
    reply: &mut Reply,
    gateway: &mut G,
) -> Option<Outcome>
    requires valid { IsSeat (St.seat store.old) }
    requires caller { (St.seat store.old).caller ≡ job.now.call.caller }
    requires suits { Suits job.now.ask (St.seat store.old) }
    requires moment { job.now.ask.moment ≤ stamp_limit }
    requires tax { job.now.ask.tax ≡ ByCountry }
    ensures answer { IfSome result (DecidesBy (St.Store, G.Gateway) job.now
        (store.old, reply.old, None, gateway.old) (store.new, reply.new, None, gateway.new)) }
    ensures memory { IsNone result → GivesUpBy (St.Store, G.Gateway) job.now
        (store.old, reply.old, None, gateway.old) (store.new, reply.new, None, gateway.new) }
    ensures marks { Keeps St.Store store.old store.new }
    ensures mark { IfSome result (LeavesMarkOf (St.marked store.new) (St.seat store.new).seen job.now.ask.moment) }
    ensures failures { IfSome result (λ outcome. RoseBy (G.faults gateway.old) (failures_as outcome.kind) (G.faults gateway.new)) }
    ensures later { G.faults gateway.old ≤ G.faults gateway.new }
{
    let mut conflicts = Listed::new(job.alloc);
    let mut kept = None;
    for tried in 0..TRIES {
        match try_once(store, job, reply, &mut kept, gateway) {
            Tried::Settled(kind, front) => {
                return Some(Outcome {
                    kind,
                    front,
                    tries: tried + 1,
                    lines: None,
                });
            }
            Tried::Listed(lines, front) => {
                return Some(Outcome {
                    kind: PointKind::At,
                    front,
                    tries: tried + 1,
                    lines: Some(lines),
                });
            }
            Tried::Denied(reason, front) => {
                return denied(job.alloc, kept, reason, front, tried + 1);
            }
            Tried::Again(conflict) => {
                let Ok(()) = conflicts.push(conflict) else {
                    return None;
                };
            }
            Tried::Failed => {
                return Some(Outcome {
                    kind: PointKind::GatewayFailed,
                    front: 0,
                    tries: tried,
                    lines: None,
                });
            }
            Tried::Memory => return None,
        }
    }
    let Ok(()) = refusal_reply(reply, Refusal::RowsKeptChanging, job.form) else {
        return None;
    };
    Some(Outcome {
        kind: PointKind::Busy(conflicts),
        front: 0,
        tries: TRIES,
        lines: None,
    })
}
