//! Settles of attempts whose pages are written.
ghost use Rattle.std.specs.Prelude.{◌≡◌, ◌≤◌, None};
ghost use Rattle.shop_model.specs.rows.Limits.{stamp_limit};
ghost use Rattle.shop_attempt.specs.Faithful.{Faithful};
ghost use Rattle.shop_engine.specs.Settling.{SettlesPage, SettlesList, SettlesDenied};
ghost use Rattle.shop_engine.specs.Stores.{Keeps};
ghost use Rattle.shop_engine.specs.Tries.{LeavesListMark};

use crate::replies::refusal_reply;
use crate::report::PointKind;
use crate::tries::{Job, Tried};
use shop_attempt::{Attempt, Settle, Store};
use shop_cache::ListLines;
use shop_edges::Reason;
use shop_model::Refusal;
use shop_pages::Reply;

/// Settles an attempt whose page is written, in the room that is made before, and finishes its reply.
#[inline(always)]
pub(crate) fn settle_page<St: Store>(
    store: &mut St,
    job: &Job,
    attempt: Attempt,
    reply: &mut Reply,
) -> Tried
    requires faithful { Faithful (St.seat store.old).opening (St.seat store.old).seen attempt }
    requires moment { attempt.moment ≤ stamp_limit }
    ensures tried { SettlesPage St.Store job.now attempt (store.old, reply.old) (store.new, reply.new) result }
    ensures never { ¬ (result ≡ Tried.Failed) }
    ensures marks { Keeps St.Store store.old store.new }
    ensures mark { LeavesListMark (St.marked store.new) (St.seat store.new).seen job.now.ask.moment result }
{
    let Ok(()) = reply.reserve() else {
        return Tried::Memory;
    };
    let changes = attempt.act.is_some();
    match store.settle(attempt) {
        Settle::Done(drawn) => {
            reply.finish(&drawn, job.form);
            if changes {
                Tried::Settled(PointKind::Change, drawn.front)
            } else {
                Tried::Settled(PointKind::At, drawn.front)
            }
        }
        Settle::Stale(conflict) => Tried::Again(conflict),
        Settle::Full(size) => match refusal_reply(reply, Refusal::FullLog, job.form) {
            Ok(()) => Tried::Settled(PointKind::Full, size),
            Err(_) => Tried::Memory,
        },
        Settle::Memory => Tried::Memory,
    }
}

/// Settles an attempt at a list, whose page is written, and finishes its reply; the lines are handed on.
pub(crate) fn settle_list<St: Store>(
    store: &mut St,
    job: &Job,
    attempt: Attempt,
    lines: ListLines,
    reply: &mut Reply,
) -> Tried
    requires faithful { Faithful (St.seat store.old).opening (St.seat store.old).seen attempt }
    requires moment { attempt.moment ≤ stamp_limit }
    requires reading { attempt.act ≡ None }
    requires caller { (St.seat store.old).caller ≡ job.now.call.caller }
    ensures tried { SettlesList St.Store job.now (attempt, lines) (store.old, reply.old) (store.new, reply.new) result }
    ensures never { ¬ (result ≡ Tried.Failed) }
    ensures marks { Keeps St.Store store.old store.new }
    ensures mark { LeavesListMark (St.marked store.new) (St.seat store.new).seen attempt.moment result }
{
    let Ok(()) = reply.reserve() else {
        return Tried::Memory;
    };
    match store.settle(attempt) {
        Settle::Done(drawn) => {
            reply.finish(&drawn, job.form);
            Tried::Listed(lines, drawn.front)
        }
        Settle::Stale(conflict) => Tried::Again(conflict),
        Settle::Full(_) | Settle::Memory => unreachable!(),
    }
}

/// Settles an attempt at a purchase that was denied, which changes nothing, and finishes the reply that
/// tells it.
pub(crate) fn settle_denied<St: Store>(
    store: &mut St,
    job: &Job,
    attempt: Attempt,
    reason: Reason,
    reply: &mut Reply,
) -> Tried
    requires faithful { Faithful (St.seat store.old).opening (St.seat store.old).seen attempt }
    requires moment { attempt.moment ≤ stamp_limit }
    requires reading { attempt.act ≡ None }
    requires caller { (St.seat store.old).caller ≡ job.now.call.caller }
    ensures tried { SettlesDenied St.Store job.now (attempt, reason) (store.old, reply.old) (store.new, reply.new) result }
    ensures never { ¬ (result ≡ Tried.Failed) }
    ensures marks { Keeps St.Store store.old store.new }
    ensures mark { LeavesListMark (St.marked store.new) (St.seat store.new).seen job.now.ask.moment result }
{
    let Ok(()) = reply.reserve() else {
        return Tried::Memory;
    };
    match store.settle(attempt) {
        Settle::Done(drawn) => {
            reply.finish(&drawn, job.form);
            Tried::Denied(reason, drawn.front)
        }
        Settle::Stale(conflict) => Tried::Again(conflict),
        Settle::Full(_) | Settle::Memory => unreachable!(),
    }
}
