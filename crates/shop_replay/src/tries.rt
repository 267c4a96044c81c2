//! Attempts at the acts of entries, as they were made.
ghost use Rattle.std.specs.Prelude.{◌≡◌, IsSome};
ghost use Rattle.shop_model.specs.lists.Catalogues.{opened};
ghost use Rattle.shop_history.specs.Acts.{request_of};
ghost use Rattle.shop_attempt.specs.Marks.{Looks};
ghost use Rattle.shop_attempt.specs.Seats.{IsSeat};
ghost use Rattle.shop_browse.specs.Attempts.{AttemptedAs, Suits, asking_of};
ghost use Rattle.shop_replay.specs.Tries.{TriesAs};

use crate::asks::ask_of;
use crate::payments::pay_again;
use crate::stops::Stop;
use shop_attempt::{Attempt, Store};
use shop_browse::{Ask, Attempted};
use shop_draft::Draft;
use shop_edges::Call;
use shop_history::{Act, Entry};
use shop_order::admin_add::admin_add;
use shop_order::admin_confirm::admin_confirm;
use shop_order::buy_confirm::{Paying, buy_confirm};
use shop_order::buy_request::buy_request;
use shop_order::shopping_cart::shopping_cart;
use shop_search::Index;
use std::alloc::Global;

/// An attempt at what an act does, which takes no copy of it first.
fn attempt_act<St: Store>(
    alloc: Global,
    store: &mut St,
    ask: &Ask,
    act: &Act,
    draft: &mut Draft,
) -> Attempted
    requires suits { Suits ask.now (St.seat store.old) }
    ensures looks { Looks St.seat St.marked store.old store.new }
    ensures attempted { AttemptedAs (St.seat store.old) (St.seat store.new) (asking_of ask.now (request_of act.now)) draft.new result }
{
    match act {
        Act::Cart(asked, _) => shopping_cart(alloc, store, ask, asked, draft),
        Act::Enter(asked, _) => buy_request(alloc, store, ask, asked, draft),
        Act::Confirm(asked, _, _, _) => buy_confirm(alloc, store, ask, asked.get(), draft),
        Act::Admin(asked) => admin_confirm(alloc, store, ask, asked, draft),
        Act::Add(asked) => admin_add(alloc, store, ask, asked, draft),
    }
}

/// Attempts just the act of an entry, at its stamp, where the tables do not refuse it.
pub(crate) fn try_entry<St: Store>(
    alloc: Global,
    store: &mut St,
    index: &Index,
    entry: &Entry,
    draft: &mut Draft,
) -> Result<Attempt, Stop>
    requires seat { IsSeat (St.seat store.old) }
    requires alone { IsSome (St.seat store.old).latest }
    requires index { index.now ≡ opened (St.seat store.old).opening }
    ensures looks { Looks St.seat St.marked store.old store.new }
    ensures tries { TriesAs (St.seat store.new) entry.now result }
{
    let ask = ask_of(index, entry);
    match attempt_act(alloc, store, &ask, &entry.act, draft) {
        Attempted::Ready(attempt) => match attempt.act {
            Some(_) => Ok(attempt),
            None => Err(Stop::Illegal),
        },
        Attempted::Pay(attempt) => {
            let Act::Confirm(asked, _, auth, _) = &entry.act else {
                unreachable!()
            };
            let paying = Paying {
                ask: &ask,
                asked,
                call: Call {
                    caller: entry.caller,
                    number: entry.number,
                },
            };
            Ok(pay_again(alloc, &paying, *auth, attempt, draft)?)
        }
        // The page tells why the request is refused.
        Attempted::Listed(_, _) => Err(Stop::Illegal),
        // What one caller alone reads is so in its shop.
        Attempted::Contradiction(_) => unreachable!(),
        Attempted::Memory => Err(Stop::Memory),
    }
}
