//! Admin Confirm: an item gets another cost and other pictures, and the items that are related to it are worked out.
ghost use Rattle.std.specs.Prelude.{◌≡◌, IfOk, IfErr};
ghost use Rattle.shop_model.specs.declared.refusal.Refusal.TheVariants.{NoItem};
ghost use Rattle.shop_model.specs.pages.Show.{check_there};
ghost use Rattle.shop_history.specs.declared.keys.Row.TheVariants as row_kinds;
ghost use Rattle.shop_attempt.specs.Marks.{Looks};
ghost use Rattle.shop_browse.specs.Attempts.{AttemptedAs, Suits, asking_of};
ghost use Rattle.shop_order.specs.AdminConfirm as spec;
ghost use Rattle.shop_order.specs.Stops.{StopsBy};

use crate::mended_page::write_page;
use crate::mending::mended;
use crate::related::{customers_in, read_bought, related};
use crate::stops::{Stop, stopped};
use shop_attempt::{ReadOf, Store, Write};
use shop_browse::{
    Ask, Attempted, Interaction, Names, Next, attempt_counted, count_in, unread_labels,
};
use shop_draft::Draft;
use shop_history::{Act, Key, Row};
use shop_model::{AdminConfirm, Item, Refusal, Request};
use shop_text::{Listed, Memory, Shared};
use std::alloc::Global;

/// The item in a row.
fn item_in(row: &Row) -> Result<&Item, Stop>
    ensures ok { IfOk result (λ item. row.now ≡ row_kinds.Item item.now) }
    ensures err { IfErr result (StopsBy row_kinds.Item (check_there NoItem) row.now) }
{
    match row {
        Row::Absent => Err(Stop::Refused(Refusal::NoItem)),
        Row::Item(item) => Ok(item),
        _ => Err(Stop::Never),
    }
}

/// The change of an item, by those that are related to it, whose page it writes.
#[inline(always)]
fn change(
    alloc: Global,
    names: Names,
    asked: &Shared<AdminConfirm>,
    item: &Item,
    related: [u32; 5],
    draft: &mut Draft,
) -> Result<Next, Memory>
    ensures { IfOk result (spec.IsChangeTo names.entry asked.now (spec.mended_row asked.now related item.now) draft.new) }
{
    let item = mended(alloc, item, asked.get(), related)?;
    write_page(draft, names, &item, asked.get().ids)?;
    let mut writes = Listed::with_capacity(alloc, 1)?;
    writes.push(Write::PutItem(item))?;
    Ok(Next::Change(Act::Admin(asked.share()?), writes))
}

/// A change of an item.
#[derive(Drop)]
struct Mending<'a> {
    asked: &'a Shared<AdminConfirm>,
}

impl<'a> Interaction for Mending<'a> {
    ghost use Rattle.shop_model.specs.declared.requests.Request.TheVariants as request_kinds;

    ghost request = { λ mending. request_kinds.AdminConfirm mending.asked.now };

    ghost follows = { λ mending ask. spec.FollowsAdmin mending.asked.now ask };

    fn next(
        &mut self,
        alloc: Global,
        ask: &Ask,
        round: u32,
        reads: &[ReadOf],
        draft: &mut Draft,
    ) -> Result<Next, Memory> {
        let asked = self.asked.get();
        if round == 0 {
            return Ok(Next::ReadTwo(Key::Item(asked.item), Key::Buyers(asked.item)));
        }
        let item = match item_in(&reads[1].row) {
            Ok(item) => item,
            Err(stop) => return stopped(draft, stop),
        };
        let customers = customers_in(&reads[2].row);
        if round == 1 {
            return read_bought(alloc, customers);
        }
        let (bought, labels) = reads[3..].split_at(customers.len());
        let items = count_in(&reads[0]);
        let Some(related) = related(alloc, items, asked.item, bought)? else {
            return Ok(Next::Never);
        };
        if round == 2 {
            if let Some(keys) = unread_labels(alloc, ask.index, items, &related)? {
                return Ok(Next::Read(keys));
            }
        }
        let names = Names {
            index: ask.index,
            labels,
        };
        change(alloc, names, self.asked, item, related, draft)
    }
}

/// An attempt at the change of an item.
#[inline(never)]
pub fn admin_confirm<St: Store>(
    alloc: Global,
    store: &mut St,
    ask: &Ask,
    asked: &Shared<AdminConfirm>,
    draft: &mut Draft,
) -> Attempted
    requires suits { Suits ask.now (St.seat store.old) }
    ensures looks { Looks St.seat St.marked store.old store.new }
    ensures attempted { AttemptedAs (St.seat store.old) (St.seat store.new) (asking_of ask.now (Request.AdminConfirm asked.now)) draft.new result }
{
    attempt_counted(alloc, store, ask, Mending { asked }, draft)
}
