//! Admin Add: an item comes behind those that there are.
ghost use Rattle.std.specs.Prelude.{◌≡◌, IfOk};
ghost use Rattle.shop_history.specs.declared.keys.Key.TheVariants as key_kinds;
ghost use Rattle.shop_attempt.specs.Marks.{Looks};
ghost use Rattle.shop_browse.specs.Attempts.{AttemptedAs, Suits, asking_of};
ghost use Rattle.shop_browse.specs.Driver.{FollowsOne};
ghost use Rattle.shop_order.specs.AdminAdd as spec;

use crate::added_page::write_page;
use shop_attempt::{ReadOf, Store, Write};
use shop_browse::{Ask, Attempted, Interaction, Next, attempt_by, count_in};
use shop_draft::{Draft, refusal};
use shop_history::{Act, Key};
use shop_model::{AdminAdd, ITEMS_LIMIT, Item, ItemDetails, Refusal, Request};
use shop_text::{Caption, Listed, Memory, Shared};
use std::alloc::Global;

/// The item as it is asked for; the settle gives it its id and publishes it.
fn added(alloc: Global, asked: &AdminAdd) -> Result<Item, Memory>
    ensures { IfOk result (λ item. item ≡ spec.added_row asked.now) }
{
    let details = ItemDetails {
        title: Caption::copy(alloc, asked.title.bytes())?,
        author: asked.author,
        subject: asked.subject,
        publisher: Caption::copy(alloc, asked.publisher.bytes())?,
        about: Caption::copy(alloc, asked.about.bytes())?,
        related: [1, 2, 3, 4, 5],
        thumb: Caption::copy(alloc, asked.thumb.bytes())?,
        image: Caption::copy(alloc, asked.image.bytes())?,
        srp: asked.srp,
        cost: asked.cost,
        first_stock: asked.stock,
        pages: asked.pages,
        backing: asked.backing,
    };
    Ok(Item {
        id: 0,
        published: 0,
        stock: asked.stock,
        restocks: 0,
        details: Shared::new(alloc, details)?,
    })
}

/// An item that is added.
#[derive(Drop)]
struct Adding<'a> {
    asked: &'a Shared<AdminAdd>,
}

impl<'a> Interaction for Adding<'a> {
    ghost use Rattle.shop_model.specs.declared.requests.Request.TheVariants as request_kinds;

    ghost request = { λ adding. request_kinds.AdminAdd adding.asked.now };

    ghost follows = { λ adding ask. FollowsOne key_kinds.Count };

    fn next(
        &mut self,
        alloc: Global,
        ask: &Ask,
        round: u32,
        reads: &[ReadOf],
        draft: &mut Draft,
    ) -> Result<Next, Memory> {
        let asked = self.asked.get();
        if ask.index.author(asked.author).is_none() {
            refusal(draft, Refusal::NoAuthor)?;
            return Ok(Next::Show);
        }
        if round == 0 {
            return Ok(Next::ReadOne(Key::Count));
        }
        let items = count_in(&reads[0]);
        if items >= ITEMS_LIMIT {
            refusal(draft, Refusal::FullShop)?;
            return Ok(Next::Show);
        }
        write_page(draft, asked, items + 1)?;
        let mut writes = Listed::with_capacity(alloc, 1)?;
        writes.push(Write::PutItem(added(alloc, asked)?))?;
        Ok(Next::Change(Act::Add(self.asked.share()?), writes))
    }
}

/// An attempt at the addition of an item.
#[inline(never)]
pub fn admin_add<St: Store>(
    alloc: Global,
    store: &mut St,
    ask: &Ask,
    asked: &Shared<AdminAdd>,
    draft: &mut Draft,
) -> Attempted
    requires suits { Suits ask.now (St.seat store.old) }
    ensures looks { Looks St.seat St.marked store.old store.new }
    ensures attempted { AttemptedAs (St.seat store.old) (St.seat store.new) (asking_of ask.now (Request.AdminAdd asked.now)) draft.new result }
{
    attempt_by(alloc, store, ask, Adding { asked }, draft)
}
