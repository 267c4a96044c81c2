//! The two pages of an item that is asked for by its id: the one that all see, and the form in which it
//! is changed.
ghost use Rattle.std.specs.Prelude.{◌≡◌, ◌∷◌, [], ℕ, IfOk};
ghost use Rattle.shop_history.specs.declared.keys.Key.TheVariants as key_kinds;
ghost use Rattle.shop_browse.specs.Driver.{FollowsOne, IsNext};
ghost use Rattle.shop_browse.specs.ItemPages.{item_of, request_of};

use crate::driver::{Interaction, Next};
use crate::{Ask, admin_request, product_detail};
use shop_attempt::ReadOf;
use shop_draft::{Draft, PageIds, refusal};
use shop_history::{Key, Row};
use shop_model::{AdminRequest, ProductDetail, Refusal};
use shop_text::Memory;
use std::alloc::Global;

/// A request for a page of an item.
#[derive(Clone, Copy)]
pub(crate) enum ItemPage<'a> {
    Detail(&'a ProductDetail),
    Admin(&'a AdminRequest),
}

impl<'a> ItemPage<'a> {
    /// The id of the item.
    fn item(self) -> u32
        ensures { result ≡ item_of self.entry }
    {
        match self {
            ItemPage::Detail(asked) => asked.item,
            ItemPage::Admin(asked) => asked.item,
        }
    }
}

/// What is done by what was read of the item, whose author an index knows.
fn by_item(ask: &Ask, page: ItemPage, read: &ReadOf, draft: &mut Draft) -> Result<Next, Memory>
    requires { read.now.key ≡ key_kinds.Item (item_of page) }
    ensures { IfOk result (λ next. (round : ℕ) → IsNext (FollowsOne (key_kinds.Item (item_of page.entry))) (request_of page.entry) ask.now round (read.now ∷ []) draft.new next) }
{
    match &read.row {
        Row::Absent => {
            refusal(draft, Refusal::NoItem)?;
            Ok(Next::Show)
        }
        Row::Item(item) => match page {
            ItemPage::Detail(asked) => match ask.index.author(item.details.get().author) {
                Some(author) => {
                    product_detail::write_page(draft, item, author.get(), PageIds::of(asked.ids))?;
                    Ok(Next::Show)
                }
                None => Ok(Next::Never),
            },
            ItemPage::Admin(asked) => {
                admin_request::write_page(draft, item, PageIds::of(asked.ids))?;
                Ok(Next::Show)
            }
        },
        _ => Ok(Next::Never),
    }
}

impl<'a> Interaction for ItemPage<'a> {
    ghost request = { λ page. request_of page };

    ghost follows = { λ page ask. FollowsOne (key_kinds.Item (item_of page)) };

    fn next(
        &mut self,
        alloc: Global,
        ask: &Ask,
        round: u32,
        reads: &[ReadOf],
        draft: &mut Draft,
    ) -> Result<Next, Memory> {
        let _ = alloc;
        if round == 0 {
            return Ok(Next::ReadOne(Key::Item(self.item())));
        }
        by_item(ask, *self, &reads[0], draft)
    }
}
