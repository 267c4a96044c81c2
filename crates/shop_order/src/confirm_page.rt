//! The page of an order that was just placed.
ghost use Rattle.std.specs.Prelude.{◌≡◌, ◌++◌, OnOk, codes, decimal};
ghost use Rattle.shop_model.specs.declared.page.Block.TheVariants as block;
ghost use Rattle.shop_model.specs.pages.BuyConfirm.{purchase_ids};
ghost use Rattle.shop_model.specs.pages.PageText.{block_line};
ghost use Rattle.shop_history.specs.declared.acts.Drawn.{Drawn};
ghost use Rattle.shop_draft.specs.Drawing.{ids_at, or_zero};
ghost use Rattle.shop_draft.specs.Templates.{Adds};
ghost use Rattle.shop_order.specs.Decisions.{IsPageOf};
ghost use Rattle.shop_order.specs.Purchases as spec;

use crate::purchase::{Bill, Purchase};
use crate::sale::days_later;
use crate::table::table;
use shop_draft::{Draft, Id, PageIds, Template};
use shop_model::{AuthId, BuyConfirm};
use shop_text::Memory;

/// The ids that the page of a purchase hands on.
fn page_ids(asked: &BuyConfirm) -> PageIds
    ensures { (drawn : Drawn) → ids_at drawn result ≡ purchase_ids asked.now }
{
    PageIds {
        c: Some(Id::Known(asked.c)),
        cart: Some(Id::Known(asked.cart)),
    }
}

#[tactic(auto, using(shop_text::proofs::cited::Plain::escape_append), unfolding(shop_model::specs::pages::PageText::block_text))]
fn heading(page: &mut Template) -> Result<(), Memory>
    ensures { OnOk result (Adds page.old page.new (λ drawn. block_line (block.Heading (codes "Order " ++ decimal (or_zero drawn.ids.order))))) }
{
    page.id(b"<h1>Order ", Id::NewOrder)?;
    page.put(b"</h1>\n")?;
    Ok(())
}

/// Writes the page of a purchase, with the authorisation of its payment and the word that was drawn.
pub(crate) fn write_page(
    draft: &mut Draft,
    purchase: &Purchase,
    bill: &Bill,
    auth: &AuthId,
    draw: u32,
) -> Result<(), Memory>
    requires goods { spec.AreGoods purchase.now.lines.now purchase.now.items.now }
    requires bill { spec.IsBill purchase.now bill.now }
    ensures { OnOk result (IsPageOf (record { purchase = purchase.now; bill = bill.now; auth = auth.now; draw = draw }) draft.new) }
{
    let ids = page_ids(purchase.asked.get());
    let customer = purchase.customer;
    let totals = bill.totals;
    draft.status = 200;
    let page = &mut draft.page;
    page.begin(b"Buy Confirm")?;
    heading(page)?;
    page.ships(customer.id, days_later(draw))?;
    table(page, purchase.lines, purchase.items)?;
    page.totals(totals.sub, totals.tax, totals.ship, totals.total)?;
    page.authorised(auth)?;
    page.nav(ids)?;
    page.end()?;
    Ok(())
}
