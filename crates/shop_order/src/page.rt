//! The page of a cart.
ghost use Rattle.std.specs.Prelude.{◌≡◌, ◌++◌, OnOk, codes, decimal};
ghost use Rattle.shop_text.specs.Texts.{cents_text};
ghost use Rattle.shop_model.specs.declared.page.Block.TheVariants as block;
ghost use Rattle.shop_model.specs.declared.tables.Tables.{Tables};
ghost use Rattle.shop_model.specs.pages.ShoppingCart.{cart_page, ids_with};
ghost use Rattle.shop_model.specs.pages.PageText.{block_line};
ghost use Rattle.shop_history.specs.declared.acts.Drawn.{Drawn};
ghost use Rattle.shop_draft.specs.Drawing.{id_at, ids_at};
ghost use Rattle.shop_draft.specs.Pages as pages;
ghost use Rattle.shop_draft.specs.Templates.{Adds, Says};
ghost use Rattle.shop_attempt.specs.Reads.{Shows};
ghost use Rattle.shop_pricing.specs.Bounds.{AreLines};
ghost use Rattle.shop_order.specs.Page.{cart_at, page_at};
ghost use Rattle.shop_order.specs.ShoppingCart.{AreItems};

use crate::table::{sum, table};
use shop_attempt::ReadOf;
use shop_draft::{Draft, Id, PageIds, Template};
use shop_model::IdsAsked;
use shop_text::Memory;

/// The cart that a page is about: the one that is named, or the one that the settle makes.
fn cart_id(named: Option<u32>) -> Id
    ensures { (drawn : Drawn) → id_at drawn result ≡ cart_at drawn named }
{
    match named {
        Some(id) => Id::Known(id),
        None => Id::NewCart,
    }
}

/// The ids that the page of a cart hands on.
fn page_ids(ids: IdsAsked, cart: Id) -> PageIds
    ensures { (drawn : Drawn) → ids_at drawn result ≡ ids_with ids (id_at drawn cart) }
{
    PageIds {
        cart: Some(cart),
        ..PageIds::of(ids)
    }
}

#[tactic(auto, using(shop_text::proofs::cited::Plain::escape_append), unfolding(shop_model::specs::pages::PageText::block_text))]
fn heading(page: &mut Template, cart: Id) -> Result<(), Memory>
    ensures { OnOk result (Adds page.old page.new (λ drawn. block_line (block.Heading (codes "Cart " ++ decimal (id_at drawn cart))))) }
{
    page.id(b"<h1>Cart ", cart)?;
    page.put(b"</h1>\n")?;
    Ok(())
}

#[tactic(auto, using(shop_text::proofs::cited::Plain::escape_append), unfolding(shop_model::specs::pages::PageText::block_text))]
fn sum_line(page: &mut Template, sum: u64) -> Result<(), Memory>
    ensures { OnOk result (Says page.old page.new (block_line (block.Para (codes "Sum " ++ cents_text sum)))) }
{
    page.money(b"<p>Sum ", sum)?;
    page.put(b"</p>\n")?;
    Ok(())
}

/// Writes the page of this cart, by what was read of the items of its lines.
fn write_cart(
    draft: &mut Draft,
    cart: Id,
    ids: PageIds,
    lines: &[(u32, u32)],
    items: &[ReadOf],
) -> Result<(), Memory>
    requires items { AreItems lines.now items.now }
    requires lines { AreLines lines.now }
    ensures { OnOk result ((t : Tables) → Shows t items.now → pages.Shows draft.new (λ drawn. cart_page t (ids_at drawn ids) (id_at drawn cart) lines.now)) }
{
    draft.status = 200;
    let page = &mut draft.page;
    page.begin(b"Shopping Cart")?;
    heading(page, cart)?;
    table(page, lines, items)?;
    sum_line(page, sum(lines, items))?;
    page.cart_form(lines, ids)?;
    page.plain_link(b"/customer_registration", ids, b"Checkout")?;
    page.nav(ids)?;
    page.end()?;
    Ok(())
}

/// Writes the page of the cart that is named, or of a new one, with these lines.
pub(crate) fn write_page(
    draft: &mut Draft,
    ids: IdsAsked,
    lines: &[(u32, u32)],
    items: &[ReadOf],
) -> Result<(), Memory>
    requires items { AreItems lines.now items.now }
    requires lines { AreLines lines.now }
    ensures { OnOk result ((t : Tables) → Shows t items.now → pages.Shows draft.new (page_at t ids lines.now)) }
{
    let cart = cart_id(ids.cart);
    write_cart(draft, cart, page_ids(ids, cart), lines, items)?;
    Ok(())
}
