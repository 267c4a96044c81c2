//! The page of a customer who buys a cart.
ghost use Rattle.std.specs.Prelude.{◌≡◌, ◌≤◌, ◌++◌, ℕ, Some, IfOk, OnOk, codes, decimal};
ghost use Rattle.shop_model.specs.declared.page.Block.TheVariants as block;
ghost use Rattle.shop_model.specs.declared.tables.Tables.{Tables};
ghost use Rattle.shop_model.specs.pages.PageText.{block_line};
ghost use Rattle.shop_model.specs.rows.Limits.{charged_rate_limit, discount_limit};
ghost use Rattle.shop_model.specs.trade.Buyers.{logged_in};
ghost use Rattle.shop_history.specs.declared.acts.Drawn.{Drawn};
ghost use Rattle.shop_draft.specs.Drawing.{id_at, ids_at};
ghost use Rattle.shop_draft.specs.Templates.{Adds, Says};
ghost use Rattle.shop_attempt.specs.Reads.{Shows};
ghost use Rattle.shop_pricing.specs.Bounds.{AreLines};
ghost use Rattle.shop_order.specs.BuyerPage as spec;
ghost use Rattle.shop_order.specs.ShoppingCart.{AreItems};

use crate::entries::discount_of;
use crate::table::{cost, table};
use shop_attempt::ReadOf;
use shop_draft::{Draft, Id, PageIds, Template};
use shop_model::{Customer, Newcomer};
use shop_pricing::Totals;
use shop_text::{Listed, Memory};
use std::alloc::Global;

/// Who buys, as the page says it.
#[derive(Clone, Copy)]
pub(crate) struct Shopper<'a> {
    id: Id,
    first: &'a [u8],
    last: &'a [u8],
    /// In per cent.
    discount: u32,
}

impl<'a> Shopper<'a> {
    /// A customer who is known.
    pub(crate) fn known(customer: &'a Customer) -> Shopper<'a>
        ensures shopper { (stamp : ℕ) → (drawn : Drawn) → spec.IsShopper drawn result (logged_in stamp customer.now) }
        ensures discount { result.discount ≤ discount_limit }
    {
        let details = customer.details.get();
        Shopper {
            id: Id::Known(customer.id),
            first: details.first.bytes(),
            last: details.last.bytes(),
            discount: details.discount,
        }
    }

    /// Who is new, with the discount that a word draws.
    pub(crate) fn newcomer(newcomer: &'a Newcomer, draw: u32) -> Shopper<'a>
        ensures shopper { spec.IsNewShopper draw newcomer.now result }
        ensures discount { result.discount ≤ discount_limit }
    {
        Shopper {
            id: Id::NewCustomer,
            first: newcomer.first.bytes(),
            last: newcomer.last.bytes(),
            discount: discount_of(draw),
        }
    }
}

/// The ids that the page of a customer and of a cart hands on.
fn page_ids(customer: Id, cart: u32) -> PageIds
    ensures { (drawn : Drawn) → ids_at drawn result ≡ record { c = Some (id_at drawn customer); cart = Some cart } }
{
    PageIds {
        c: Some(customer),
        cart: Some(Id::Known(cart)),
    }
}

#[tactic(auto, using(shop_text::proofs::cited::Plain::escape_append), unfolding(shop_model::specs::pages::PageText::block_text))]
fn heading(page: &mut Template, customer: Id) -> Result<(), Memory>
    ensures { OnOk result (Adds page.old page.new (λ drawn. block_line (block.Heading (codes "Customer " ++ decimal (id_at drawn customer))))) }
{
    page.id(b"<h1>Customer ", customer)?;
    page.put(b"</h1>\n")?;
    Ok(())
}

/// The lines with what one unit of each costs, in cents.
pub(crate) fn priced(
    alloc: Global,
    lines: &[(u32, u32)],
    items: &[ReadOf],
) -> Result<Listed<(u32, u32, u64)>, Memory>
    requires items { AreItems lines.now items.now }
    requires lines { AreLines lines.now }
    ensures { IfOk result (spec.IsPricing lines.now items.now) }
{
    let mut priced = Listed::with_capacity(alloc, lines.len())?;
    for (place, line) in lines.iter().enumerate() {
        priced.push((line.0, line.1, cost(&items[place].row)))?;
    }
    Ok(priced)
}

/// Adds what the lines cost at a discount in per cent, taxed at a rate in hundredths of a per cent.
fn totals(
    alloc: Global,
    page: &mut Template,
    lines: &[(u32, u32)],
    items: &[ReadOf],
    discount: u32,
    rate: u32,
) -> Result<(), Memory>
    requires items { AreItems lines.now items.now }
    requires lines { AreLines lines.now }
    requires discount { discount ≤ discount_limit }
    requires rate { rate ≤ charged_rate_limit }
    ensures { OnOk result ((t : Tables) → Shows t items.now → Says page.old page.new (spec.totals_line t lines.now discount rate)) }
{
    let priced = priced(alloc, lines, items)?;
    let totals = Totals::of(priced.as_slice(), discount, rate);
    page.totals(totals.sub, totals.tax, totals.ship, totals.total)?;
    Ok(())
}

/// Writes the page of who buys these lines of a cart, by what was read of their items, taxed at a rate in
/// hundredths of a per cent.
pub(crate) fn write_page(
    alloc: Global,
    draft: &mut Draft,
    shopper: &Shopper,
    cart: u32,
    lines: &[(u32, u32)],
    items: &[ReadOf],
    rate: u32,
) -> Result<(), Memory>
    requires items { AreItems lines.now items.now }
    requires lines { AreLines lines.now }
    requires discount { shopper.now.discount ≤ discount_limit }
    requires rate { rate ≤ charged_rate_limit }
    ensures { OnOk result ((t : Tables) → Shows t items.now → spec.IsBuyersPage t shopper.now cart lines.now rate draft.new) }
{
    let ids = page_ids(shopper.id, cart);
    draft.status = 200;
    let page = &mut draft.page;
    page.begin(b"Buy Request")?;
    heading(page, shopper.id)?;
    page.buyer(shopper.id, shopper.first, shopper.last, shopper.discount)?;
    table(page, lines, items)?;
    totals(alloc, page, lines, items, shopper.discount, rate)?;
    page.payment_form(shopper.first, shopper.last, ids)?;
    page.nav(ids)?;
    page.end()?;
    Ok(())
}
