//! A purchase that is taxed at one rate for all countries, and the same by the country to which it ships.
ghost use Rattle.std.specs.Prelude.{◌≡◌, ◌≤◌};
ghost use Rattle.shop_model.specs.lists.Catalogues.{opened};
ghost use Rattle.shop_model.specs.population.Population.{populated};
ghost use Rattle.shop_model.specs.rows.Limits.{stamp_limit};
ghost use Rattle.shop_browse.specs.Attempts.{Suits};

use crate::deeds::{buying, new_cart, purchase, settles};
use crate::opened::{book_of, empty_draft, index_of};
use shop_attempt::Store;
use shop_book::{Book, Solo};
use shop_browse::Ask;
use shop_draft::Draft;
use shop_history::{Key, Row};
use shop_model::{Scale, TaxRule};
use shop_search::Index;
use shop_text::Memory;
use std::alloc::Global;
use std::test::Fail;

/// Customer 10 buys a unit of item 1; which change that was.
fn buys<St: Store>(alloc: Global, store: &mut St, ask: &Ask, draft: &mut Draft) -> Option<u64>
    requires suits { Suits ask.now (St.seat store.old) }
    requires moment { ask.now.moment ≤ stamp_limit }
{
    let cart = new_cart(alloc, store, ask, 1, draft)?;
    let asked = purchase(alloc, 10, cart, None).ok()?;
    let attempt = buying(alloc, store, ask, &asked, draft)?;
    Some(settles(store, attempt)?.front)
}

/// The rate of an order, its tax and its total.
fn charged_in(row: &Row) -> Option<(u32, u64, u64)> {
    let Row::Order(order) = row else {
        return None;
    };
    let order = order.get();
    Some((order.rate, order.tax, order.total))
}

fn charged(book: &mut Book) -> Option<(u32, u64, u64)> {
    match book.read(&Key::Order(37)) {
        Ok((row, _)) => charged_in(&row),
        Err(_) => None,
    }
}

/// What order 37 is charged at the desk. The book comes last, so that no refusal has it to let go.
fn charged_at_desk(
    alloc: Global,
    scale: &Scale,
    index: &Index,
    tax: TaxRule,
    draft: &mut Draft,
) -> Result<Option<(u32, u64, u64)>, Memory>
    requires { index.now ≡ opened (populated 0 scale.now) }
{
    let ask = Ask {
        index,
        moment: 1_000,
        draw: 0,
        tax,
    };
    let mut solo = Solo::new(book_of(alloc, scale)?);
    let _change = buys(alloc, &mut solo, &ask, draft);
    Ok(charged(&mut solo.into_book()))
}

fn charged_by(alloc: Global, tax: TaxRule) -> Result<Option<(u32, u64, u64)>, Memory> {
    let scale = Scale::desk();
    let index = index_of(alloc, &scale)?;
    let mut draft = empty_draft(alloc)?;
    charged_at_desk(alloc, &scale, &index, tax, &mut draft)
}

#[test]
fn a_purchase_at_one_rate_for_all(rt: HostRuntime) -> Result<(), Fail> {
    assert!(rt; charged_by(rt.alloc(), TaxRule::Flat)? == Some((825, 181, 2_776)));
    Ok(())
}

#[test]
fn a_purchase_at_the_rate_of_its_country(rt: HostRuntime) -> Result<(), Fail> {
    assert!(rt; charged_by(rt.alloc(), TaxRule::ByCountry)? == Some((50, 11, 2_606)));
    Ok(())
}
