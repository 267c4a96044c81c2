//! Two writes of one cart that cancel, settled in front of those of a request: one that leaves the same
//! cart as it is, and one that makes another.
ghost use Rattle.std.specs.Prelude.{◌≡◌, ◌≤◌, ◌∷◌, [], IfOk, IfSome, OnSome};
ghost use Rattle.shop_model.specs.lists.Catalogues.{opened};
ghost use Rattle.shop_model.specs.population.Population.{populated};
ghost use Rattle.shop_model.specs.rows.Limits.{stamp_limit};
ghost use Rattle.shop_attempt.specs.Faithful.{Faithful};
ghost use Rattle.shop_browse.specs.Attempts.{Suits};

use crate::deeds::{changing, settles};
use crate::opened::{book_of, empty_draft, index_of};
use shop_attempt::{Attempt, Store, Write, read};
use shop_book::{Book, Solo};
use shop_browse::Ask;
use shop_draft::Draft;
use shop_history::{Key, Row};
use shop_model::{Cart, CartRequest, IdsAsked, Scale, TaxRule};
use shop_search::Index;
use shop_text::{Listed, Memory, Shared};
use std::alloc::Global;
use std::mem;
use std::test::Fail;

/// The attempt of a request that sets one unit of item 46 in a cart, or in a new one.
pub(crate) fn one_unit<St: Store>(
    alloc: Global,
    store: &mut St,
    ask: &Ask,
    cart: Option<u32>,
    draft: &mut Draft,
) -> Option<Attempt>
    requires suits { Suits ask.now (St.seat store.old) }
    ensures opening { (St.seat store.new).opening ≡ (St.seat store.old).opening }
    ensures faithful { IfSome result (Faithful (St.seat store.new).opening (St.seat store.new).seen) }
    ensures moment { IfSome result (λ attempt. attempt.moment ≡ ask.now.moment) }
{
    let mut sets = Listed::new(alloc);
    sets.push((46, 1)).ok()?;
    let asked = CartRequest {
        item: None,
        sets,
        ids: IdsAsked { c: None, cart },
    };
    changing(alloc, store, ask, &asked, draft)
}

/// One more owner of the cart in a row.
fn cart_in(row: &Row) -> Option<Cart>
    ensures { IfSome result (λ cart. row.now ≡ Row.Cart cart) }
{
    match row {
        Row::Cart(cart) => cart.share().ok(),
        _ => None,
    }
}

/// The list with one element more in front.
fn with_first<T: Drop>(first: T, list: Listed<T>) -> Result<Listed<T>, Memory>
    ensures { IfOk result (λ longer. longer ≡ first ∷ list) }
{
    let mut items = list.into_vec();
    items.insert(0, first)?;
    Ok(Listed::from_vec(items))
}

/// The writes with two more in front that cancel: a cart without its lines, and the cart as it is.
fn cancelling(alloc: Global, cart: Cart, writes: Listed<Write>) -> Result<Listed<Write>, Memory>
    ensures { IfOk result (λ longer. longer ≡ Write.PutCart (record cart { lines = [] }) ∷ Write.PutCart cart ∷ writes) }
{
    let emptied = Cart {
        id: cart.id,
        lines: Shared::new(alloc, Listed::new(alloc))?,
    };
    let writes = with_first(Write::PutCart(cart), writes)?;
    with_first(Write::PutCart(emptied), writes)
}

/// Puts two writes of a cart that cancel in front of those of an attempt, and the read of the cart in front of its
/// reads.
fn put_cancelling<St: Store>(
    alloc: Global,
    store: &mut St,
    id: u32,
    attempt: &mut Attempt,
) -> Option<()>
    requires { Faithful (St.seat store.old).opening (St.seat store.old).seen attempt.old }
    ensures opening { (St.seat store.new).opening ≡ (St.seat store.old).opening }
    ensures faithful { OnSome result (Faithful (St.seat store.new).opening (St.seat store.new).seen attempt.new) }
    ensures moment { OnSome result (attempt.new.moment ≡ attempt.old.moment) }
{
    let writes = attempt.writes.take()?;
    let read = read(store, Key::Cart(id)).ok()?;
    let cart = cart_in(&read.row)?;
    attempt.writes = Some(cancelling(alloc, cart, writes).ok()?);
    let reads = mem::replace(&mut attempt.reads, Listed::new(alloc));
    attempt.reads = with_first(read, reads).ok()?;
    Some(())
}

/// Settles one unit in a cart, or in a new one, behind two writes of cart 1 that cancel; how many entries
/// there are then.
fn settled_behind<St: Store>(
    alloc: Global,
    store: &mut St,
    ask: &Ask,
    cart: Option<u32>,
    draft: &mut Draft,
) -> Option<u64>
    requires suits { Suits ask.now (St.seat store.old) }
    requires moment { ask.now.moment ≤ stamp_limit }
    ensures { (St.seat store.new).opening ≡ (St.seat store.old).opening }
{
    let mut attempt = one_unit(alloc, store, ask, cart, draft)?;
    put_cancelling(alloc, store, 1, &mut attempt)?;
    Some(settles(store, attempt)?.front)
}

/// Makes cart 1, sets in it what it has, and makes cart 2, the last two behind writes of cart 1 that
/// cancel; how many entries there are after each settle.
fn settled_in_turn<St: Store>(
    alloc: Global,
    store: &mut St,
    ask: &Ask,
    draft: &mut Draft,
) -> Option<[u64; 3]>
    requires suits { Suits ask.now (St.seat store.old) }
    requires moment { ask.now.moment ≤ stamp_limit }
{
    let first = one_unit(alloc, store, ask, None, draft)?;
    let made = settles(store, first)?.front;
    let kept = settled_behind(alloc, store, ask, Some(1), draft)?;
    let other = settled_behind(alloc, store, ask, None, draft)?;
    Some([made, kept, other])
}

/// What came of it: how many entries there were after each settle, and how many changes caller 1 made,
/// and its two carts: the version of each, and whether it has one unit of item 46 and nothing else.
#[derive(Clone, Copy)]
struct Told {
    fronts: Option<[u64; 3]>,
    changes: u64,
    carts: [Option<(u64, bool)>; 2],
}

fn told_of(fronts: Option<[u64; 3]>, book: &mut Book) -> Told {
    Told {
        fronts,
        changes: book.count_of(1),
        carts: [version_of(book, 1), version_of(book, 2)],
    }
}

fn version_in(row: &Row, version: u64) -> Option<(u64, bool)> {
    let Row::Cart(cart) = row else {
        return None;
    };
    let lines = cart.lines.get().as_slice();
    Some((version, lines == [(46, 1)].as_slice()))
}

fn version_of(book: &mut Book, id: u32) -> Option<(u64, bool)> {
    match book.read(&Key::Cart(id)) {
        Ok((row, version)) => version_in(&row, version),
        Err(_) => None,
    }
}

/// What came of it at the desk. The book comes last, so that no refusal has it to let go.
fn told_at_desk(
    alloc: Global,
    scale: &Scale,
    index: &Index,
    draft: &mut Draft,
) -> Result<Told, Memory>
    requires { index.now ≡ opened (populated 0 scale.now) }
{
    let ask = Ask {
        index,
        moment: 1_000,
        draw: 0,
        tax: TaxRule::ByCountry,
    };
    let mut solo = Solo::new(book_of(alloc, scale)?);
    let fronts = settled_in_turn(alloc, &mut solo, &ask, draft);
    Ok(told_of(fronts, &mut solo.into_book()))
}

fn told_after(alloc: Global) -> Result<Told, Memory> {
    let scale = Scale::desk();
    let index = index_of(alloc, &scale)?;
    let mut draft = empty_draft(alloc)?;
    told_at_desk(alloc, &scale, &index, &mut draft)
}

#[test]
fn two_writes_of_one_cart_that_cancel_raise_no_version(rt: HostRuntime) -> Result<(), Fail> {
    let told = told_after(rt.alloc())?;
    let carts = [Some((1, true)), Some((3, true))];
    assert!(rt; told.fronts == Some([1, 2, 3]) && told.changes == 3 && told.carts == carts);
    Ok(())
}
