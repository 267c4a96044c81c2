//! Shopping Cart: what a request for it makes of a cart.
ghost use Rattle.std.specs.Prelude.{◌≡◌, ◌++◌, ◌≤◌, ◌≢◌, None, IfOk, OnOk, length, map, option_copied};
ghost use Rattle.shop_history.specs.declared.keys.Key.TheVariants as key_kinds;
ghost use Rattle.shop_attempt.specs.Marks.{Looks};
ghost use Rattle.shop_browse.specs.Attempts.{AttemptedAs, Suits, asking_of};
ghost use Rattle.shop_browse.specs.Counting.{IsNumber};
ghost use Rattle.shop_pricing.specs.Bounds.{AreLines};
ghost use Rattle.shop_order.specs.ShoppingCart as spec;

use crate::page::write_page;
use shop_attempt::{ReadOf, Store, Write};
use shop_browse::{Ask, Attempted, Interaction, Next, attempt_counted, count_in};
use shop_draft::{Draft, refusal as write_refusal};
use shop_history::{Act, Key, Row};
use shop_model::{Cart, CartRequest, Refusal, Request};
use shop_pricing::{Filled, Lines as CartLines, fill};
use shop_text::{Listed, Memory, Shared};
use std::alloc::Global;

/// What a request comes to by what was read of its cart.
#[derive(Drop)]
pub(crate) enum Begun {
    /// The lines that it leaves.
    Lines(Listed<(u32, u32)>),
    Refused(Refusal),
    /// No shop shows what was read.
    Never,
}

/// What the request makes of these lines.
fn made_of(
    alloc: Global,
    items: u32,
    draw: u32,
    asked: &CartRequest,
    lines: CartLines,
) -> Result<Begun, Memory>
    requires { 1 ≤ items }
    ensures { IfOk result (spec.IsMadeOf items asked.now draw lines) }
{
    let mut lines = lines;
    match fill(&mut lines, asked, items, draw) {
        Filled::Done => Ok(Begun::Lines(lines.to_pairs(alloc)?)),
        Filled::Refused(refusal) => Ok(Begun::Refused(refusal)),
        Filled::Memory => Err(Memory),
    }
}

/// What the request makes of the lines of its cart, in a shop of so many items.
fn begin(
    alloc: Global,
    items: u32,
    draw: u32,
    asked: &CartRequest,
    cart: Option<&ReadOf>,
) -> Result<Begun, Memory>
    requires some { 1 ≤ items }
    requires named { spec.IsNamed asked.now.ids.cart (option_copied cart) }
    requires fit { spec.IsFitRead (option_copied cart) }
    ensures { IfOk result (spec.IsBegun items asked.now draw (option_copied cart.entry)) }
{
    match cart {
        None => made_of(alloc, items, draw, asked, CartLines::new(alloc)),
        Some(read) => match &read.row {
            Row::Absent => Ok(Begun::Refused(Refusal::NoCart)),
            Row::Cart(cart) => {
                let lines = CartLines::of(alloc, cart)?;
                made_of(alloc, items, draw, asked, lines)
            }
            _ => Ok(Begun::Never),
        },
    }
}

/// The act of a request, with the word that was drawn for it.
fn act(asked: &CartRequest, draw: u32) -> Result<Act, Memory>
    ensures { IfOk result (λ act. act ≡ Act.Cart asked.now draw) }
{
    Ok(Act::Cart(
        CartRequest {
            item: asked.item,
            sets: asked.sets.copy()?,
            ids: asked.ids,
        },
        draw,
    ))
}

/// The write of these lines into the cart that is named, or into a new one.
fn put_lines(
    alloc: Global,
    named: Option<u32>,
    lines: Listed<(u32, u32)>,
) -> Result<Listed<Write>, Memory>
    requires { AreLines lines }
    ensures { IfOk result (λ writes. writes ≡ spec.put_lines named lines) }
{
    let id = named.unwrap_or(0);
    let lines = Shared::new(alloc, lines)?;
    let mut writes = Listed::with_capacity(alloc, 1)?;
    writes.push(Write::PutCart(Cart { id, lines }))?;
    Ok(writes)
}

/// The change that leaves a cart with these lines, whose page it writes by what was read of their items.
fn change(
    alloc: Global,
    ask: &Ask,
    asked: &CartRequest,
    lines: Listed<(u32, u32)>,
    items: &[ReadOf],
    draft: &mut Draft,
) -> Result<Next, Memory>
    requires items { spec.AreItems lines items.now }
    requires lines { AreLines lines }
    ensures { IfOk result (spec.IsChangeTo asked.now ask.now.draw lines items.now draft.new) }
{
    write_page(draft, asked.ids, lines.as_slice(), items)?;
    let writes = put_lines(alloc, asked.ids.cart, lines)?;
    Ok(Next::Change(act(asked, ask.draw)?, writes))
}

/// Adds the keys of the items of lines.
pub(crate) fn add_item_keys(keys: &mut Vec<Key>, lines: &[(u32, u32)]) -> Result<(), Memory>
    ensures { OnOk result (keys.new.items ≡ keys.old.items ++ map (λ l. key_kinds.Item l.0) lines.now) }
{
    for line in lines {
        keys.push(Key::Item(line.0))?;
    }
    Ok(())
}

/// The keys of the items of lines.
fn item_keys(alloc: Global, lines: &[(u32, u32)]) -> Result<Listed<Key>, Memory>
    ensures { IfOk result (λ keys. keys ≡ map (λ l. key_kinds.Item l.0) lines.now) }
{
    let mut keys = Vec::with_capacity(alloc, lines.len())?;
    add_item_keys(&mut keys, lines)?;
    Ok(Listed::from_vec(keys))
}

/// What is done next by what was read of the number of items and of the cart; the lines that are left are kept.
fn by_cart(
    alloc: Global,
    ask: &Ask,
    asked: &CartRequest,
    count: &ReadOf,
    cart: Option<&ReadOf>,
    kept: &mut Option<Listed<(u32, u32)>>,
    draft: &mut Draft,
) -> Result<Next, Memory>
    requires count { count.now.key ≡ key_kinds.Count }
    requires number { IsNumber count.now.row }
    requires named { spec.IsNamed asked.now.ids.cart (option_copied cart) }
    requires fit { spec.IsFitRead (option_copied cart) }
    ensures { IfOk result (spec.IsNextFor asked.now kept.new ask.now count.now (option_copied cart.entry) draft.new) }
{
    let begun = begin(alloc, count_in(count), ask.draw, asked, cart)?;
    match begun {
        Begun::Refused(refusal) => {
            write_refusal(draft, refusal)?;
            Ok(Next::Show)
        }
        Begun::Never => Ok(Next::Never),
        Begun::Lines(lines) => {
            let keys = item_keys(alloc, lines.as_slice())?;
            *kept = Some(lines);
            Ok(Next::Read(keys))
        }
    }
}

/// The reads behind that of the cart, if one is named.
fn behind_cart(named: Option<u32>, reads: &[ReadOf]) -> &[ReadOf]
    requires { named ≢ None → 1 ≤ length reads.now }
    ensures { result.now ≡ spec.behind_cart named reads.now }
{
    match named {
        None => reads,
        Some(_) => &reads[1..],
    }
}

/// A request for the shopping cart.
#[derive(Drop)]
struct ShoppingCart<'a> {
    asked: &'a CartRequest,
    /// The lines that it leaves, once its cart was read.
    lines: Option<Listed<(u32, u32)>>,
}

impl<'a> Interaction for ShoppingCart<'a> {
    ghost use Rattle.shop_model.specs.declared.requests.Request.TheVariants as request_kinds;

    ghost request = { λ cart. request_kinds.CartRequest cart.asked.now };

    ghost follows = { λ cart. spec.FollowsCart cart.asked.now cart.lines };

    fn next(
        &mut self,
        alloc: Global,
        ask: &Ask,
        round: u32,
        reads: &[ReadOf],
        draft: &mut Draft,
    ) -> Result<Next, Memory> {
        let asked = self.asked;
        if round == 0 {
            return Ok(match asked.ids.cart {
                Some(id) => Next::ReadOne(Key::Cart(id)),
                None => Next::Read(Listed::new(alloc)),
            });
        }
        if round == 1 {
            let count = &reads[0];
            let kept = &mut self.lines;
            return match asked.ids.cart {
                None => by_cart(alloc, ask, asked, count, None, kept, draft),
                Some(_) => by_cart(alloc, ask, asked, count, Some(&reads[1]), kept, draft),
            };
        }
        let items = behind_cart(asked.ids.cart, &reads[1..]);
        match self.lines.take() {
            Some(lines) => change(alloc, ask, asked, lines, items, draft),
            None => unreachable!(),
        }
    }
}

/// An attempt at the cart that is named, or a new one, with what the request sets of it.
#[inline(never)]
pub fn shopping_cart<St: Store>(
    alloc: Global,
    store: &mut St,
    ask: &Ask,
    asked: &CartRequest,
    draft: &mut Draft,
) -> Attempted
    requires suits { Suits ask.now (St.seat store.old) }
    ensures looks { Looks St.seat St.marked store.old store.new }
    ensures attempted { AttemptedAs (St.seat store.old) (St.seat store.new) (asking_of ask.now (Request.CartRequest asked.now)) draft.new result }
{
    attempt_counted(
        alloc,
        store,
        ask,
        ShoppingCart { asked, lines: None },
        draft,
    )
}
