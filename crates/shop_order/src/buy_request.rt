//! Buy Request: who buys a cart logs in, or is entered.
ghost use Rattle.std.specs.Prelude.{◌≡◌, ◌∷◌, [], IfOk, IfErr};
ghost use Rattle.shop_model.specs.declared.buying.Buyer.TheVariants as buyers;
ghost use Rattle.shop_model.specs.declared.requests.Request.TheVariants as request_kinds;
ghost use Rattle.shop_model.specs.trade.Buyers.{check_password};
ghost use Rattle.shop_history.specs.declared.keys.Key.TheVariants as key_kinds;
ghost use Rattle.shop_history.specs.declared.keys.Row.TheVariants as row_kinds;
ghost use Rattle.shop_attempt.specs.Marks.{Looks};
ghost use Rattle.shop_attempt.specs.Reads.{Shows};
ghost use Rattle.shop_browse.specs.Attempts.{AttemptedAs, Suits, asking_of};
ghost use Rattle.shop_order.specs.BuyRequest as spec;
ghost use Rattle.shop_order.specs.ShoppingCart.{IsFitRow};
ghost use Rattle.shop_order.specs.Stops.{StopsBy, IsStop};

use crate::basket::country_key;
use crate::buyer_page::{Shopper, write_page};
use crate::entries::{act, login_writes, newcomer_writes};
use crate::shopping_cart::add_item_keys;
use crate::stops::{Stop, lines_in, stopped};
use shop_attempt::{ReadOf, Store};
use shop_browse::{Ask, Attempted, Interaction, Next, attempt_by};
use shop_draft::Draft;
use shop_history::{Key, Row};
use shop_model::{BuyRequest, Buyer, Customer, Login, Newcomer, Refusal, Request};
use shop_text::{Boxed, Listed, Memory, Text, is_digsyl_lower};
use std::alloc::Global;

/// What is bought, and who was found: the customer of the user name, or the address that says the same.
#[derive(Clone, Copy)]
pub(crate) struct Begun<'a> {
    lines: &'a [(u32, u32)],
    found: Option<u32>,
}

/// What is bought, who was found, and all that was read in so many rounds.
#[derive(Clone, Copy)]
pub(crate) struct Gathered<'a> {
    begun: Begun<'a>,
    round: u32,
    reads: &'a [ReadOf],
}

/// The id in a row that tells of a buyer.
fn found_in(buyer: &Buyer, row: &Row) -> Result<Option<u32>, Stop>
    ensures ok { IfOk result (spec.IsFound buyer.now row.now) }
    ensures err { IfErr result (StopsBy row_kinds.Id (spec.check_found buyer.now) row.now) }
{
    match (row, buyer) {
        (Row::Id(id), _) => Ok(Some(*id)),
        (Row::Absent, Buyer::Newcomer(_)) => Ok(None),
        (Row::Absent, Buyer::Returning(_)) => Err(Stop::Refused(Refusal::NoUserName)),
        _ => Err(Stop::Never),
    }
}

/// What the first two reads come to.
fn begin<'a>(asked: &BuyRequest, cart: &'a ReadOf, found: &ReadOf) -> Result<Begun<'a>, Stop>
    requires cart { cart.now.key ≡ key_kinds.Cart asked.now.cart }
    requires found { found.now.key ≡ spec.buyer_key asked.now.buyer }
    requires fit { IsFitRow cart.now.row }
    ensures ok { IfOk result (spec.Begins asked.now.buyer cart.now.row found.now.row) }
    ensures err { IfErr result (IsStop (λ t. Shows t (cart.now ∷ found.now ∷ [])) (request_kinds.BuyRequest asked.now)) }
{
    let lines = lines_in(&cart.row)?;
    let found = found_in(&asked.buyer, &found.row)?;
    Ok(Begun { lines, found })
}

/// The customer in a row, whose password this is.
fn customer_in<'a>(pass: &Text, row: &'a Row) -> Result<&'a Customer, Stop>
    ensures ok { IfOk result (λ customer. spec.IsCustomerIn pass.now row.now customer.now) }
    ensures err { IfErr result (StopsBy row_kinds.Customer (check_password pass.now) row.now) }
{
    match row {
        Row::Absent => Err(Stop::Refused(Refusal::NoUserName)),
        Row::Customer(customer) => {
            if !is_digsyl_lower(pass.bytes(), customer.id) {
                return Err(Stop::Refused(Refusal::WrongPassword));
            }
            Ok(customer)
        }
        _ => Err(Stop::Never),
    }
}

/// The key that tells of a buyer.
fn buyer_key(alloc: Global, buyer: &Buyer) -> Result<Key, Memory>
    ensures { IfOk result (λ key. key ≡ spec.buyer_key buyer.now) }
{
    match buyer {
        Buyer::Returning(login) => Ok(Key::Name(Text::copy(alloc, login.get().user.bytes())?)),
        Buyer::Newcomer(newcomer) => {
            let text = newcomer.get().address.copy(alloc)?;
            Ok(Key::SameAddress(Boxed::new(alloc, text)?))
        }
    }
}

/// The customer who returns comes first, and then the items of the lines.
fn second_keys(alloc: Global, buyer: &Buyer, begun: &Begun) -> Result<Listed<Key>, Memory>
    ensures { IfOk result (λ keys. keys ≡ spec.second_keys buyer.now begun.now.found begun.now.lines.now) }
{
    let mut keys = Vec::with_capacity(alloc, begun.lines.len().saturating_add(1))?;
    if let (Buyer::Returning(_), Some(id)) = (buyer, begun.found) {
        keys.push(Key::Customer(id))?;
    }
    add_item_keys(&mut keys, begun.lines)?;
    Ok(Listed::from_vec(keys))
}

/// What is done for a customer who returns: after the password, where the customer lives is read, and then
/// the country.
fn by_login(
    alloc: Global,
    ask: &Ask,
    asked: &BuyRequest,
    login: &Login,
    gathered: &Gathered,
    draft: &mut Draft,
) -> Result<Next, Memory>
    requires buyer { asked.now.buyer ≡ buyers.Returning login.now }
    requires gathered { spec.IsGathered asked.now gathered.now }
    ensures { IfOk result (spec.IsRight asked.now ask.now gathered.now draft.new) }
{
    let Gathered {
        begun,
        round,
        reads,
    } = *gathered;
    let customer = match customer_in(&login.pass, &reads[2].row) {
        Ok(customer) => customer,
        Err(stop) => return stopped(draft, stop),
    };
    if round == 2 {
        return Ok(Next::ReadOne(Key::Address(customer.address)));
    }
    let last = &reads[reads.len() - 1].row;
    if round == 3 {
        return Ok(Next::ReadOne(country_key(&None, last)));
    }
    match last {
        Row::Country(country) => {
            let shopper = Shopper::known(customer);
            let items = &reads[3..3 + begun.lines.len()];
            let rate = country.get().rate;
            write_page(alloc, draft, &shopper, asked.cart, begun.lines, items, rate)?;
            let writes = login_writes(alloc, customer.id)?;
            Ok(Next::Change(act(asked, ask.draw)?, writes))
        }
        _ => Ok(Next::Never),
    }
}

/// What is done for who is new: the country that they give is read.
fn by_newcomer(
    alloc: Global,
    ask: &Ask,
    asked: &BuyRequest,
    newcomer: &Newcomer,
    gathered: &Gathered,
    draft: &mut Draft,
) -> Result<Next, Memory>
    requires buyer { asked.now.buyer ≡ buyers.Newcomer newcomer.now }
    requires gathered { spec.IsGathered asked.now gathered.now }
    ensures { IfOk result (spec.IsRight asked.now ask.now gathered.now draft.new) }
{
    let Gathered {
        begun,
        round,
        reads,
    } = *gathered;
    if round == 2 {
        return Ok(Next::ReadOne(Key::Country(newcomer.address.country)));
    }
    match &reads[reads.len() - 1].row {
        Row::Country(country) => {
            let shopper = Shopper::newcomer(newcomer, ask.draw);
            let items = &reads[2..2 + begun.lines.len()];
            let rate = country.get().rate;
            write_page(alloc, draft, &shopper, asked.cart, begun.lines, items, rate)?;
            let writes = newcomer_writes(alloc, newcomer, begun.found, ask.draw)?;
            Ok(Next::Change(act(asked, ask.draw)?, writes))
        }
        _ => Ok(Next::Never),
    }
}

/// What is done where the first two rounds are read.
fn by_most(
    alloc: Global,
    ask: &Ask,
    asked: &BuyRequest,
    gathered: &Gathered,
    draft: &mut Draft,
) -> Result<Next, Memory>
    requires { spec.IsGathered asked.now gathered.now }
    ensures { IfOk result (spec.IsRight asked.now ask.now gathered.now draft.new) }
{
    match &asked.buyer {
        Buyer::Returning(login) => by_login(alloc, ask, asked, login.get(), gathered, draft),
        Buyer::Newcomer(newcomer) => {
            by_newcomer(alloc, ask, asked, newcomer.get(), gathered, draft)
        }
    }
}

/// A request to buy a cart.
#[derive(Drop)]
struct Buying<'a> {
    asked: &'a BuyRequest,
}

impl<'a> Interaction for Buying<'a> {
    ghost use Rattle.shop_model.specs.declared.requests.Request.TheVariants as request_kinds;

    ghost request = { λ buying. request_kinds.BuyRequest buying.asked.now };

    ghost follows = { λ buying ask. spec.FollowsBuy buying.asked.now };

    fn next(
        &mut self,
        alloc: Global,
        ask: &Ask,
        round: u32,
        reads: &[ReadOf],
        draft: &mut Draft,
    ) -> Result<Next, Memory> {
        let asked = self.asked;
        if round == 0 {
            let buyer = buyer_key(alloc, &asked.buyer)?;
            return Ok(Next::ReadTwo(Key::Cart(asked.cart), buyer));
        }
        let begun = match begin(asked, &reads[0], &reads[1]) {
            Ok(begun) => begun,
            Err(stop) => return stopped(draft, stop),
        };
        if round == 1 {
            return Ok(Next::Read(second_keys(alloc, &asked.buyer, &begun)?));
        }
        let gathered = Gathered {
            begun,
            round,
            reads,
        };
        by_most(alloc, ask, asked, &gathered, draft)
    }
}

/// An attempt at buying a cart, for a customer who logs in or for one who is new.
#[inline(never)]
pub fn buy_request<St: Store>(
    alloc: Global,
    store: &mut St,
    ask: &Ask,
    asked: &BuyRequest,
    draft: &mut Draft,
) -> Attempted
    requires suits { Suits ask.now (St.seat store.old) }
    ensures looks { Looks St.seat St.marked store.old store.new }
    ensures attempted { AttemptedAs (St.seat store.old) (St.seat store.new) (asking_of ask.now (Request.BuyRequest asked.now)) draft.new result }
{
    attempt_by(alloc, store, ask, Buying { asked }, draft)
}
