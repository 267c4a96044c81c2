//! The log that the tests replay, over the desk with seed 0, and what a replay gives.
ghost use Rattle.std.specs.Prelude.{◌≡◌, IfOk};
ghost use Rattle.shop_model.specs.lists.Catalogues.{opened};
ghost use Rattle.shop_model.specs.population.Population.{populated};

use crate::{Replayed, replay};
use shop_book::Summary;
use shop_history::{Act, Entry};
use shop_http::{Asked, Routes, asked_of};
use shop_model::{AuthId, Request, Scale, TaxRule};
use shop_populate::populate;
use shop_search::Index;
use shop_text::Memory;
use std::alloc::Global;

/// The authorisation of the purchase.
pub(crate) const AUTH: u32 = 1_112_248_393;

/// An entry, by the target of the request that it answered.
#[derive(Clone, Copy)]
pub(crate) struct Made {
    pub(crate) caller: u32,
    pub(crate) number: u64,
    pub(crate) stamp: u64,
    pub(crate) draw: u32,
    pub(crate) auth: u32,
    pub(crate) tax: TaxRule,
    pub(crate) target: &'static [u8],
}

/// A purchase by country, or what is neither authorised nor taxed.
fn entry_for(caller: u32, number: u64, stamp: u64, draw: u32, target: &'static [u8]) -> Made {
    Made {
        caller,
        number,
        stamp,
        draw,
        auth: AUTH,
        tax: TaxRule::ByCountry,
        target,
    }
}

/// A legal log of each kind of act, of three callers in turn: a unit of item 1 is bought.
pub(crate) fn legal_log() -> [Made; 7] {
    [
        entry_for(1, 1, 1_000, 16_245, b"/shopping_cart?item=1"),
        entry_for(2, 1, 1_000, 7, b"/shopping_cart"),
        entry_for(
            3,
            1,
            1_001,
            5,
            b"/buy_request?cart=1&fn=Zoe&ln=B&street1=1+Way&street2=&city=Ulm&state=&zip=89073&country=40&phone=5&email=z",
        ),
        entry_for(
            1,
            2,
            1_002,
            16_258,
            b"/buy_confirm?c=10&cart=1&card=VISA&number=4111222233334444&name=F&expiry=2027-05&ship=MAIL",
        ),
        entry_for(
            2,
            2,
            1_002,
            0,
            b"/admin_confirm?item=1&cost=2000&image=/i.gif&thumb=/t.gif",
        ),
        entry_for(
            3,
            2,
            1_003,
            0,
            b"/admin_add?title=Amber+Harbour&author=3&subject=NON-FICTION&publisher=Elm+Press&about=New.&image=/i.gif&thumb=/t.gif&srp=2000&cost=1500&stock=20&pages=100&backing=AUDIO",
        ),
        entry_for(1, 3, 1_004, 0, b"/buy_request?cart=2&user=OGBA&pass=ogba"),
    ]
}

/// What a replay gave.
#[derive(Clone, Copy, PartialEq, Eq)]
pub(crate) enum Outcome {
    /// What the book has come to, and its latest stamp.
    Book(Summary, u64),
    Illegal(u64),
    Memory,
}

/// A book of so many entries, of which one is a purchase of so many cents.
pub(crate) fn book_of(entries: u64, cents: u64, latest: u64) -> Outcome {
    let summary = Summary {
        entries,
        orders: 1,
        cents,
    };
    Outcome::Book(summary, latest)
}

pub(crate) fn outcome_of(replayed: &Replayed) -> Outcome {
    match replayed {
        Replayed::Book(book) => Outcome::Book(book.summary(), book.latest()),
        Replayed::Illegal(number) => Outcome::Illegal(*number),
        Replayed::Memory => Outcome::Memory,
    }
}

fn act_of(request: Request, made: &Made) -> Option<Act> {
    match request {
        Request::CartRequest(asked) => Some(Act::Cart(asked, made.draw)),
        Request::BuyRequest(asked) => Some(Act::Enter(asked, made.draw)),
        Request::BuyConfirm(asked) => {
            let auth = AuthId::of(u64::from(made.auth));
            Some(Act::Confirm(asked, made.draw, auth, made.tax))
        }
        Request::AdminConfirm(asked) => Some(Act::Admin(asked)),
        Request::AdminAdd(asked) => Some(Act::Add(asked)),
        _ => None,
    }
}

/// Adds an entry behind others.
fn push(alloc: Global, routes: &Routes, log: &mut Vec<Entry>, made: &Made) -> Result<(), Memory> {
    let Asked::Request(request) = asked_of(alloc, routes, b"GET", made.target, &[]) else {
        return Err(Memory);
    };
    let Some(act) = act_of(request, made) else {
        return Err(Memory);
    };
    let entry = Entry {
        caller: made.caller,
        number: made.number,
        stamp: made.stamp,
        act,
    };
    log.push(entry)?;
    Ok(())
}

fn log_of(alloc: Global, made: &[Made]) -> Result<Vec<Entry>, Memory> {
    let routes = Routes::new(alloc)?;
    let mut log = Vec::new(alloc);
    for one in made {
        push(alloc, &routes, &mut log, one)?;
    }
    Ok(log)
}

/// The index of what the shop opens with.
#[tactic(auto, using(shop_model::proofs::cited::Opened::opened_all))]
fn index_of(alloc: Global, scale: &Scale) -> Result<Index, Memory>
    ensures { IfOk result (λ index. index ≡ opened (populated 0 scale.now)) }
{
    let tables = populate(alloc, 0, scale)?;
    Index::build(alloc, &tables)
}

/// A replay of entries, within a limit.
pub(crate) fn replayed(alloc: Global, limit: u16, made: &[Made]) -> Result<Replayed, Memory> {
    let scale = Scale::desk();
    let log = log_of(alloc, made)?;
    let index = index_of(alloc, &scale)?;
    let tables = populate(alloc, 0, &scale)?;
    Ok(replay(alloc, tables, &index, u64::from(limit), &log))
}

/// What a replay of entries gives, within a limit.
pub(crate) fn outcome_within(alloc: Global, limit: u16, made: &[Made]) -> Result<Outcome, Memory> {
    Ok(outcome_of(&replayed(alloc, limit, made)?))
}
