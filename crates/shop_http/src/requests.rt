ghost use Rattle.std.specs.Prelude.{◌≡◌, ◌++◌, Result};
ghost use Rattle.std.specs.Option.{option_map};
ghost use Rattle.shop_model.specs.declared.parameter.Parameter.{Parameter};
ghost use Rattle.shop_model.specs.declared.requests.Request.{Request};
ghost use Rattle.shop_http.specs.Answers.{Reads, Answers};
ghost use Rattle.shop_http.specs.declared.requests.Asked.{Asked};
ghost use Rattle.shop_http.specs.Forms.{pairs};
ghost use Rattle.shop_http.specs.Requests as spec;

use crate::constants::is_same;
use crate::router::Routes;
use administration::{admin_add, admin_confirm, admin_request};
use browsing::{best_sellers, home, new_products, product_detail, search_request, search_results};
use buying::{buy_confirm, buy_request, customer_registration, order_display, order_inquiry};
use cart::shopping_cart;
use fault::Fault;
use memchr::memchr;
use pairs::Pairs;
use shop_message::Message;
use shop_model::{Interaction, Parameter, Request};
use shop_text::Memory;
use std::alloc::Global;
use values::Values;

mod administration;
mod browsing;
mod buying;
mod cards;
mod cart;
mod decoding;
mod fault;
mod forms;
mod names;
mod pairs;
mod subjects;
mod values;

/// Why a message is not answered by an interaction.
#[derive(Clone, Copy, Debug, PartialEq, Eq)]
pub enum Refusal {
    /// The path is none that is served.
    NoPage,
    /// The method is neither GET nor POST.
    Method,
    /// The first parameter that is missing or not in its form.
    Parameter(Parameter),
}

/// What a message asks for.
#[derive(Debug, Drop)]
pub enum Asked {
    Request(Request),
    Refuse(Refusal),
    Memory,
}

impl Refusal {
    /// The refusal whose page tells it.
    pub fn told(&self) -> shop_model::Refusal
        ensures { result ≡ spec.told_by self.now }
    {
        match self {
            Refusal::NoPage => shop_model::Refusal::NoPage,
            Refusal::Method => shop_model::Refusal::NotGetOrPost,
            Refusal::Parameter(parameter) => shop_model::Refusal::BadParameter(*parameter),
        }
    }
}

/// What a message asks for. The body of a POST is read as a form, whatever its type, and that of a GET
/// is not read.
pub fn request(alloc: Global, routes: &Routes, message: &Message) -> Asked
    ensures { Answers (spec.asked message.now) result }
{
    let method = message.method.as_str().as_bytes();
    asked_of(
        alloc,
        routes,
        method,
        message.target.bytes(),
        message.body.bytes(),
    )
}

/// What a message with this method, target and body asks for.
#[tactic(auto, unfolding(crate::specs::Requests::asked_of))]
pub fn asked_of(alloc: Global, routes: &Routes, method: &[u8], target: &[u8], body: &[u8]) -> Asked
    ensures { Answers (spec.asked_of method.now target.now body.now) result }
{
    let (path, query) = path_and_query(target);
    let Some(interaction) = routes.interaction(path) else {
        return refused(Refusal::NoPage);
    };
    let Some(form) = form_of(method, body) else {
        return refused(Refusal::Method);
    };
    answer(read(alloc, interaction, query, form))
}

/// The form that is read of a message: the body of a POST, and nothing of a GET.
#[inline(always)]
fn form_of<'a>(method: &[u8], body: &'a [u8]) -> Option<&'a [u8]>
    ensures { option_map (λ form. form.now) result ≡ spec.form_of method.now body.now }
{
    if is_same(method, b"GET") {
        Some(&[])
    } else if is_same(method, b"POST") {
        Some(body)
    } else {
        None
    }
}

/// The two sides of the first `?`.
fn path_and_query(target: &[u8]) -> (&[u8], &[u8])
    ensures path { result.0.now ≡ spec.path_of target.now }
    ensures query { result.1.now ≡ spec.query_of target.now }
{
    match memchr(b'?', target) {
        Some(mark) => (&target[..mark], &target[mark + 1..]),
        None => (target, &[]),
    }
}

/// What a query, and a form behind it, ask for at an interaction.
fn read(
    alloc: Global,
    interaction: Interaction,
    query: &[u8],
    form: &[u8],
) -> Result<Request, Fault>
    ensures { Reads (spec.request_by interaction (pairs query.now ++ pairs form.now)) result }
{
    let mut values = Values::none();
    values.read(alloc, query)?;
    values.read(alloc, form)?;
    let pairs = Pairs::of(query, form, &values);
    match interaction {
        Interaction::Home => home(alloc, &pairs),
        Interaction::NewProducts => new_products(alloc, &pairs),
        Interaction::BestSellers => best_sellers(alloc, &pairs),
        Interaction::ProductDetail => product_detail(alloc, &pairs),
        Interaction::SearchRequest => search_request(alloc, &pairs),
        Interaction::SearchResults => search_results(alloc, &pairs),
        Interaction::ShoppingCart => shopping_cart(alloc, &pairs),
        Interaction::CustomerRegistration => customer_registration(alloc, &pairs),
        Interaction::BuyRequest => buy_request(alloc, &pairs),
        Interaction::BuyConfirm => buy_confirm(alloc, &pairs),
        Interaction::OrderInquiry => order_inquiry(alloc, &pairs),
        Interaction::OrderDisplay => order_display(alloc, &pairs),
        Interaction::AdminRequest => admin_request(alloc, &pairs),
        Interaction::AdminConfirm => admin_confirm(alloc, &pairs),
        Interaction::AdminAdd => admin_add(alloc, &pairs),
    }
}

#[cold]
#[inline(never)]
fn refused(refusal: Refusal) -> Asked
    ensures { result ≡ Asked.Refuse refusal }
{
    Asked::Refuse(refusal)
}

/// What pairs that were read answer.
#[inline(never)]
fn answer(asked: Result<Request, Fault>) -> Asked
    ensures { (read : Result Request Parameter) → Reads read asked → Answers (spec.named read) result }
{
    match asked {
        Ok(request) => Asked::Request(request),
        Err(Fault::Parameter(parameter)) => Asked::Refuse(Refusal::Parameter(parameter)),
        Err(Fault::Memory) => Asked::Memory,
    }
}
