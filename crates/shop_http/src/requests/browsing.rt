ghost use Rattle.shop_http.specs.Answers.{Reads};
ghost use Rattle.shop_http.specs.Requests as spec;

use super::fault::Fault;
use super::forms::{ids_asked, required_kind, required_number, required_subject, required_text};
use super::pairs::Pairs;
use shop_model::{
    BestSellers, Home, NewProducts, Parameter, ProductDetail, Request, SearchRequest, SearchResults,
};
use std::alloc::Global;

pub(crate) fn home(alloc: Global, pairs: &Pairs) -> Result<Request, Fault>
    ensures { Reads (spec.home pairs.now) result }
{
    let ids = ids_asked(alloc, pairs)?;
    Ok(Request::Home(Home { ids }))
}

pub(crate) fn new_products(alloc: Global, pairs: &Pairs) -> Result<Request, Fault>
    ensures { Reads (spec.new_products pairs.now) result }
{
    let subject = required_subject(alloc, pairs)?;
    let ids = ids_asked(alloc, pairs)?;
    Ok(Request::NewProducts(NewProducts { subject, ids }))
}

pub(crate) fn best_sellers(alloc: Global, pairs: &Pairs) -> Result<Request, Fault>
    ensures { Reads (spec.best_sellers pairs.now) result }
{
    let subject = required_subject(alloc, pairs)?;
    let ids = ids_asked(alloc, pairs)?;
    Ok(Request::BestSellers(BestSellers { subject, ids }))
}

pub(crate) fn product_detail(alloc: Global, pairs: &Pairs) -> Result<Request, Fault>
    ensures { Reads (spec.product_detail pairs.now) result }
{
    let item = required_number(alloc, pairs, Parameter::Item)?;
    let ids = ids_asked(alloc, pairs)?;
    Ok(Request::ProductDetail(ProductDetail { item, ids }))
}

pub(crate) fn search_request(alloc: Global, pairs: &Pairs) -> Result<Request, Fault>
    ensures { Reads (spec.search_request pairs.now) result }
{
    let ids = ids_asked(alloc, pairs)?;
    Ok(Request::SearchRequest(SearchRequest { ids }))
}

pub(crate) fn search_results(alloc: Global, pairs: &Pairs) -> Result<Request, Fault>
    ensures { Reads (spec.search_results pairs.now) result }
{
    let kind = required_kind(alloc, pairs)?;
    let text = required_text(alloc, pairs, Parameter::Text)?;
    let ids = ids_asked(alloc, pairs)?;
    Ok(Request::SearchResults(SearchResults { kind, text, ids }))
}
