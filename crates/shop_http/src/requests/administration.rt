//! What is asked for by those who keep the shop.
ghost use Rattle.shop_model.specs.rows.Subjects.{backing_of};
ghost use Rattle.shop_http.specs.Answers.{Reads};
ghost use Rattle.shop_http.specs.Forms as forms;
ghost use Rattle.shop_http.specs.Requests as spec;

use super::decoding::decoded;
use super::fault::Fault;
use super::forms::{
    ids_asked, required_between, required_cost, required_number, required_subject, required_text,
};
use super::pairs::Pairs;
use shop_model::{
    ADDED_STOCK_LIMIT, AdminAdd, AdminConfirm, AdminRequest, Backing, LEAST_STOCK, PAGES_LIMIT,
    Parameter, Request,
};
use shop_text::Shared;
use std::alloc::Global;

pub(crate) fn admin_request(alloc: Global, pairs: &Pairs) -> Result<Request, Fault>
    ensures { Reads (spec.admin_request pairs.now) result }
{
    let item = required_number(alloc, pairs, Parameter::Item)?;
    let ids = ids_asked(alloc, pairs)?;
    Ok(Request::AdminRequest(AdminRequest { item, ids }))
}

/// What an item is to be.
fn administration_asked(alloc: Global, pairs: &Pairs) -> Result<AdminConfirm, Fault>
    ensures { Reads (spec.administration_asked pairs.now) result }
{
    let item = required_number(alloc, pairs, Parameter::Item)?;
    let cost = required_cost(alloc, pairs, Parameter::Cost)?;
    let image = required_text(alloc, pairs, Parameter::Image)?;
    let thumb = required_text(alloc, pairs, Parameter::Thumb)?;
    let ids = ids_asked(alloc, pairs)?;
    Ok(AdminConfirm {
        item,
        cost,
        image,
        thumb,
        ids,
    })
}

#[inline(never)]
pub(crate) fn admin_confirm(alloc: Global, pairs: &Pairs) -> Result<Request, Fault>
    ensures { Reads (spec.admin_confirm pairs.now) result }
{
    let asked = administration_asked(alloc, pairs)?;
    Ok(Request::AdminConfirm(Shared::new(alloc, asked)?))
}

/// How an item is bound.
fn required_backing(alloc: Global, pairs: &Pairs) -> Result<Backing, Fault>
    ensures { Reads (forms.required backing_of pairs.now Parameter.Backing) result }
{
    let Some(value) = pairs.value_of(Parameter::Backing) else {
        return Err(Fault::Parameter(Parameter::Backing));
    };
    match Backing::of(decoded(alloc, value)?.as_slice()) {
        Some(backing) => Ok(backing),
        None => Err(Fault::Parameter(Parameter::Backing)),
    }
}

/// What an item that is added is to be.
fn addition_asked(alloc: Global, pairs: &Pairs) -> Result<AdminAdd, Fault>
    ensures { Reads (spec.addition_asked pairs.now) result }
{
    let title = required_text(alloc, pairs, Parameter::Title)?;
    let author = required_number(alloc, pairs, Parameter::Author)?;
    let subject = required_subject(alloc, pairs)?;
    let publisher = required_text(alloc, pairs, Parameter::Publisher)?;
    let about = required_text(alloc, pairs, Parameter::About)?;
    let image = required_text(alloc, pairs, Parameter::Image)?;
    let thumb = required_text(alloc, pairs, Parameter::Thumb)?;
    let srp = required_cost(alloc, pairs, Parameter::Srp)?;
    let cost = required_cost(alloc, pairs, Parameter::Cost)?;
    let stock = required_between(
        alloc,
        pairs,
        Parameter::Stock,
        LEAST_STOCK,
        ADDED_STOCK_LIMIT,
    )?;
    let pages = required_between(alloc, pairs, Parameter::Pages, 1, PAGES_LIMIT)?;
    let backing = required_backing(alloc, pairs)?;
    let ids = ids_asked(alloc, pairs)?;
    Ok(AdminAdd {
        title,
        author,
        subject,
        publisher,
        about,
        image,
        thumb,
        srp,
        cost,
        stock,
        pages,
        backing,
        ids,
    })
}

#[inline(never)]
pub(crate) fn admin_add(alloc: Global, pairs: &Pairs) -> Result<Request, Fault>
    ensures { Reads (spec.admin_add pairs.now) result }
{
    let asked = addition_asked(alloc, pairs)?;
    Ok(Request::AdminAdd(Shared::new(alloc, asked)?))
}
