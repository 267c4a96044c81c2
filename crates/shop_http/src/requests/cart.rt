ghost use Rattle.std.specs.Prelude.{◌≡◌, IfOk};
ghost use Rattle.std.specs.Option.{ok_or};
ghost use Rattle.shop_model.specs.declared.parameter.Parameter.{Parameter};
ghost use Rattle.shop_http.specs.Answers.{Reads};
ghost use Rattle.shop_http.specs.Forms as forms;
ghost use Rattle.shop_http.specs.Requests as spec;
ghost use Rattle.shop_http.specs.Sets as sets;

use super::decoding::decoded;
use super::fault::Fault;
use super::forms::{ids_asked, optional_number};
use super::pairs::Pairs;
use form_urlencoded::raw_pairs;
use shop_model::{CartRequest, Parameter, QUANTITY_LIMIT, Request, SETS_LIMIT};
use shop_text::{Listed, Memory, number_of};
use std::alloc::Global;

pub(crate) fn shopping_cart(alloc: Global, pairs: &Pairs) -> Result<Request, Fault>
    ensures { Reads (spec.shopping_cart pairs.now) result }
{
    let item = optional_number(alloc, pairs, Parameter::Item)?;
    let sets = sets_asked(alloc, pairs)?;
    let ids = ids_asked(alloc, pairs)?;
    Ok(Request::CartRequest(CartRequest { item, sets, ids }))
}

/// The quantities that are set, where each is in its form and there are few enough. Most messages set none.
#[inline(always)]
fn sets_asked(alloc: Global, pairs: &Pairs) -> Result<Listed<(u32, u32)>, Fault>
    ensures { Reads (ok_or (sets.sets_asked pairs.now) Parameter.Qty) result }
{
    if !pairs.has_others() {
        return Ok(Listed::new(alloc));
    }
    sets_among(alloc, pairs)
}

/// The quantities that are set among pairs, of which each is looked at.
fn sets_among(alloc: Global, pairs: &Pairs) -> Result<Listed<(u32, u32)>, Fault>
    ensures { Reads (ok_or (sets.sets_asked pairs.now) Parameter.Qty) result }
{
    let (query, form) = pairs.texts();
    let sets = add_sets(alloc, Listed::new(alloc), query)?;
    let sets = add_sets(alloc, sets, form)?;
    if sets.as_slice().len() > SETS_LIMIT {
        return Err(Fault::Parameter(Parameter::Qty));
    }
    Ok(sets)
}

/// These sets, and behind them those of an encoded text, where each is in its form.
fn add_sets(
    alloc: Global,
    before: Listed<(u32, u32)>,
    encoded: &[u8],
) -> Result<Listed<(u32, u32)>, Fault>
    ensures { Reads (ok_or (sets.sets_behind before (forms.pairs encoded.now)) Parameter.Qty) result }
{
    let mut sets = before;
    for (name, value) in raw_pairs(encoded) {
        let Some(asked) = set_asked(alloc, name, value)? else {
            continue;
        };
        let Some(set) = asked else {
            return Err(Fault::Parameter(Parameter::Qty));
        };
        sets.push(set)?;
    }
    Ok(sets)
}

/// What an encoded pair sets, if it sets anything; the inner `None` where it isn't in its form.
#[tactic(auto, unfolding(crate::specs::Sets::set_asked))]
fn set_asked(alloc: Global, name: &[u8], value: &[u8]) -> Result<Option<Option<(u32, u32)>>, Memory>
    ensures { IfOk result (λ set. set ≡ sets.set_asked (forms.decoded (name.now, value.now))) }
{
    let name = decoded(alloc, name)?;
    let Some(item) = name.as_slice().strip_prefix(b"qty_") else {
        return Ok(None);
    };
    let value = decoded(alloc, value)?;
    Ok(Some(set_of(item, value.as_slice())))
}

/// An item's id and a quantity, from the digits of each.
#[tactic(auto, unfolding(crate::specs::Sets::set_of))]
fn set_of(item: &[u8], quantity: &[u8]) -> Option<(u32, u32)>
    ensures { result ≡ sets.set_of item.now quantity.now }
{
    let item = number_of(item)?;
    let quantity = number_of(quantity)?;
    if quantity > QUANTITY_LIMIT {
        return None;
    }
    Some((item, quantity))
}
