ghost use Rattle.std.specs.Prelude.{◌≡◌, IfOk, IfSome, IsUtf8};
ghost use Rattle.std.specs.Option.{option_map, ok_or};
ghost use Rattle.shop_model.specs.asked.AddAsked.{IsBetween};
ghost use Rattle.shop_model.specs.asked.AdminAsked.{IsCost};
ghost use Rattle.shop_model.specs.asked.CustomersAsked.{IsFilled, IsShort};
ghost use Rattle.shop_model.specs.asked.Kinds.{kind_of};
ghost use Rattle.shop_model.specs.rows.Sound.{Has};
ghost use Rattle.shop_model.specs.rows.Subjects.{subject_of};
ghost use Rattle.shop_model.specs.declared.parameter.Parameter.{Parameter};
ghost use Rattle.shop_http.specs.Answers.{Reads};
ghost use Rattle.shop_http.specs.Forms as spec;
ghost use Rattle.shop_text.specs.Numbers as numbers;
ghost use Rattle.shop_http.specs.Requests as requests;

use super::decoding::decoded;
use super::fault::Fault;
use super::pairs::Pairs;
use super::subjects::subject_in;
use shop_model::{IdsAsked, PRICE_LIMIT, Parameter, SearchKind, Subject, TEXT_LIMIT};
use shop_text::{Text, number_of};
use std::alloc::Global;

/// The ids of countries run from 1 to this.
const COUNTRIES: u32 = 92;

/// A number that has to be there.
#[inline(always)]
pub(crate) fn required_number(
    alloc: Global,
    pairs: &Pairs,
    parameter: Parameter,
) -> Result<u32, Fault>
    ensures { Reads (spec.required numbers.number_of pairs.now parameter) result }
{
    match pairs.value_of(parameter) {
        Some(value) => number_in(alloc, value, parameter),
        None => Err(Fault::Parameter(parameter)),
    }
}

/// A number that may be absent.
#[inline(always)]
pub(crate) fn optional_number(
    alloc: Global,
    pairs: &Pairs,
    parameter: Parameter,
) -> Result<Option<u32>, Fault>
    ensures { Reads (spec.optional numbers.number_of pairs.now parameter) result }
{
    match pairs.value_of(parameter) {
        Some(value) => Ok(Some(number_in(alloc, value, parameter)?)),
        None => Ok(None),
    }
}

/// The number of an encoded value. Digits need no decoding.
#[inline(always)]
fn number_in(alloc: Global, encoded: &[u8], parameter: Parameter) -> Result<u32, Fault>
    ensures { Reads (ok_or (numbers.number_of (spec.decoded_text encoded.now)) parameter) result }
{
    if let Some(number) = short_number(encoded) {
        return Ok(number);
    }
    number_decoded(alloc, encoded, parameter)
}

#[cold]
#[inline(never)]
fn number_decoded(alloc: Global, encoded: &[u8], parameter: Parameter) -> Result<u32, Fault>
    ensures { Reads (ok_or (numbers.number_of (spec.decoded_text encoded.now)) parameter) result }
{
    match number_of(decoded(alloc, encoded)?.as_slice()) {
        Some(number) => Ok(number),
        None => Err(Fault::Parameter(parameter)),
    }
}

/// A number of at most 9 digits, in one pass.
#[inline(always)]
fn short_number(digits: &[u8]) -> Option<u32>
    ensures { IfSome result (λ number. numbers.number_of digits.now ≡ Some number) }
{
    if digits.is_empty() || digits.len() > 9 {
        return None;
    }
    let mut number = 0;
    for digit in digits {
        if !digit.is_ascii_digit() {
            return None;
        }
        number = number * 10 + u32::from(*digit - b'0');
    }
    Some(number)
}

/// The subject that is named.
pub(crate) fn required_subject(alloc: Global, pairs: &Pairs) -> Result<Subject, Fault>
    ensures { Reads (spec.required subject_of pairs.now Parameter.Subject) result }
{
    let Some(value) = pairs.value_of(Parameter::Subject) else {
        return Err(Fault::Parameter(Parameter::Subject));
    };
    match subject_in(alloc, value)? {
        Some(subject) => Ok(subject),
        None => Err(Fault::Parameter(Parameter::Subject)),
    }
}

/// The kind of search that is named.
pub(crate) fn required_kind(alloc: Global, pairs: &Pairs) -> Result<SearchKind, Fault>
    ensures { Reads (spec.required kind_of pairs.now Parameter.Kind) result }
{
    let Some(value) = pairs.value_of(Parameter::Kind) else {
        return Err(Fault::Parameter(Parameter::Kind));
    };
    match SearchKind::of(decoded(alloc, value)?.as_slice()) {
        Some(kind) => Ok(kind),
        None => Err(Fault::Parameter(Parameter::Kind)),
    }
}

/// The country that is named by its id.
pub(crate) fn required_country(alloc: Global, pairs: &Pairs) -> Result<u32, Fault>
    ensures value { Reads (spec.required spec.country_of pairs.now Parameter.Country) result }
    ensures there { IfOk result (Has 92) }
{
    let Some(value) = pairs.value_of(Parameter::Country) else {
        return Err(Fault::Parameter(Parameter::Country));
    };
    match country_of(decoded(alloc, value)?.as_slice()) {
        Some(country) => Ok(country),
        None => Err(Fault::Parameter(Parameter::Country)),
    }
}

#[tactic(auto, unfolding(crate::specs::Forms::country_of))]
fn country_of(digits: &[u8]) -> Option<u32>
    ensures value { result ≡ spec.country_of digits.now }
    ensures there { IfSome result (Has 92) }
{
    let country = number_of(digits)?;
    if country == 0 || country > COUNTRIES {
        return None;
    }
    Some(country)
}

/// A cost in cents.
pub(crate) fn required_cost(
    alloc: Global,
    pairs: &Pairs,
    parameter: Parameter,
) -> Result<u64, Fault>
    ensures value { Reads (spec.required spec.cost_of pairs.now parameter) result }
    ensures form { IfOk result IsCost }
{
    let Some(value) = pairs.value_of(parameter) else {
        return Err(Fault::Parameter(parameter));
    };
    match cost_of(decoded(alloc, value)?.as_slice()) {
        Some(cost) => Ok(cost),
        None => Err(Fault::Parameter(parameter)),
    }
}

#[tactic(auto, unfolding(crate::specs::Forms::cost_of))]
fn cost_of(digits: &[u8]) -> Option<u64>
    ensures value { result ≡ spec.cost_of digits.now }
    ensures form { IfSome result IsCost }
{
    let cost = u64::from(number_of(digits)?);
    if cost == 0 || cost > PRICE_LIMIT {
        return None;
    }
    Some(cost)
}

/// A number between two others.
pub(crate) fn required_between(
    alloc: Global,
    pairs: &Pairs,
    parameter: Parameter,
    least: u32,
    most: u32,
) -> Result<u32, Fault>
    ensures value { Reads (spec.required (spec.number_between least most) pairs.now parameter) result }
    ensures between { IfOk result (IsBetween least most) }
{
    let Some(value) = pairs.value_of(parameter) else {
        return Err(Fault::Parameter(parameter));
    };
    match number_between(decoded(alloc, value)?.as_slice(), least, most) {
        Some(number) => Ok(number),
        None => Err(Fault::Parameter(parameter)),
    }
}

#[tactic(auto, unfolding(crate::specs::Forms::number_between))]
fn number_between(digits: &[u8], least: u32, most: u32) -> Option<u32>
    ensures value { result ≡ spec.number_between least most digits.now }
    ensures between { IfSome result (IsBetween least most) }
{
    let number = number_of(digits)?;
    if number < least || number > most {
        return None;
    }
    Some(number)
}

/// A copy of a text that has to be there, and may not be empty.
pub(crate) fn required_text(
    alloc: Global,
    pairs: &Pairs,
    parameter: Parameter,
) -> Result<Text, Fault>
    ensures value { Reads (spec.required spec.text_of pairs.now parameter) result }
    ensures filled { IfOk result IsFilled }
{
    let Some(value) = pairs.value_of(parameter) else {
        return Err(Fault::Parameter(parameter));
    };
    match text_of(decoded(alloc, value)?.as_slice()) {
        Some(text) => Ok(Text::copy(alloc, text)?),
        None => Err(Fault::Parameter(parameter)),
    }
}

#[tactic(auto, unfolding(crate::specs::Forms::text_of))]
fn text_of(text: &[u8]) -> Option<&[u8]>
    ensures value { option_map (λ text. text.now) result ≡ spec.text_of text.now }
    ensures filled { IsUtf8 text.now → IfSome result (λ text. IsFilled text.now) }
{
    if text.is_empty() || text.len() > TEXT_LIMIT {
        return None;
    }
    Some(text)
}

/// A copy of a text that has to be there, and may be empty.
pub(crate) fn required_short_text(
    alloc: Global,
    pairs: &Pairs,
    parameter: Parameter,
) -> Result<Text, Fault>
    ensures value { Reads (spec.required spec.short_text_of pairs.now parameter) result }
    ensures short { IfOk result IsShort }
{
    match pairs.value_of(parameter) {
        Some(value) => short_text_in(alloc, value, parameter),
        None => Err(Fault::Parameter(parameter)),
    }
}

/// A copy of a text, which is empty where it is absent.
#[tactic(auto, unfolding(crate::specs::Forms::short_text_of))]
pub(crate) fn short_text_or_empty(
    alloc: Global,
    pairs: &Pairs,
    parameter: Parameter,
) -> Result<Text, Fault>
    ensures value { Reads (spec.or_empty spec.short_text_of pairs.now parameter) result }
    ensures short { IfOk result IsShort }
{
    match pairs.value_of(parameter) {
        Some(value) => short_text_in(alloc, value, parameter),
        None => Ok(Text::new(alloc)),
    }
}

/// A copy of an encoded value that may be empty.
#[tactic(auto, unfolding(crate::specs::Forms::short_text_of))]
fn short_text_in(alloc: Global, encoded: &[u8], parameter: Parameter) -> Result<Text, Fault>
    ensures value { Reads (ok_or (spec.short_text_of (spec.decoded_text encoded.now)) parameter) result }
    ensures short { IfOk result IsShort }
{
    let text = decoded(alloc, encoded)?;
    if text.as_slice().len() > TEXT_LIMIT {
        return Err(Fault::Parameter(parameter));
    }
    Ok(Text::copy(alloc, text.as_slice())?)
}

/// The ids, each of which may be absent.
pub(crate) fn ids_asked(alloc: Global, pairs: &Pairs) -> Result<IdsAsked, Fault>
    ensures { Reads (requests.ids_asked pairs.now) result }
{
    let c = optional_number(alloc, pairs, Parameter::C)?;
    let cart = optional_number(alloc, pairs, Parameter::Cart)?;
    Ok(IdsAsked { c, cart })
}
