ghost use Rattle.std.specs.Prelude.{◌≡◌};
ghost use Rattle.shop_http.specs.Names as spec;

use crate::constants::is_same;
use shop_model::Parameter;

/// How many parameters there are.
pub(crate) const PARAMETERS: usize = 35;

/// The place of a parameter among all.
#[inline(always)]
pub(crate) fn place_of(parameter: Parameter) -> usize
    ensures { result ≡ spec.place_of parameter }
{
    parameter as usize
}

/// The parameter with this name.
#[tactic(auto, unfolding(crate::specs::Names::parameter_named, crate::specs::Names::parameters))]
#[inline(always)]
pub(crate) fn parameter_named(name: &[u8]) -> Option<Parameter>
    ensures { result ≡ spec.parameter_named name.now }
{
    if is_same(name, b"c") {
        Some(Parameter::C)
    } else if is_same(name, b"cart") {
        Some(Parameter::Cart)
    } else if is_same(name, b"item") {
        Some(Parameter::Item)
    } else if is_same(name, b"qty") {
        Some(Parameter::Qty)
    } else if is_same(name, b"subject") {
        Some(Parameter::Subject)
    } else if is_same(name, b"kind") {
        Some(Parameter::Kind)
    } else if is_same(name, b"text") {
        Some(Parameter::Text)
    } else if is_same(name, b"user") {
        Some(Parameter::User)
    } else if is_same(name, b"pass") {
        Some(Parameter::Pass)
    } else if is_same(name, b"fn") {
        Some(Parameter::FirstName)
    } else if is_same(name, b"ln") {
        Some(Parameter::LastName)
    } else if is_same(name, b"street1") {
        Some(Parameter::Street1)
    } else if is_same(name, b"street2") {
        Some(Parameter::Street2)
    } else if is_same(name, b"city") {
        Some(Parameter::City)
    } else if is_same(name, b"state") {
        Some(Parameter::State)
    } else if is_same(name, b"zip") {
        Some(Parameter::Zip)
    } else if is_same(name, b"country") {
        Some(Parameter::Country)
    } else if is_same(name, b"phone") {
        Some(Parameter::Phone)
    } else if is_same(name, b"email") {
        Some(Parameter::Email)
    } else if is_same(name, b"card") {
        Some(Parameter::Card)
    } else if is_same(name, b"number") {
        Some(Parameter::Number)
    } else if is_same(name, b"name") {
        Some(Parameter::Name)
    } else if is_same(name, b"expiry") {
        Some(Parameter::Expiry)
    } else if is_same(name, b"ship") {
        Some(Parameter::Ship)
    } else if is_same(name, b"cost") {
        Some(Parameter::Cost)
    } else if is_same(name, b"image") {
        Some(Parameter::Image)
    } else if is_same(name, b"thumb") {
        Some(Parameter::Thumb)
    } else if is_same(name, b"title") {
        Some(Parameter::Title)
    } else if is_same(name, b"author") {
        Some(Parameter::Author)
    } else if is_same(name, b"publisher") {
        Some(Parameter::Publisher)
    } else if is_same(name, b"about") {
        Some(Parameter::About)
    } else if is_same(name, b"srp") {
        Some(Parameter::Srp)
    } else if is_same(name, b"stock") {
        Some(Parameter::Stock)
    } else if is_same(name, b"pages") {
        Some(Parameter::Pages)
    } else if is_same(name, b"backing") {
        Some(Parameter::Backing)
    } else {
        None
    }
}
