ghost use Rattle.std.specs.Prelude.{◌≡◌, ◌↔◌, IsTrue};
ghost use Rattle.shop_words.specs.Values as spec;

use shop_browsers::Mix;
use shop_model::Scale;
use shop_text::number_of;

/// The scale with this name: `desk`, or the numbers of items and of emulated browsers, joined by an `x`.
pub(crate) fn scale_of(text: &str) -> Option<Scale>
    ensures { result ≡ spec.scale_of text.now }
{
    if text == "desk" {
        return Some(Scale::desk());
    }
    match text.split_once('x') {
        Some((items, ebs)) => larger_of(number_of(items.as_bytes()), number_of(ebs.as_bytes())),
        None => None,
    }
}

fn larger_of(items: Option<u32>, ebs: Option<u32>) -> Option<Scale>
    ensures { result ≡ spec.larger_of_both items ebs }
{
    Scale::of(items?, ebs?)
}

pub(crate) fn browsers_of(text: &str) -> Option<u32>
    ensures { result ≡ spec.browsers_of text.now }
{
    within(1, 64, number_of(text.as_bytes()))
}

pub(crate) fn workers_of(text: &str) -> Option<u32>
    ensures { result ≡ spec.workers_of text.now }
{
    within(1, 16, number_of(text.as_bytes()))
}

pub(crate) fn steps_of(text: &str) -> Option<u32>
    ensures { result ≡ spec.steps_of text.now }
{
    within(1, 100_000, number_of(text.as_bytes()))
}

pub(crate) fn limit_of(text: &str) -> Option<u64>
    ensures { result ≡ spec.limit_of text.now }
{
    within(1, 1_000_000, number_of(text.as_bytes())).map(u64::from)
}

pub(crate) fn connections_of(text: &str) -> Option<u32>
    ensures { result ≡ spec.connections_of text.now }
{
    within(1, 1_000_000, number_of(text.as_bytes()))
}

pub(crate) fn port_of(text: &str) -> Option<u16>
    ensures { result ≡ spec.port_of text.now }
{
    port_from(1, number_of(text.as_bytes()))
}

pub(crate) fn gateway_of(text: &str) -> Option<u16>
    ensures { result ≡ spec.gateway_of text.now }
{
    port_from(0, number_of(text.as_bytes()))
}

fn port_from(low: u16, number: Option<u32>) -> Option<u16>
    ensures { result ≡ spec.within low 65_535 number }
{
    let port = u16::try_from(number?).ok()?;
    if low <= port { Some(port) } else { None }
}

fn within(low: u32, high: u32, number: Option<u32>) -> Option<u32>
    ensures { result ≡ spec.within low high number }
{
    let number = number?;
    if low <= number && number <= high {
        Some(number)
    } else {
        None
    }
}

#[tactic(auto, unfolding(crate::specs::Values::mix_of))]
pub(crate) fn mix_of(text: &str) -> Option<Mix>
    ensures { result ≡ spec.mix_of text.now }
{
    match text {
        "browsing" => Some(Mix::Browsing),
        "shopping" => Some(Mix::Shopping),
        "ordering" => Some(Mix::Ordering),
        _ => None,
    }
}

/// Whether a file may have this name.
pub(crate) fn is_file_name(text: &str) -> bool
    ensures { IsTrue result ↔ spec.IsFileName text.now }
{
    match text.as_bytes() {
        [first, ..] => *first != b'-' && text.len() <= 100,
        [] => false,
    }
}
