//! What is asked for again by an entry.
ghost use Rattle.std.specs.Prelude.{◌≡◌};
ghost use Rattle.shop_browse.specs.Attempts.{asking_of};
ghost use Rattle.shop_history.specs.Acts.{request_of};
ghost use Rattle.shop_replay.specs.Tries as spec;

use shop_browse::Ask;
use shop_history::{Act, Entry};
use shop_model::TaxRule;
use shop_search::Index;

/// The word that was drawn for an act, or 0.
fn draw_of(act: &Act) -> u32
    ensures { result ≡ spec.draw_of act.now }
{
    match act {
        Act::Cart(_, draw) | Act::Enter(_, draw) | Act::Confirm(_, draw, _, _) => *draw,
        Act::Admin(_) | Act::Add(_) => 0,
    }
}

/// The rule by which a purchase was taxed.
fn tax_of(act: &Act) -> TaxRule
    ensures { result ≡ spec.tax_of act.now }
{
    match act {
        Act::Confirm(_, _, _, tax) => *tax,
        _ => TaxRule::Flat,
    }
}

/// What an attempt at the act of an entry is made with, at its stamp.
pub(crate) fn ask_of<'a>(index: &'a Index, entry: &Entry) -> Ask<'a>
    ensures index { result.index.now ≡ index.now }
    ensures asks { asking_of result (request_of entry.now.act) ≡ spec.asking_for entry.now.stamp entry.now.act }
{
    Ask {
        index,
        moment: entry.stamp,
        draw: draw_of(&entry.act),
        tax: tax_of(&entry.act),
    }
}
