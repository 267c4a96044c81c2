//! How many items there are, which a request reads first, and the item that a word draws of so many.
ghost use Rattle.std.specs.Prelude.{◌≡◌, ◌<◌, ◌≤◌};
ghost use Rattle.shop_browse.specs.Counting as spec;

use shop_attempt::ReadOf;
use shop_history::{Key, Row};

/// The number of items that was read; no shop has fewer than six.
pub fn count_in(read: &ReadOf) -> u32
    requires { spec.IsNumber read.now.row }
    ensures number { result ≡ spec.number_in read.now.row }
    ensures six { 6 ≤ result }
{
    match &read.row {
        Row::Number(number) => *number,
        _ => unreachable!(),
    }
}

/// The key of the item that a word draws of so many.
pub(crate) fn drawn_key(draw: u32, items: u32) -> Key
    requires { 0 < items }
    ensures { result ≡ spec.drawn_key draw items }
{
    Key::Item(1 + draw % items)
}
