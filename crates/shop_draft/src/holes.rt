ghost use Rattle.std.specs.Prelude.{◌≡◌, ◌≤◌, ◌+◌, ◌*◌, ◌++◌, decimal, length};
ghost use Rattle.shop_text.specs.Texts.{digsyl, escape};
ghost use Rattle.shop_text.specs.Syllables.{spelled};
ghost use Rattle.shop_draft.specs.Drawing as spec;
ghost use Rattle.shop_draft.specs.Drawing.{hole_room};

use crate::Out;
use itoa::Buffer;
use shop_history::Drawn;
use shop_model::{DAY_LENGTH, DAY_LIMIT};
use shop_text::{day_bytes, syllable};

/// The most bytes that fill a hole: the user name of the largest id.
pub(crate) const HOLE_ROOM: usize = 20;

/// What a settle draws, as a page shows it.
#[derive(Clone, Copy)]
pub enum Hole {
    /// The id of the new cart.
    CartId,
    /// The id of the new customer.
    CustomerId,
    /// The id of the new order.
    OrderId,
    /// The new customer's user name.
    User,
    /// The day that comes so many days after that of the stamp, 9999-12-31 at most.
    Day(u32),
}

/// The day that comes so many days after that of a stamp, 9999-12-31 at most.
fn day_after(stamp: u64, later: u32) -> u32
    ensures { result ≡ spec.day_after stamp later }
{
    let day = stamp / DAY_LENGTH + u64::from(later);
    day.min(u64::from(DAY_LIMIT)) as u32
}

/// The length of an id's digits.
#[tactic(auto, using(shop_text::proofs::cited::Plain::plain_decimal))]
fn id_len(id: u32) -> usize
    ensures value { result ≡ length (escape (decimal id)) }
    ensures user { 2 * result ≡ length (escape (digsyl id)) }
    ensures most { result ≤ 10 }
{
    Buffer::new().format(id).len()
}

/// The length of a user name.
fn user_len(customer: Option<u32>) -> usize
    ensures value { result ≡ length (escape (spec.user_text customer)) }
    ensures most { result ≤ hole_room }
{
    match customer {
        Some(customer) => 2 * id_len(customer),
        None => 0,
    }
}

/// The length of what fills a hole.
#[tactic(auto, unfolding(crate::specs::Drawing::hole_text))]
pub(crate) fn hole_len(drawn: &Drawn, hole: Hole) -> usize
    ensures value { result ≡ length (spec.hole_text drawn.now hole) }
    ensures most { result ≤ hole_room }
{
    match hole {
        Hole::CartId => id_len(drawn.ids.cart.unwrap_or(0)),
        Hole::CustomerId => id_len(drawn.ids.customer.unwrap_or(0)),
        Hole::OrderId => id_len(drawn.ids.order.unwrap_or(0)),
        Hole::User => user_len(drawn.ids.customer),
        Hole::Day(later) => day_bytes(day_after(drawn.stamp, later)).len(),
    }
}

/// Adds an id's digits; takes no memory.
#[tactic(auto, using(shop_text::proofs::cited::Plain::plain_decimal))]
fn put_id(out: &mut Out, id: u32)
    requires { hole_room ≤ out.old.room }
    ensures bytes { out.new.bytes ≡ out.old.bytes ++ escape (decimal id) }
    ensures room { out.old.room ≤ out.new.room + hole_room }
{
    out.put_decimal(u64::from(id));
}

/// Adds the syllable of each digit; takes no memory.
fn put_spelled(out: &mut Out, digits: &[u8])
    requires { 2 * length digits.now ≤ out.old.room }
    ensures bytes { out.new.bytes ≡ out.old.bytes ++ spelled digits.now }
    ensures room { out.old.room ≤ out.new.room + 2 * length digits.now }
{
    for code in digits {
        out.put(syllable(code.saturating_sub(b'0')));
    }
}

/// Adds the user name of a customer, if one was drawn; takes no memory.
fn put_user(out: &mut Out, customer: Option<u32>)
    requires { hole_room ≤ out.old.room }
    ensures bytes { out.new.bytes ≡ out.old.bytes ++ escape (spec.user_text customer) }
    ensures room { out.old.room ≤ out.new.room + hole_room }
{
    match customer {
        Some(customer) => {
            let mut buffer = Buffer::new();
            put_spelled(out, buffer.format(customer).as_bytes());
        }
        None => {}
    }
}

/// Adds what fills a hole; takes no memory.
#[tactic(auto, unfolding(crate::specs::Drawing::hole_text))]
pub(crate) fn put_hole(out: &mut Out, drawn: &Drawn, hole: Hole)
    requires { hole_room ≤ out.old.room }
    ensures bytes { out.new.bytes ≡ out.old.bytes ++ spec.hole_text drawn.now hole }
    ensures room { out.old.room ≤ out.new.room + hole_room }
{
    match hole {
        Hole::CartId => put_id(out, drawn.ids.cart.unwrap_or(0)),
        Hole::CustomerId => put_id(out, drawn.ids.customer.unwrap_or(0)),
        Hole::OrderId => put_id(out, drawn.ids.order.unwrap_or(0)),
        Hole::User => put_user(out, drawn.ids.customer),
        Hole::Day(later) => out.put(&day_bytes(day_after(drawn.stamp, later))),
    }
}
