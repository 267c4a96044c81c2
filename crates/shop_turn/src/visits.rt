//! A seat's visit: it takes its share of the book, beside others who have theirs, and puts it back.
ghost use Rattle.std.specs.Prelude.{◌≡◌, [], None, IfSome};
ghost use Rattle.shop_turn.specs.Views.{giving};
ghost use Rattle.shop_turn.specs.Seats.{IsAt, IsReady, IsInside, SeatIs, TakesShare};

use crate::rule::{Common, Enter, INSIDE, Leave, Place};
use crate::share::Share;
use crate::sleepers::Sleepers;
use std::sync::Wait;

/// Takes the share, where nobody else has it.
fn try_share(shared: &Common, seat: &mut Place, number: usize) -> Option<Share>
    requires at { IsAt shared.now.table_id shared.now.key.callers seat.old }
    requires ready { IsReady number shared.now.key.callers seat.old.me }
    ensures took { IfSome result (λ share. TakesShare seat.old number share seat.new) }
    ensures not { result ≡ None → SeatIs seat.old seat.old.me seat.new }
{
    if shared.compare_exchange::<Enter>(seat, 16 * number, 0, INSIDE) != 0 {
        return None;
    }
    shared.exchange(seat, 8 * number, None)
}

/// Waits until the share is in its slot, and takes it.
pub fn take_share<R: Wait>(
    rt: &R,
    shared: &Common,
    sleepers: &Sleepers,
    seat: &mut Place,
    number: usize,
) -> Share
    requires at { IsAt shared.now.table_id shared.now.key.callers seat.old }
    requires ready { IsReady number shared.now.key.callers seat.old.me }
    ensures { TakesShare seat.old number result seat.new }
{
    for _ in rt.forever() {
        if let Some(share) = try_share(shared, seat, number) {
            return share;
        }
        sleepers.wait(rt, shared, 16 * number);
    }
    unreachable!()
}

/// Puts the share back, and goes.
pub fn leave(shared: &Common, seat: &mut Place, number: usize, share: Share)
    requires at { IsAt shared.now.table_id shared.now.key.callers seat.old }
    requires inside { IsInside number shared.now.key.callers share seat.old.me }
    ensures { SeatIs seat.old (giving seat.old.me.0, []) seat.new }
{
    drop(shared.exchange(seat, 8 * number, Some(share)));
    shared.store::<Leave>(seat, 16 * number, 0);
}
