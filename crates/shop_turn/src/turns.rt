//! A seat's turn: it takes the turn and its share; takes the share of each caller who is outside, or once it
//! is; alone has the book; and gives the shares back, and the turn.
ghost use Rattle.std.specs.Prelude.{◌≡◌, ◌≤◌, [], None, IfSome};
ghost use Rattle.shop_turn.specs.Views.{giving, raising, appending};
ghost use Rattle.shop_turn.specs.Seats.{IsAt, IsReady, HasTurn, HasShares, SeatIs, Keeps, TakesTurn, Gathered, TakesAll, IsCounted};

use crate::rule::{
    Append, COUNT, Common, Fill, Gather, Give, LATEST, Lift, Place, TAKEN, TURN, Take,
};
use crate::share::Share;
use crate::sleepers::Sleepers;
use std::hint::spin_loop;
use std::sync::Wait;

/// Takes the turn and its share, where nobody has it.
fn try_turn(shared: &Common, seat: &mut Place, number: usize) -> Option<Share>
    requires at { IsAt shared.now.table_id shared.now.key.callers seat.old }
    requires ready { IsReady number shared.now.key.callers seat.old.me }
    ensures took { IfSome result (λ share. TakesTurn seat.old share seat.new) }
    ensures not { result ≡ None → SeatIs seat.old seat.old.me seat.new }
{
    if shared.compare_exchange::<Take>(seat, TURN, 0, number as u64) != 0 {
        return None;
    }
    shared.exchange(seat, 0, None)
}

/// Waits for the turn, and takes its share. Others still read.
pub fn take_turn<R: Wait>(
    rt: &R,
    shared: &Common,
    sleepers: &Sleepers,
    seat: &mut Place,
    number: usize,
) -> Share
    requires at { IsAt shared.now.table_id shared.now.key.callers seat.old }
    requires ready { IsReady number shared.now.key.callers seat.old.me }
    ensures { TakesAll seat.old 0 result seat.new }
{
    for _ in rt.forever() {
        if let Some(share) = try_turn(shared, seat, number) {
            return share;
        }
        sleepers.wait(rt, shared, TURN);
    }
    unreachable!()
}

/// Takes the share of the next caller, where that one is outside.
fn try_gather(shared: &Common, seat: &mut Place, next: usize) -> Option<Share>
    requires at { IsAt shared.now.table_id shared.now.key.callers seat.old }
    requires turn { HasTurn next shared.now.key.callers seat.old.me }
    ensures took { IfSome result (λ share. Gathered next share seat.old seat.new) }
    ensures not { result ≡ None → SeatIs seat.old seat.old.me seat.new }
{
    if shared.compare_exchange::<Gather>(seat, 16 * next, 0, TAKEN) != 0 {
        return None;
    }
    shared.exchange(seat, 8 * next, None)
}

/// Waits until the next caller is outside, and takes its share.
fn gather_one<R: Wait>(rt: &R, shared: &Common, seat: &mut Place, next: usize) -> Share
    requires at { IsAt shared.now.table_id shared.now.key.callers seat.old }
    requires turn { HasTurn next shared.now.key.callers seat.old.me }
    ensures { Gathered next result seat.old seat.new }
{
    for _ in rt.forever() {
        if let Some(share) = try_gather(shared, seat, next) {
            return share;
        }
        spin_loop();
    }
    unreachable!()
}

/// Takes each caller's share, once that one is outside: nobody else reads from then on.
pub fn gather_all<R: Wait>(rt: &R, shared: &Common, seat: &mut Place, callers: usize, share: &Share)
    requires at { IsAt shared.now.table_id shared.now.key.callers seat.old }
    requires callers { callers ≡ shared.now.key.callers }
    requires first { HasShares 0 share.now seat.old.me }
    ensures { TakesAll seat.old callers share.now seat.new }
{
    for gathered in 0..callers {
        drop(gather_one(rt, shared, seat, gathered + 1));
    }
}

/// Another share, which is only refused where there are as many as can be counted.
fn another<R: Wait>(rt: &R, share: &Share) -> Share
    ensures { result ≡ share.now }
{
    for _ in rt.forever() {
        if let Ok(another) = share.again() {
            return another;
        }
    }
    unreachable!()
}

/// Gives each caller a share again.
fn fill_all<R: Wait>(rt: &R, shared: &Common, seat: &mut Place, callers: usize, share: &Share)
    requires at { IsAt shared.now.table_id shared.now.key.callers seat.old }
    requires callers { callers ≡ shared.now.key.callers }
    requires all { HasShares callers share.now seat.old.me }
    ensures { TakesAll seat.old 0 share.now seat.new }
{
    let mut left = callers;
    while left > 0 {
        drop(shared.exchange(seat, 8 * left, Some(another(rt, share))));
        shared.store::<Fill>(seat, 16 * left, 0);
        left -= 1;
    }
}

/// Gives the turn back, with its share.
pub fn give_turn(
    shared: &Common,
    sleepers: &Sleepers,
    seat: &mut Place,
    callers: usize,
    share: Share,
)
    requires callers { callers ≡ shared.now.key.callers }
    requires at { IsAt shared.now.table_id shared.now.key.callers seat.old }
    requires all { HasShares 0 share seat.old.me }
    ensures { SeatIs seat.old (giving seat.old.me.0, []) seat.new }
{
    drop(shared.exchange(seat, 0, Some(share)));
    shared.store::<Give>(seat, TURN, 0);
    sleepers.wake(shared, callers);
}

/// Gives each caller a share again, and gives the turn back.
pub fn give_back<R: Wait>(
    rt: &R,
    shared: &Common,
    sleepers: &Sleepers,
    seat: &mut Place,
    callers: usize,
    share: Share,
)
    requires at { IsAt shared.now.table_id shared.now.key.callers seat.old }
    requires callers { callers ≡ shared.now.key.callers }
    requires all { HasShares callers share seat.old.me }
    ensures { SeatIs seat.old (giving seat.old.me.0, []) seat.new }
{
    fill_all(rt, shared, seat, callers, &share);
    give_turn(shared, sleepers, seat, callers, share);
}

/// Leaves a mark, and counts the entry that the book has more. The longer book lies in the slot that was
/// taken last while it does.
pub fn count_one<R: Wait>(
    rt: &R,
    shared: &Common,
    seat: &mut Place,
    callers: usize,
    share: &Share,
    moment: u64,
)
    requires at { IsAt shared.now.table_id shared.now.key.callers seat.old }
    requires callers { callers ≡ shared.now.key.callers }
    requires some { 1 ≤ callers }
    requires longer { IsCounted callers moment share.now seat.old.me }
    ensures all { HasShares callers share.now seat.new.me }
    ensures keeps { Keeps seat.old (appending share.now.log (raising moment seat.old.me.0)) seat.new }
{
    let top = another(rt, share);
    shared.fetch_max::<Lift>(seat, LATEST, moment);
    drop(shared.exchange(seat, 8 * callers, Some(top)));
    shared.fetch_add::<Append>(seat, COUNT, 1);
    drop(shared.exchange(seat, 8 * callers, None));
}
