//! What one seat does at the table.
ghost use Rattle.std.specs.Prelude.{◌≡◌, ◌≤◌, [], None, IsSome, MatchBool};
ghost use Rattle.shop_model.specs.rows.Limits.{stamp_limit};
ghost use Rattle.shop_attempt.specs.Faithful.{Faithful};
ghost use Rattle.shop_turn.specs.Views.{named_as, together, copy};
ghost use Rattle.shop_turn.specs.Seats.{IsAt, IsReady, MayBeNamed, SeatIs, Found, Finds, Reads, Settled};

use crate::rule::{
    Both, COUNT, Common, Copies, LATEST, Look, LookToSettle, Measure, NAMED, Name, Place, Raise,
};
use crate::share::Share;
use crate::sleepers::Sleepers;
use crate::turns::{count_one, gather_all, give_back, give_turn, take_turn};
use crate::visits::{leave, take_share};
use shop_attempt::{Attempt, Settle};
use shop_book::Book;
use shop_history::{Drawn, Ids, Key, Row};
use shop_text::Memory;
use std::sync::Wait;

/// Gives the seat a number, where the callers before have theirs.
fn try_name(shared: &Common, seat: &mut Place, number: u64) -> bool
    requires at { IsAt shared.now.table_id shared.now.key.callers seat.old }
    requires named { MayBeNamed shared.now.key number seat.old.me.0 }
    ensures { MatchBool result (SeatIs seat.old (named_as number seat.old.me.0, seat.old.me.1) seat.new) (SeatIs seat.old seat.old.me seat.new) }
{
    shared.compare_exchange::<Name>(seat, NAMED, number - 1, number) == number - 1
}

/// Waits until the callers before have their numbers, and gives the seat its own.
fn name_seat<R: Wait>(rt: &R, shared: &Common, seat: &mut Place, number: u64)
    requires at { IsAt shared.now.table_id shared.now.key.callers seat.old }
    requires named { MayBeNamed shared.now.key number seat.old.me.0 }
    ensures { SeatIs seat.old (named_as number seat.old.me.0, seat.old.me.1) seat.new }
{
    for _ in rt.forever() {
        if try_name(shared, seat, number) {
            return;
        }
    }
    unreachable!()
}

/// A new seat with a number, which knows what this one has seen.
pub fn new_seat<R: Wait>(rt: &R, shared: &Common, root: &mut Place, number: u64) -> Place
    requires at { IsAt shared.now.table_id shared.now.key.callers root.old }
    requires named { MayBeNamed shared.now.key number (copy root.old.me.0) }
    ensures root { SeatIs root.old root.old.me root.new }
    ensures table { result.table_id ≡ root.old.table_id }
    ensures seat { result.me ≡ (named_as number (copy root.old.me.0), []) }
{
    let mut seat = shared.split_seat::<Copies>(root);
    name_seat(rt, shared, &mut seat, number);
    seat
}

/// Looks at the log.
fn look_at<R: Wait>(rt: &R, shared: &Common, sleepers: &Sleepers, seat: &mut Place, number: usize)
    requires at { IsAt shared.now.table_id shared.now.key.callers seat.old }
    requires ready { IsReady number shared.now.key.callers seat.old.me }
    ensures { Finds seat.old.me.0 seat.old seat.new }
{
    let share = take_share(rt, shared, sleepers, seat, number);
    let _size = share.get().size();
    shared.load::<Look>(seat, COUNT);
    leave(shared, seat, number, share);
}

/// What a key shows, and its version, in the log found, where the row of a list has to be made first.
fn read_alone<R: Wait>(
    rt: &R,
    shared: &Common,
    sleepers: &Sleepers,
    seat: &mut Place,
    number: usize,
    callers: usize,
    key: &Key,
) -> Result<(Row, u64), Memory>
    requires at { IsAt shared.now.table_id shared.now.key.callers seat.old }
    requires callers { callers ≡ shared.now.key.callers }
    requires ready { IsReady number callers seat.old.me }
    ensures { Reads seat.old seat.new key.now result }
{
    let mut share = take_turn(rt, shared, sleepers, seat, number);
    let _size = share.get().size();
    shared.load::<Look>(seat, COUNT);
    gather_all(rt, shared, seat, callers, &share);
    let read = share.read(key);
    give_back(rt, shared, sleepers, seat, callers, share);
    read
}

/// What a key shows, and its version, in the log found.
pub fn read_at<R: Wait>(
    rt: &R,
    shared: &Common,
    sleepers: &Sleepers,
    seat: &mut Place,
    number: usize,
    callers: usize,
    key: &Key,
) -> Result<(Row, u64), Memory>
    requires at { IsAt shared.now.table_id shared.now.key.callers seat.old }
    requires callers { callers ≡ shared.now.key.callers }
    requires ready { IsReady number callers seat.old.me }
    ensures { Reads seat.old seat.new key.now result }
{
    let share = take_share(rt, shared, sleepers, seat, number);
    match share.get().look(key) {
        Some(read) => {
            shared.load::<Look>(seat, COUNT);
            leave(shared, seat, number, share);
            read
        }
        None => {
            leave(shared, seat, number, share);
            read_alone(rt, shared, sleepers, seat, number, callers, key)
        }
    }
}

/// Settles an attempt that changes nothing, beside others.
fn settle_reading<R: Wait>(
    rt: &R,
    shared: &Common,
    sleepers: &Sleepers,
    seat: &mut Place,
    number: u32,
    attempt: Attempt,
) -> Settle
    requires at { IsAt shared.now.table_id shared.now.key.callers seat.old }
    requires ready { IsReady number shared.now.key.callers seat.old.me }
    requires faithful { Faithful seat.old.me.0.origin.opening.tables seat.old.me.0.own.seen attempt }
    requires moment { attempt.moment ≤ stamp_limit }
    requires reads { attempt.act ≡ None }
    ensures { Settled number attempt seat.old seat.new result }
{
    let Attempt {
        reads,
        moment,
        draw: _,
        writes: _,
        act: _,
    } = attempt;
    let share = take_share(rt, shared, sleepers, seat, number as usize);
    shared.load::<LookToSettle>(seat, COUNT);
    let front = share.get().size();
    match share.get().first_stale(reads) {
        Some(conflict) => {
            leave(shared, seat, number as usize, share);
            Settle::Stale(conflict)
        }
        None => {
            let latest = shared.fetch_max::<Raise>(seat, LATEST, moment);
            leave(shared, seat, number as usize, share);
            Settle::Done(Drawn {
                front,
                stamp: latest.max(moment),
                ids: Ids {
                    cart: None,
                    customer: None,
                    address: None,
                    order: None,
                },
            })
        }
    }
}

/// Settles a change: prepares it while others still read, and makes it alone.
fn settle_change<R: Wait>(
    rt: &R,
    shared: &Common,
    sleepers: &Sleepers,
    seat: &mut Place,
    number: u32,
    callers: usize,
    attempt: Attempt,
) -> Settle
    requires at { IsAt shared.now.table_id shared.now.key.callers seat.old }
    requires callers { callers ≡ shared.now.key.callers }
    requires ready { IsReady number callers seat.old.me }
    requires faithful { Faithful seat.old.me.0.origin.opening.tables seat.old.me.0.own.seen attempt }
    requires moment { attempt.moment ≤ stamp_limit }
    requires changes { IsSome attempt.act }
    ensures { Settled number attempt seat.old seat.new result }
{
    let mut share = take_turn(rt, shared, sleepers, seat, number as usize);
    shared.load::<LookToSettle>(seat, COUNT);
    let next = share.get().count_of(number) + 1;
    let moment = attempt.moment;
    match share.get().prepare(number, next, attempt) {
        Ok(prepared) => {
            gather_all(rt, shared, seat, callers, &share);
            let latest = shared.load::<Measure>(seat, LATEST);
            match share.commit(rt, latest, prepared) {
                Settle::Done(drawn) => {
                    count_one(rt, shared, seat, callers, &share, moment);
                    give_back(rt, shared, sleepers, seat, callers, share);
                    Settle::Done(drawn)
                }
                refused => {
                    give_back(rt, shared, sleepers, seat, callers, share);
                    refused
                }
            }
        }
        Err(refused) => {
            give_turn(shared, sleepers, seat, callers, share);
            refused
        }
    }
}

/// Settles an attempt over the log found.
pub fn settle_at<R: Wait>(
    rt: &R,
    shared: &Common,
    sleepers: &Sleepers,
    seat: &mut Place,
    number: u32,
    callers: usize,
    attempt: Attempt,
) -> Settle
    requires at { IsAt shared.now.table_id shared.now.key.callers seat.old }
    requires callers { callers ≡ shared.now.key.callers }
    requires ready { IsReady number callers seat.old.me }
    requires faithful { Faithful seat.old.me.0.origin.opening.tables seat.old.me.0.own.seen attempt }
    requires moment { attempt.moment ≤ stamp_limit }
    ensures { Settled number attempt seat.old seat.new result }
{
    if attempt.act.is_some() {
        settle_change(rt, shared, sleepers, seat, number, callers, attempt)
    } else {
        settle_reading(rt, shared, sleepers, seat, number, attempt)
    }
}

/// Takes in what the other seat has seen, and looks.
pub fn meet_at<R: Wait>(
    rt: &R,
    shared: &Common,
    sleepers: &Sleepers,
    seat: &mut Place,
    other: &mut Place,
    number: usize,
)
    requires at { IsAt shared.now.table_id shared.now.key.callers seat.old }
    requires ready { IsReady number shared.now.key.callers seat.old.me }
    requires other { IsAt shared.now.table_id shared.now.key.callers other.old }
    ensures found { Finds (together seat.old.me.0 (copy other.old.me.0)) seat.old seat.new }
    ensures same { SeatIs other.old other.old.me other.new }
{
    let shadow = shared.split_seat::<Copies>(other);
    shared.join_seat::<Both>(seat, shadow);
    look_at(rt, shared, sleepers, seat, number);
}

/// Takes in all that the other seat has.
pub fn join_at(shared: &Common, seat: &mut Place, other: Place)
    requires at { IsAt shared.now.table_id shared.now.key.callers seat.old }
    requires other { IsAt shared.now.table_id shared.now.key.callers other }
    requires empty { other.me.1 ≡ [] }
    ensures { SeatIs seat.old (together seat.old.me.0 other.me.0, seat.old.me.1) seat.new }
{
    shared.join_seat::<Both>(seat, other);
}

/// The book of the only share that is left.
fn book_of<R: Wait>(rt: &R, share: Share) -> Book
    ensures { result ≡ share }
{
    let mut left = share;
    for _ in rt.forever() {
        match left.into_book() {
            Ok(book) => return book,
            Err(share) => left = share,
        }
    }
    unreachable!()
}

/// Takes the book for good.
pub fn close_at<R: Wait>(
    rt: &R,
    shared: &Common,
    sleepers: &Sleepers,
    seat: &mut Place,
    number: usize,
    callers: usize,
) -> Book
    requires at { IsAt shared.now.table_id shared.now.key.callers seat.old }
    requires callers { callers ≡ shared.now.key.callers }
    requires ready { IsReady number callers seat.old.me }
    ensures { Found result seat.old.me.0 }
{
    let share = take_turn(rt, shared, sleepers, seat, number);
    shared.load::<Look>(seat, COUNT);
    gather_all(rt, shared, seat, callers, &share);
    let latest = shared.load::<Measure>(seat, LATEST);
    let mut book = book_of(rt, share);
    book.raise(latest);
    book
}
