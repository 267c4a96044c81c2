ghost use Rattle.std.specs.Prelude.{◌≡◌, ◌+◌, ◌≤◌, ◌<◌, [], ℕ, All, IfOk, IsSomeAnd, length, map};
ghost use Rattle.std.specs.Vec.{vec_len, vec_capacity};
ghost use Rattle.futures.specs.Poll.{IfReady, OnPending};
ghost use Rattle.futures.specs.Task.{Covers, Keeps};
ghost use Rattle.shop_places.specs.Spots.{IsFree, put_free};

use crate::pool::Pool;
use crate::{Berth, LanesEnd, PolledListener};
use futures::Future;
use futures::task::{Context, Poll};
use shop_places::Spot;
use shop_text::Memory;
use std::alloc::{AllocError, Global};

/// What lanes leave that have ended.
#[derive(Drop)]
pub struct Landed<L, B, P> {
    pub listener: L,
    /// In the order of their lanes.
    pub berths: Vec<B>,
    /// The caller's number and the report of each link that was served, in the order in which they ended.
    pub reports: Vec<(u32, P)>,
    pub ended: LanesEnd,
}

/// Serves links of a listener at lanes, all on one thread and none by blocking on it: a future, which is not polled again
/// once it has ended.
#[derive(Drop)]
pub struct Lanes<L, B, V, P> {
    pool: Option<Pool<L, B, V, P>>,
}

/// The lanes of such a listener and such berths.
pub type LanesOf<L, B> = Lanes<L, B, <B as Berth>::Serving, <B as Berth>::Report>;

/// A lane for each berth, in their order.
fn lanes_of<B: Drop, V: Drop>(alloc: Global, berths: Vec<B>) -> Result<Vec<Spot<B, V>>, AllocError>
    ensures { IfOk result (λ lanes. lanes.items ≡ map put_free berths.items) }
{
    berths
        .into_iter()
        .map(|berth| Spot::Free(berth))
        .collect(alloc)
}

/// The berth of a lane that is free.
fn berth_of<B: Drop, V: Drop>(lane: Spot<B, V>) -> B
    requires { IsFree lane }
    ensures { lane ≡ put_free result }
{
    match lane {
        Spot::Free(berth) => berth,
        other => {
            drop(other);
            unreachable!()
        }
    }
}

/// The berths of lanes that are free, in their order, in a list that has room for them.
fn berths_of<B: Drop, V: Drop>(lanes: Vec<Spot<B, V>>, room: Vec<B>) -> Vec<B>
    requires free { All IsFree lanes.items }
    requires none { room.items ≡ [] }
    requires room { vec_len room + length lanes.items ≤ vec_capacity room }
    ensures { lanes.items ≡ map put_free result.items }
{
    let mut berths = room;
    for lane in lanes {
        berths.push_reserved(berth_of(lane));
    }
    berths
}

impl<B: Berth, L: PolledListener<In = B::In, Out = B::Out>> Pool<L, B, B::Serving, B::Report> {
    ghost use Rattle.shop_lanes.specs.Landings.{Lands};
    ghost use Rattle.shop_lanes.specs.Pools.{CanGoOn, IsOver};

    /// What is left, once all links were served.
    fn land(self) -> Landed<L, B, B::Report>
        requires live { CanGoOn B.can_poll self }
        requires over { IsOver self }
        ensures { Lands (B.Berth, L.PolledListener) self result }
    {
        let Pool {
            listener,
            lanes,
            room,
            reports,
            accepted: _,
            links: _,
            ended,
        } = self;
        Landed {
            listener,
            berths: berths_of(lanes, room),
            reports,
            ended,
        }
    }
}

impl<B: Berth, L: PolledListener<In = B::In, Out = B::Out> + Drop> Lanes<
    L,
    B,
    B::Serving,
    B::Report,
> {
    ghost use Rattle.shop_lanes.specs.Landings.{CanPoll, Gives, IsBegun};
    ghost use Rattle.shop_lanes.specs.Pools.{CanGoOn, IsOver, seen_polled};

    /// A lane for each berth, in their order, which are to serve so many links of the listener. No link was accepted yet.
    pub fn new(
        alloc: Global,
        listener: L,
        links: u32,
        berths: Vec<B>,
    ) -> Result<Lanes<L, B, B::Serving, B::Report>, Memory>
        requires { 0 < length berths.items }
        ensures can_poll { IfOk result (CanPoll B.can_poll) }
        ensures begun { IfOk result (IsBegun (B.Berth, L.PolledListener)
            (record { stations = berths.items; seen = seen_polled (B.Berth, L.PolledListener) listener }) links) }
    {
        let room = Vec::with_capacity(alloc, berths.len())?;
        let lanes = lanes_of(alloc, berths)?;
        Ok(Lanes {
            pool: Some(Pool {
                listener,
                lanes,
                room,
                reports: Vec::new(alloc),
                accepted: 0,
                links,
                ended: LanesEnd::All,
            }),
        })
    }

    /// What is left, once all links were served.
    #[inline(never)]
    fn land(&mut self) -> Landed<L, B, B::Report>
        requires { IsSomeAnd self.old.pool (λ pool. CanGoOn B.can_poll pool × IsOver pool) }
        ensures { Gives (B.Berth, L.PolledListener) self.old result }
    {
        let Some(pool) = self.pool.take() else {
            unreachable!()
        };
        pool.land()
    }
}

impl<B: Berth, L: PolledListener<In = B::In, Out = B::Out> + Drop> Future
    for Lanes<L, B, B::Serving, B::Report> {
    ghost use Rattle.shop_lanes.specs.Landings.{ArePutOff, CanPoll, Gives, Needs};

    type Output = Landed<L, B, B::Report>;

    ghost can_poll = { CanPoll B.can_poll };

    ghost needs = { Needs (B.Berth, L.PolledListener) };

    ghost gives = { Gives (B.Berth, L.PolledListener) };

    fn poll(&mut self, cx: &mut Context<'_>) -> Poll<Landed<L, B, B::Report>>
        requires { CanPoll B.can_poll self.old }
        ensures value { IfReady result (Gives (B.Berth, L.PolledListener) self.old) }
        ensures again { OnPending result (CanPoll B.can_poll self.new) }
        ensures same { OnPending result ((x : _) → Gives (B.Berth, L.PolledListener) self.new x → Gives (B.Berth, L.PolledListener) self.old x) }
        ensures waited { OnPending result (ArePutOff (B.Berth, L.PolledListener) self.old self.new cx.new) }
        ensures registered { OnPending result (Covers cx.new (Needs (B.Berth, L.PolledListener) self.new)) }
        ensures kept { Keeps cx.old cx.new }
    {
        let Some(pool) = &mut self.pool else {
            unreachable!()
        };
        match pool.poll(cx) {
            Poll::Ready(()) => Poll::Ready(self.land()),
            Poll::Pending => Poll::Pending,
        }
    }
}
