use crate::calls::Calls;
use crate::worker::Worker;
use shop_attempt::Store;
use shop_cache::ListCache;
use shop_http::Routes;
use shop_pages::Reply;
use shop_search::Index;
use shop_text::Memory;
use std::alloc::Global;
use std::marker::Model;
use std::sync::Arc;

/// A worker between two connections, without its routes, which may not cross threads, and without its last reply.
#[derive(Drop)]
pub struct Resting<St: Store> {
    store: St,
    index: Arc<Index, Global>,
    calls: Calls,
    last: u64,
    cache: ListCache,
}

impl<St: Store> Model for Resting<St> {
    ghost use Rattle.std.specs.Arc.{arc_value};
    ghost use Rattle.std.specs.Prelude.{◌≤◌};
    ghost use Rattle.shop_model.specs.rows.Limits.{stamp_limit};
    ghost use Rattle.shop_engine.specs.Keeping.{AreKept};
    ghost use Rattle.shop_engine.specs.Workers.{WorkerState};
    ghost use Rattle.shop_engine.specs.Posts.{IsPosted};
    ghost use Rattle.shop_engine.specs.RestingView.{state_of};

    ghost Value = { WorkerState St };

    ghost view = { state_of };

    ghost invariant = { λ i. IsPosted (St.seat i.store) (arc_value i.index) i.calls.caller
        × (i.last ≤ stamp_limit)
        × AreKept (St.seat i.store) (St.marked i.store) i.last i.cache };
}

impl<St: Store> Worker<St> {
    ghost use Rattle.std.specs.Prelude.{◌≡◌, []};

    /// The worker at rest: all but its last reply is kept.
    pub fn rest(self) -> Resting<St>
        ensures { result ≡ record self { reply = [] } }
    {
        let Worker {
            alloc: _,
            store,
            index,
            routes: _,
            calls,
            last,
            cache,
            reply: _,
        } = self;
        Resting {
            store,
            index,
            calls,
            last,
            cache,
        }
    }
}

impl<St: Store> Resting<St> {
    ghost use Rattle.std.specs.Prelude.{◌≡◌, IfOk, IfErr};
    ghost use Rattle.shop_history.specs.Lawful.{IsLawful};

    /// The store.
    pub fn store(&self) -> &St
        ensures store { result.now ≡ self.now.store }
        ensures lawful { IsLawful (St.seat self.now.store).opening (St.seat self.now.store).seen }
    {
        &self.store
    }

    /// The store.
    pub fn into_store(self) -> St
        ensures { result ≡ self.store }
    {
        let Resting {
            store,
            index: _,
            calls: _,
            last: _,
            cache: _,
        } = self;
        store
    }

    /// The worker; where memory runs out, it rests on.
    pub fn wake(self, alloc: Global) -> Result<Worker<St>, Resting<St>>
        ensures awake { IfOk result (λ worker. worker ≡ self) }
        ensures resting { IfErr result (λ resting. resting ≡ self) }
    {
        let Ok(routes) = Routes::new(alloc) else {
            return Err(self);
        };
        let Ok(reply) = Reply::new(alloc) else {
            return Err(self);
        };
        let Resting {
            store,
            index,
            calls,
            last,
            cache,
        } = self;
        Ok(Worker {
            alloc,
            store,
            index,
            routes,
            calls,
            last,
            cache,
            reply,
        })
    }
}
