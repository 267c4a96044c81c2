ghost use Rattle.std.specs.Prelude.{◌≡◌, IfOk, is_some};
ghost use Rattle.shop_cache.specs.Keys.{key_asked};
ghost use Rattle.std.specs.Arc.{arc_value};
ghost use Rattle.shop_engine.specs.Steps as spec;
ghost use Rattle.shop_engine.specs.Posts.{IsPosted};

use crate::calls::Calls;
use crate::replies::{list_reply, refusal_reply};
use crate::report::{Point, PointKind, plain_point};
use crate::tries::{Job, try_all};
use shop_attempt::Store;
use shop_browse::Ask;
use shop_cache::{Kept, ListCache, ListKey, ListLines};
use shop_edges::{Call, Clock, Gateway};
use shop_http::{Asked, Message, Routes, request};
use shop_model::{Refusal, Request, STAMP_LIMIT, Scale, TaxRule};
use shop_pages::{Form, Reply};
use shop_search::Index;
use shop_text::Memory;
use std::alloc::Global;
use std::marker::Model;
use std::sync::Arc;

/// Serves the requests of one caller from its seat at a shop, over one connection after another.
#[derive(Drop)]
pub struct Worker<St: Store> {
    pub(crate) alloc: Global,
    pub(crate) store: St,
    pub(crate) index: Arc<Index, Global>,
    pub(crate) routes: Routes,
    pub(crate) calls: Calls,
    pub(crate) last: u64,
    /// The lists that were read lately.
    pub(crate) cache: ListCache,
    /// The reply that was made last. Its room serves one request after another.
    pub(crate) reply: Reply,
}

impl<St: Store> Model for Worker<St> {
    ghost use Rattle.std.specs.Arc.{arc_value};
    ghost use Rattle.std.specs.Prelude.{◌≤◌};
    ghost use Rattle.shop_model.specs.rows.Limits.{stamp_limit};
    ghost use Rattle.shop_engine.specs.Keeping.{AreKept};
    ghost use Rattle.shop_engine.specs.Workers.{WorkerState};
    ghost use Rattle.shop_engine.specs.Posts.{IsPosted};

    ghost Value = { WorkerState St };

    ghost use Rattle.shop_engine.specs.WorkerView.{state_of};

    ghost view = { state_of };

    ghost invariant = { λ i. IsPosted (St.seat i.store) (arc_value i.index) i.calls.caller
        × (i.last ≤ stamp_limit)
        × AreKept (St.seat i.store) (St.marked i.store) i.last i.cache };
}

/// The form of the reply to a message, behind which there is no other or there may be.
fn form_of(message: &Message, last: bool) -> Form
    ensures { result ≡ spec.form_of message.now last }
{
    Form {
        close: message.close || last,
        bodiless: message.method.as_str() == "HEAD",
    }
}

/// Whether a list is asked for.
fn asks_list(request: &Request) -> bool
    ensures { result ≡ is_some (key_asked request.now) }
{
    matches!(
        request,
        Request::NewProducts(_) | Request::BestSellers(_) | Request::SearchResults(_)
    )
}

/// An accepted request: its moment, its number among the caller's, and its word.
#[derive(Clone, Copy)]
struct Accepted {
    moment: u64,
    call: u64,
    draw: u32,
}

impl Accepted {
    /// The point of its answer.
    fn point(&self, kind: PointKind, front: u64, tries: u32) -> Point
        ensures { result ≡ record { kind = kind; front = front; moment = self.now.moment; call = self.now.call; draw = self.now.draw; tries = tries } }
    {
        Point {
            kind,
            front,
            moment: self.moment,
            call: self.call,
            draw: self.draw,
            tries,
        }
    }
}

impl<St: Store> Worker<St> {
    ghost use Rattle.std.specs.Prelude.{◌≡◌, ◌≤◌, min, max, Ok, IfOk, IfSome, IsSome, IsNone, OnOk, OnErr};
    ghost use Rattle.shop_model.specs.rows.Limits.{stamp_limit};
    ghost use Rattle.shop_model.specs.asked.Refusals.{page_of};
    ghost use Rattle.shop_edges.specs.Causes.{count_up};
    ghost use Rattle.shop_history.specs.Lawful.{IsLawful};
    ghost use Rattle.shop_cache.specs.Keys.{key_asked};
    ghost use Rattle.shop_http.specs.Requests.{asked};
    ghost use Rattle.shop_pages.specs.Replies as replies;
    ghost use Rattle.shop_engine.specs.Keeping.{IsAnsweredBy, IsLookedOnce, KeepsLines, kept_now};
    ghost use Rattle.shop_engine.specs.Lists.{looked_for};
    ghost use Rattle.shop_engine.specs.Failures.{RoseBy, failures_as};
    ghost use Rattle.shop_engine.specs.Answering.{AnswersBy, AnswersRequestBy, GivesUpBy};
    ghost use Rattle.shop_engine.specs.Steps.{draw_of};
    ghost use Rattle.shop_engine.specs.Stores.{IsFreshBy, Keeps};
    ghost use Rattle.shop_engine.specs.Posts.{IsPosted, first_state};

    /// A worker that has served no request. Its words are drawn by this seed and scale.
    pub fn new(
        alloc: Global,
        store: St,
        caller: u32,
        seed: u32,
        scale: Scale,
        index: Arc<Index, Global>,
    ) -> Result<Worker<St>, Memory>
    where
        St: Drop,
        requires { IsPosted (St.seat store) (arc_value index) (record { number = caller; seed = seed; scale = scale }) }
        ensures { IfOk result (λ worker. worker ≡ first_state store (record { number = caller; seed = seed; scale = scale })) }
    {
        Ok(Worker {
            routes: Routes::new(alloc)?,
            cache: ListCache::new(alloc)?,
            reply: Reply::new(alloc)?,
            alloc,
            store,
            index,
            calls: Calls::new(caller, seed, scale),
            last: 0,
        })
    }

    /// The store.
    pub fn into_store(self) -> St
        ensures { result ≡ self.store }
    {
        let Worker {
            alloc: _,
            store,
            index: _,
            routes: _,
            calls: _,
            last: _,
            cache: _,
            reply: _,
        } = self;
        store
    }

    /// The store.
    pub fn store(&self) -> &St
        ensures store { result.now ≡ self.now.store }
        ensures lawful { IsLawful (St.seat self.now.store).opening (St.seat self.now.store).seen }
    {
        &self.store
    }

    /// The number of its caller.
    pub fn number(&self) -> u32
        ensures { result ≡ self.now.caller.number }
    {
        self.calls.caller()
    }

    /// The reply that was made last.
    pub fn reply(&self) -> &[u8]
        ensures { result.now ≡ self.now.reply }
    {
        self.reply.bytes()
    }

    /// Answers a message, for the last time on its connection or not: makes the reply, and tells its
    /// point. There is none where memory ran out.
    pub fn answer<C: Clock, G: Gateway>(
        &mut self,
        message: &Message,
        last: bool,
        clock: &mut C,
        gateway: &mut G,
    ) -> Option<Point>
        ensures answers { IfSome result (AnswersBy (St.Store, C.Clock, G.Gateway) last
            (self.old, clock.old, gateway.old) (self.new, clock.new, gateway.new) message.now) }
        ensures memory { IsNone result → GivesUpBy (St.Store, C.Clock, G.Gateway) (asked message.now)
            (self.old, clock.old, gateway.old) (self.new, clock.new, gateway.new) }
        ensures caller { self.new.caller ≡ self.old.caller }
        ensures marks { Keeps St.Store self.old.store self.new.store }
        ensures fresh { IfSome result (IsFreshBy St.Store self.new.store) }
        ensures failures { IfSome result (λ point. RoseBy (G.faults gateway.old) (failures_as point.kind) (G.faults gateway.new)) }
        ensures later { G.faults gateway.old ≤ G.faults gateway.new }
    {
        let form = form_of(message, last);
        match request(self.alloc, &self.routes, message) {
            Asked::Request(request) => self.answer_request(&request, form, clock, gateway),
            Asked::Refuse(refusal) => match self.refuse(refusal.told(), form) {
                Ok(()) => Some(plain_point()),
                Err(Memory) => None,
            },
            Asked::Memory => None,
        }
    }

    /// Answers a request in this form.
    fn answer_request<C: Clock, G: Gateway>(
        &mut self,
        request: &Request,
        form: Form,
        clock: &mut C,
        gateway: &mut G,
    ) -> Option<Point>
        ensures answers { IfSome result (AnswersRequestBy (St.Store, C.Clock, G.Gateway) form
            (self.old, clock.old, gateway.old) (self.new, clock.new, gateway.new) request.now) }
        ensures memory { IsNone result → GivesUpBy (St.Store, C.Clock, G.Gateway) (Ok request.now)
            (self.old, clock.old, gateway.old) (self.new, clock.new, gateway.new) }
        ensures caller { self.new.caller ≡ self.old.caller }
        ensures marks { Keeps St.Store self.old.store self.new.store }
        ensures fresh { IfSome result (IsFreshBy St.Store self.new.store) }
        ensures failures { IfSome result (λ point. RoseBy (G.faults gateway.old) (failures_as point.kind) (G.faults gateway.new)) }
        ensures later { G.faults gateway.old ≤ G.faults gateway.new }
    {
        let accepted = self.accept(clock.now());
        match self.answer_kept(request, form) {
            Ok(Some(front)) => return Some(accepted.point(PointKind::List, front, 0)),
            Ok(None) => {}
            Err(Memory) => return None,
        }
        let ask = Ask {
            index: &self.index,
            moment: accepted.moment,
            draw: accepted.draw,
            tax: TaxRule::ByCountry,
        };
        let call = Call {
            caller: self.calls.caller(),
            number: accepted.call,
        };
        let job = Job {
            alloc: self.alloc,
            ask,
            request,
            form,
            call,
        };
        let (store, reply) = (&mut self.store, &mut self.reply);
        let outcome = try_all(store, &job, reply, gateway)?;
        let (front, tries) = (outcome.front, outcome.tries);
        let Ok(()) = self.keep(request, front, outcome.lines) else {
            return None;
        };
        Some(accepted.point(outcome.kind, front, tries))
    }

    /// Answers by the list that is kept, where one is asked for, and young enough: makes the reply, and
    /// tells the front of the list.
    fn answer_kept(&mut self, request: &Request, form: Form) -> Result<Option<u64>, Memory>
        ensures found { IfOk result (IsAnsweredBy St.seat St.marked (key_asked request.now) request.now form self.old self.new) }
        ensures looked { OnOk result (self.new.kept ≡ looked_for (key_asked request.now) self.old.kept) }
        ensures refused { OnErr result (IsLookedOnce self.old.kept self.new.kept) }
        ensures worker { self.new ≡ record self.old { kept = self.new.kept; reply = self.new.reply } }
    {
        // Most requests ask for none, and make no room for its key.
        if asks_list(request) {
            self.answer_list(request, form)
        } else {
            Ok(None)
        }
    }

    /// Answers by the list that is asked for, if it is kept, and young enough.
    #[inline(never)]
    fn answer_list(&mut self, request: &Request, form: Form) -> Result<Option<u64>, Memory>
        ensures found { IfOk result (IsAnsweredBy St.seat St.marked (key_asked request.now) request.now form self.old self.new) }
        ensures looked { OnOk result (self.new.kept ≡ looked_for (key_asked request.now) self.old.kept) }
        ensures refused { OnErr result (IsLookedOnce self.old.kept self.new.kept) }
        ensures worker { self.new ≡ record self.old { kept = self.new.kept; reply = self.new.reply } }
    {
        let Some(key) = ListKey::asked(self.alloc, request)? else {
            return Ok(None);
        };
        let Some(kept) = self.cache.look(&key, self.last) else {
            return Ok(None);
        };
        let front = kept.front;
        list_reply(&mut self.reply, request, &kept.lines, form)?;
        Ok(Some(front))
    }

    /// Keeps the lines of a list, if some were read, as of this front and the last moment.
    fn keep(
        &mut self,
        request: &Request,
        front: u64,
        lines: Option<ListLines>,
    ) -> Result<(), Memory>
        requires { KeepsLines (St.seat self.old.store) (St.marked self.old.store) self.old.progress.last (key_asked request.now) front lines }
        ensures kept { OnOk result (self.new.kept ≡ kept_now (key_asked request.now) front self.old.progress.last lines self.old.kept) }
        ensures refused { OnErr result (self.new.kept ≡ self.old.kept) }
        ensures some { OnErr result (IsSome lines) }
        ensures worker { self.new ≡ record self.old { kept = self.new.kept } }
    {
        let Some(lines) = lines else {
            return Ok(());
        };
        let Some(key) = ListKey::asked(self.alloc, request)? else {
            return Ok(());
        };
        let kept = Kept {
            front,
            taken: self.last,
            lines,
        };
        self.cache.keep(key, kept)?;
        Ok(())
    }

    /// Takes note of one more request at a reading of the clock.
    fn accept(&mut self, reading: u64) -> Accepted
        ensures call { result.call ≡ count_up self.old.progress.accepted }
        ensures moment { result.moment ≡ max self.old.progress.last (min reading stamp_limit) }
        ensures bound { result.moment ≤ stamp_limit }
        ensures draw { result.draw ≡ draw_of self.old.caller result.call }
        ensures worker { self.new ≡ record self.old { progress = record { accepted = result.call; last = result.moment } } }
    {
        let moment = self.last.max(reading.min(STAMP_LIMIT));
        let (call, draw) = self.calls.next();
        self.last = moment;
        Accepted { moment, call, draw }
    }

    /// Makes the reply around the page of a refusal.
    pub(crate) fn refuse(&mut self, refusal: Refusal, form: Form) -> Result<(), Memory>
        ensures reply { OnOk result (self.new.reply ≡ replies.reply (page_of refusal) form) }
        ensures worker { self.new ≡ record self.old { reply = self.new.reply } }
    {
        refusal_reply(&mut self.reply, refusal, form)
    }
}
