ghost use Rattle.std.specs.Prelude.{◌≡◌, ℕ, ◌+◌, ◌≤◌, max, [], length, map, IfOk, IfErr, IfSome, IsSome, None, option_copied};
ghost use Rattle.shop_model.specs.lists.Related.{sold_of, last, recent};
ghost use Rattle.shop_model.specs.rows.Limits.{stamp_limit, counted_orders};
ghost use Rattle.shop_model.specs.rows.Lookups.{row_numbered};
ghost use Rattle.shop_ranking.specs.StandingBest.{AreSoldLately};
ghost use Rattle.shop_ranking.specs.StandingNewest.{AreAsPublished};
ghost use Rattle.shop_history.specs.Keys as keys;
ghost use Rattle.shop_history.specs.Logs.{version_of, entries_of};
ghost use Rattle.shop_attempt.specs.Faithful.{Faithful};
ghost use Rattle.shop_attempt.specs.Reads as reading;
ghost use Rattle.shop_book.specs.Books.{IsBook, tables_of};
ghost use Rattle.shop_book.specs.Laws.{IsShortest, IsGoodThroughout};
ghost use Rattle.shop_book.specs.Listings.{IsList};
ghost use Rattle.shop_book.specs.Openings.{IsOpening};
ghost use Rattle.shop_book.specs.Preparing.{AlwaysMakes, IsChangeOf, IsNext, IsReady, IsPrepared, IsRefused};
ghost use Rattle.shop_book.specs.Settles.{SettledAs, TakenAs};
ghost use Rattle.shop_book.specs.Summaries as spec;

use crate::changes::{change_rows, make_room};
use crate::counts::Counts;
use crate::lists::Lists;
use crate::orders::cents_of;
use crate::plan::Plan;
use crate::puts::{Put, puts_at, puts_of};
use crate::rows::Rows;
use crate::shown::shown;
use crate::versions::Versions;
use crate::{Opening, Prepared, Summary};
use shop_attempt::{Attempt, Conflict, ReadOf, Settle, Write};
use shop_history::{Act, Drawn, Entry, Ids, Key, Row};
use shop_model::{AuthId, Tables};
use shop_ranking::{Best, Newest};
use shop_text::{Listed, Memory};
use shop_window::OrderWindow;
use std::alloc::Global;
use std::marker::Model;

/// A shop as a log of changes over its opening tables, with the rows as they are now, their versions,
/// and how many entries each caller has.
#[derive(Drop)]
pub struct Book {
    opening: Opening,
    rows: Rows,
    versions: Versions,
    counts: Counts,
    lists: Lists,
    log: Vec<Entry>,
    latest: u64,
    /// What the orders that came since the opening were charged together, in cents.
    cents: u64,
}

impl Model for Book {
    ghost use Rattle.shop_book.specs.Books.{BookValue};
    ghost use Rattle.shop_book.specs.Keeping.{IsKept};

    ghost Value = { BookValue };

    ghost use Rattle.shop_book.specs.BookView.{book_of};

    ghost view = { book_of };

    ghost invariant = { λ i. IsKept (book_of i) i.rows i.versions i.counts i.lists i.cents };
}

impl Book {
    /// A book with no changes yet over these tables.
    pub fn open(alloc: Global, tables: Tables, limit: u64) -> Result<Book, Memory>
        requires { IsOpening (record { tables = tables; limit = limit }) }
        ensures value { IfOk result (λ book. book ≡ record { opening = record { tables = tables; limit = limit }; log = []; latest = 0 }) }
        ensures kept { IfOk result IsBook }
    {
        let rows = Rows::copy_of(alloc, &tables)?;
        let versions = Versions::new(alloc, &tables, &rows)?;
        let lists = Lists::of(alloc, &tables)?;
        Ok(Book {
            opening: Opening { tables, limit },
            rows,
            versions,
            counts: Counts::new(alloc),
            lists,
            log: Vec::new(alloc),
            latest: 0,
            cents: 0,
        })
    }

    /// What a key shows, and its version, as `read` answers; none where the row of a list has to be made
    /// first, which `read` does.
    #[inline(always)]
    pub fn look(&self, key: &Key) -> Option<Result<(Row, u64), Memory>>
        ensures row { IfSome result (λ looked. IfOk looked (λ read. read.0 ≡ keys.row_of (tables_of self.now) key.now)) }
        ensures version { IfSome result (λ looked. IfOk looked (λ read. read.1 ≡ version_of self.now.opening.tables self.now.log key.now)) }
        ensures shortest { IfSome result (λ looked. IfOk looked (λ read. IsShortest self.now.opening.tables self.now.log key.now read.1)) }
        ensures list { result ≡ None → IsList key.now }
        ensures kept { IsBook self.now }
        ensures sound { IsGoodThroughout self.now }
    {
        let (tables, added) = (&self.opening.tables, &self.versions.added);
        match shown(tables, &self.rows, &self.lists, added, key)? {
            Ok(row) => Some(Ok((row, self.versions.of(key)))),
            Err(Memory) => Some(Err(Memory)),
        }
    }

    /// What a key shows, and its version.
    #[inline(always)]
    pub fn read(&mut self, key: &Key) -> Result<(Row, u64), Memory>
        ensures row { IfOk result (λ read. read.0 ≡ keys.row_of (tables_of self.old) key.now) }
        ensures version { IfOk result (λ read. read.1 ≡ version_of self.old.opening.tables self.old.log key.now) }
        ensures shortest { IfOk result (λ read. IsShortest self.old.opening.tables self.old.log key.now read.1) }
        ensures same { self.new ≡ self.old }
        ensures kept { IsBook self.old }
        ensures sound { IsGoodThroughout self.old }
    {
        if let Some(read) = self.look(key) {
            return read;
        }
        let row = self.lists.list_row(key)?;
        Ok((row, self.versions.of(key)))
    }

    /// The first read whose version is no more the key's.
    #[inline(always)]
    pub fn first_stale(&self, reads: Listed<ReadOf>) -> Option<Conflict>
        ensures first { result ≡ reading.first_stale self.now.opening.tables self.now.log reads }
        ensures kept { IsBook self.now }
    {
        for read in reads.into_vec() {
            let found = self.versions.of(&read.key);
            if found != read.version {
                return Some(Conflict {
                    key: read.key,
                    read: read.version,
                    found,
                });
            }
        }
        None
    }

    /// How many changes a caller has made.
    pub fn count_of(&self, caller: u32) -> u64
        ensures value { result ≡ length (entries_of caller self.now.log) }
        ensures bound { result ≤ 1000000 }
        ensures kept { IsBook self.now }
    {
        self.counts.of(caller)
    }

    /// How many changes were made.
    pub fn size(&self) -> u64
        ensures value { result ≡ length self.now.log }
        ensures kept { IsBook self.now }
    {
        self.log.len() as u64
    }

    /// The entry with this number of the log, from 1 on.
    pub fn entry(&self, n: u64) -> Option<&Entry>
        ensures value { option_copied result ≡ row_numbered self.now.log n }
        ensures kept { IsBook self.now }
    {
        match n.checked_sub(1) {
            Some(before) => self.log.get(before as usize),
            None => None,
        }
    }

    /// The latest stamp, 0 where there is none, in milliseconds since 1970-01-01.
    pub fn latest(&self) -> u64
        ensures value { result ≡ self.now.latest }
        ensures kept { IsBook self.now }
    {
        self.latest
    }

    /// Makes the latest stamp at least this one: the shop accepted a settle at it that changed nothing.
    pub fn raise(&mut self, stamp: u64)
        requires { stamp ≤ stamp_limit }
        ensures value { self.new ≡ record self.old { latest = max self.old.latest stamp } }
        ensures kept { IsBook self.new }
    {
        self.latest = self.latest.max(stamp);
    }

    /// What the book has come to.
    pub fn summary(&self) -> Summary
        ensures value { result ≡ spec.summary_of self.now }
        ensures kept { IsBook self.now }
    {
        let born = u64::from(self.opening.tables.born_orders);
        Summary {
            entries: self.log.len() as u64,
            orders: self.rows.orders.len() as u64 - born,
            cents: self.cents,
        }
    }

    /// Whether an order has this authorisation.
    pub fn has_auth(&self, auth: &AuthId) -> bool
        ensures value { result ≡ spec.has_auth (tables_of self.now) auth.now }
        ensures kept { IsBook self.now }
    {
        self.lists.auths.has(auth)
    }

    /// The latest 3,333 orders, which best sold items are counted over.
    pub fn sold(&self) -> &OrderWindow<3_333>
        ensures orders { result.now.kept ≡ map sold_of (last counted_orders (tables_of self.now).orders) }
        ensures kept { IsBook self.now }
    {
        &self.lists.sold
    }

    /// The latest 10,000 orders, which related items are counted over.
    pub fn recent(&self) -> &OrderWindow<10_000>
        ensures orders { result.now.kept ≡ recent (tables_of self.now) }
        ensures kept { IsBook self.now }
    {
        &self.lists.recent
    }

    /// The units that were sold lately of each item, and the best sold ones.
    pub fn best(&self) -> &Best
        ensures units { AreSoldLately (tables_of self.now) result.now }
        ensures kept { IsBook self.now }
    {
        &self.lists.best
    }

    /// The days on which the items were published, and the newest ones.
    pub fn newest(&self) -> &Newest
        ensures days { AreAsPublished (tables_of self.now) result.now }
        ensures kept { IsBook self.now }
    {
        &self.lists.newest
    }

    /// Settles an attempt of a caller, whose next change, if it is one, has this number: refuses it
    /// where a read is not up to date, or where it would add an entry to a full log; else accepts it.
    pub fn settle(&mut self, caller: u32, number: u64, attempt: Attempt) -> Settle
        requires number { IsSome attempt.act → number ≡ length (entries_of caller self.old.log) + 1 }
        requires faithful { Faithful self.old.opening.tables self.old.log attempt }
        requires moment { attempt.moment ≤ stamp_limit }
        ensures settled { SettledAs self.old self.new caller number attempt result }
        ensures kept { IsBook self.new }
    {
        let Attempt {
            reads,
            moment,
            draw: _,
            writes,
            act,
        } = attempt;
        if let Some(conflict) = self.first_stale(reads) {
            return Settle::Stale(conflict);
        }
        match (writes, act) {
            (Some(writes), Some(act)) => {
                match self.ready(caller, number, moment, act, writes.into_vec()) {
                    Ok(prepared) => self.commit(prepared),
                    Err(refused) => refused,
                }
            }
            _ => self.pass(self.latest.max(moment)),
        }
    }

    /// Accepts an attempt that changes nothing.
    fn pass(&mut self, stamp: u64) -> Settle
        requires stamp { self.old.latest ≤ stamp }
        requires bound { stamp ≤ stamp_limit }
        ensures taken { TakenAs self.old self.new 0 0 stamp None result }
        ensures kept { IsBook self.new }
    {
        self.latest = stamp;
        Settle::Done(Drawn {
            front: self.log.len() as u64,
            stamp,
            ids: Ids {
                cart: None,
                customer: None,
                address: None,
                order: None,
            },
        })
    }

    /// The first half of the settle of a change, which leaves the book as it is: refuses the attempt where
    /// `settle` would, or makes it ready.
    pub fn prepare(&self, caller: u32, number: u64, attempt: Attempt) -> Result<Prepared, Settle>
        requires act { IsSome attempt.act }
        requires number { number ≡ length (entries_of caller self.now.log) + 1 }
        requires faithful { Faithful self.now.opening.tables self.now.log attempt }
        requires moment { attempt.moment ≤ stamp_limit }
        ensures prepared { IfOk result (IsPrepared self.now.opening self.now.log caller number attempt) }
        ensures refused { IfErr result (SettledAs self.now self.now caller number attempt) }
        ensures kept { IsBook self.now }
    {
        let Attempt {
            reads,
            moment,
            draw: _,
            writes,
            act,
        } = attempt;
        if let Some(conflict) = self.first_stale(reads) {
            return Err(Settle::Stale(conflict));
        }
        match (writes, act) {
            (Some(writes), Some(act)) => {
                self.ready(caller, number, moment, act, writes.into_vec())
            }
            _ => unreachable!(),
        }
    }

    /// A change, and all that it takes but room; refuses it where it would add an entry to a full log.
    #[inline(always)]
    fn ready(
        &self,
        caller: u32,
        number: u64,
        moment: u64,
        act: Act,
        writes: Vec<Write>,
    ) -> Result<Prepared, Settle>
        requires moment { moment ≤ stamp_limit }
        requires number { number ≡ length (entries_of caller self.now.log) + 1 }
        requires makes { AlwaysMakes (tables_of self.now) act writes.items }
        ensures ready { IfOk result (IsReady self.now.opening self.now.log) }
        ensures change { IfOk result (IsChangeOf caller number moment act) }
        ensures refused { IfErr result (IsRefused self.now) }
    {
        let size = self.log.len() as u64;
        if size >= self.opening.limit {
            return Err(Settle::Full(size));
        }
        let stamp = self.latest.max(moment);
        let alloc = *self.log.allocator();
        let Ok(plan) = Plan::of(alloc, &self.rows, &self.lists.sold, &act) else {
            return Err(Settle::Memory);
        };
        let Ok(puts) = puts_of(alloc, &self.rows, stamp, writes) else {
            return Err(Settle::Memory);
        };
        let entry = Entry {
            caller,
            number,
            stamp,
            act,
        };
        Ok(Prepared {
            entry,
            moment,
            plan,
            puts,
        })
    }

    /// The other half: makes a change that this book prepared, where no other change was made since. Its
    /// stamp is the latest of those accepted meanwhile, or its moment.
    pub fn commit(&mut self, prepared: Prepared) -> Settle
        requires { IsReady self.old.opening self.old.log prepared }
        ensures settled { (caller number : ℕ) → (attempt : Attempt) → IsPrepared self.old.opening self.old.log caller number attempt prepared
            → SettledAs self.old self.new caller number attempt result }
        ensures kept { IsBook self.new }
    {
        let stamp = self.latest.max(prepared.moment);
        let Prepared {
            entry,
            moment: _,
            plan,
            puts,
        } = prepared;
        match puts_at(*self.log.allocator(), entry.stamp, stamp, puts) {
            Ok(puts) => self.change(Entry { stamp, ..entry }, plan, puts),
            Err(Memory) => Settle::Memory,
        }
    }

    /// Takes an entry, and makes its writes. All that takes memory comes before the first change.
    #[inline(always)]
    fn change(&mut self, entry: Entry, plan: Plan, puts: Vec<Put>) -> Settle
        requires { IsNext self.old entry plan puts.items }
        ensures taken { TakenAs self.old self.new entry.caller entry.number entry.stamp (Some entry.act) result }
        ensures kept { IsBook self.new }
    {
        if !make_room(
            &mut self.log,
            &mut self.rows,
            &mut self.versions,
            &mut self.counts,
            &mut self.lists,
            puts.as_slice(),
            &plan,
        ) {
            return Settle::Memory;
        }
        let (stamp, front) = (entry.stamp, self.log.len() as u64 + 1);
        let orders = self.rows.orders.len();
        let ids = change_rows(
            &mut self.rows,
            &mut self.versions,
            &mut self.lists,
            plan,
            stamp,
            front,
            puts,
        );
        // One order came at most.
        self.cents += cents_of(&self.rows.orders[orders..]);
        self.counts.set(entry.caller, entry.number);
        self.log.push_reserved(entry);
        self.latest = stamp;
        Settle::Done(Drawn { front, stamp, ids })
    }
}
