ghost use Rattle.std.specs.Prelude.{◌≡◌, [], IfOk, OnOk, OnErr, option_copied};
ghost use Rattle.shop_cache.specs.Caches.{found, looked, with_kept, AllTaken};

use crate::keys::ListKey;
use crate::lines::ListLines;
use lru::LruCache;
use shop_text::Memory;
use std::alloc::Global;
use std::marker::Model;
use std::num::NonZeroUsize;

/// How many lists are kept.
const ROOM: usize = 96;

/// How old a list may be, in milliseconds.
const AGE_LIMIT: u64 = 30_000;

/// The lines of a list, and when they were read.
#[derive(Drop)]
pub struct Kept {
    /// How many changes had come.
    pub front: u64,
    /// In milliseconds since 1970-01-01.
    pub taken: u64,
    pub lines: ListLines,
}

/// The lists that are kept. A contract sees pairs of a key and its list, the one used last first.
#[derive(Drop)]
pub struct ListCache {
    kept: LruCache<ListKey, Kept>,
}

impl Model for ListCache {
    ghost use Rattle.std.specs.Prelude.{◌≡◌};
    ghost use Rattle.shop_cache.specs.Caches.{Entries, room};

    ghost Value = { Entries };

    ghost view = { λ c. c.kept.entries };

    ghost invariant = { λ c. c.kept.cap ≡ room };
}

impl ListCache {
    ghost use Rattle.std.specs.Borrow.{sem};
    ghost use Rattle.shop_cache.specs.Ends.{EndsAs};

    /// No lists yet.
    pub fn new(alloc: Global) -> Result<ListCache, Memory>
        ensures { IfOk result (λ cache. cache ≡ []) }
    {
        let room = NonZeroUsize::new(ROOM).unwrap();
        Ok(ListCache {
            kept: LruCache::new(alloc, room)?,
        })
    }

    /// The list of the key, if it is young enough. It becomes the one used last, whatever its age.
    pub fn look(&mut self, key: &ListKey, moment: u64) -> Option<&Kept>
        requires { AllTaken moment self.old }
        ensures* order { sem 𝓛 (EndsAs self.entry (looked key.now self.old)) }
        ensures value { option_copied result ≡ found key.now moment self.old }
    {
        let kept = self.kept.get(key)?;
        if moment - kept.taken <= AGE_LIMIT {
            Some(kept)
        } else {
            None
        }
    }

    /// Keeps the list, in place of the key's before.
    pub fn keep(&mut self, key: ListKey, kept: Kept) -> Result<(), Memory>
        ensures ok { OnOk result (self.new ≡ with_kept key kept self.old) }
        ensures err { OnErr result (self.new ≡ self.old) }
    {
        prove!(self.kept.len() <= ROOM);
        self.kept.put(key, kept)?;
        Ok(())
    }
}
