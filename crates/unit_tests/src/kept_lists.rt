//! Lists that are kept at moment 1,000: the one that was asked for longest ago goes first.
ghost use Rattle.std.specs.Prelude.{◌≤◌, IfOk, OnOk};
ghost use Rattle.shop_cache.specs.Caches.{AllTaken};

use shop_cache::{Kept, ListCache, ListKey, ListLines};
use shop_model::SearchKind;
use shop_text::{Listed, Memory, Text};
use std::alloc::Global;
use std::test::Fail;

/// What a search for one byte finds.
fn key(alloc: Global, byte: u8) -> Result<ListKey, Memory> {
    Ok(ListKey::Found(SearchKind::Title, Text::copy(alloc, &[byte])?))
}

/// Keeps an empty list, whose front is the byte.
fn keep(alloc: Global, cache: &mut ListCache, byte: u8) -> Result<(), Memory>
    requires { AllTaken 1000 cache.old }
    ensures { OnOk result (AllTaken 1000 cache.new) }
{
    let lines = ListLines::of(alloc, Listed::new(alloc))?;
    let kept = Kept {
        front: u64::from(byte),
        taken: 1_000,
        lines,
    };
    cache.keep(key(alloc, byte)?, kept)?;
    Ok(())
}

/// The lists of so many bytes, from 0 on.
fn cache_of(alloc: Global, bytes: u8) -> Result<ListCache, Memory>
    ensures { IfOk result (AllTaken 1000) }
{
    let mut cache = ListCache::new(alloc)?;
    for byte in 0..bytes {
        keep(alloc, &mut cache, byte)?;
    }
    Ok(cache)
}

/// The front of a list that is found at a moment.
fn front(alloc: Global, cache: &mut ListCache, byte: u8, moment: u64) -> Result<Option<u64>, Memory>
    requires later { 1000 ≤ moment }
    requires taken { AllTaken 1000 cache.old }
    ensures { OnOk result (AllTaken 1000 cache.new) }
{
    let key = key(alloc, byte)?;
    match cache.look(&key, moment) {
        Some(kept) => Ok(Some(kept.front)),
        None => Ok(None),
    }
}

/// Whether a list that is found at a moment has this front, or none is found.
fn is_front(
    alloc: Global,
    cache: &mut ListCache,
    byte: u8,
    moment: u64,
    want: Option<u64>,
) -> Result<bool, Memory>
    requires later { 1000 ≤ moment }
    requires taken { AllTaken 1000 cache.old }
    ensures { OnOk result (AllTaken 1000 cache.new) }
{
    Ok(front(alloc, cache, byte, moment)? == want)
}

/// Whether the last 96 of 97 lists are kept, for thirty seconds.
fn are_kept(alloc: Global, cache: &mut ListCache) -> Result<bool, Memory>
    requires { AllTaken 1000 cache.old }
{
    let are_so = [
        is_front(alloc, cache, 0, 1_000, None)?,
        is_front(alloc, cache, 1, 1_000, Some(1))?,
        is_front(alloc, cache, 96, 31_000, Some(96))?,
        is_front(alloc, cache, 96, 31_001, None)?,
    ];
    Ok(are_so == [true; 4])
}

#[test]
fn ninety_six_lists_are_kept(rt: HostRuntime) -> Result<(), Fail> {
    let mut cache = cache_of(rt.alloc(), 97)?;
    assert!(rt; are_kept(rt.alloc(), &mut cache)?);
    Ok(())
}

/// Whether list 0 stays and list 1 goes for list 96, since list 0 was asked for when it was old.
fn is_used(alloc: Global, cache: &mut ListCache) -> Result<bool, Memory>
    requires { AllTaken 1000 cache.old }
{
    let old = is_front(alloc, cache, 0, 31_001, None)?;
    keep(alloc, cache, 96)?;
    let stays = is_front(alloc, cache, 0, 1_000, Some(0))?;
    let goes = is_front(alloc, cache, 1, 1_000, None)?;
    Ok(old && stays && goes)
}

#[test]
fn a_look_at_an_old_list_is_a_use(rt: HostRuntime) -> Result<(), Fail> {
    let mut cache = cache_of(rt.alloc(), 96)?;
    assert!(rt; is_used(rt.alloc(), &mut cache)?);
    Ok(())
}
