//! What has an order and an id, and the ids of the first of such elements.
ghost use Rattle.std.specs.Prelude.{◌≡◌, ◌≢◌, ◌≤◌, ℕ, true, false, IfOk, length, map, take, vec_capacity};
ghost use Rattle.std.specs.declared.cmp.Ordering.{Ordering};
ghost use Rattle.shop_model.specs.rows.Limits.{list_limit};

use shop_text::{Listed, Memory};
use std::alloc::Global;
use std::cmp::Ordering;

/// The most items of a list that is shown.
const LIST_LIMIT: usize = 50;

/// What has an order and an id.
pub trait Ranked {
    ghost order: { Self → Self → Ordering };

    ghost id_of: { Self → ℕ };

    fn compare(&self, other: &Self) -> Ordering
        ensures { result ≡ order self.now other.now };

    fn id(&self) -> u32
        ensures { result ≡ id_of self.now };
}

/// The ids of the elements.
fn ids<T: Ranked>(alloc: Global, elements: &[T]) -> Result<Listed<u32>, Memory>
    ensures { IfOk result (λ ids. ids ≡ map T.id_of elements.now) }
{
    let mut ids = Listed::with_capacity(alloc, elements.len())?;
    for element in elements {
        ids.push(element.id())?;
    }
    Ok(ids)
}

/// The elements that are shown, which are the first ones.
fn first<T>(elements: &[T]) -> &[T]
    ensures first { result.now ≡ take list_limit elements.now }
    ensures few { length result.now ≤ list_limit }
{
    &elements[..elements.len().min(LIST_LIMIT)]
}

/// The ids of the first elements.
pub fn first_ids<T: Ranked>(alloc: Global, elements: &[T]) -> Result<Listed<u32>, Memory>
    ensures { IfOk result (λ ids. ids ≡ map T.id_of (take list_limit elements.now)) }
{
    ids(alloc, first(elements))
}

/// Whether these are the ids of the elements.
fn are_ids<T: Ranked>(elements: &[T], ids: &[u32]) -> bool
    ensures same { result ≡ true → ids.now ≡ map T.id_of elements.now }
    ensures other { result ≡ false → ids.now ≢ map T.id_of elements.now }
{
    if ids.len() != elements.len() {
        return false;
    }
    for (place, element) in elements.iter().enumerate() {
        if element.id() != ids[place] {
            return false;
        }
    }
    true
}

/// Writes the ids of the elements over others; takes no memory.
fn write_ids<T: Ranked>(elements: &[T], ids: &mut Vec<u32>)
    requires { length elements.now ≤ vec_capacity ids.old }
    ensures ids { ids.new.items ≡ map T.id_of elements.now }
    ensures capacity { vec_capacity ids.new ≡ vec_capacity ids.old }
{
    ids.clear();
    for element in elements {
        ids.push_reserved(element.id());
    }
}

/// Writes the ids of the first elements over those that were the first before; answers whether they
/// differ. Takes no memory.
pub(crate) fn renew_ids<T: Ranked>(elements: &[T], ids: &mut Vec<u32>) -> bool
    requires { list_limit ≤ vec_capacity ids.old }
    ensures ids { ids.new.items ≡ map T.id_of (take list_limit elements.now) }
    ensures same { result ≡ false → ids.new.items ≡ ids.old.items }
    ensures other { result ≡ true → ids.new.items ≢ ids.old.items }
    ensures capacity { vec_capacity ids.new ≡ vec_capacity ids.old }
{
    let first = first(elements);
    if are_ids(first, ids) {
        return false;
    }
    write_ids(first, ids);
    true
}
