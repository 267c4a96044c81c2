//! Lists in order that stay: elements are taken out at their places, and put in at others.
ghost use Rattle.std.specs.Prelude.{◌≡◌, ◌<◌, ◌≤◌, List, length, vec_len, vec_capacity};
ghost use Rattle.std.specs.Cmp.{IsTotalOrder};
ghost use Rattle.std.specs.List.Sorted.{IsSorted};
ghost use Rattle.shop_model.specs.lists.Rankings.{put_among};
ghost use Rattle.shop_ranking.specs.Order.{IsAmong, Passes};

use crate::ranked::Ranked;

/// How many of the others the element comes after.
fn place_in<T: Ranked>(element: &T, others: &[T]) -> usize
    requires order { IsTotalOrder T.order }
    requires sorted { IsSorted T.order others.now }
    ensures within { result ≤ length others.now }
    ensures passes { Passes T.order element.now others.now result }
{
    others.partition_point(|other| element.compare(other).is_gt())
}

/// Puts the element at its place; takes no memory.
pub fn put_in<T: Ranked + Drop>(list: &mut Vec<T>, element: T)
    requires order { IsTotalOrder T.order }
    requires sorted { IsSorted T.order list.old.items }
    requires room { vec_len list.old < vec_capacity list.old }
    ensures items { list.new.items ≡ put_among T.order element list.old.items }
    ensures capacity { vec_capacity list.new ≡ vec_capacity list.old }
{
    let place = place_in(&element, list);
    match list.insert(place, element) {
        Ok(()) => {}
        Err(_) => unreachable!(),
    }
}

/// Takes the element out.
pub(crate) fn take_out<T: Ranked>(list: &mut Vec<T>, element: &T) -> T
    requires order { IsTotalOrder T.order }
    requires sorted { IsSorted T.order list.old.items }
    requires among { IsAmong T.order element.now list.old.items }
    ensures element { result ≡ element.now }
    ensures others { (others : List T) → list.old.items ≡ put_among T.order element.now others → list.new.items ≡ others }
    ensures capacity { vec_capacity list.new ≡ vec_capacity list.old }
{
    let place = place_in(element, list);
    list.remove(place)
}
