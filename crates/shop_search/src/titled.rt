ghost use Rattle.std.specs.Prelude.{◌≡◌, ◌++◌, ◌+◌, ◌≤◌, length, map, take, List, IfOk, vec_len, vec_capacity};
ghost use Rattle.shop_model.specs.lists.Rankings.{in_order};
ghost use Rattle.shop_model.specs.rows.Limits.{list_limit};
ghost use Rattle.shop_search.specs.Titles.{TitledItem, by_titled};

use shop_ranking::{Ranked, first_ids, put_in};
use shop_text::{Listed, Memory};
use std::alloc::Global;
use std::cmp::Ordering;
use std::marker::Model;

/// An item by its title.
#[derive(Drop)]
pub struct Titled<'a> {
    pub id: u32,
    pub title: &'a [u8],
}

impl<'a> Model for Titled<'a> {
    ghost use Rattle.shop_search.specs.Titles.{TitledItem};

    ghost Value = { TitledItem };

    ghost view = { λ t. record { title = t.title.now; id = t.id } };
}

impl<'a> Ranked for Titled<'a> {
    ghost use Rattle.shop_search.specs.Titles.{by_titled};

    ghost order = { by_titled };

    ghost id_of = { λ t. t.id };

    fn compare(&self, other: &Self) -> Ordering {
        let titles = self.title.cmp(other.title);
        titles.then(self.id.cmp(&other.id))
    }

    fn id(&self) -> u32 {
        self.id
    }
}

impl<'a> Titled<'a> {
    /// The same again.
    fn again(&self) -> Titled<'a>
        ensures { result ≡ self.now }
    {
        Titled {
            id: self.id,
            title: self.title,
        }
    }
}

/// Puts each item at its place.
fn put_all<'a>(list: &mut Vec<Titled<'a>>, items: &[Titled<'a>])
    requires order { (before : List TitledItem) × (list.old.items ≡ in_order by_titled before) }
    requires room { vec_len list.old + length items.now ≤ vec_capacity list.old }
    ensures order { (before : List TitledItem) → list.old.items ≡ in_order by_titled before → list.new.items ≡ in_order by_titled (before ++ items.now) }
    ensures capacity { vec_capacity list.new ≡ vec_capacity list.old }
{
    for item in items {
        put_in(list, item.again());
    }
}

/// The ids of the first of two lists, 50 at most: titles in the order of their bytes, then smaller ids.
pub fn merge<'a>(
    alloc: Global,
    first: &[Titled<'a>],
    second: &[Titled<'a>],
) -> Result<Listed<u32>, Memory>
    ensures { IfOk result (λ ids. ids ≡ map (λ t. t.id) (take list_limit (in_order by_titled (first.now ++ second.now)))) }
{
    let mut both = Vec::with_capacity(alloc, first.len())?;
    put_all(&mut both, first);
    both.reserve(second.len())?;
    put_all(&mut both, second);
    first_ids(alloc, &both)
}
