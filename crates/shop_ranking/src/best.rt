//! The best sold items of each subject, in order as the units of items change.
ghost use Rattle.std.specs.Prelude.{◌≡◌, ◌≢◌, ◌-◌, ◌<◌, ◌≤◌, true, false, List, IfOk, OnOk, length, map, replicate, set, slice_index, vec_len, vec_capacity};
ghost use Rattle.std.specs.List.Sorted.{IsSorted};
ghost use Rattle.shop_model.specs.lists.Rankings.{Sale, in_order, better};
ghost use Rattle.shop_model.specs.rows.Limits.{list_limit};
ghost use Rattle.shop_model.specs.rows.Sound.{Has};
ghost use Rattle.shop_ranking.specs.Order.{IsInOrder, StandsIn, put_shown};
ghost use Rattle.shop_ranking.specs.StandingBest.{is_sold, standing_best, standing_sales};

use crate::ranked::{Ranked, first_ids, renew_ids};
use crate::ranking::{put_in, take_out};
use crate::subjects::{new_lists, subjects_of};
use shop_model::{Item, Subject};
use shop_text::{Listed, Memory};
use std::alloc::Global;
use std::cmp::Ordering;
use std::marker::Model;

/// An item, and the units of it that were sold, in the order of best sold items.
#[derive(Drop)]
struct Sold {
    id: u32,
    units: u64,
}

impl Model for Sold {
    ghost use Rattle.shop_model.specs.lists.Rankings.{Sale};

    ghost Value = { Sale };

    ghost view = { λ s. record { id = s.id; units = s.units } };
}

impl Ranked for Sold {
    ghost use Rattle.shop_model.specs.lists.Rankings.{better};

    ghost order = { better };

    ghost id_of = { λ s. s.id };

    fn compare(&self, other: &Self) -> Ordering {
        other.units.cmp(&self.units).then(self.id.cmp(&other.id))
    }

    fn id(&self) -> u32 {
        self.id
    }
}

impl Sold {
    /// Whether it has units.
    fn is_sold(&self) -> bool
        ensures { result ≡ is_sold self.now }
    {
        self.units > 0
    }
}

/// Takes a sale out of the list, where it stands if it has units.
fn take_sale(list: &mut Vec<Sold>, sale: &Sold)
    requires { StandsIn is_sold better sale.now list.old.items }
    ensures others { (others : List Sale) → list.old.items ≡ put_shown is_sold better sale.now (in_order better others)
        → list.new.items ≡ in_order better others }
    ensures capacity { vec_capacity list.new ≡ vec_capacity list.old }
{
    if sale.is_sold() {
        take_out(list, sale);
    }
}

/// Puts a sale into the list if it has units.
fn put_sale(list: &mut Vec<Sold>, sale: Sold)
    requires sorted { IsSorted better list.old.items }
    requires room { vec_len list.old < vec_capacity list.old }
    ensures items { list.new.items ≡ put_shown is_sold better sale list.old.items }
    ensures capacity { vec_capacity list.new ≡ vec_capacity list.old }
{
    if sale.is_sold() {
        put_in(list, sale);
    }
}

/// The units that stand of each item, and for each subject its items with units in the order of best
/// sold ones. Each list has room for all items of its subject, so that no change takes memory.
#[derive(Drop)]
pub struct Best {
    subjects: Vec<Subject>,
    units: Vec<u64>,
    /// By the numbers of the subjects.
    lists: Vec<Vec<Sold>>,
}

impl Model for Best {
    ghost use Rattle.shop_model.specs.lists.Rankings.{better};
    ghost use Rattle.shop_ranking.specs.Standing.{AreKept};
    ghost use Rattle.shop_ranking.specs.StandingBest.{Units, is_sold, sales_from};

    ghost Value = { Units };

    ghost view = { λ b. record { subjects = b.subjects.items; units = b.units.items } };

    ghost invariant = { λ b. AreKept is_sold better b.subjects.items (sales_from 1 b.units.items) b.lists.items };
}

impl Best {
    /// The items, none of which has units.
    pub fn new(alloc: Global, items: &[Item]) -> Result<Best, Memory>
        ensures subjects { IfOk result (λ best. best.subjects ≡ map (λ i. i.subject) items.now) }
        ensures units { IfOk result (λ best. best.units ≡ replicate (length items.now) 0) }
    {
        let subjects = subjects_of(alloc, items)?;
        let lists = new_lists(alloc, &subjects)?;
        Ok(Best {
            subjects,
            units: vec![in alloc; 0; items.len()]?,
            lists,
        })
    }

    /// The units that stand of an item.
    pub fn quantity(&self, item: u32) -> u64
        requires { Has (length self.now.units) item }
        ensures { result ≡ slice_index self.now.units (item - 1) }
    {
        self.units[item as usize - 1]
    }

    /// Sets the units that stand of an item; takes no memory.
    pub fn bump(&mut self, item: u32, units: u64)
        requires { Has (length self.old.units) item }
        ensures { self.new ≡ record self.old { units = set self.old.units (item - 1) units } }
    {
        let place = item as usize - 1;
        let old = Sold {
            id: item,
            units: self.units[place],
        };
        let number = self.subjects[place].number() as usize;
        let list = &mut self.lists[number];
        take_sale(list, &old);
        put_sale(list, Sold { id: item, units });
        self.units[place] = units;
    }

    /// The ids of the best sold items of a subject, 50 at most.
    pub fn top50(&self, alloc: Global, subject: Subject) -> Result<Listed<u32>, Memory>
        ensures ids { IfOk result (λ ids. ids ≡ standing_best self.now subject) }
        ensures order { OnOk result (IsInOrder better (standing_sales self.now subject)) }
    {
        first_ids(alloc, &self.lists[subject.number() as usize])
    }

    /// Writes the ids of the best sold items of a subject, 50 at most, over those that were the best
    /// before; answers whether they differ. Takes no memory.
    pub fn renew(&self, subject: Subject, ids: &mut Vec<u32>) -> bool
        requires { list_limit ≤ vec_capacity ids.old }
        ensures ids { ids.new.items ≡ standing_best self.now subject }
        ensures same { result ≡ false → ids.new.items ≡ ids.old.items }
        ensures other { result ≡ true → ids.new.items ≢ ids.old.items }
        ensures capacity { vec_capacity ids.new ≡ vec_capacity ids.old }
    {
        renew_ids(&self.lists[subject.number() as usize], ids)
    }
}
