ghost use Rattle.std.specs.Prelude.{◌≡◌, ℕ, ◌<◌};
ghost use Rattle.std.specs.Bool.{OnTrue};
ghost use Rattle.shop_book.specs.Counted as spec;

use shop_text::Memory;
use std::alloc::Global;
use std::collections::HashMap;

/// How many entries each caller has.
#[derive(Drop)]
pub(crate) struct Counts {
    by_caller: HashMap<u32, u64>,
}

impl Counts {
    pub(crate) fn new(alloc: Global) -> Counts
        ensures { (caller : ℕ) → spec.count_in result caller ≡ 0 }
    {
        Counts {
            by_caller: HashMap::new(alloc),
        }
    }

    /// How many entries a caller has.
    pub(crate) fn of(&self, caller: u32) -> u64
        ensures { result ≡ spec.count_in self.now caller }
    {
        match self.by_caller.get(&caller) {
            Some(count) => *count,
            None => 0,
        }
    }

    /// Makes room for one caller more; answers whether there is.
    pub(crate) fn make_room(&mut self) -> bool
        ensures same { (caller : ℕ) → spec.count_in self.new caller ≡ spec.count_in self.old caller }
        ensures room { OnTrue result (spec.HasRoom self.new) }
    {
        self.by_caller.reserve(1).is_ok()
    }

    /// Sets the count of a caller.
    pub(crate) fn set(&mut self, caller: u32, count: u64)
        requires { spec.HasRoom self.old }
        ensures { (other : ℕ) → spec.count_in self.new other ≡ spec.with_count (spec.count_in self.old) caller count other }
    {
        match self.by_caller.insert(caller, count) {
            Ok(_) => {}
            Err(_) => unreachable!(),
        }
    }
}
