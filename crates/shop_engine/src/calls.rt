//! The calls of a caller, and the word that is drawn for each.
ghost use Rattle.std.specs.Prelude.{◌≡◌};
ghost use Rattle.shop_edges.specs.Causes.{count_up};
ghost use Rattle.shop_engine.specs.Steps.{draw_of};

use shop_model::{Scale, Words, word};
use std::marker::Model;

/// The table of drawn words whose rows are the callers'.
const WORKERS: u64 = 16;

/// How many calls a caller has made; their number goes up to `u64::MAX`.
#[derive(Drop)]
pub(crate) struct Calls {
    caller: u32,
    seed: u32,
    scale: Scale,
    made: u64,
    /// Those of the calls to come.
    words: Words,
}

impl Model for Calls {
    ghost use Rattle.shop_engine.specs.Posts.{CallsState};
    ghost use Rattle.shop_engine.specs.CallsView.{calls_of, AreToCome};

    ghost Value = { CallsState };

    ghost view = { calls_of };

    ghost invariant = { λ i. AreToCome (calls_of i) i.words };
}

impl Calls {
    /// No call yet; the words are drawn by this seed and scale.
    pub(crate) fn new(caller: u32, seed: u32, scale: Scale) -> Calls
        ensures { result ≡ record { caller = record { number = caller; seed = seed; scale = scale }; made = 0 } }
    {
        let words = Words::new(seed, &scale, WORKERS, u64::from(caller));
        Calls {
            caller,
            seed,
            scale,
            made: 0,
            words,
        }
    }

    /// The caller's number.
    pub(crate) fn caller(&self) -> u32
        ensures { result ≡ self.now.caller.number }
    {
        self.caller
    }

    /// Counts one more call; its number, and its word.
    pub(crate) fn next(&mut self) -> (u64, u32)
        ensures call { result.0 ≡ count_up self.old.made }
        ensures draw { result.1 ≡ draw_of self.old.caller result.0 }
        ensures calls { self.new ≡ record { caller = self.old.caller; made = result.0 } }
    {
        if self.made == u64::MAX {
            let draw = word(self.seed, &self.scale, WORKERS, self.caller, self.made - 1);
            return (self.made, draw);
        }
        self.made += 1;
        (self.made, self.words.next())
    }
}
