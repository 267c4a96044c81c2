//! Callers who wait until another gives their share back, or the turn.
ghost use Rattle.std.specs.Prelude.{◌*◌, ◌^◌, ◌<◌};

use crate::rule::{Common, TURN};
use std::hint::spin_loop;
use std::sync::Wait;
use std::sync::atomic::{AtomicU64, Ordering};

/// How often a caller looks whether it may go on before it sleeps. These looks take some hundred
/// microseconds: longer than nearly all turns, and than what a sleep costs with its wake-up.
const LOOKS: u32 = 50_000;

/// How many callers sleep, or are about to.
#[derive(Drop)]
pub struct Sleepers {
    count: AtomicU64,
}

impl Sleepers {
    pub fn none() -> Sleepers {
        Sleepers {
            count: AtomicU64::new(0),
        }
    }

    /// Waits while the word, that of the turn or of the caller itself, isn't 0, at first awake, then asleep; it
    /// may end for no reason.
    pub fn wait<R: Wait>(&self, rt: &R, shared: &Common, word: usize)
        requires { word < shared.now.table_id.words }
    {
        for _ in 0..LOOKS {
            if shared.peek(word) == 0 {
                return;
            }
            spin_loop();
        }
        self.sleep(rt, shared, word);
    }

    /// Sleeps unless the word is 0. Who sleeps is counted before it looks at the word once more.
    fn sleep<R: Wait>(&self, rt: &R, shared: &Common, word: usize)
        requires { word < shared.now.table_id.words }
    {
        self.count.fetch_add(1, Ordering::SeqCst);
        let found = shared.peek(word);
        if 0 < found && found <= u64::from(u32::MAX) {
            shared.park(rt, word, found as u32);
        }
        self.count.fetch_sub(1, Ordering::SeqCst);
    }

    /// Wakes all who sleep, where there is one; for a caller who has given the shares back, and the turn. All,
    /// since those who only read need no turn and wake nobody. Who sleeps saw the word after it was counted, so
    /// the count that the caller who then let go of that word reads has it.
    pub fn wake(&self, shared: &Common, callers: usize)
        requires words { 16 * callers < shared.now.table_id.words }
        requires few { callers < 2 ^ 32 }
    {
        if self.count.load(Ordering::SeqCst) != 0 {
            for before in 0..callers {
                shared.wake_all(16 * (before + 1));
            }
            shared.wake_all(TURN);
        }
    }
}
