//! The one call that has a store: it reads the rows that an interaction asks for, round by round, and
//! makes the attempt of what the interaction decides by them, whose page is in the draft that it lends.
ghost use Rattle.std.specs.Prelude.{◌≡◌, ◌∷◌, [], List, ℕ, None, IfOk};
ghost use Rattle.shop_model.specs.declared.requests.Request.{Request};
ghost use Rattle.shop_history.specs.declared.keys.Key.TheVariants as key_kinds;
ghost use Rattle.shop_attempt.specs.declared.attempts.ReadOf.{ReadOf};
ghost use Rattle.shop_attempt.specs.Marks.{Looks};
ghost use Rattle.shop_browse.specs.declared.attempted.Ask.{Ask};
ghost use Rattle.shop_browse.specs.Attempts.{AttemptedAs, Suits, asking_of};
ghost use Rattle.shop_browse.specs.Driver as spec;

use crate::{Ask, Attempted};
use shop_attempt::{Attempt, ReadOf, Store, Write, read};
use shop_cache::ListLines;
use shop_draft::Draft;
use shop_history::{Act, Key};
use shop_text::{Listed, Memory};
use std::alloc::Global;

/// The most rounds of an interaction, the last of which decides.
const ROUNDS: u32 = 7;

/// How many reads have room from the start: those of most requests.
const READS: usize = 11;

/// What an interaction does next.
#[derive(Drop)]
pub enum Next {
    /// It reads this row.
    ReadOne(Key),
    /// It reads these two rows.
    ReadTwo(Key, Key),
    /// It reads these rows.
    Read(Listed<Key>),
    /// It shows the page that it has written, and changes nothing.
    Show,
    /// It shows the page that it has written of a list, by these lines, and changes nothing.
    ShowList(ListLines),
    /// It does an act, by these writes; the page that it has written waits for what the settle draws.
    Change(Act, Listed<Write>),
    /// A payment is asked for; nothing is written yet.
    Pay,
    /// No shop shows what was read.
    Never,
}

/// A request as a function of the rows that it has read; it may keep what it works out for its next round.
pub trait Interaction {
    /// What is asked for.
    ghost request: { Self → Request };

    /// These are reads that it asked for, in so many rounds.
    ghost follows: { Self → Ask → ℕ → List ReadOf → Type 0 };

    /// What it does after so many rounds of reads; it writes its page into the draft.
    fn next(
        &mut self,
        alloc: Global,
        ask: &Ask,
        round: u32,
        reads: &[ReadOf],
        draft: &mut Draft,
    ) -> Result<Next, Memory>
        requires follows { follows self.old ask.now round reads.now }
        requires seen { spec.AreSeen ask.now.index.now reads.now }
        ensures same { request self.new ≡ request self.old }
        ensures next { IfOk result (spec.IsNext (follows self.new ask.now) (request self.new) ask.now round reads.now draft.new) };
}

/// Reads one row more; what is known of the key is known where it is called.
#[inline(always)]
fn add_read<St: Store>(store: &mut St, reads: &mut Vec<ReadOf>, key: Key) -> Result<(), Memory>
    ensures looks { Looks St.seat St.marked store.old store.new }
    ensures reads { IfOk result (λ _. spec.AddsReads (St.seat store.old) (St.seat store.new) (key ∷ []) reads.old.items reads.new.items) }
{
    let read = read(store, key)?;
    reads.push(read)?;
    Ok(())
}

/// Reads one row more.
#[inline(never)]
fn read_one<St: Store>(store: &mut St, reads: &mut Vec<ReadOf>, key: Key) -> Result<(), Memory>
    ensures looks { Looks St.seat St.marked store.old store.new }
    ensures reads { IfOk result (λ _. spec.AddsReads (St.seat store.old) (St.seat store.new) (key ∷ []) reads.old.items reads.new.items) }
{
    add_read(store, reads, key)
}

/// Reads two rows more.
fn read_two<St: Store>(
    store: &mut St,
    reads: &mut Vec<ReadOf>,
    one: Key,
    other: Key,
) -> Result<(), Memory>
    ensures looks { Looks St.seat St.marked store.old store.new }
    ensures reads { IfOk result (λ _. spec.AddsReads (St.seat store.old) (St.seat store.new) (one ∷ other ∷ []) reads.old.items reads.new.items) }
{
    read_one(store, reads, one)?;
    read_one(store, reads, other)
}

/// Reads rows, one after another.
fn read_all<St: Store>(
    store: &mut St,
    reads: &mut Vec<ReadOf>,
    keys: Listed<Key>,
) -> Result<(), Memory>
    ensures looks { Looks St.seat St.marked store.old store.new }
    ensures reads { IfOk result (λ _. spec.AddsReads (St.seat store.old) (St.seat store.new) keys reads.old.items reads.new.items) }
{
    let keys = keys.into_vec();
    reads.reserve(keys.len())?;
    for key in keys {
        read_one(store, reads, key)?;
    }
    Ok(())
}

/// The attempt by what was read, which changes nothing.
fn looked(ask: &Ask, reads: Vec<ReadOf>) -> Attempt
    ensures { result ≡ spec.attempt_with ask.now reads.items None None }
{
    Attempt {
        reads: Listed::from_vec(reads),
        moment: ask.moment,
        draw: ask.draw,
        writes: None,
        act: None,
    }
}

/// The reads before the first round: that of the number of items, or none.
#[inline(always)]
fn first_reads<St: Store>(
    alloc: Global,
    store: &mut St,
    counted: bool,
) -> Result<Vec<ReadOf>, Memory>
    ensures looks { Looks St.seat St.marked store.old store.new }
    ensures reads { IfOk result (λ reads. spec.AddsReads (St.seat store.old) (St.seat store.new) (spec.first_keys counted) [] reads.items) }
{
    let mut reads = Vec::with_capacity(alloc, READS)?;
    if counted {
        add_read(store, &mut reads, Key::Count)?;
    }
    Ok(reads)
}

/// An attempt at an interaction, which writes its page into the draft; the number of items is read first
/// where it goes by that.
#[inline(always)]
fn attempt_from<St: Store, I: Interaction + Drop>(
    alloc: Global,
    store: &mut St,
    ask: &Ask,
    counted: bool,
    interaction: I,
    draft: &mut Draft,
) -> Attempted
    requires begins { spec.Begins (spec.first_keys counted) (I.follows interaction ask.now) (I.request interaction) ask.now }
    requires suits { Suits ask.now (St.seat store.old) }
    ensures looks { Looks St.seat St.marked store.old store.new }
    ensures attempted { AttemptedAs (St.seat store.old) (St.seat store.new) (asking_of ask.now (I.request interaction)) draft.new result }
{
    let mut interaction = interaction;
    let Ok(mut reads) = first_reads(alloc, store, counted) else {
        return Attempted::Memory;
    };
    for round in 0..ROUNDS {
        let Ok(next) = interaction.next(alloc, ask, round, &reads, draft) else {
            return Attempted::Memory;
        };
        match next {
            Next::ReadOne(key) => {
                let Ok(()) = read_one(store, &mut reads, key) else {
                    return Attempted::Memory;
                };
            }
            Next::ReadTwo(one, other) => {
                let Ok(()) = read_two(store, &mut reads, one, other) else {
                    return Attempted::Memory;
                };
            }
            Next::Read(keys) => {
                let Ok(()) = read_all(store, &mut reads, keys) else {
                    return Attempted::Memory;
                };
            }
            Next::Show => return Attempted::Ready(looked(ask, reads)),
            Next::ShowList(lines) => return Attempted::Listed(looked(ask, reads), lines),
            Next::Change(act, writes) => {
                return Attempted::Ready(Attempt {
                    writes: Some(writes),
                    act: Some(act),
                    ..looked(ask, reads)
                });
            }
            Next::Pay => return Attempted::Pay(looked(ask, reads)),
            Next::Never => return Attempted::Contradiction(looked(ask, reads)),
        }
    }
    unreachable!()
}

/// An attempt at an interaction, which writes its page into the draft.
pub fn attempt_by<St: Store, I: Interaction + Drop>(
    alloc: Global,
    store: &mut St,
    ask: &Ask,
    interaction: I,
    draft: &mut Draft,
) -> Attempted
    requires begins { I.follows interaction ask.now 0 [] }
    requires suits { Suits ask.now (St.seat store.old) }
    ensures looks { Looks St.seat St.marked store.old store.new }
    ensures attempted { AttemptedAs (St.seat store.old) (St.seat store.new) (asking_of ask.now (I.request interaction)) draft.new result }
{
    attempt_from(alloc, store, ask, false, interaction, draft)
}

/// An attempt at an interaction that goes by the number of items, which is read before its first round.
pub fn attempt_counted<St: Store, I: Interaction + Drop>(
    alloc: Global,
    store: &mut St,
    ask: &Ask,
    interaction: I,
    draft: &mut Draft,
) -> Attempted
    requires begins { spec.Begins (key_kinds.Count ∷ []) (I.follows interaction ask.now) (I.request interaction) ask.now }
    requires suits { Suits ask.now (St.seat store.old) }
    ensures looks { Looks St.seat St.marked store.old store.new }
    ensures attempted { AttemptedAs (St.seat store.old) (St.seat store.new) (asking_of ask.now (I.request interaction)) draft.new result }
{
    attempt_from(alloc, store, ask, true, interaction, draft)
}
