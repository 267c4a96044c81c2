ghost use Rattle.std.specs.Prelude.{◌≡◌, ℕ, ◌<◌, All, length, vec_len, vec_capacity};
ghost use Rattle.std.specs.Bool.{OnTrue};
ghost use Rattle.shop_model.specs.declared.tables.Tables.{Tables};
ghost use Rattle.shop_history.specs.declared.acts.Act.{Act};
ghost use Rattle.shop_history.specs.declared.keys.Key.{Key};
ghost use Rattle.shop_history.specs.MayChange.{MayChange};
ghost use Rattle.shop_history.specs.Drawing as drawing;
ghost use Rattle.shop_history.proofs.cited.Versions.{RaisedWhere};
ghost use Rattle.shop_book.specs.Additions.{AreAdded};
ghost use Rattle.shop_book.specs.Counted as counted;
ghost use Rattle.shop_book.specs.Changing.{after, IsChange, IsDone, AreWatchable, IsExpected, RaisesAll};
ghost use Rattle.shop_book.specs.KeptLists.{AreLists, HasRoom};
ghost use Rattle.shop_book.specs.Planning.{keys_in};
ghost use Rattle.shop_book.specs.Readiness.{AreReady};
ghost use Rattle.shop_book.specs.RowsNow as now;
ghost use Rattle.shop_book.specs.RowsNow.{tables_with};
ghost use Rattle.shop_book.specs.Stored as versioned;
ghost use Rattle.shop_book.specs.Stored.{stored, HasPlaces};

use crate::counts::Counts;
use crate::ids::Sizes;
use crate::lists::Lists;
use crate::plan::Plan;
use crate::puts::Put;
use crate::rows::Rows;
use crate::versions::Versions;
use crate::watching::{Watched, raise_changed, raise_if_changed};
use shop_history::{Entry, Ids, Key};

/// Makes room for an item that is added, if one is; answers whether there is.
fn expect(versions: &mut Versions, plan: &Plan) -> bool
    ensures rest { versions.new ≡ record versions.old { added = versions.new.added } }
    ensures added { versions.new.added ≡ record versions.old.added { room = versions.new.added.room } }
    ensures room { OnTrue result (IsExpected versions.new plan.now) }
{
    match plan {
        Plan::Add(addition) => versions.added.make_room(&addition.get().item),
        _ => true,
    }
}

/// Makes room for an entry, for the rows that the writes add with their versions, and for what a plan
/// takes; answers whether there is.
pub(crate) fn make_room(
    log: &mut Vec<Entry>,
    rows: &mut Rows,
    versions: &mut Versions,
    counts: &mut Counts,
    lists: &mut Lists,
    puts: &[Put],
    plan: &Plan,
) -> bool
    requires { HasPlaces versions.old rows.old }
    ensures log { log.new.items ≡ log.old.items }
    ensures rows { (t : Tables) → tables_with t rows.new ≡ tables_with t rows.old }
    ensures versions { (key : Key) → stored versions.new key ≡ stored versions.old key }
    ensures places { HasPlaces versions.new rows.new }
    ensures added { versions.new.added ≡ record versions.old.added { room = versions.new.added.room } }
    ensures counts { (caller : ℕ) → counted.count_in counts.new caller ≡ counted.count_in counts.old caller }
    ensures log_room { OnTrue result (vec_len log.new < vec_capacity log.new) }
    ensures rows_room { OnTrue result (now.HasRoom rows.new (length puts.now)) }
    ensures versions_room { OnTrue result (versioned.HasRoom versions.new rows.new puts.now) }
    ensures versions_spare { OnTrue result (versioned.HasSpare versions.new (keys_in plan.now)) }
    ensures item_room { OnTrue result (IsExpected versions.new plan.now) }
    ensures counts_room { OnTrue result (counted.HasRoom counts.new) }
    ensures lists { (t : Tables) → AreLists t lists.old → AreLists t lists.new }
    ensures lists_room { OnTrue result (HasRoom lists.new) }
{
    let log_room = log.reserve(1).is_ok();
    let rows_room = rows.make_room(puts.len());
    let versions_room = versions.make_room(rows, puts, plan.len());
    let item_room = expect(versions, plan);
    let counts_room = counts.make_room();
    let lists_room = lists.make_room();
    log_room && rows_room && versions_room && item_room && counts_room && lists_room
}

/// Gives each of these keys this number as its version.
fn raise_all(versions: &mut Versions, keys: Vec<Key>, number: u64)
    requires places { All (versioned.HasPlace versions.old) keys.items }
    requires spare { versioned.HasSpare versions.old (length keys.items) }
    ensures raised { RaisesAll keys.items number (stored versions.old) (stored versions.new) }
    ensures places { versioned.MorePlaces versions.old versions.new }
{
    for key in keys {
        versions.raise(key, number);
    }
}

/// Gives the keys that show something else than before a change this number as their version, and moves
/// the lists on.
fn carry_out(rows: &Rows, versions: &mut Versions, lists: &mut Lists, plan: Plan, number: u64)
    requires done { (t : Tables) × (act : Act) × (stamp : ℕ) × IsDone t act stamp rows.now lists.old plan }
    requires places { HasPlaces versions.old rows.now }
    requires spare { versioned.HasSpare versions.old (keys_in plan) }
    requires room { HasRoom lists.old }
    requires watchable { AreWatchable versions.old plan }
    requires expected { IsExpected versions.old plan }
    ensures lists { (t : Tables) → (act : Act) → (stamp : ℕ) → IsDone t act stamp rows.now lists.old plan → AreLists (after t stamp act) lists.new }
    ensures added { (t : Tables) → (act : Act) → (stamp : ℕ) → IsDone t act stamp rows.now lists.old plan → AreAdded t versions.old.added → AreAdded (after t stamp act) versions.new.added }
    ensures raised { (t : Tables) → (act : Act) → (stamp : ℕ) → IsDone t act stamp rows.now lists.old plan → AreAdded t versions.old.added
        → RaisedWhere t (after t stamp act) number (MayChange t act) (stored versions.old) (stored versions.new) }
    ensures places { HasPlaces versions.new rows.now }
{
    match plan {
        Plan::One(kept) => raise_if_changed(versions, rows, kept, number),
        Plan::Compare(watched) => raise_changed(versions, rows, watched, number),
        Plan::Sell(keys) => {
            raise_all(versions, keys, number);
            lists.sell(rows, versions, number);
        }
        Plan::Mend(item, row) => {
            let key = Key::Item(item);
            raise_if_changed(versions, rows, Watched { key, row }, number);
            lists.mend(rows, item, versions, number);
        }
        Plan::Add(addition) => {
            versions.raise(Key::Item(rows.items.len() as u32), number);
            versions.added.take(number);
            lists.add(rows, addition.into_inner(), versions, number);
        }
    }
}

/// Makes the writes of an act. Keys that show something else then get this number as their version. The
/// ids of the new rows.
pub(crate) fn change_rows(
    rows: &mut Rows,
    versions: &mut Versions,
    lists: &mut Lists,
    plan: Plan,
    stamp: u64,
    number: u64,
    puts: Vec<Put>,
) -> Ids
    requires change { (t : Tables) × (act : Act) × IsChange t act rows.old lists.old plan stamp puts.items }
    requires ready { AreReady rows.old stamp puts.items }
    requires room { versioned.HasRoom versions.old rows.old puts.items }
    requires spare { versioned.HasSpare versions.old (keys_in plan) }
    requires expected { IsExpected versions.old plan }
    requires lists_room { HasRoom lists.old }
    ensures made { (t : Tables) → (act : Act) → IsChange t act rows.old lists.old plan stamp puts.items → tables_with t rows.new ≡ after t stamp act }
    ensures lists { (t : Tables) → (act : Act) → IsChange t act rows.old lists.old plan stamp puts.items → AreLists (after t stamp act) lists.new }
    ensures added { (t : Tables) → (act : Act) → IsChange t act rows.old lists.old plan stamp puts.items → AreAdded t versions.old.added → AreAdded (after t stamp act) versions.new.added }
    ensures raised { (t : Tables) → (act : Act) → IsChange t act rows.old lists.old plan stamp puts.items → AreAdded t versions.old.added
        → RaisedWhere t (after t stamp act) number (MayChange t act) (stored versions.old) (stored versions.new) }
    ensures ids { (t : Tables) → (act : Act) → IsChange t act rows.old lists.old plan stamp puts.items → result ≡ drawing.new_ids t (after t stamp act) }
    ensures places { HasPlaces versions.new rows.new }
{
    let before = Sizes::of(rows);
    rows.put_all(stamp, puts);
    carry_out(rows, versions, lists, plan, number);
    before.new_ids(rows)
}
