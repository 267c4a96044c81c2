//! The lists that are kept, where an item is administered: it is published anew, and the newest items of
//! its subject are listed anew.
ghost use Rattle.std.specs.Prelude.{◌≡◌, ◌≤◌, ℕ, ◌-◌, ◌∷◌, [], length, set, get_or};
ghost use Rattle.shop_model.specs.asked.AdminAsked.{AdminAsked};
ghost use Rattle.shop_model.specs.declared.tables.Tables.{Tables};
ghost use Rattle.shop_model.specs.rows.Subjects.{subjects};
ghost use Rattle.shop_model.specs.trade.Mending.{tables_mended};
ghost use Rattle.shop_history.specs.declared.keys.Key.{Key};
ghost use Rattle.shop_history.specs.MayChange.{subject_at};
ghost use Rattle.shop_history.proofs.cited.Versions.{RaisedFor};
ghost use Rattle.shop_ranking.specs.StandingNewest.{standing_newest};
ghost use Rattle.shop_book.specs.KeptLists.{AreLists};
ghost use Rattle.shop_book.specs.Mending as spec;
ghost use Rattle.shop_book.specs.Places.{subject_id};
ghost use Rattle.shop_book.specs.Stored.{stored, numbers, HasPlaces, MorePlaces};

use crate::listing::Listing;
use crate::lists::Lists;
use crate::rows::Rows;
use crate::versions::Versions;
use shop_history::Key;
use shop_model::Subject;
use shop_ranking::Newest;

/// Lists the newest items of a subject anew. Where they are others, the key that shows them gets this
/// number as its version.
#[inline(always)]
pub(crate) fn renew_newest(
    lists: &mut Vec<Listing>,
    newest: &Newest,
    subject: Subject,
    versions: &mut Versions,
    number: u64,
)
    requires size { length lists.old.items ≡ length subjects }
    requires place { 24 ≤ length (numbers versions.old 4) }
    ensures lists { lists.new.items ≡ set lists.old.items (subject_id subject - 1) (standing_newest newest.now subject) }
    ensures renewed { spec.IsListedAnew (get_or lists.old.items (subject_id subject - 1) []) (standing_newest newest.now subject) number subject (stored versions.old) (stored versions.new) }
    ensures places { MorePlaces versions.old versions.new }
{
    let list = &mut lists[subject.number() as usize];
    if list.renew(newest, subject) {
        versions.raise(Key::NewIn(subject), number);
    }
}

impl Lists {
    /// Moves the lists on where an item was administered. The key of the newest items of its subject gets
    /// this number as its version, if these are others than before.
    pub(crate) fn mend(&mut self, rows: &Rows, item: u32, versions: &mut Versions, number: u64)
        requires mended { (t : Tables) × (stamp : ℕ) × (asked : AdminAsked) × spec.IsMended t stamp asked item rows.now × AreLists t self.old }
        requires places { HasPlaces versions.old rows.now }
        ensures lists { (t : Tables) → (stamp : ℕ) → (asked : AdminAsked) → spec.IsMended t stamp asked item rows.now → AreLists t self.old → AreLists (tables_mended t stamp asked) self.new }
        ensures raised { (t : Tables) → (stamp : ℕ) → (asked : AdminAsked) → spec.IsMended t stamp asked item rows.now → AreLists t self.old
            → RaisedFor t (tables_mended t stamp asked) number (Key.NewIn (subject_at t item) ∷ []) (stored versions.old) (stored versions.new) }
        ensures places { MorePlaces versions.old versions.new }
    {
        let row = &rows.items[item as usize - 1];
        self.newest.redate(item, row.published);
        renew_newest(
            &mut self.newest_rows,
            &self.newest,
            row.details.get().subject,
            versions,
            number,
        );
    }
}
