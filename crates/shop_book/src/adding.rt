//! The lists that are kept, where an item is added: the ranks are those with it, and the newest items of its
//! subject are listed anew.
ghost use Rattle.std.specs.Prelude.{ℕ, ◌∷◌, []};
ghost use Rattle.shop_model.specs.asked.AddAsked.{AddAsked};
ghost use Rattle.shop_model.specs.declared.tables.Tables.{Tables};
ghost use Rattle.shop_model.specs.trade.Adding.{tables_added};
ghost use Rattle.shop_history.proofs.cited.Versions.{RaisedFor};
ghost use Rattle.shop_book.specs.Adding as spec;
ghost use Rattle.shop_book.specs.KeptLists.{AreLists};
ghost use Rattle.shop_book.specs.Stored.{stored, HasPlaces, MorePlaces};

use crate::addition::Addition;
use crate::lists::Lists;
use crate::mending::renew_newest;
use crate::rows::Rows;
use crate::versions::Versions;
use shop_history::Key;

impl Lists {
    /// Moves the lists on where the last item of the rows just came. The key of the newest items of its
    /// subject gets this number as its version, if these are others than before.
    pub(crate) fn add(
        &mut self,
        rows: &Rows,
        addition: Addition,
        versions: &mut Versions,
        number: u64,
    )
        requires added { (t : Tables) × (stamp : ℕ) × (asked : AddAsked) × spec.IsAdded t stamp asked addition rows.now × AreLists t self.old }
        requires places { HasPlaces versions.old rows.now }
        ensures lists { (t : Tables) → (stamp : ℕ) → (asked : AddAsked) → spec.IsAdded t stamp asked addition rows.now → AreLists t self.old → AreLists (tables_added t stamp asked) self.new }
        ensures raised { (t : Tables) → (stamp : ℕ) → (asked : AddAsked) → spec.IsAdded t stamp asked addition rows.now → AreLists t self.old
            → RaisedFor t (tables_added t stamp asked) number (Key.NewIn asked.subject ∷ []) (stored versions.old) (stored versions.new) }
        ensures places { MorePlaces versions.old versions.new }
    {
        let Addition {
            item: _,
            best,
            newest,
        } = addition;
        let row = &rows.items[rows.items.len() - 1];
        self.best = best;
        self.newest = newest;
        self.newest.redate(row.id, row.published);
        renew_newest(
            &mut self.newest_rows,
            &self.newest,
            row.details.get().subject,
            versions,
            number,
        );
    }
}
