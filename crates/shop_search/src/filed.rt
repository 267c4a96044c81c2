ghost use Rattle.std.specs.Prelude.{◌≡◌, IfOk};
ghost use Rattle.shop_model.specs.lists.Catalogues.{naming};
ghost use Rattle.shop_search.specs.Titles.{titled};

use shop_model::{Item, ItemDetails};
use shop_ranking::Ranked;
use shop_text::{Memory, Shared};
use std::cmp::Ordering;
use std::marker::Model;

/// An item in a list.
#[derive(Drop)]
pub(crate) struct Filed {
    id: u32,
    details: Shared<ItemDetails>,
}

impl Model for Filed {
    ghost use Rattle.shop_search.specs.Titles.{TitledItem};

    ghost Value = { TitledItem };

    ghost view = { λ f. record { title = f.details.title; id = f.id } };
}

impl Ranked for Filed {
    ghost use Rattle.shop_search.specs.Titles.{by_titled};

    ghost order = { by_titled };

    ghost id_of = { λ f. f.id };

    fn compare(&self, other: &Self) -> Ordering {
        let title = self.details.get().title.bytes();
        let titles = title.cmp(other.details.get().title.bytes());
        titles.then(self.id.cmp(&other.id))
    }

    fn id(&self) -> u32 {
        self.id
    }
}

impl Filed {
    /// The item; takes no memory.
    pub(crate) fn of(item: &Item) -> Result<Filed, Memory>
        ensures { IfOk result (λ filed. filed ≡ titled (naming item.now)) }
    {
        Ok(Filed {
            id: item.id,
            details: item.details.share()?,
        })
    }
}
