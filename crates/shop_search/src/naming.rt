ghost use Rattle.std.specs.Prelude.{◌≡◌, Some, IfOk, map};
ghost use Rattle.shop_model.specs.lists.Catalogues.{naming};
ghost use Rattle.shop_search.specs.Namings.{IsNamedBy};

use shop_model::{Author, Item, ItemDetails};
use shop_text::{Listed, Memory, Shared};
use std::alloc::Global;
use std::marker::Model;

/// An item by what never changes of it, as its first details have it.
#[derive(Drop)]
pub(crate) struct Named {
    id: u32,
    details: Shared<ItemDetails>,
}

impl Model for Named {
    ghost use Rattle.shop_model.specs.lists.Catalogues.{Naming};

    ghost Value = { Naming };

    ghost view = { λ n. record { id = n.id; title = n.details.title; author = n.details.author; subject = n.details.subject } };
}

impl Named {
    /// The naming of the item; takes no memory.
    pub(crate) fn of(item: &Item) -> Result<Named, Memory>
        ensures { IfOk result (λ named. named ≡ naming item.now) }
    {
        Ok(Named {
            id: item.id,
            details: item.details.share()?,
        })
    }

    /// Details of the item, which tell what never changes of it.
    pub(crate) fn details(&self) -> &Shared<ItemDetails>
        ensures { IsNamedBy (Some self.now) result.now }
    {
        &self.details
    }
}

/// The namings of the items.
pub(crate) fn namings(alloc: Global, items: &[Item]) -> Result<Listed<Named>, Memory>
    ensures { IfOk result (λ named. named ≡ map naming items.now) }
{
    let mut named = Listed::with_capacity(alloc, items.len())?;
    for item in items {
        named.push(Named::of(item)?)?;
    }
    Ok(named)
}

/// One more owner of each author.
pub(crate) fn share_authors(
    alloc: Global,
    authors: &[Shared<Author>],
) -> Result<Listed<Shared<Author>>, Memory>
    ensures { IfOk result (λ shared. shared ≡ authors.now) }
{
    let mut shared = Listed::with_capacity(alloc, authors.len())?;
    for author in authors {
        shared.push(author.share()?)?;
    }
    Ok(shared)
}
