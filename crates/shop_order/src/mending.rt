//! An item as it is asked for.
ghost use Rattle.std.specs.Prelude.{◌≡◌, IfOk};
ghost use Rattle.shop_order.specs.AdminConfirm as spec;

use shop_model::{AdminConfirm, Item, ItemDetails};
use shop_text::{Caption, Memory, Shared};
use std::alloc::Global;

/// The item as it is asked for, with those that are related to it; the settle publishes it.
pub(crate) fn mended(
    alloc: Global,
    item: &Item,
    asked: &AdminConfirm,
    related: [u32; 5],
) -> Result<Item, Memory>
    ensures { IfOk result (λ mended. mended ≡ spec.mended_row asked.now related item.now) }
{
    let details = item.details.get();
    let details = ItemDetails {
        title: Caption::copy(alloc, details.title.bytes())?,
        author: details.author,
        subject: details.subject,
        publisher: Caption::copy(alloc, details.publisher.bytes())?,
        about: Caption::copy(alloc, details.about.bytes())?,
        related,
        thumb: Caption::copy(alloc, asked.thumb.bytes())?,
        image: Caption::copy(alloc, asked.image.bytes())?,
        srp: details.srp,
        cost: asked.cost,
        first_stock: details.first_stock,
        pages: details.pages,
        backing: details.backing,
    };
    Ok(Item {
        id: item.id,
        published: item.published,
        stock: item.stock,
        restocks: item.restocks,
        details: Shared::new(alloc, details)?,
    })
}
