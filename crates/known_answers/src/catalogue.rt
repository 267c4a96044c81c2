//! Items and authors that the other modules ask about.
ghost use Rattle.std.specs.Prelude.{◌≤◌};
ghost use Rattle.shop_model.specs.rows.Limits.{day_limit};

use shop_model::*;
use shop_text::{Caption, Listed, Memory, Shared, Text};
use std::alloc::Global;

pub fn item(
    alloc: Global,
    id: u32,
    title: &str,
    author: u32,
    subject: Subject,
    published: u32,
) -> Result<Item, Memory>
    requires { published ≤ day_limit }
{
    let details = ItemDetails {
        title: Caption::copy(alloc, title.as_bytes())?,
        author,
        subject,
        publisher: Caption::of(Text::new(alloc)),
        about: Caption::of(Text::new(alloc)),
        related: [0; 5],
        thumb: Caption::of(Text::new(alloc)),
        image: Caption::of(Text::new(alloc)),
        srp: 0,
        cost: 0,
        first_stock: 10,
        pages: 1,
        backing: Backing::Used,
    };
    Ok(Item {
        id,
        published,
        stock: 10,
        restocks: 0,
        details: Shared::new(alloc, details)?,
    })
}

pub fn author(alloc: Global, id: u32, last: &str) -> Result<Shared<Author>, Memory> {
    let author = Author {
        id,
        first: Caption::of(Text::new(alloc)),
        last: Caption::copy(alloc, last.as_bytes())?,
    };
    Shared::new(alloc, author)
}

/// Sixty items of one title; item n came out on day n.
pub fn sixty_items(alloc: Global) -> Result<Listed<Item>, Memory> {
    let mut items = Listed::new(alloc);
    for id in 1..=60 {
        items.push(item(alloc, id, "Night", 1, Subject::Arts, id)?)?;
    }
    Ok(items)
}

/// Tables of nothing but these authors and items.
pub fn tables_of(alloc: Global, authors: Listed<Shared<Author>>, items: Listed<Item>) -> Tables {
    Tables {
        countries: Listed::new(alloc),
        addresses: Listed::new(alloc),
        customers: Listed::new(alloc),
        authors,
        items,
        orders: Listed::new(alloc),
        carts: Listed::new(alloc),
        born_orders: 0,
        born_items: 0,
        last: Listed::new(alloc),
    }
}
