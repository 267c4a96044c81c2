ghost use Rattle.std.specs.Prelude.{◌≡◌, ◌∷◌, All, IfOk, map};
ghost use Rattle.shop_tasks.specs.StationValues.{desk_of};
ghost use Rattle.shop_turn.specs.Desks.{IsOneShop};
ghost use Rattle.shop_turn.specs.Shops.{Closes};

use crate::Station;
use shop_book::Book;
use shop_edges::{Clock, LinkIn, LinkOut};
use shop_text::Memory;
use shop_turn::{Desk, Shop};
use std::alloc::{AllocError, Global};
use std::sync::Wait;

/// The desks of stations, in their order.
fn desks_of<R: Wait + Drop, I: LinkIn + Drop, O: LinkOut + Drop, C: Clock + Drop>(
    alloc: Global,
    stations: Vec<Station<R, I, O, C>>,
) -> Result<Vec<Desk<R>>, AllocError>
    ensures { IfOk result (λ desks. desks.items ≡ map desk_of stations.items) }
{
    stations
        .into_iter()
        .map(|station| station.into_desk())
        .collect(alloc)
}

/// Closes the shop of these stations with a desk that is nobody's.
pub fn close<R: Wait + Drop, I: LinkIn + Drop, O: LinkOut + Drop, C: Clock + Drop>(
    alloc: Global,
    own: Desk<R>,
    stations: Vec<Station<R, I, O, C>>,
) -> Result<Book, Memory>
    requires { All (λ station. IsOneShop own (desk_of station)) stations.items }
    ensures { IfOk result (Closes own.origin (own ∷ map desk_of stations.items)) }
{
    let desks = desks_of(alloc, stations)?;
    Ok(Shop::close(own, desks))
}
