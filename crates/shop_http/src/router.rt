ghost use Rattle.std.specs.Prelude.{◌≡◌, None, Some, Ok, [], IfSome, OnOk};
ghost use Rattle.matchit.specs.Order.{placed};
ghost use Rattle.matchit.specs.Route.{parse_route};
ghost use Rattle.matchit.specs.Router.{nearest};
ghost use Rattle.shop_model.specs.asked.Interactions.{interaction_of, path_of, paths};
ghost use Rattle.shop_http.specs.Routes.{FindsAll, row_of, rows_of, plain_scan};

use crate::constants::is_same;
use matchit::{InsertError, Router};
use shop_model::{INTERACTIONS, Interaction};
use shop_text::Memory;
use std::alloc::Global;
use std::str::from_utf8;

/// The interactions by their paths.
#[derive(Drop)]
pub struct Routes {
    router: Router<Interaction>,
    ghost finds_all: { FindsAll router },
}

impl Routes {
    /// The router of all paths that are served.
    pub fn new(alloc: Global) -> Result<Routes, Memory> {
        let mut router = Router::new(alloc);
        add_all(&mut router)?;
        Ok(Routes { router })
    }

    /// The interaction of a path, which is compared byte for byte.
    pub(crate) fn interaction(&self, path: &[u8]) -> Option<Interaction>
        ensures { result ≡ interaction_of path.now }
    {
        if let Some(interaction) = linked(path) {
            return Some(interaction);
        }
        let Ok(path) = from_utf8(path) else {
            return None;
        };
        match self.router.at(path) {
            Ok(found) => Some(*found.value),
            Err(_) => None,
        }
    }
}

/// The interaction that pages link to by this path. Most messages ask for one, and need no router.
#[tactic(auto, unfolding(shop_model::specs::asked::Interactions::interaction_of))]
fn linked(path: &[u8]) -> Option<Interaction>
    ensures { IfSome result (λ interaction. Some interaction ≡ interaction_of path.now) }
{
    if is_same(path, b"/home") {
        Some(Interaction::Home)
    } else if is_same(path, b"/new_products") {
        Some(Interaction::NewProducts)
    } else if is_same(path, b"/best_sellers") {
        Some(Interaction::BestSellers)
    } else if is_same(path, b"/product_detail") {
        Some(Interaction::ProductDetail)
    } else if is_same(path, b"/search_request") {
        Some(Interaction::SearchRequest)
    } else if is_same(path, b"/search_results") {
        Some(Interaction::SearchResults)
    } else if is_same(path, b"/shopping_cart") {
        Some(Interaction::ShoppingCart)
    } else if is_same(path, b"/customer_registration") {
        Some(Interaction::CustomerRegistration)
    } else if is_same(path, b"/buy_request") {
        Some(Interaction::BuyRequest)
    } else if is_same(path, b"/buy_confirm") {
        Some(Interaction::BuyConfirm)
    } else if is_same(path, b"/order_inquiry") {
        Some(Interaction::OrderInquiry)
    } else if is_same(path, b"/order_display") {
        Some(Interaction::OrderDisplay)
    } else if is_same(path, b"/admin_request") {
        Some(Interaction::AdminRequest)
    } else if is_same(path, b"/admin_confirm") {
        Some(Interaction::AdminConfirm)
    } else {
        None
    }
}

/// Adds the paths that pages link to, and another one of Home.
fn add_all(router: &mut Router<Interaction>) -> Result<(), Memory>
    requires { router.old ≡ [] }
    ensures { OnOk result (router.new ≡ rows_of paths) }
{
    for interaction in INTERACTIONS {
        add_linked(router, interaction)?;
    }
    add(router, "/", Interaction::Home)
}

/// Adds the path that pages link to.
fn add_linked(router: &mut Router<Interaction>, interaction: Interaction) -> Result<(), Memory>
    requires { nearest (path_of interaction) router.old ≡ None }
    ensures { OnOk result (router.new ≡ placed (row_of (path_of interaction, interaction)) router.old) }
{
    add(router, interaction.path(), interaction)
}

/// Adds a path without parameters, which conflicts with none that is there.
fn add(router: &mut Router<Interaction>, path: &str, interaction: Interaction) -> Result<(), Memory>
    requires plain { parse_route path.now ≡ Ok (plain_scan path.now) }
    requires free { nearest path.now router.old ≡ None }
    ensures { OnOk result (router.new ≡ placed (row_of (path.now, interaction)) router.old) }
{
    match router.insert(path, interaction) {
        Ok(()) => Ok(()),
        Err(InsertError::OutOfMemory) => Err(Memory),
        Err(_) => unreachable!(),
    }
}
