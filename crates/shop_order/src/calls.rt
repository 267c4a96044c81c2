ghost use Rattle.shop_attempt.specs.Marks.{Looks};
ghost use Rattle.shop_browse.specs.Attempts.{AttemptedAs, Suits, asking_of};

use crate::admin_add::admin_add;
use crate::admin_confirm::admin_confirm;
use crate::buy_confirm::buy_confirm;
use crate::buy_request::buy_request;
use crate::shopping_cart::shopping_cart;
use shop_attempt::Store;
use shop_browse::admin_request::admin_request;
use shop_browse::home::home;
use shop_browse::login_pages::{customer_registration, order_inquiry};
use shop_browse::order_display::order_display;
use shop_browse::product_detail::product_detail;
use shop_browse::search_request::search_request;
use shop_browse::search_results::search_results;
use shop_browse::subject_lists::{best_sellers, new_products};
use shop_browse::{Ask, Attempted};
use shop_draft::Draft;
use shop_model::Request;
use std::alloc::Global;

/// An attempt at what a request asks for, which writes its page into the draft.
pub fn attempt<St: Store>(
    alloc: Global,
    store: &mut St,
    ask: &Ask,
    request: &Request,
    draft: &mut Draft,
) -> Attempted
    requires suits { Suits ask.now (St.seat store.old) }
    ensures looks { Looks St.seat St.marked store.old store.new }
    ensures attempted { AttemptedAs (St.seat store.old) (St.seat store.new) (asking_of ask.now request.now) draft.new result }
{
    match request {
        Request::Home(asked) => home(alloc, store, ask, asked, draft),
        Request::NewProducts(asked) => new_products(alloc, store, ask, asked, draft),
        Request::BestSellers(asked) => best_sellers(alloc, store, ask, asked, draft),
        Request::ProductDetail(asked) => product_detail(alloc, store, ask, asked, draft),
        Request::SearchRequest(asked) => search_request(alloc, store, ask, asked, draft),
        Request::SearchResults(asked) => search_results(alloc, store, ask, asked, draft),
        Request::CartRequest(asked) => shopping_cart(alloc, store, ask, asked, draft),
        Request::CustomerRegistration(asked) => customer_registration(
            alloc, store, ask, asked, draft,
        ),
        Request::OrderInquiry(asked) => order_inquiry(alloc, store, ask, asked, draft),
        Request::OrderDisplay(asked) => order_display(alloc, store, ask, asked, draft),
        Request::AdminRequest(asked) => admin_request(alloc, store, ask, asked, draft),
        Request::AdminConfirm(asked) => admin_confirm(alloc, store, ask, asked, draft),
        Request::AdminAdd(asked) => admin_add(alloc, store, ask, asked, draft),
        Request::BuyRequest(asked) => buy_request(alloc, store, ask, asked, draft),
        Request::BuyConfirm(asked) => buy_confirm(alloc, store, ask, asked.get(), draft),
    }
}
