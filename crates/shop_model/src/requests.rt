ghost use Rattle.std.specs.Prelude.{◌≡◌};
ghost use Rattle.shop_text.specs.Escape.{escape};
ghost use Rattle.shop_model.specs.asked.Interactions.{path_of};
ghost use Rattle.shop_model.specs.asked.Kinds.{kind_of, kind_name};

use crate::Subject;
use crate::administration::{AdminAdd, AdminConfirm, AdminRequest};
use crate::buying::{BuyConfirm, BuyRequest, CustomerRegistration, OrderDisplay, OrderInquiry};
use shop_text::{Listed, Shared, Text};
use std::marker::Model;

/// The web interactions that are served.
#[derive(Clone, Copy, PartialEq, Eq)]
pub enum Interaction {
    Home,
    NewProducts,
    BestSellers,
    ProductDetail,
    SearchRequest,
    SearchResults,
    ShoppingCart,
    CustomerRegistration,
    BuyRequest,
    BuyConfirm,
    OrderInquiry,
    OrderDisplay,
    AdminRequest,
    AdminConfirm,
    AdminAdd,
}

/// All interactions, each once.
pub const INTERACTIONS: [Interaction; 15] = [
    Interaction::Home,
    Interaction::NewProducts,
    Interaction::BestSellers,
    Interaction::ProductDetail,
    Interaction::SearchRequest,
    Interaction::SearchResults,
    Interaction::ShoppingCart,
    Interaction::CustomerRegistration,
    Interaction::BuyRequest,
    Interaction::BuyConfirm,
    Interaction::OrderInquiry,
    Interaction::OrderDisplay,
    Interaction::AdminRequest,
    Interaction::AdminConfirm,
    Interaction::AdminAdd,
];

impl Interaction {
    /// The path that it is asked for by.
    pub fn path(&self) -> &'static str
        ensures { result.now ≡ path_of self.now }
    {
        match self {
            Interaction::Home => "/home",
            Interaction::NewProducts => "/new_products",
            Interaction::BestSellers => "/best_sellers",
            Interaction::ProductDetail => "/product_detail",
            Interaction::SearchRequest => "/search_request",
            Interaction::SearchResults => "/search_results",
            Interaction::ShoppingCart => "/shopping_cart",
            Interaction::CustomerRegistration => "/customer_registration",
            Interaction::BuyRequest => "/buy_request",
            Interaction::BuyConfirm => "/buy_confirm",
            Interaction::OrderInquiry => "/order_inquiry",
            Interaction::OrderDisplay => "/order_display",
            Interaction::AdminRequest => "/admin_request",
            Interaction::AdminConfirm => "/admin_confirm",
            Interaction::AdminAdd => "/admin_add",
        }
    }
}

/// The ids that a request carries along: of a customer and of a cart.
#[derive(Clone, Copy, Debug, PartialEq, Eq)]
pub struct IdsAsked {
    pub c: Option<u32>,
    pub cart: Option<u32>,
}

#[derive(Clone, Copy, Debug, PartialEq, Eq)]
pub struct Home {
    pub ids: IdsAsked,
}

#[derive(Clone, Copy, Debug, PartialEq, Eq)]
pub struct NewProducts {
    pub subject: Subject,
    pub ids: IdsAsked,
}

#[derive(Clone, Copy, Debug, PartialEq, Eq)]
pub struct BestSellers {
    pub subject: Subject,
    pub ids: IdsAsked,
}

#[derive(Clone, Copy, Debug, PartialEq, Eq)]
pub struct ProductDetail {
    pub item: u32,
    pub ids: IdsAsked,
}

#[derive(Clone, Copy, Debug, PartialEq, Eq)]
pub struct SearchRequest {
    pub ids: IdsAsked,
}

/// What a search compares its text with.
#[derive(Clone, Copy, Debug, PartialEq, Eq, Hash)]
pub enum SearchKind {
    /// The words of titles.
    Title,
    /// The fronts of authors' last names.
    Author,
    /// The names of subjects.
    Subject,
}

impl SearchKind {
    /// The kind with this name.
    pub fn of(name: &[u8]) -> Option<SearchKind>
        ensures { result ≡ kind_of name.now }
    {
        if name == b"title".as_slice() {
            Some(SearchKind::Title)
        } else if name == b"author".as_slice() {
            Some(SearchKind::Author)
        } else if name == b"subject".as_slice() {
            Some(SearchKind::Subject)
        } else {
            None
        }
    }

    /// The name, in small letters.
    pub fn name(&self) -> &'static [u8]
        ensures name { result.now ≡ kind_name self.now }
        ensures plain { escape result.now ≡ result.now }
    {
        match self {
            SearchKind::Title => b"title",
            SearchKind::Author => b"author",
            SearchKind::Subject => b"subject",
        }
    }
}

/// What a search is for.
#[derive(Debug, Drop)]
pub struct SearchResults {
    pub kind: SearchKind,
    /// 1 to 100 bytes.
    pub text: Text,
    pub ids: IdsAsked,
}

impl Model for SearchResults {
    ghost use Rattle.shop_model.specs.asked.SearchAsked.{SearchAsked, IsSearchAsked};

    ghost Value = { SearchAsked };

    ghost use Rattle.shop_model.specs.asked.SearchResultsView.{asked_of};

    ghost view = { asked_of };

    ghost invariant = { λ i. IsSearchAsked (asked_of i) };
}

/// What a request for the shopping cart asks for.
#[derive(Debug, Drop)]
pub struct CartRequest {
    /// The item of which one more unit is to come into the cart.
    pub item: Option<u32>,
    /// Pairs of an item's id and the quantity that its line is to have, 999 at most, in the order
    /// in which they came; 100 at most.
    pub sets: Listed<(u32, u32)>,
    pub ids: IdsAsked,
}

impl Model for CartRequest {
    ghost use Rattle.shop_model.specs.asked.CartAsked.{CartAsked, IsCartAsked};

    ghost Value = { CartAsked };

    ghost use Rattle.shop_model.specs.asked.CartRequestView.{asked_of};

    ghost view = { asked_of };

    ghost invariant = { λ i. IsCartAsked (asked_of i) };
}

/// What a message asks for: one of the web interactions, with its parameters.
#[derive(Debug, Drop)]
pub enum Request {
    Home(Home),
    NewProducts(NewProducts),
    BestSellers(BestSellers),
    ProductDetail(ProductDetail),
    SearchRequest(SearchRequest),
    SearchResults(SearchResults),
    CartRequest(CartRequest),
    CustomerRegistration(CustomerRegistration),
    BuyRequest(BuyRequest),
    BuyConfirm(Shared<BuyConfirm>),
    OrderInquiry(OrderInquiry),
    OrderDisplay(OrderDisplay),
    AdminRequest(AdminRequest),
    AdminConfirm(Shared<AdminConfirm>),
    AdminAdd(Shared<AdminAdd>),
}
