//! The rows of an online bookstore, what holds of them, and how they open.
#![tactic(auto)]

mod address;
mod administration;
mod auth_id;
mod author;
mod backing;
mod buying;
mod card_type;
mod card_use;
mod cards;
mod cart;
mod country;
mod customer;
mod drawing;
mod item;
mod limits;
mod line;
mod lookups;
mod order;
mod order_state;
mod page;
mod parameter;
mod refusal;
mod requests;
mod scale;
mod ship_type;
mod sought;
mod subject;
mod tables;
mod tax;
pub mod words;

pub use address::{Address, AddressText};
pub use administration::{AdminAdd, AdminConfirm, AdminRequest};
pub use auth_id::AuthId;
pub use author::Author;
pub use backing::Backing;
pub use buying::{
    BuyConfirm, BuyRequest, Buyer, Card, CustomerRegistration, Login, Newcomer, OrderDisplay,
    OrderInquiry,
};
pub use card_type::CardType;
pub use card_use::CardUse;
pub use cards::{CardNumber, Month};
pub use cart::Cart;
pub use country::Country;
pub use customer::{Customer, CustomerDetails};
pub use drawing::{Words, drawn, word};
pub use item::{Item, ItemDetails};
pub use limits::{
    ADDED_STOCK_LIMIT, DAY_LENGTH, DAY_LIMIT, DISCOUNT_LIMIT, ITEMS_LIMIT, LEAST_STOCK,
    LINES_LIMIT, PAGES_LIMIT, PRICE_LIMIT, QUANTITY_LIMIT, SESSION_TIME, SETS_LIMIT, STAMP_LIMIT,
    STOCK_LIMIT, TEXT_LIMIT,
};
pub use line::Line;
pub use lookups::row_numbered;
pub use order::Order;
pub use order_state::OrderState;
pub use page::{Block, Field, Page};
pub use parameter::Parameter;
pub use refusal::{Refusal, refusal_page};
pub use requests::{
    BestSellers, CartRequest, Home, INTERACTIONS, IdsAsked, Interaction, NewProducts,
    ProductDetail, Request, SearchKind, SearchRequest, SearchResults,
};
pub use scale::Scale;
pub use ship_type::ShipType;
pub use sought::{Sought, lower_text};
pub use subject::Subject;
pub use tables::Tables;
pub use tax::TaxRule;
