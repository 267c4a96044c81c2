use shop_model::{AdminAdd, AdminConfirm, AuthId, BuyConfirm, BuyRequest, CartRequest, TaxRule};
use shop_text::Shared;

/// What an accepted request does.
#[derive(Drop)]
pub enum Act {
    /// What Shopping Cart makes of a cart, with the word that was drawn for the request.
    Cart(CartRequest, u32),
    /// That a customer who buys logs in, or is entered with the discount that the word draws.
    Enter(BuyRequest, u32),
    /// That a customer buys what a cart has, with the word that was drawn, what the card's payment was
    /// authorised by, and the rule of the tax.
    Confirm(Shared<BuyConfirm>, u32, AuthId, TaxRule),
    /// What Admin Confirm makes of an item.
    Admin(Shared<AdminConfirm>),
    /// That an item is added.
    Add(Shared<AdminAdd>),
}

/// An accepted change.
#[derive(Drop)]
pub struct Entry {
    /// The number of the caller, from 1.
    pub caller: u32,
    /// How many changes of this caller there are with this one.
    pub number: u64,
    /// The moment of the change, in milliseconds since 1970-01-01.
    pub stamp: u64,
    pub act: Act,
}

/// The ids of the rows that a settle made.
#[derive(Clone, Copy, Debug, PartialEq, Eq)]
pub struct Ids {
    pub cart: Option<u32>,
    pub customer: Option<u32>,
    pub address: Option<u32>,
    pub order: Option<u32>,
}

/// What a settle drew.
#[derive(Clone, Copy, PartialEq, Eq)]
pub struct Drawn {
    /// How many entries the page is shown after.
    pub front: u64,
    /// In milliseconds since 1970-01-01.
    pub stamp: u64,
    pub ids: Ids,
}
