//! What is asked for by customers, and by those who become one.
use crate::{AddressText, CardNumber, CardType, IdsAsked, Month, ShipType};
use shop_text::{Shared, Text};
use std::marker::Model;

#[derive(Clone, Copy, Debug, PartialEq, Eq)]
pub struct CustomerRegistration {
    pub ids: IdsAsked,
}

#[derive(Clone, Copy, Debug, PartialEq, Eq)]
pub struct OrderInquiry {
    pub ids: IdsAsked,
}

/// The name of a customer, and its password as it was given.
#[derive(Debug, Drop)]
pub struct Login {
    /// 1 to 100 bytes.
    pub user: Text,
    /// 100 bytes at most.
    pub pass: Text,
}

impl Model for Login {
    ghost use Rattle.shop_model.specs.asked.CustomersAsked.{LoginAsked, IsLoginAsked};

    ghost Value = { LoginAsked };

    ghost use Rattle.shop_model.specs.asked.LoginView.{asked_of};

    ghost view = { asked_of };

    ghost invariant = { λ i. IsLoginAsked (asked_of i) };
}

#[derive(Debug, Drop)]
pub struct OrderDisplay {
    pub login: Login,
    pub ids: IdsAsked,
}

/// Who is no customer yet. Each text has 1 to 100 bytes, but that the second street and the state may be
/// empty.
#[derive(Debug, Drop)]
pub struct Newcomer {
    pub first: Text,
    pub last: Text,
    pub address: AddressText,
    pub phone: Text,
    pub email: Text,
}

impl Model for Newcomer {
    ghost use Rattle.shop_model.specs.asked.CustomersAsked.{NewcomerAsked, IsNewcomerAsked};

    ghost Value = { NewcomerAsked };

    ghost use Rattle.shop_model.specs.asked.NewcomerView.{asked_of};

    ghost view = { asked_of };

    ghost invariant = { λ i. IsNewcomerAsked (asked_of i) };
}

/// Who buys. The act that comes of a request shares what it says.
#[derive(Debug, Drop)]
pub enum Buyer {
    Returning(Shared<Login>),
    Newcomer(Shared<Newcomer>),
}

#[derive(Debug, Drop)]
pub struct BuyRequest {
    pub cart: u32,
    pub buyer: Buyer,
}

/// A payment card, as it was given.
#[derive(Debug, Drop)]
pub struct Card {
    pub card: CardType,
    pub number: CardNumber,
    /// The holder's name, 1 to 100 bytes.
    pub name: Text,
    /// When it expires.
    pub expiry: Month,
}

impl Model for Card {
    ghost use Rattle.shop_model.specs.asked.PurchaseAsked.{CardAsked, IsCardAsked};

    ghost Value = { CardAsked };

    ghost use Rattle.shop_model.specs.asked.CardView.{asked_of};

    ghost view = { asked_of };

    ghost invariant = { λ i. IsCardAsked (asked_of i) };
}

/// That a customer buys what a cart has.
#[derive(Debug, Drop)]
pub struct BuyConfirm {
    /// The id of the customer.
    pub c: u32,
    pub cart: u32,
    pub payment: Card,
    pub ship: ShipType,
    /// Where it ships to; the customer's address where none is given.
    pub address: Option<AddressText>,
}

impl Model for BuyConfirm {
    ghost use Rattle.shop_model.specs.asked.PurchaseAsked.{PurchaseAsked, IsPurchaseAsked};

    ghost Value = { PurchaseAsked };

    ghost use Rattle.shop_model.specs.asked.PurchaseView.{asked_of};

    ghost view = { asked_of };

    ghost invariant = { λ i. IsPurchaseAsked (asked_of i) };
}
