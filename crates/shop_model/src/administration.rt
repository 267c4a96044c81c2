//! What is asked for by those who keep the shop.
use crate::{Backing, IdsAsked, Subject};
use shop_text::Text;
use std::marker::Model;

#[derive(Clone, Copy, Debug, PartialEq, Eq)]
pub struct AdminRequest {
    pub item: u32,
    pub ids: IdsAsked,
}

/// That an item gets another cost and other pictures, is published anew, and has the items that are
/// related to it worked out.
#[derive(Debug, Drop)]
pub struct AdminConfirm {
    pub item: u32,
    /// Cents, 1 to 999,999.
    pub cost: u64,
    /// The link to the large picture, 1 to 100 bytes.
    pub image: Text,
    /// The link to the small picture, 1 to 100 bytes.
    pub thumb: Text,
    pub ids: IdsAsked,
}

impl Model for AdminConfirm {
    ghost use Rattle.shop_model.specs.asked.AdminAsked.{AdminAsked, IsAdminAsked};

    ghost Value = { AdminAsked };

    ghost use Rattle.shop_model.specs.asked.AdminView.{asked_of};

    ghost view = { asked_of };

    ghost invariant = { λ i. IsAdminAsked (asked_of i) };
}

/// That an item is added, published on that day. Each text has 1 to 100 bytes.
#[derive(Debug, Drop)]
pub struct AdminAdd {
    pub title: Text,
    /// The id of the author.
    pub author: u32,
    pub subject: Subject,
    pub publisher: Text,
    /// What the item is about.
    pub about: Text,
    /// The link to the large picture.
    pub image: Text,
    /// The link to the small picture.
    pub thumb: Text,
    /// The suggested retail price in cents, 1 to 999,999.
    pub srp: u64,
    /// The shop's own price in cents, 1 to 999,999.
    pub cost: u64,
    /// The units in stock, 10 to 1,000.
    pub stock: u32,
    /// 1 to 9,999.
    pub pages: u32,
    pub backing: Backing,
    pub ids: IdsAsked,
}

impl Model for AdminAdd {
    ghost use Rattle.shop_model.specs.asked.AddAsked.{AddAsked, IsAddAsked};

    ghost Value = { AddAsked };

    ghost use Rattle.shop_model.specs.asked.AddView.{asked_of};

    ghost view = { asked_of };

    ghost invariant = { λ i. IsAddAsked (asked_of i) };
}
