use crate::Stock;
use shop_history::{Act, Drawn, Key, Row};
use shop_model::{AddressText, Cart, Customer, Item, Order};
use shop_text::{Boxed, Listed};

/// What a key showed, and the version that it had.
#[derive(Drop)]
pub struct ReadOf {
    pub key: Key,
    pub row: Row,
    /// How many entries of the log had come when one last changed the row.
    pub version: u64,
}

/// A row to be written. Where an id is 0 the settle draws it; it fills in stamps and the days that come
/// from them, the user name and the password of a new customer, and the moment when a login expires.
#[derive(Drop)]
pub enum Write {
    /// A cart in its place, or a new one.
    PutCart(Cart),
    /// The customer with this id logs in.
    Login(u32),
    /// A new address.
    AddAddress(Boxed<AddressText>),
    /// A new customer, who is logged in. Where its address is 0, it is the last one.
    AddCustomer(Customer),
    /// A new order, which is its customer's last, and how many days later it is shipped. Where its
    /// address is 0, it is the last one.
    AddOrder(Boxed<Order>, u32),
    /// What an item has in stock.
    SetStock(Stock),
    /// An item in its place, or a new one, published on the day of the stamp.
    PutItem(Item),
}

/// What a request read, and what it would change.
#[derive(Drop)]
pub struct Attempt {
    pub reads: Listed<ReadOf>,
    /// In milliseconds since 1970-01-01.
    pub moment: u64,
    /// The word that was drawn for the request.
    pub draw: u32,
    /// There where the act is there.
    pub writes: Option<Listed<Write>>,
    pub act: Option<Act>,
}

/// A read whose row was changed since.
#[derive(Debug, Drop)]
pub struct Conflict {
    pub key: Key,
    /// The version that was read.
    pub read: u64,
    /// The version that was found.
    pub found: u64,
}

/// What a settle answers.
#[derive(Drop)]
pub enum Settle {
    Done(Drawn),
    /// The first read that is not up to date.
    Stale(Conflict),
    /// The log has this many entries, and takes no more.
    Full(u64),
    Memory,
}
