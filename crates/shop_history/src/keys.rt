ghost use Rattle.std.specs.Prelude.{◌≡◌};

use shop_model::{
    Address, AddressText, Author, Cart, Country, Customer, Item, ItemDetails, Order, Sought,
    Subject,
};
use shop_text::{Boxed, Caption, Listed, Memory, Shared, Text};
use std::marker::Model;

/// What a request can read of the shop, one row at a time.
#[derive(Debug, Drop)]
pub enum Key {
    /// An item, by its id.
    Item(u32),
    /// How the item with an id is named in lists.
    Label(u32),
    /// A customer, by its id.
    Customer(u32),
    /// A cart, by its id.
    Cart(u32),
    /// The newest items of a subject.
    NewIn(Subject),
    /// The best sold items of a subject.
    BestIn(Subject),
    /// The customers who bought an item lately, by its id.
    Buyers(u32),
    /// What a customer bought lately, by its id.
    Bought(u32),
    /// The id of the customer with a user name.
    Name(Text),
    /// An address, by its id.
    Address(u32),
    /// The id of the address that says this, the smallest where there are several.
    SameAddress(Boxed<AddressText>),
    /// A country, by its id.
    Country(u32),
    /// An order, by its id.
    Order(u32),
    /// The id of a customer's last order, by the customer's.
    LastOrder(u32),
    /// How many items there are.
    Count,
    /// The items added since the opening that a search finds.
    Added(Sought),
}

/// How an item is named in lists: its title, and its author's names.
#[derive(Drop)]
pub struct Label {
    pub item: Shared<ItemDetails>,
    pub author: Shared<Author>,
}

impl Model for Label {
    ghost use Rattle.shop_history.specs.Labels.{LabelRow};

    ghost Value = { LabelRow };

    ghost view = { λ l. record { title = l.item.title; first = l.author.first; last = l.author.last } };
}

impl Label {
    ghost use Rattle.std.specs.Prelude.{◌≡◌, IfOk};

    /// The label, which stays shared; takes no memory.
    pub fn share(&self) -> Result<Label, Memory>
        ensures { IfOk result (λ label. label ≡ self.now) }
    {
        Ok(Label {
            item: self.item.share()?,
            author: self.author.share()?,
        })
    }

    pub fn title(&self) -> &Caption
        ensures { result.now ≡ self.now.title }
    {
        &self.item.get().title
    }

    pub fn first(&self) -> &Caption
        ensures { result.now ≡ self.now.first }
    {
        &self.author.get().first
    }

    pub fn last(&self) -> &Caption
        ensures { result.now ≡ self.now.last }
    {
        &self.author.get().last
    }
}

/// What a key shows.
#[derive(Drop)]
pub enum Row {
    /// There is no row with this id.
    Absent,
    Item(Item),
    Label(Label),
    Customer(Customer),
    Cart(Cart),
    /// The ids of items in the order in which they are listed, 50 at most.
    Items(Shared<Listed<u32>>),
    /// The ids of customers, rising.
    Customers(Listed<u32>),
    /// Items and how many units of each, by rising ids.
    Totals(Listed<(u32, u64)>),
    Address(Shared<Address>),
    Country(Shared<Country>),
    Order(Shared<Order>),
    /// The id of a row that is found in another way.
    Id(u32),
    /// How many rows there are.
    Number(u32),
}
