ghost use Rattle.std.specs.Prelude.{◌≡◌, ℕ, ◌^◌, ◌<◌, ◌≤◌, length, vec_len, vec_capacity};
ghost use Rattle.shop_model.specs.rows.Limits.{stamp_limit, day_of};
ghost use Rattle.shop_model.specs.declared.tables.Tables.{Tables};
ghost use Rattle.shop_model.specs.trade.Buyers.{changed_at, logged_in};
ghost use Rattle.shop_attempt.specs.Writes.{put_row};
ghost use Rattle.shop_book.specs.Puts.{put_one, all_put};
ghost use Rattle.shop_book.specs.Readiness as spec;
ghost use Rattle.shop_book.specs.RowsNow.{tables_with, HasRoom, KeepsRoom, TakesOne};

use crate::puts::{Put, or_last};
use crate::rows::Rows;
use shop_attempt::Stock;
use shop_model::{Cart, Customer, DAY_LENGTH, Item, Order, SESSION_TIME};
use shop_text::Shared;

/// Puts a cart in its place, or a new one behind the others.
fn put_cart(carts: &mut Vec<Cart>, cart: Cart)
    requires room { vec_len carts.old < vec_capacity carts.old }
    requires fits { length (put_row carts.old.items cart.id (λ id. record cart { id = id })) < 2 ^ 32 }
    ensures items { carts.new.items ≡ put_row carts.old.items cart.id (λ id. record cart { id = id }) }
    ensures keeps_room { KeepsRoom carts.old carts.new }
{
    if cart.id == 0 {
        let id = carts.len() as u32 + 1;
        carts.push_reserved(Cart { id, ..cart });
    } else if (cart.id as usize - 1) < carts.len() {
        let place = cart.id as usize - 1;
        carts[place] = cart;
    }
}

/// Puts an item in its place, or a new one behind the others, published on a day.
fn put_item(items: &mut Vec<Item>, item: Item, stamp: u64)
    requires room { vec_len items.old < vec_capacity items.old }
    requires fits { length (put_row items.old.items item.id (λ id. record item { id = id; published = day_of stamp })) < 2 ^ 32 }
    requires stamp { stamp ≤ stamp_limit }
    ensures items { items.new.items ≡ put_row items.old.items item.id (λ id. record item { id = id; published = day_of stamp }) }
    ensures keeps_room { KeepsRoom items.old items.new }
{
    let published = (stamp / DAY_LENGTH) as u32;
    if item.id == 0 {
        let id = items.len() as u32 + 1;
        items.push_reserved(Item {
            id,
            published,
            ..item
        });
    } else if (item.id as usize - 1) < items.len() {
        let place = item.id as usize - 1;
        items[place] = Item { published, ..item };
    }
}

/// Sets what an item has in stock.
fn set_stock(items: &mut Vec<Item>, stock: &Stock)
    ensures items { items.new.items ≡ changed_at items.old.items stock.now.item (λ item. record item { stock = stock.now.stock; restocks = stock.now.restocks }) }
    ensures keeps_room { KeepsRoom items.old items.new }
{
    if stock.item != 0 && (stock.item as usize - 1) < items.len() {
        let item = &mut items[stock.item as usize - 1];
        item.stock = stock.stock;
        item.restocks = stock.restocks;
    }
}

/// Logs a customer in.
fn login(customers: &mut Vec<Customer>, id: u32, stamp: u64)
    requires stamp { stamp ≤ stamp_limit }
    ensures items { customers.new.items ≡ changed_at customers.old.items id (logged_in stamp) }
    ensures keeps_room { KeepsRoom customers.old customers.new }
{
    if id != 0 && (id as usize - 1) < customers.len() {
        let customer = &mut customers[id as usize - 1];
        customer.login = stamp;
        customer.expiry = stamp + SESSION_TIME;
    }
}

impl Rows {
    /// Adds a customer, who is logged in.
    fn add_customer(&mut self, stamp: u64, customer: Customer)
        requires { spec.IsReady self.old stamp (Put.Customer customer) }
        ensures made { (t : Tables) → tables_with t self.new ≡ put_one (tables_with t self.old) stamp (Put.Customer customer) }
        ensures room { TakesOne self.old self.new }
    {
        self.customers.push_reserved(Customer {
            id: self.customers.len() as u32 + 1,
            address: or_last(customer.address, self.addresses.len()),
            login: stamp,
            expiry: stamp + SESSION_TIME,
            ..customer
        });
        self.last.push_reserved(None);
    }

    /// Adds an order, which is its customer's last.
    fn add_order(&mut self, order: Shared<Order>)
        requires { HasRoom self.old 1 }
        ensures made { (t : Tables) → (stamp days : ℕ) → tables_with t self.new ≡ put_one (tables_with t self.old) stamp (Put.Order order days) }
        ensures room { TakesOne self.old self.new }
    {
        let (id, customer) = (order.get().id, order.get().customer);
        let place = customer.saturating_sub(1) as usize;
        if place < self.last.len() {
            self.last[place] = Some(id);
        }
        self.orders.push_reserved(order);
    }

    /// Makes a write.
    fn put(&mut self, stamp: u64, put: Put)
        requires { spec.IsReady self.old stamp put }
        ensures made { (t : Tables) → tables_with t self.new ≡ put_one (tables_with t self.old) stamp put }
        ensures room { TakesOne self.old self.new }
    {
        match put {
            Put::Cart(cart) => put_cart(&mut self.carts, cart),
            Put::Login(id) => login(&mut self.customers, id, stamp),
            Put::Address(address, text) => self.addresses.push(address, text.into_inner()),
            Put::Customer(customer) => self.add_customer(stamp, customer),
            Put::Order(order, _) => self.add_order(order),
            Put::Stock(stock) => set_stock(&mut self.items, &stock),
            Put::Item(item) => put_item(&mut self.items, item, stamp),
        }
    }

    /// Makes the writes, one after another.
    pub(crate) fn put_all(&mut self, stamp: u64, puts: Vec<Put>)
        requires { spec.AreReady self.old stamp puts.items }
        ensures { (t : Tables) → tables_with t self.new ≡ all_put (tables_with t self.old) stamp puts.items }
    {
        for put in puts {
            self.put(stamp, put);
        }
    }
}
