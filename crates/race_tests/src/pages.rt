//! Pages of the desk's shop of seed 0, as a link gets them. The populated items are drawn by formulas of this project's
//! own, and so are the ids of authorisations: none of these pages comes from the program.
use shop_text::Memory;
use std::alloc::Global;

/// Item 1.
pub(crate) const ITEM: &str = "\
HTTP/1.1 200 OK\r\n\
Content-Type: text/html; charset=utf-8\r\n\
Content-Length: 477\r\n\
\r\n\
<html><head><title>Product Detail</title></head><body>\n\
<h1>Kind Harbour OG</h1>\n\
<p>By Ben Grant</p>\n\
<p>Subject NON-FICTION, published 1994-03-13 by Larch Press</p>\n\
<p>About a Magic Journey.</p>\n\
<img src=\"/img/image_1.gif\" alt=\"Kind Harbour OG\">\n\
<p>AUDIO, 5270 pages</p>\n\
<p>List 53.11, our price 41.42, in stock 18</p>\n\
<a href=\"/shopping_cart?item=1\">Add to cart</a>\n\
<a href=\"/home\">Home</a>\n\
<a href=\"/search_request\">Search</a>\n\
<a href=\"/shopping_cart\">Cart</a>\n\
</body></html>\n";

/// Item 1, in the last answer of a link.
pub(crate) const LAST_ITEM: &str = "\
HTTP/1.1 200 OK\r\n\
Content-Type: text/html; charset=utf-8\r\n\
Content-Length: 477\r\n\
Connection: close\r\n\
\r\n\
<html><head><title>Product Detail</title></head><body>\n\
<h1>Kind Harbour OG</h1>\n\
<p>By Ben Grant</p>\n\
<p>Subject NON-FICTION, published 1994-03-13 by Larch Press</p>\n\
<p>About a Magic Journey.</p>\n\
<img src=\"/img/image_1.gif\" alt=\"Kind Harbour OG\">\n\
<p>AUDIO, 5270 pages</p>\n\
<p>List 53.11, our price 41.42, in stock 18</p>\n\
<a href=\"/shopping_cart?item=1\">Add to cart</a>\n\
<a href=\"/home\">Home</a>\n\
<a href=\"/search_request\">Search</a>\n\
<a href=\"/shopping_cart\">Cart</a>\n\
</body></html>\n";

/// A cart that is to be bought is empty.
pub(crate) const EMPTY_CART: &str = "\
HTTP/1.1 400 Bad Request\r\n\
Content-Type: text/html; charset=utf-8\r\n\
Content-Length: 93\r\n\
\r\n\
<html><head><title>Bad Request</title></head><body>\n\
<p>The cart is empty.</p>\n\
</body></html>\n";

/// The payment gateway failed.
pub(crate) const GATEWAY_FAILED: &str = "\
HTTP/1.1 502 Bad Gateway\r\n\
Content-Type: text/html; charset=utf-8\r\n\
Content-Length: 102\r\n\
\r\n\
<html><head><title>Bad Gateway</title></head><body>\n\
<p>The payment gateway failed.</p>\n\
</body></html>\n";

/// The newest items of NON-FICTION.
pub(crate) const NEW_PRODUCTS: &str = "\
HTTP/1.1 200 OK\r\n\
Content-Type: text/html; charset=utf-8\r\n\
Content-Length: 533\r\n\
\r\n\
<html><head><title>New Products</title></head><body>\n\
<h1>New NON-FICTION</h1>\n\
<a href=\"/product_detail?item=25\">Clear River ALSE by Ben Owens</a>\n\
<a href=\"/product_detail?item=97\">Kind Harbour NGUL by Cora Parker</a>\n\
<a href=\"/product_detail?item=1\">Kind Harbour OG by Ben Grant</a>\n\
<a href=\"/product_detail?item=73\">Clear River ULRI by Hugo Ellis</a>\n\
<a href=\"/product_detail?item=49\">Kind Harbour RENG by Eva Jensen</a>\n\
<a href=\"/home\">Home</a>\n\
<a href=\"/search_request\">Search</a>\n\
<a href=\"/shopping_cart\">Cart</a>\n\
</body></html>\n";

/// The newest items of NON-FICTION, where item 25 was published in 1970.
pub(crate) const LATER_NEW_PRODUCTS: &str = "\
HTTP/1.1 200 OK\r\n\
Content-Type: text/html; charset=utf-8\r\n\
Content-Length: 533\r\n\
\r\n\
<html><head><title>New Products</title></head><body>\n\
<h1>New NON-FICTION</h1>\n\
<a href=\"/product_detail?item=97\">Kind Harbour NGUL by Cora Parker</a>\n\
<a href=\"/product_detail?item=1\">Kind Harbour OG by Ben Grant</a>\n\
<a href=\"/product_detail?item=73\">Clear River ULRI by Hugo Ellis</a>\n\
<a href=\"/product_detail?item=49\">Kind Harbour RENG by Eva Jensen</a>\n\
<a href=\"/product_detail?item=25\">Clear River ALSE by Ben Owens</a>\n\
<a href=\"/home\">Home</a>\n\
<a href=\"/search_request\">Search</a>\n\
<a href=\"/shopping_cart\">Cart</a>\n\
</body></html>\n";

/// Item 25 is published on the first day of 1970, and costs 1.00.
pub(crate) const MENDED: &str = "\
HTTP/1.1 200 OK\r\n\
Content-Type: text/html; charset=utf-8\r\n\
Content-Length: 585\r\n\
\r\n\
<html><head><title>Admin Confirm</title></head><body>\n\
<h1>Item 25</h1>\n\
<p>Cost 1.00, published 1970-01-01</p>\n\
<img src=\"/i.gif\" alt=\"Clear River ALSE\">\n\
<img src=\"/t.gif\" alt=\"Clear River ALSE\">\n\
<a href=\"/product_detail?item=8\">North Kitchen IN</a>\n\
<a href=\"/product_detail?item=76\">Brave Ocean ULAT</a>\n\
<a href=\"/product_detail?item=59\">Magic Journey SENG</a>\n\
<a href=\"/product_detail?item=91\">Magic Journey NGOG</a>\n\
<a href=\"/product_detail?item=42\">Hidden Engine REAL</a>\n\
<a href=\"/home\">Home</a>\n\
<a href=\"/search_request\">Search</a>\n\
<a href=\"/shopping_cart\">Cart</a>\n\
</body></html>\n";

/// An item as a cart shows it.
#[derive(Clone, Copy)]
pub(crate) struct Shown {
    number: u32,
    title: &'static str,
    cost: &'static str,
}

pub(crate) const ITEM_1: Shown = Shown {
    number: 1,
    title: "Kind Harbour OG",
    cost: "41.42",
};

pub(crate) const ITEM_46: Shown = Shown {
    number: 46,
    title: "Lost Island REAT",
    cost: "70.96",
};

pub(crate) const ITEM_47: Shown = Shown {
    number: 47,
    title: "Amber Night REUL",
    cost: "72.68",
};

pub(crate) const ITEM_59: Shown = Shown {
    number: 59,
    title: "Magic Journey SENG",
    cost: "10.78",
};

/// A page of this text. The head of the last one of a link tells that it ends.
fn page(alloc: Global, text: &str, is_last: bool) -> Result<String, Memory> {
    let end = if is_last { "Connection: close\r\n" } else { "" };
    let length = text.len();
    Ok(format!(in alloc;
        "HTTP/1.1 200 OK\r\n\
Content-Type: text/html; charset=utf-8\r\n\
Content-Length: {length}\r\n{end}\r\n{text}"
    )?)
}

/// A cart with one unit of an item.
fn cart(alloc: Global, cart: u32, item: &Shown) -> Result<String, Memory> {
    let Shown {
        number,
        title,
        cost,
    } = *item;
    let text = format!(in alloc;
        "<html><head><title>Shopping Cart</title></head><body>\n\
<h1>Cart {cart}</h1>\n\
<table><tr><td>{number}</td><td>{title}</td><td>1</td><td>{cost}</td><td>{cost}</td></tr></table>\n\
<p>Sum {cost}</p>\n\
<form action=\"/shopping_cart\"><input name=\"qty_{number}\" value=\"1\">\
<input name=\"cart\" value=\"{cart}\"></form>\n\
<a href=\"/customer_registration?cart={cart}\">Checkout</a>\n\
<a href=\"/home?cart={cart}\">Home</a>\n\
<a href=\"/search_request?cart={cart}\">Search</a>\n\
<a href=\"/shopping_cart?cart={cart}\">Cart</a>\n\
</body></html>\n"
    )?;
    page(alloc, text.as_str(), false)
}

/// What an order shows of itself, which is of a unit of item 1, by customer 10, out of cart 1.
#[derive(Clone, Copy)]
pub(crate) struct Sale {
    pub(crate) number: u32,
    /// The day on which it ships.
    pub(crate) ships: &'static str,
    pub(crate) authorisation: &'static str,
}

impl Sale {
    /// The first order, in call 2 of caller 1.
    pub(crate) const FIRST: Sale = Sale {
        number: 37,
        ships: "1970-01-06",
        authorisation: "111224839362277",
    };

    /// The one behind it, in call 4.
    pub(crate) const SECOND: Sale = Sale {
        number: 38,
        ships: "1970-01-04",
        authorisation: "111224839382291",
    };

    /// The first order, in call 1,002 of caller 1.
    pub(crate) const OF_CALL_1002: Sale = Sale {
        number: 37,
        ships: "1970-01-07",
        authorisation: "111224849369277",
    };
}

/// The page of a sale.
fn order(alloc: Global, order: &Sale, is_last: bool) -> Result<String, Memory> {
    let Sale {
        number,
        ships,
        authorisation,
    } = *order;
    let text = format!(in alloc;
        "<html><head><title>Buy Confirm</title></head><body>\n\
<h1>Order {number}</h1>\n\
<p>Customer 10, ships {ships}</p>\n\
<table><tr><td>1</td><td>Kind Harbour OG</td><td>1</td><td>41.42</td><td>41.42</td></tr></table>\n\
<p>Subtotal 21.95, tax 0.11, shipping 4.00, total 26.06</p>\n\
<p>Authorisation {authorisation}</p>\n\
<a href=\"/home?c=10&amp;cart=1\">Home</a>\n\
<a href=\"/search_request?c=10&amp;cart=1\">Search</a>\n\
<a href=\"/shopping_cart?c=10&amp;cart=1\">Cart</a>\n\
</body></html>\n"
    )?;
    page(alloc, text.as_str(), is_last)
}

/// What a request is answered.
#[derive(Clone, Copy)]
pub(crate) enum Answer {
    Page(&'static str),
    /// A cart of this number, with one unit of an item.
    Cart(u32, Shown),
    Order(Sale),
    /// The same, in the last answer of a link.
    LastOrder(Sale),
}

/// What is written to a link that gets these answers.
pub(crate) fn written_of(alloc: Global, answers: &[Answer]) -> Result<String, Memory> {
    let mut written = String::new(alloc);
    for answer in answers {
        match answer {
            Answer::Page(page) => written.push_str(page)?,
            Answer::Cart(number, item) => written.push_str(cart(alloc, *number, item)?.as_str())?,
            Answer::Order(sale) => written.push_str(order(alloc, sale, false)?.as_str())?,
            Answer::LastOrder(sale) => written.push_str(order(alloc, sale, true)?.as_str())?,
        }
    }
    Ok(written)
}
