//! What peers ask for.

pub(crate) const ITEM: &str = "/product_detail?item=1";

/// A new cart, with an item that is drawn.
pub(crate) const CART: &str = "/shopping_cart";

/// A new cart, with item 1.
pub(crate) const CART_OF_ITEM_1: &str = "/shopping_cart?item=1";

pub(crate) const ITEM_1_INTO_CART_1: &str = "/shopping_cart?cart=1&item=1";

/// Customer 10 buys cart 1.
pub(crate) const PURCHASE: &str =
    "/buy_confirm?c=10&cart=1&card=VISA&number=4111222233334444&name=F&expiry=2027-05";

/// The newest items of NON-FICTION.
pub(crate) const NEW_PRODUCTS: &str = "/new_products?subject=NON-FICTION";

/// Lets item 25 cost 1.00, and be published today.
pub(crate) const MENDING: &str = "/admin_confirm?item=25&cost=100&image=/i.gif&thumb=/t.gif";
