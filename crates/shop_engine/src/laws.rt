ghost use Rattle.shop_engine.specs.OneOrder.{OneOrder};

/// A cart is bought once, until something is put into it again: whatever comes of the later requests of a
/// caller who has the shop alone.
pub fn one_order_for_a_cart()
    ensures { OneOrder }
{}
