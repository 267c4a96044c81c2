ghost use Rattle.std.specs.Prelude.{◌≡◌, ◌≤◌, All, length, IfOk};
ghost use Rattle.shop_model.specs.rows.Limits.{lines_limit, recent_orders};
ghost use Rattle.shop_model.specs.rows.Sound.{Has};

use shop_model::{
    AuthId, CardNumber, CardType, CardUse, Line, Month, Order, OrderState, QUANTITY_LIMIT, ShipType,
};
use shop_text::{Listed, Memory, Text};
use shop_window::{OrderWindow, five_related};
use std::alloc::Global;
use std::test::Fail;

/// May 2027.
#[tactic(auto, unfolding(shop_model::specs::asked::Cards::is_month, shop_text::specs::Numbers::number_of))]
fn month() -> Month {
    Month::new(*b"2027-05")
}

/// A payment of nothing.
fn paid(alloc: Global) -> CardUse {
    CardUse {
        card: CardType::Visa,
        number: CardNumber::of_number(4_111_222_233_334_444),
        name: Text::new(alloc),
        expiry: month(),
        auth: AuthId::of(0),
        total: 0,
        stamp: 0,
        country: 1,
    }
}

/// Lines of these items and quantities, of three items that there are.
fn lines_of(alloc: Global, pairs: &[(u32, u32)]) -> Result<Listed<Line>, Memory>
    ensures few { IfOk result (λ lines. length lines ≤ length pairs.now) }
    ensures items { IfOk result (λ lines. All (λ l. Has 3 l.item) lines) }
{
    let mut lines = Listed::with_capacity(alloc, pairs.len())?;
    for (item, quantity) in pairs {
        if *item < 1 || 3 < *item || QUANTITY_LIMIT < *quantity {
            return Err(Memory);
        }
        lines.push(Line {
            number: 1,
            item: *item,
            quantity: *quantity,
            cost: 0,
        })?;
    }
    Ok(lines)
}

/// An order of these items and quantities.
fn order(alloc: Global, id: u32, customer: u32, pairs: &[(u32, u32)]) -> Result<Order, Memory>
    requires { length pairs.now ≤ lines_limit }
    ensures few { IfOk result (λ order. length order.lines ≤ lines_limit) }
    ensures items { IfOk result (λ order. All (λ l. Has 3 l.item) order.lines) }
{
    Ok(Order {
        id,
        customer,
        placed: 0,
        discount: 0,
        rate: 0,
        sub: 0,
        tax: 0,
        ship: 0,
        total: 0,
        ship_type: ShipType::Air,
        ship_day: 0,
        ship_address: 1,
        status: OrderState::Pending,
        lines: lines_of(alloc, pairs)?,
        card: paid(alloc),
    })
}

/// Takes in an order of these items and quantities.
fn admit<const N: usize>(
    window: &mut OrderWindow<N>,
    alloc: Global,
    id: u32,
    customer: u32,
    pairs: &[(u32, u32)],
) -> Result<Option<u32>, Memory>
    requires some { 1 ≤ N }
    requires few { N ≤ recent_orders }
    requires items { window.old.items ≡ 3 }
    requires lines { length pairs.now ≤ lines_limit }
    ensures { window.new.items ≡ window.old.items }
{
    let order = order(alloc, id, customer, pairs)?;
    window.admit(&order)
}

/// The units of the three items, and of one that there is not.
fn quantities<const N: usize>(window: &OrderWindow<N>) -> [u64; 4] {
    [
        window.quantity(1),
        window.quantity(2),
        window.quantity(3),
        window.quantity(4),
    ]
}

/// The ids that are answered where these orders come one after another: item 1 five times, item 2
/// thrice, and item 2 twice with item 3 five times.
fn three_orders<const N: usize>(
    window: &mut OrderWindow<N>,
    alloc: Global,
) -> Result<[Option<u32>; 3], Memory>
    requires some { 1 ≤ N }
    requires few { N ≤ recent_orders }
    requires items { window.old.items ≡ 3 }
{
    let first = admit(window, alloc, 11, 1, &[(1, 5)])?;
    let second = admit(window, alloc, 12, 2, &[(2, 3)])?;
    let third = admit(window, alloc, 13, 1, &[(2, 2), (3, 5)])?;
    Ok([first, second, third])
}

/// Whether these bought an item.
fn are_buyers<const N: usize>(
    window: &OrderWindow<N>,
    item: u32,
    buyers: &[u32],
) -> Result<bool, Memory> {
    Ok(window.buyers(item)?.as_slice() == buyers)
}

/// Whether a customer bought these items and quantities.
fn has_bought<const N: usize>(
    window: &OrderWindow<N>,
    customer: u32,
    bought: &[(u32, u64)],
) -> Result<bool, Memory> {
    Ok(window.bought(customer)?.as_slice() == bought)
}

/// Whether the first of three orders left, and what the others had is held.
fn holds_two(window: &mut OrderWindow<2>, alloc: Global) -> Result<bool, Memory>
    requires { window.old.items ≡ 3 }
{
    Ok(
        three_orders(window, alloc)? == [None, None, Some(11)]
            && quantities(window) == [0, 5, 5, 0]
            && are_buyers(window, 2, &[1, 2])?
            && has_bought(window, 1, &[(2, 2), (3, 5)])?
            && [window.has(1, 3), window.has(1, 1)] == [true, false],
    )
}

#[test]
fn the_oldest_order_leaves(rt: HostRuntime) -> Result<(), Fail> {
    let mut window = OrderWindow::<2>::new(rt.alloc(), 3)?;
    assert!(rt; holds_two(&mut window, rt.alloc())?);
    Ok(())
}

/// Whether each of three orders left but the last.
fn holds_one(window: &mut OrderWindow<1>, alloc: Global) -> Result<bool, Memory>
    requires { window.old.items ≡ 3 }
{
    Ok(three_orders(window, alloc)? == [None, Some(11), Some(12)] && are_buyers(window, 2, &[1])?)
}

#[test]
fn a_window_of_one(rt: HostRuntime) -> Result<(), Fail> {
    let mut window = OrderWindow::<1>::new(rt.alloc(), 3)?;
    window.reserve(3)?;
    assert!(rt; holds_one(&mut window, rt.alloc())?);
    Ok(())
}

/// Orders of customer 7, customer 5, and customer 7 again, the first with an item on two lines.
fn orders_of_two<const N: usize>(window: &mut OrderWindow<N>, alloc: Global) -> Result<(), Memory>
    requires some { 1 ≤ N }
    requires few { N ≤ recent_orders }
    requires items { window.old.items ≡ 3 }
{
    admit(window, alloc, 11, 7, &[(3, 4), (2, 1), (3, 1)])?;
    admit(window, alloc, 12, 5, &[(3, 2)])?;
    admit(window, alloc, 13, 7, &[(2, 8)])?;
    Ok(())
}

/// Whether an item on two lines counts twice, and a customer who came twice once.
fn holds_three(window: &OrderWindow<3>) -> Result<bool, Memory> {
    Ok(
        quantities(window) == [0, 9, 7, 0]
            && are_buyers(window, 3, &[5, 7])?
            && has_bought(window, 7, &[(2, 9), (3, 5)])?
            && [window.has(7, 3), window.has(5, 2)] == [true, false],
    )
}

#[test]
fn an_item_on_two_lines_and_a_customer_twice(rt: HostRuntime) -> Result<(), Fail> {
    let mut window = OrderWindow::<3>::new(rt.alloc(), 3)?;
    orders_of_two(&mut window, rt.alloc())?;
    assert!(rt; holds_three(&window)?);
    Ok(())
}

#[test]
fn five_items_are_related(rt: HostRuntime) -> Result<(), Fail> {
    let related = five_related(rt.alloc(), &[], 99, 100)?;
    assert!(rt; related == [100, 1, 2, 3, 4]);
    Ok(())
}
