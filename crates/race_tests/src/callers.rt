//! Two callers who take turns at their desks, in one thread.
ghost use Rattle.std.specs.Prelude.{◌≡◌};
ghost use Rattle.shop_turn.specs.Desks.{seat_of};

use crate::interrupted::{Clash, Parted, Place};
use crate::opened::open_interrupted;
use crate::serving::serve;
use shop_app::authorised_only;
use shop_attempt::Store;
use shop_book::Book;
use shop_edges::{Answer, Verdict};
use shop_engine::{PointKind, Report};
use shop_gateway::Emulator;
use shop_history::{Key, Row};
use shop_text::{Memory, Shared};
use shop_turn::{Desk, Shop};
use std::alloc::Global;
use std::sync::Wait;
use std::test::Fail;

/// Makes cart 1 with a unit of item 1.
const CART: &[u8] = b"GET /shopping_cart?item=1 HTTP/1.1\r\nHost: shop\r\n\r\n";

/// Makes cart 1 with a unit of item 1, and adds one.
const CARTS: &[u8] = b"GET /shopping_cart?item=1 HTTP/1.1\r\nHost: shop\r\n\r\n\
GET /shopping_cart?cart=1&item=1 HTTP/1.1\r\nHost: shop\r\n\r\n";

/// Makes cart 1 with a unit of item 1, and buys it for customer 10.
const PURCHASE: &[u8] = b"GET /shopping_cart?item=1 HTTP/1.1\r\nHost: shop\r\n\r\n\
GET /buy_confirm?c=10&cart=1&card=VISA&number=4111222233334444&name=F&expiry=2027-05 HTTP/1.1\r\n\
Host: shop\r\n\r\n";

/// Adds a unit of item 2 to cart 1.
const UNIT: &[u8] = b"GET /shopping_cart?cart=1&item=2 HTTP/1.1\r\nHost: shop\r\n\r\n";

/// Lets item 1 cost 20.00.
const COST: &[u8] = b"GET /admin_confirm?item=1&cost=2000&image=/i.gif&thumb=/t.gif HTTP/1.1\r\n\
Host: shop\r\n\r\n";

/// The front and the tries of a change.
type Change = (u64, u32);

/// The caller, the call and the cents of a charge that was authorised, and whether an order has it.
type Charge = (u32, u64, u64, bool);

/// The customer of an order, what was paid, and which change made it.
type Sale = (u32, u64, u64);

/// The version of a cart, and its first lines.
type Seen = (u64, [Option<(u32, u32)>; 3]);

/// What a row of this version shows, if it is a cart's.
fn cart_in(row: &Row, version: u64) -> Option<Seen> {
    let Row::Cart(cart) = row else {
        return None;
    };
    let lines = cart.lines.get().as_slice();
    let first = lines.first().copied();
    let second = lines.get(1).copied();
    let third = lines.get(2).copied();
    Some((version, [first, second, third]))
}

/// What a desk shows of cart 1.
fn cart_at<R: Wait + Drop>(desk: &mut Desk<R>) -> Option<Seen>
    ensures { (seat_of desk.new).shop ≡ (seat_of desk.old).shop }
{
    match desk.read(&Key::Cart(1)) {
        Ok((row, version)) => cart_in(&row, version),
        Err(_) => None,
    }
}

/// What is told of a row of this version, if it is an order's.
fn order_in(row: &Row, version: u64) -> Option<Sale> {
    let Row::Order(order) = row else {
        return None;
    };
    let order = order.get();
    Some((order.customer, order.card.total, version))
}

/// What is told of an order.
fn order_of(book: &mut Book, order: u32) -> Option<Sale> {
    match book.read(&Key::Order(order)) {
        Ok((row, version)) => order_in(&row, version),
        Err(_) => None,
    }
}

/// What is told of a charge that was authorised.
fn charge_at(answers: &[Shared<Answer>], at: usize, book: &Book) -> Option<Charge> {
    let answer = answers.get(at)?.get();
    let Verdict::Approved(auth) = &answer.verdict else {
        return None;
    };
    let charge = &answer.charge;
    Some((
        charge.caller,
        charge.call,
        charge.cents,
        book.has_auth(auth),
    ))
}

/// The change of a point.
fn change_at(report: &Report, at: usize) -> Option<Change> {
    let point = report.points.as_slice().get(at)?;
    match &point.kind {
        PointKind::Change => Some((point.front, point.tries)),
        _ => None,
    }
}

/// What is told of a session of the first caller, which the other one came between.
#[derive(Clone, Copy)]
struct Told {
    /// Of the first two requests.
    changes: [Option<Change>; 2],
    clash: Option<Clash>,
    /// What both callers see in the end.
    carts: (Option<Seen>, Option<Seen>),
    charges: [Option<Charge>; 3],
    /// How many approvals no order has.
    unused: u64,
    /// The first two that were made.
    orders: [Option<Sale>; 2],
    /// How many changes there are, of caller 1 and of caller 2.
    counts: (u64, u64, u64),
}

fn copy_of(answer: &Answer) -> Answer {
    Answer {
        charge: answer.charge.copy(),
        verdict: answer.verdict,
    }
}

/// How many of these answers are approvals that no order has.
fn unused_of(alloc: Global, answers: &[Shared<Answer>], book: &Book) -> Result<u64, Memory> {
    let mut copies = Vec::new(alloc);
    for answer in answers {
        copies.push(copy_of(answer.get()))?;
    }
    Ok(authorised_only(&copies, book))
}

fn told_by(
    alloc: Global,
    report: Result<Report, Memory>,
    clash: Option<Clash>,
    carts: (Option<Seen>, Option<Seen>),
    answers: &[Shared<Answer>],
    book: &mut Book,
) -> Result<Told, Memory> {
    let report = report?;
    let unused = unused_of(alloc, answers, book)?;
    Ok(Told {
        changes: [change_at(&report, 0), change_at(&report, 1)],
        clash,
        carts,
        charges: [
            charge_at(answers, 0, book),
            charge_at(answers, 1, book),
            charge_at(answers, 2, book),
        ],
        unused,
        orders: [order_of(book, 37), order_of(book, 38)],
        counts: (book.size(), book.count_of(1), book.count_of(2)),
    })
}

/// What is told where the first caller asks for this, and before its second settle the other one for that; then both
/// meet, and their shop is closed.
fn ask_both<R: Wait + Clone + Drop>(
    rt: &R,
    alloc: Global,
    input: &[u8],
    other: &'static [u8],
) -> Result<Told, Memory> {
    let mut others = Vec::with_capacity(alloc, 1)?;
    let mut gateway = Emulator::new(alloc);
    let mut worker = open_interrupted(rt, alloc, other)?;
    let report = serve(alloc, &mut worker, input, &mut gateway);
    let Parted {
        mut desk,
        mut other,
        clash,
    } = worker.into_store().into_parts();
    other.meet(&mut desk);
    desk.meet(&mut other);
    let carts = (cart_at(&mut desk), cart_at(&mut other));
    others.push_reserved(other);
    let mut book = Shop::close(desk, others);
    told_by(alloc, report, clash, carts, gateway.answers(), &mut book)
}

/// The cart has one line, and the other caller has asked for nothing before they meet.
#[test]
fn a_caller_who_meets_another_has_seen_its_entry(rt: HostRuntime) -> Result<(), Fail> {
    let told = ask_both(&rt, rt.alloc(), CART, UNIT)?;
    let cart = Some((1, [Some((1, 1)), None, None]));
    assert!(rt; (told.carts, told.counts) == ((cart, cart), (1, 1, 0)));
    Ok(())
}

#[test]
fn a_cart_that_another_caller_changed_meanwhile_is_tried_again(
    rt: HostRuntime,
) -> Result<(), Fail> {
    let told = ask_both(&rt, rt.alloc(), CARTS, UNIT)?;
    let changes = [Some((1, 1)), Some((3, 2))];
    let clash = Clash {
        place: Place::Cart(1),
        read: 1,
        found: 2,
    };
    let cart = Some((3, [Some((1, 2)), Some((2, 1)), None]));
    assert!(rt; told.changes == changes && told.clash == Some(clash) && told.counts == (3, 2, 1));
    assert!(rt; told.carts == (cart, cart));
    Ok(())
}

#[test]
fn a_charge_for_a_cost_that_another_caller_changed_is_authorised_only(
    rt: HostRuntime,
) -> Result<(), Fail> {
    let told = ask_both(&rt, rt.alloc(), PURCHASE, COST)?;
    let changes = [Some((1, 1)), Some((3, 2))];
    let clash = Clash {
        place: Place::Item(1),
        read: 0,
        found: 2,
    };
    let (unsold, sold) = ((1, 2, 2_606, false), (1, 2, 1_465, true));
    let charges = [Some(unsold), Some(sold), None];
    let orders = [Some((10, 1_465, 3)), None];
    assert!(rt; told.changes == changes && told.clash == Some(clash) && told.counts == (3, 2, 1));
    assert!(rt; told.charges == charges && told.orders == orders && told.unused == 1);
    Ok(())
}
