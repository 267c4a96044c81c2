//! A purchase, and the administration of an item, by caller 1 at the desk with seed 0, where caller 2 buys,
//! adds to the cart or changes a cost meanwhile.
use crate::deeds::Deed;
use crate::sessions::told_after;
use crate::told::{Decided, Told};
use shop_model::AuthId;
use shop_text::Memory;
use std::alloc::Global;
use std::test::Fail;

/// Makes cart 1 with a unit of item 1, and buys it for customer 10.
const PURCHASE: &[u8] = b"GET /shopping_cart?item=1 HTTP/1.1\r\nHost: shop\r\n\r\n\
GET /buy_confirm?c=10&cart=1&card=VISA&number=4111222233334444&name=F&expiry=2027-05 HTTP/1.1\r\n\
Host: shop\r\n\r\n";

/// The same, shipped to an address in country 41, whose rate is 0.
const UNTAXED_PURCHASE: &[u8] = b"GET /shopping_cart?item=1 HTTP/1.1\r\nHost: shop\r\n\r\n\
GET /buy_confirm?c=10&cart=1&card=VISA&number=4111222233334444&name=F&expiry=2027-05\
&street1=1+Way&city=Ulm&zip=89073&country=41 HTTP/1.1\r\n\
Host: shop\r\n\r\n";

/// The same, shipped to an address in country 40, whose rate is a tenth.
const TAXED_PURCHASE: &[u8] = b"GET /shopping_cart?item=1 HTTP/1.1\r\nHost: shop\r\n\r\n\
GET /buy_confirm?c=10&cart=1&card=VISA&number=4111222233334444&name=F&expiry=2027-05\
&street1=1+Way&city=Ulm&zip=89073&country=40 HTTP/1.1\r\n\
Host: shop\r\n\r\n";

const ADMINISTRATION: &[u8] =
    b"GET /admin_confirm?item=1&cost=3000&image=/i.gif&thumb=/t.gif HTTP/1.1\r\n\
Host: shop\r\n\r\n";

fn told_after_one(alloc: Global, input: &[u8], deed: Deed) -> Result<Told, Memory> {
    told_after(alloc, &[1_000], input, deed, 1)
}

/// The answers of a connection that makes a cart, and buys it by the change and at the try that are told.
fn bought_by(front: u64, tries: u32) -> [Option<Decided>; 4] {
    [
        Some(Decided::Change(1, 1)),
        Some(Decided::Change(front, tries)),
        None,
        None,
    ]
}

#[test]
fn a_card_is_charged_once_for_a_purchase_that_is_tried_again(rt: HostRuntime) -> Result<(), Fail> {
    let told = told_after_one(rt.alloc(), PURCHASE, Deed::Buy(1))?;
    let sold = told.sold;
    let auth = AuthId::of(111_224_839_362_277);
    let charges = [Some((1, 2, 2_606)), None, None];
    let own = (sold.orders[1], sold.orders[2]);
    assert!(rt;
        told.shown.answers == bought_by(4, 2) && sold.charges == charges && sold.counts == (4, 2, 2)
    );
    assert!(rt; matches!(sold.orders[0], Some((11, _, _, 3))));
    assert!(rt; own == (Some((10, 2_606, auth, 4)), None));
    Ok(())
}

#[test]
fn a_cart_that_got_a_line_meanwhile_is_charged_anew(rt: HostRuntime) -> Result<(), Fail> {
    let told = told_after_one(rt.alloc(), PURCHASE, Deed::AddUnit)?;
    let sold = told.sold;
    let auth = AuthId::of(111_227_216_369_408);
    let charges = [Some((1, 2, 2_606)), Some((1, 2, 4_983)), None];
    let orders = [Some((10, 4_983, auth, 3)), None, None];
    assert!(rt;
        told.shown.answers == bought_by(3, 2) && sold.charges == charges && sold.counts == (3, 2, 1)
    );
    assert!(rt; sold.orders == orders);
    Ok(())
}

#[test]
fn a_cost_that_was_changed_meanwhile_is_charged_anew(rt: HostRuntime) -> Result<(), Fail> {
    let told = told_after_one(rt.alloc(), PURCHASE, Deed::Reprice)?;
    let sold = told.sold;
    let auth = AuthId::of(111_223_698_358_854);
    let charges = [Some((1, 2, 2_606)), Some((1, 2, 1_465)), None];
    let orders = [Some((10, 1_465, auth, 3)), None, None];
    assert!(rt;
        told.shown.answers == bought_by(3, 2) && sold.charges == charges && sold.counts == (3, 2, 1)
    );
    assert!(rt; sold.orders == orders);
    Ok(())
}

#[test]
fn an_address_that_came_meanwhile_is_read_anew_and_the_card_is_charged_once(
    rt: HostRuntime,
) -> Result<(), Fail> {
    let told = told_after_one(rt.alloc(), UNTAXED_PURCHASE, Deed::Ship)?;
    let sold = told.sold;
    let auth = AuthId::of(111_224_828_362_244);
    let charges = [Some((1, 2, 2_595)), None, None];
    let own = (sold.orders[1], sold.orders[2]);
    assert!(rt;
        told.shown.answers == bought_by(4, 2) && sold.charges == charges && sold.counts == (4, 2, 2)
    );
    assert!(rt; matches!(sold.orders[0], Some((11, _, _, 3))));
    assert!(rt; own == (Some((10, 2_595, auth, 4)), None));
    Ok(())
}

#[test]
fn an_address_of_another_country_that_came_meanwhile_is_no_conflict(
    rt: HostRuntime,
) -> Result<(), Fail> {
    let told = told_after_one(rt.alloc(), TAXED_PURCHASE, Deed::Ship)?;
    let charges = [Some((1, 2, 2_815)), None, None];
    assert!(rt;
        told.shown.answers == bought_by(4, 1)
            && told.sold.charges == charges
            && told.sold.counts == (4, 2, 2)
    );
    Ok(())
}

#[test]
fn a_purchase_of_the_item_meanwhile_relates_items_anew(rt: HostRuntime) -> Result<(), Fail> {
    let told = told_after_one(rt.alloc(), ADMINISTRATION, Deed::Buy(1))?;
    let answers = [Some(Decided::Change(3, 2)), None, None, None];
    assert!(rt; told.shown.answers == answers && told.sold.counts == (3, 1, 2));
    Ok(())
}

#[test]
fn a_purchase_of_another_item_meanwhile_is_no_conflict(rt: HostRuntime) -> Result<(), Fail> {
    let told = told_after_one(rt.alloc(), ADMINISTRATION, Deed::Buy(7))?;
    let answers = [Some(Decided::Change(3, 1)), None, None, None];
    assert!(rt; told.shown.answers == answers && told.sold.counts == (3, 1, 2));
    Ok(())
}
