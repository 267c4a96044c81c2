//! Connections that are served: what is written to each, in which order they come back, and what is printed.
use crate::pages::{
    Answer, EMPTY_CART, ITEM, ITEM_1, ITEM_46, ITEM_47, ITEM_59, LAST_ITEM, LATER_NEW_PRODUCTS,
    MENDED, NEW_PRODUCTS, Sale,
};
use crate::served::{Serving, is_served};
use crate::targets;
use shop_edges::Way;
use std::test::Fail;

#[test]
fn a_connection_is_served_in_a_thread(rt: HostRuntime) -> Result<(), Fail> {
    let serving = Serving {
        words: "serve --workers 1 --connections 1",
        gateways: &[],
        asked: &[&[targets::ITEM]],
        answers: &[&[Answer::Page(ITEM)]],
        back: &[1],
        printed: "entries 0\norders 0\ncents 0\ncaller 1 0\n",
    };
    assert!(rt; is_served(&rt, rt.alloc(), Way::Threads, &serving)?);
    Ok(())
}

#[test]
fn a_worker_serves_one_connection_after_another(rt: HostRuntime) -> Result<(), Fail> {
    let serving = Serving {
        words: "serve --workers 1 --connections 2",
        gateways: &[],
        asked: &[&[targets::CART], &[targets::ITEM]],
        answers: &[&[Answer::Cart(1, ITEM_46)], &[Answer::Page(ITEM)]],
        back: &[1, 2],
        printed: "entries 1\norders 0\ncents 0\ncaller 1 1\n",
    };
    assert!(rt; is_served(&rt, rt.alloc(), Way::AtOnce, &serving)?);
    Ok(())
}

/// The third one comes to the first place, whose job is done but not joined by then.
#[test]
fn connections_come_back_as_their_places_are_joined(rt: HostRuntime) -> Result<(), Fail> {
    let serving = Serving {
        words: "serve --workers 2 --connections 3",
        gateways: &[],
        asked: &[&[targets::CART], &[targets::CART], &[targets::CART]],
        answers: &[
            &[Answer::Cart(1, ITEM_46)],
            &[Answer::Cart(2, ITEM_47)],
            &[Answer::Cart(3, ITEM_59)],
        ],
        back: &[1, 3, 2],
        printed: "entries 3\norders 0\ncents 0\ncaller 1 2\ncaller 2 1\n",
    };
    assert!(rt; is_served(&rt, rt.alloc(), Way::AtOnce, &serving)?);
    Ok(())
}

/// The second worker finds the cart that the first one emptied, and the first one fills it again.
#[test]
fn a_cart_that_one_worker_sold_is_empty_to_another_one(rt: HostRuntime) -> Result<(), Fail> {
    let serving = Serving {
        words: "serve --workers 2 --connections 3",
        gateways: &[],
        asked: &[
            &[targets::CART_OF_ITEM_1, targets::PURCHASE],
            &[targets::PURCHASE],
            &[targets::ITEM_1_INTO_CART_1, targets::PURCHASE],
        ],
        answers: &[
            &[Answer::Cart(1, ITEM_1), Answer::Order(Sale::FIRST)],
            &[Answer::Page(EMPTY_CART)],
            &[Answer::Cart(1, ITEM_1), Answer::Order(Sale::SECOND)],
        ],
        back: &[1, 3, 2],
        printed: "entries 4\norders 2\ncents 5212\ncaller 1 4\ncaller 2 0\n",
    };
    assert!(rt; is_served(&rt, rt.alloc(), Way::AtOnce, &serving)?);
    Ok(())
}

/// The list that the first worker keeps is older than the change of the second one, who reads it anew.
#[test]
fn a_worker_keeps_its_lists_from_connection_to_connection(rt: HostRuntime) -> Result<(), Fail> {
    let serving = Serving {
        words: "serve --workers 2 --connections 3",
        gateways: &[],
        asked: &[
            &[targets::NEW_PRODUCTS],
            &[targets::MENDING, targets::NEW_PRODUCTS],
            &[targets::NEW_PRODUCTS],
        ],
        answers: &[
            &[Answer::Page(NEW_PRODUCTS)],
            &[Answer::Page(MENDED), Answer::Page(LATER_NEW_PRODUCTS)],
            &[Answer::Page(NEW_PRODUCTS)],
        ],
        back: &[1, 3, 2],
        printed: "entries 1\norders 0\ncents 0\ncaller 1 0\ncaller 2 1\n",
    };
    assert!(rt; is_served(&rt, rt.alloc(), Way::AtOnce, &serving)?);
    Ok(())
}

/// Its worker goes on at the next one, and has had a thousand calls.
#[test]
fn a_connection_gets_a_thousand_answers(rt: HostRuntime) -> Result<(), Fail> {
    let alloc = rt.alloc();
    let asked = vec![in alloc; targets::ITEM; 1_001]?;
    let mut answers = vec![in alloc; Answer::Page(ITEM); 1_000]?;
    answers[999] = Answer::Page(LAST_ITEM);
    let purchase = [targets::CART_OF_ITEM_1, targets::PURCHASE];
    let bought = [Answer::Cart(1, ITEM_1), Answer::Order(Sale::OF_CALL_1002)];
    let serving = Serving {
        words: "serve --workers 1 --connections 2",
        gateways: &[],
        asked: &[&asked, &purchase],
        answers: &[&answers, &bought],
        back: &[1, 2],
        printed: "entries 2\norders 1\ncents 2606\ncaller 1 2\n",
    };
    assert!(rt; is_served(&rt, alloc, Way::AtOnce, &serving)?);
    Ok(())
}
