//! Workers whose payments are asked for over links that they dialled.
use crate::pages::{Answer, GATEWAY_FAILED, ITEM_1, Sale};
use crate::served::{Serving, is_served};
use crate::targets;
use shop_edges::Way;
use std::test::Fail;

/// The first order, as no gateway of a worker's own would authorise it.
const FIRST: Sale = Sale {
    number: 37,
    ships: "1970-01-06",
    authorisation: "000000000000042",
};

/// The one behind it, in call 3 of caller 1.
const SECOND: Sale = Sale {
    number: 38,
    ships: "1970-01-05",
    authorisation: "000000000000043",
};

/// The second worker's gateway has gone, and what that worker could not buy the first one buys in its second connection.
#[test]
fn each_worker_asks_its_own_gateway(rt: HostRuntime) -> Result<(), Fail> {
    let serving = Serving {
        words: "serve --workers 2 --connections 3 --gateway 9000",
        gateways: &["OK 000000000000042\nOK 000000000000043\n", ""],
        asked: &[
            &[targets::CART_OF_ITEM_1, targets::PURCHASE],
            &[targets::ITEM_1_INTO_CART_1, targets::PURCHASE],
            &[targets::PURCHASE],
        ],
        answers: &[
            &[Answer::Cart(1, ITEM_1), Answer::Order(FIRST)],
            &[Answer::Cart(1, ITEM_1), Answer::Page(GATEWAY_FAILED)],
            &[Answer::Order(SECOND)],
        ],
        back: &[1, 3, 2],
        printed: "entries 4\norders 2\ncents 5212\ncaller 1 3\ncaller 2 1\n",
    };
    assert!(rt; is_served(&rt, rt.alloc(), Way::AtOnce, &serving)?);
    Ok(())
}
