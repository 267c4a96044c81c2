//! Runs of `poll` that end well, over links in memory.
use crate::pages::{Answer, ITEM, ITEM_46, written_of};
use crate::polled_links::{Calls, Links, Peer, came_back, got, links_of};
use crate::polled_runs::{Outcome, run};
use crate::targets;
use shop_app::Status;
use shop_lanes::BlockOn;
use shop_text::Memory;
use std::alloc::{AllocGlobal, Global};
use std::random::RandomSource;
use std::sync::Wait;
use std::test::Fail;

/// What is put off while a peer asks for a new cart, and another one for item 1; and how their links come back.
#[derive(Clone, Copy)]
struct Case {
    /// Calls of the listener.
    calls: &'static [u64],
    cart: Peer,
    item: Peer,
    back: [u64; 2],
}

/// The peer who asks for the cart, where nothing is put off.
const CART_PEER: Peer = Peer {
    target: targets::CART,
    reads: &[],
    writes: &[],
};

/// The peer who asks for the item, where nothing is put off.
const ITEM_PEER: Peer = Peer {
    target: targets::ITEM,
    reads: &[],
    writes: &[],
};

/// Whether each peer got its page from a caller of its own, and the links came back so.
fn are_served(alloc: Global, outcome: &Outcome<Links>, back: &[u64]) -> Result<bool, Memory> {
    let Some(listener) = &outcome.listener else {
        return Ok(false);
    };
    let links = listener.back();
    let lines = "entries 1\norders 0\ncents 0\ncaller 1 1\ncaller 2 0\n";
    let cart = written_of(alloc, &[Answer::Cart(1, ITEM_46)])?;
    Ok(
        outcome.is_told(Status::Done, lines, "")
            && listener.faults() == 0
            && came_back(links, back)
            && got(links, 1, cart.as_str())
            && got(links, 2, ITEM),
    )
}

/// Whether two lanes serve both peers.
fn is_served<R: Wait + RandomSource + AllocGlobal + Clone + Drop>(
    rt: &R,
    alloc: Global,
    case: &Case,
) -> Result<bool, Memory> {
    let calls = Calls {
        waits: case.calls,
        fails: &[],
    };
    let links = links_of(alloc, &[case.cart, case.item], calls)?;
    let mut runner = BlockOn::new(rt.clone()?);
    let outcome = run(
        rt,
        alloc,
        "poll --lanes 2 --connections 2",
        links,
        &mut runner,
    )?;
    are_served(alloc, &outcome, &case.back)
}

#[test]
fn two_lanes_serve_two_peers(rt: HostRuntime) -> Result<(), Fail> {
    let case = Case {
        calls: &[],
        cart: CART_PEER,
        item: ITEM_PEER,
        back: [1, 2],
    };
    assert!(rt; is_served(&rt, rt.alloc(), &case)?);
    Ok(())
}

#[test]
fn whatever_is_put_off_the_pages_are_the_same(rt: HostRuntime) -> Result<(), Fail> {
    let cases = [
        Case {
            calls: &[2, 3, 5, 6, 7],
            cart: CART_PEER,
            item: ITEM_PEER,
            back: [1, 2],
        },
        Case {
            calls: &[],
            cart: Peer {
                reads: &[1, 2, 4, 7],
                ..CART_PEER
            },
            item: ITEM_PEER,
            back: [2, 1],
        },
        Case {
            calls: &[2, 4],
            cart: Peer {
                reads: &[2],
                writes: &[1, 3, 4, 5, 8],
                ..CART_PEER
            },
            item: Peer {
                reads: &[1, 3],
                writes: &[2],
                ..ITEM_PEER
            },
            back: [2, 1],
        },
    ];
    for case in cases {
        assert!(rt; is_served(&rt, rt.alloc(), &case)?, "{:?}", case.back);
    }
    Ok(())
}
