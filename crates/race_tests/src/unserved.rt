//! Runs of `serve` that don't end well: the first failure ends them, and its status is told.
use crate::pages::ITEM;
use crate::peers::Peers;
use crate::runs::{Outcome, is_told, run};
use crate::targets;
use shop_app::Status;
use shop_edges::{BytesIn, BytesOut, Way};
use shop_text::{Listed, Memory};
use std::alloc::Global;
use std::test::Fail;

/// Links of two peers who ask for item 1.
fn two_peers(alloc: Global) -> Result<Peers<BytesIn, BytesOut>, Memory> {
    Peers::asking(alloc, &[&[targets::ITEM], &[targets::ITEM]])
}

/// The second start fails.
fn second_fails(alloc: Global) -> Result<Way, Memory> {
    Ok(Way::Failing(Listed::from_vec(vec![in alloc; 2]?)))
}

/// Whether the listener failed behind so many starts, and nothing was printed.
fn is_network_fault(outcome: &Outcome, starts: u64) -> bool {
    is_told(
        outcome,
        Status::NetworkFault,
        (starts, 0),
        "",
        "tpcw: network fault\n",
    ) && outcome.status.code() == 5
}

#[test]
fn where_no_port_opens_nothing_is_dialled_or_accepted(rt: HostRuntime) -> Result<(), Fail> {
    let alloc = rt.alloc();
    let mut peers = two_peers(alloc)?;
    peers.add_gateways(alloc, &[""])?;
    peers.shut();
    let line = "serve --workers 1 --gateway 9000";
    let outcome = run(&rt, alloc, line, Way::AtOnce, &mut peers)?;
    assert!(rt; is_network_fault(&outcome, 0));
    assert!(rt; peers.counts() == (0, 0, 1));
    Ok(())
}

#[test]
fn where_a_gateway_is_not_dialled_nothing_is_accepted(rt: HostRuntime) -> Result<(), Fail> {
    let alloc = rt.alloc();
    let mut peers = two_peers(alloc)?;
    peers.add_gateways(alloc, &[""])?;
    let line = "serve --workers 2 --gateway 9000";
    let outcome = run(&rt, alloc, line, Way::AtOnce, &mut peers)?;
    assert!(rt; is_network_fault(&outcome, 0));
    assert!(rt; peers.counts() == (0, 1, 1));
    Ok(())
}

#[test]
fn where_no_more_is_accepted_what_was_served_comes_back(rt: HostRuntime) -> Result<(), Fail> {
    let alloc = rt.alloc();
    let mut peers = two_peers(alloc)?;
    let line = "serve --workers 2 --connections 4";
    let outcome = run(&rt, alloc, line, Way::AtOnce, &mut peers)?;
    assert!(rt; is_network_fault(&outcome, 2));
    assert!(rt; peers.came_back(&[1, 2]));
    assert!(rt; peers.got(1, ITEM) && peers.got(2, ITEM));
    assert!(rt; peers.counts() == (2, 0, 1));
    Ok(())
}

/// There is no third link, and none is asked for.
#[test]
fn where_a_job_is_not_started_no_more_is_accepted(rt: HostRuntime) -> Result<(), Fail> {
    let alloc = rt.alloc();
    let mut peers = two_peers(alloc)?;
    let line = "serve --workers 2 --connections 3";
    let outcome = run(&rt, alloc, line, second_fails(alloc)?, &mut peers)?;
    assert!(rt;
        is_told(
            &outcome,
            Status::WorkerFault,
            (1, 1),
            "",
            "tpcw: worker fault\n"
        )
    );
    assert!(rt; outcome.status.code() == 6);
    assert!(rt; peers.came_back(&[1]) && peers.got(1, ITEM));
    assert!(rt; peers.counts() == (2, 0, 0));
    Ok(())
}

/// The second start would fail too.
#[test]
fn an_accept_that_fails_before_a_start_decides(rt: HostRuntime) -> Result<(), Fail> {
    let alloc = rt.alloc();
    let mut peers = Peers::asking(alloc, &[&[targets::ITEM]])?;
    let line = "serve --workers 2 --connections 2";
    let outcome = run(&rt, alloc, line, second_fails(alloc)?, &mut peers)?;
    assert!(rt; is_network_fault(&outcome, 1));
    assert!(rt; peers.came_back(&[1]) && peers.got(1, ITEM));
    Ok(())
}
