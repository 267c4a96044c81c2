use futures::task::{Context, Poll};
use futures::test::MockTask;
use shop_edges::{Linked, Opened};
use shop_lanes::{
    Berth, BlockOn, Completed, Lanes, LanesEnd, PolledLinks, PolledListener, Ran, Runner,
};
use shop_text::{Listed, Memory};
use std::alloc::Global;
use std::test::Fail;

/// Serves each link in as many polls as its source says, and one more, and writes its caller's number to it.
#[derive(Drop)]
struct Counting {
    caller: u32,
    served: u32,
}

/// A link that is served so, in the polls that are left.
#[derive(Drop)]
struct Counted {
    caller: u32,
    served: u32,
    source: u32,
    left: u32,
}

impl Berth for Counting {
    ghost use Rattle.std.specs.Prelude.{⊤};

    type In = u32;

    type Out = u32;

    /// How many links the berth has served.
    type Report = u32;

    type Serving = Counted;

    ghost serves = { λ before source sink after source_left sink_left report. ⊤ };

    ghost caller = { λ berth. berth.caller };

    ghost can_poll = { λ serving. ⊤ };

    ghost has_ended = { λ serving. ⊤ };

    ghost gives = { λ serving done. ⊤ };

    ghost needs = { λ serving event. ⊥ };

    ghost puts_off = { λ before after. ⊤ };

    fn caller(&self) -> u32 {
        self.caller
    }

    fn begin(self, source: u32, _sink: u32) -> Counted {
        let Counting { caller, served } = self;
        Counted {
            caller,
            served,
            source,
            left: source,
        }
    }

    fn poll(serving: &mut Counted, cx: &mut Context<'_>) -> Poll<()> {
        if 0 < serving.left {
            serving.left -= 1;
            return cx.yield_now();
        }
        Poll::Ready(())
    }

    fn finish(serving: Counted) -> Completed<Counting, u32, u32, u32> {
        let served = serving.served.saturating_add(1);
        Completed {
            berth: Counting {
                caller: serving.caller,
                served,
            },
            source: serving.source,
            sink: serving.caller,
            report: served,
        }
    }
}

/// How many links of a listener lanes are to serve, at which calls polls are put off, and which calls fail.
#[derive(Drop)]
struct Case {
    links: u32,
    waits: &'static [u64],
    fails: &'static [u64],
}

/// A listener over three links, which take 2, 0 and 1 polls and one more.
fn three_links(alloc: Global, case: &Case) -> Result<PolledLinks<u32, u32>, Memory> {
    let links = Vec::from_array(alloc, [(2, 0), (0, 0), (1, 0)])?;
    let waits = Listed::from_vec(Vec::from_slice(alloc, case.waits)?);
    let fails = Listed::from_vec(Vec::from_slice(alloc, case.fails)?);
    PolledLinks::new(alloc, links, waits, fails)
}

/// Whether two lanes end so, where these are the callers and reports of the links, and these the links that came back.
fn come_back<N: Runner>(
    runner: &mut N,
    alloc: Global,
    case: &Case,
    end: LanesEnd,
    reports: &[(u32, u32)],
    back: &[(u64, u32, u32)],
) -> Result<bool, Memory> {
    let listener = three_links(alloc, case)?;
    let berths = [
        Counting {
            caller: 1,
            served: 0,
        },
        Counting {
            caller: 2,
            served: 0,
        },
    ];
    let lanes = Lanes::new(alloc, listener, case.links, Vec::from_array(alloc, berths)?)?;
    let Ran::Done(landed) = runner.run(lanes) else {
        return Err(Memory);
    };
    Ok(
        landed.ended == end
            && landed.reports.as_slice() == reports
            && landed.listener.back() == back,
    )
}

#[test]
fn lanes_go_on_side_by_side(rt: HostRuntime) -> Result<(), Fail> {
    let mut runner = BlockOn::new(rt);
    let case = Case {
        links: 3,
        waits: &[],
        fails: &[],
    };
    assert!(rt;
        come_back(
            &mut runner,
            rt.alloc(),
            &case,
            LanesEnd::All,
            &[(2, 1), (1, 1), (2, 2)],
            &[(2, 0, 2), (1, 2, 1), (3, 1, 2)]
        )?
    );
    Ok(())
}

#[test]
fn a_link_that_is_waited_for_comes_later(rt: HostRuntime) -> Result<(), Fail> {
    let mut runner = BlockOn::new(rt);
    let case = Case {
        links: 2,
        waits: &[1, 3, 4],
        fails: &[],
    };
    assert!(rt;
        come_back(
            &mut runner,
            rt.alloc(),
            &case,
            LanesEnd::All,
            &[(1, 1), (2, 1)],
            &[(1, 2, 1), (2, 0, 2)]
        )?
    );
    Ok(())
}

#[test]
fn what_was_accepted_comes_back_at_a_fault(rt: HostRuntime) -> Result<(), Fail> {
    let mut runner = BlockOn::new(rt);
    let case = Case {
        links: 3,
        waits: &[],
        fails: &[2],
    };
    assert!(rt;
        come_back(
            &mut runner,
            rt.alloc(),
            &case,
            LanesEnd::ListenerFault,
            &[(1, 1)],
            &[(1, 2, 1)]
        )?
    );
    let case = Case {
        links: 4,
        waits: &[],
        fails: &[],
    };
    assert!(rt;
        come_back(
            &mut runner,
            rt.alloc(),
            &case,
            LanesEnd::ListenerFault,
            &[(2, 1), (1, 1), (2, 2)],
            &[(2, 0, 2), (1, 2, 1), (3, 1, 2)]
        )?
    );
    Ok(())
}

/// Whether a poll gives a link with this source, or is put off where there is none.
fn gives(task: &MockTask, listener: &mut PolledLinks<u32, u32>, source: Option<u32>) -> bool {
    match task.enter(|cx| listener.poll_accept(cx)) {
        Poll::Ready(Linked::Linked(given, _)) => source == Some(given),
        Poll::Ready(Linked::Failed | Linked::Memory) => false,
        Poll::Pending => source.is_none() && task.is_woken(),
    }
}

/// Whether a poll fails, with so many faults.
fn fails(task: &MockTask, listener: &mut PolledLinks<u32, u32>, faults: u64) -> bool {
    match task.enter(|cx| listener.poll_accept(cx)) {
        Poll::Ready(Linked::Failed) => listener.faults() == faults,
        _ => false,
    }
}

#[test]
fn a_listener_in_memory_follows_its_lists(rt: HostRuntime) -> Result<(), Fail> {
    let case = Case {
        links: 3,
        waits: &[2, 4],
        fails: &[4, 5],
    };
    let mut listener = three_links(rt.alloc(), &case)?;
    let task = MockTask::new(&rt)?;
    let opened = listener.open(80) == Opened::Open;
    let waited = gives(&task, &mut listener, None);
    let first = gives(&task, &mut listener, Some(2));
    let again = gives(&task, &mut listener, None) && fails(&task, &mut listener, 1);
    let others = gives(&task, &mut listener, Some(0)) && gives(&task, &mut listener, Some(1));
    let none_left = fails(&task, &mut listener, 2);
    listener.give_back(2, 7, 8);
    listener.give_back(1, 9, 10);
    let back: &[(u64, u32, u32)] = &[(2, 7, 8), (1, 9, 10)];
    assert!(rt;
        opened && waited && first && again && others && none_left && listener.back() == back
    );
    Ok(())
}
