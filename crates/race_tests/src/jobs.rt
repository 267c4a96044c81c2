//! Jobs that are run in threads.
use shop_edges::{Job, Spawner, Start, Ticket, Way};
use shop_text::Memory;
use std::sync::Wait;
use std::test::Fail;
use std::thread::Threads;

/// Gives back its number.
#[derive(Drop)]
struct Given<R> {
    rt: R,
    number: u64,
}

impl<R: Wait + Drop + Send + 'static> Job for Given<R> {
    ghost use Rattle.std.specs.Prelude.{◌≡◌};

    type Handle = R;

    type Out = u64;

    ghost promises = { λ given out. out ≡ given.number };

    fn run(self) -> u64 {
        let Given { rt: _, number } = self;
        number
    }
}

/// The job of a number, started.
fn started<R: Threads + Wait + Clone + Drop + Send + 'static>(
    rt: &R,
    spawner: &mut Spawner,
    number: u64,
) -> Result<Ticket<Given<R>>, Memory> {
    let job = Given {
        rt: rt.clone()?,
        number,
    };
    match spawner.start(rt, job) {
        Start::Started(ticket) => Ok(ticket),
        Start::Failed => Err(Memory),
    }
}

/// What jobs 7 and 8 give back, the later one first.
fn given_back<R: Threads + Wait + Clone + Drop + Send + 'static>(
    rt: &R,
    spawner: &mut Spawner,
) -> Result<(u64, u64), Memory> {
    let first = started(rt, spawner, 7)?;
    let second = started(rt, spawner, 8)?;
    Ok((second.join(rt), first.join(rt)))
}

#[test]
fn a_job_in_a_thread_gives_back_what_it_was_given(rt: HostRuntime) -> Result<(), Fail> {
    let mut spawner = Spawner::new(Way::Threads);
    let given = given_back(&rt, &mut spawner)?;
    let counts = (spawner.starts(), spawner.faults());
    assert!(rt; (given, counts) == ((8, 7), (2, 0)));
    Ok(())
}
