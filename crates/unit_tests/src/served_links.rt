use shop_edges::{BytesIn, BytesOut, Linked, Listener, Opened, Sink, Spawner, Way};
use shop_places::{Station, Stop, serve};
use shop_text::{Listed, Memory, Text};
use std::alloc::Global;
use std::marker::PhantomData;
use std::sync::Wait;
use std::test::Fail;
use std::thread::Threads;

/// Writes to each link its mark, a byte that goes up from link to link.
#[derive(Drop)]
struct Marking<R> {
    mark: u8,
    handle: PhantomData<R>,
}

impl<R: Wait + Drop + Send + 'static> Station for Marking<R> {
    ghost use Rattle.std.specs.Prelude.{⊤};

    type Handle = R;

    type In = BytesIn;

    type Out = BytesOut;

    type Report = ();

    ghost serves = { λ old source sink new source_left sink_left report. ⊤ };

    fn serve(&mut self, _source: &mut BytesIn, sink: &mut BytesOut) {
        let _ = sink.write(&[self.mark]);
        self.mark = self.mark.saturating_add(1);
    }
}

/// Gives the links that it has, and then fails. It notes the number and the bytes of each that comes back.
#[derive(Drop)]
struct Peers {
    links: Vec<(BytesIn, BytesOut)>,
    back: Vec<(u64, u8)>,
    accepted: u64,
    faults: u64,
}

impl Listener for Peers {
    ghost use Rattle.std.specs.Prelude.{◌≡◌, ◌≤◌, None};
    ghost use Rattle.shop_edges.specs.Links.{LinkCause, OpenCause, links_after};

    type In = BytesIn;

    type Out = BytesOut;

    ghost links = { λ _. None };

    ghost faults = { λ peers. peers.faults };

    ghost accepted = { λ peers. peers.accepted };

    ghost dialled = { λ _. 0 };

    fn open(&mut self, _port: u16) -> Opened {
        Opened::Open
    }

    fn accept(&mut self) -> Linked<BytesIn, BytesOut> {
        match self.links.pop() {
            Some((source, sink)) => {
                self.accepted = self.accepted.saturating_add(1);
                Linked::Linked(source, sink)
            }
            None => {
                self.faults = self.faults.saturating_add(1);
                Linked::Failed
            }
        }
    }

    fn dial(&mut self, _port: u16) -> Linked<BytesIn, BytesOut> {
        self.faults = self.faults.saturating_add(1);
        Linked::Failed
    }

    fn give_back(&mut self, link: u64, _source: BytesIn, sink: BytesOut) {
        if let Some(mark) = sink.bytes().first() {
            let _ = self.back.push((link, *mark));
        }
    }
}

/// So many links of peers that send nothing.
fn silent_peers(alloc: Global, links: u32) -> Result<Peers, Memory> {
    let mut given = Vec::new(alloc);
    for _ in 0..links {
        let sink = BytesOut::with_room(alloc, 1, Listed::new(alloc), 1)?;
        given.push((BytesIn::new(Text::new(alloc), 1, Listed::new(alloc)), sink))?;
    }
    Ok(Peers {
        links: given,
        back: Vec::new(alloc),
        accepted: 0,
        faults: 0,
    })
}

/// A station whose marks begin here.
fn marking_from<R>(mark: u8) -> Marking<R> {
    Marking {
        mark,
        handle: PhantomData,
    }
}

/// Whether two stations serve so many links of those that there are with this end, where these links come back with
/// these marks, and so many jobs are started.
fn come_back<R: Threads + Wait + Clone + Drop + Send + 'static>(
    rt: &R,
    alloc: Global,
    way: Way,
    counts: (u32, u32),
    end: Result<(u8, u8), Stop>,
    back: &[(u64, u8)],
) -> Result<bool, Memory> {
    let (given, links) = counts;
    let mut listener = silent_peers(alloc, given)?;
    let mut spawner = Spawner::new(way);
    let stations = Vec::from_array(alloc, [marking_from(10), marking_from(20)])?;
    let served = serve(rt, alloc, &mut spawner, &mut listener, stations, links);
    let ended = match served {
        Ok(stations) => match stations.as_slice() {
            [first, second] => Ok((first.mark, second.mark)),
            _ => Ok((0, 0)),
        },
        Err(stop) => Err(stop),
    };
    let starts = back.len() as u64;
    Ok(ended == end && listener.back.as_slice() == back && spawner.starts() == starts)
}

#[test]
fn links_come_back_as_their_jobs_are_joined(rt: HostRuntime) -> Result<(), Fail> {
    let alloc = rt.alloc();
    assert!(rt;
        come_back(
            &rt,
            alloc,
            Way::AtOnce,
            (3, 3),
            Ok((12, 21)),
            &[(1, 10), (3, 11), (2, 20)]
        )?
    );
    assert!(rt; come_back(&rt, alloc, Way::AtOnce, (3, 1), Ok((11, 20)), &[(1, 10)])?);
    assert!(rt; come_back(&rt, alloc, Way::AtOnce, (0, 0), Ok((10, 20)), &[])?);
    Ok(())
}

#[test]
fn what_was_started_comes_back_at_a_stop(rt: HostRuntime) -> Result<(), Fail> {
    let alloc = rt.alloc();
    assert!(rt;
        come_back(
            &rt,
            alloc,
            Way::AtOnce,
            (3, 4),
            Err(Stop::NoLink),
            &[(1, 10), (3, 11), (2, 20)]
        )?
    );
    let fails = Listed::from_vec(Vec::from_array(alloc, [3])?);
    assert!(rt;
        come_back(
            &rt,
            alloc,
            Way::Failing(fails),
            (4, 4),
            Err(Stop::NotStarted),
            &[(1, 10), (2, 20)]
        )?
    );
    Ok(())
}

#[test]
fn links_are_served_in_threads(rt: HostRuntime) -> Result<(), Fail> {
    let alloc = rt.alloc();
    let mut listener = silent_peers(alloc, 20)?;
    let mut spawner = Spawner::new(Way::Threads);
    let stations = Vec::from_array(alloc, [marking_from(0), marking_from(100)])?;
    let served = serve(&rt, alloc, &mut spawner, &mut listener, stations, 20);
    assert!(rt; served.is_ok());
    let mut back = listener.back;
    back.sort()?;
    let numbers = back.iter().map(|(link, _)| *link);
    assert!(rt; numbers.eq(1..=20));
    assert!(rt; spawner.starts() == 20);
    Ok(())
}
