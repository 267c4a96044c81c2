//! The shop's program: its words, the standard streams, the system's clock, its files, its threads, its sockets and an
//! emulated payment gateway go to the top calls.
#![tactic(auto)]

use shop_app::{Status, is_shared, run_alone, run_shared};
use shop_disk::FileDisk;
use shop_edges::{ReaderSource, Spawner, StandardOutput, SystemClock, Way, WriterSink, write_all};
use shop_gateway::Emulator;
use shop_keep::run_kept;
use shop_poll::run_polled;
use shop_tcp::TcpLinks;
use shop_text::{Memory, Text};
use shop_tokio::{TokioLinks, TokioRunner};
use shop_words::{is_kept, is_polled};
use std::alloc::Global;
use std::env::{self, Args, Env};
use std::io::{self, ErrorKind};
use std::net::{Net, TcpListener, TcpStream};
use std::process::ExitCode;
use std::random::RandomSource;
use std::rt::Clock;
use std::sync::Wait;
use std::thread::Threads;

/// A standard stream that is written to.
type Output = WriterSink<StandardOutput>;

/// Why there are no words: one of them is no text, or memory ran out.
fn fault_of(error: &io::Error) -> Status {
    match error.kind() {
        ErrorKind::InvalidData => Status::BadWords,
        _ => Status::Memory,
    }
}

fn copies_of(alloc: Global, arguments: Args<Global>) -> Result<Vec<Text>, Memory> {
    let mut words = Vec::new(alloc);
    for word in arguments.skip(1) {
        words.push(Text::copy(alloc, word.as_bytes())?)?;
    }
    Ok(words)
}

/// The words behind the program's name.
fn words_of(rt: &(impl Env + AllocGlobal)) -> Result<Vec<Text>, Status> {
    match env::args(rt) {
        Ok(arguments) => copies_of(rt.alloc(), arguments).map_err(|_| Status::Memory),
        Err(error) => Err(fault_of(&error)),
    }
}

/// Does what the words say for one caller.
fn alone(rt: HostRuntime, words: &[Text], sink: &mut Output, faults: &mut Output) -> Status {
    let mut source = ReaderSource::new(rt.stdin());
    let mut clock = SystemClock::new(rt);
    let mut gateway = Emulator::new(rt.alloc());
    run_alone(
        rt.alloc(),
        words,
        &mut source,
        sink,
        faults,
        &mut clock,
        &mut gateway,
    )
}

/// Does what the words say with files that outlive the program.
fn kept(rt: HostRuntime, words: &[Text], sink: &mut Output, faults: &mut Output) -> Status {
    let mut source = ReaderSource::new(rt.stdin());
    let mut clock = SystemClock::new(rt);
    let mut gateway = Emulator::new(rt.alloc());
    let (status, _, _) = run_kept(
        rt.alloc(),
        words,
        FileDisk::new(rt),
        FileDisk::new(rt),
        &mut source,
        sink,
        faults,
        &mut clock,
        &mut gateway,
    );
    status
}

/// Does what the words say for several callers, each in a thread of its own, over sockets where they ask for them.
fn shared<
    R: Threads
        + Wait
        + Net<Listener = TcpListener, Stream = TcpStream>
        + Clock
        + AllocGlobal
        + Copy
        + Drop
        + Send
        + 'static,
>(rt: R, words: &[Text], sink: &mut Output, faults: &mut Output) -> Status {
    let mut spawner = Spawner::new(Way::Threads);
    let mut listener = TcpLinks::new(rt, rt.alloc());
    let clock = SystemClock::new(rt);
    run_shared(
        &rt,
        rt.alloc(),
        words,
        &mut spawner,
        &mut listener,
        sink,
        faults,
        &clock,
    )
}

/// A runner, and a listener whose links it waits for.
fn runner_of<R: Wait + Net + Clock + RandomSource + AllocGlobal + Copy + Drop>(
    rt: R,
) -> Result<(TokioRunner<R>, TokioLinks<R>), Status> {
    let runner = match TokioRunner::new(rt) {
        Ok(runner) => runner,
        Err(error) if error.kind() == ErrorKind::OutOfMemory => return Err(Status::Memory),
        Err(_) => return Err(Status::WorkerFault),
    };
    let Ok(handle) = runner.handle().clone() else {
        return Err(Status::Memory);
    };
    let listener = TokioLinks::new(rt, handle);
    Ok((runner, listener))
}

/// Does what the words say for many callers, all in one thread, over sockets.
fn polled<R: Wait + Net + Clock + RandomSource + AllocGlobal + Copy + Drop>(
    rt: R,
    words: &[Text],
    sink: &mut Output,
    faults: &mut Output,
) -> Status {
    let (mut runner, listener) = match runner_of(rt) {
        Ok(both) => both,
        Err(status) => {
            let _ = write_all(faults, status.line());
            return status;
        }
    };
    let clock = SystemClock::new(rt);
    let (status, _) = run_polled(
        &rt,
        rt.alloc(),
        words,
        listener,
        &mut runner,
        sink,
        faults,
        &clock,
    );
    status
}

fn main(rt: HostRuntime) -> ExitCode {
    let mut faults = WriterSink::new(StandardOutput::Error(rt.stderr()));
    let words = match words_of(&rt) {
        Ok(words) => words,
        Err(status) => {
            let _ = write_all(&mut faults, status.line());
            return ExitCode::from(status.code());
        }
    };
    let mut sink = WriterSink::new(StandardOutput::Output(rt.stdout()));
    let status = if is_kept(&words) {
        kept(rt, &words, &mut sink, &mut faults)
    } else if is_polled(&words) {
        polled(rt, &words, &mut sink, &mut faults)
    } else if is_shared(&words) {
        shared(rt, &words, &mut sink, &mut faults)
    } else {
        alone(rt, &words, &mut sink, &mut faults)
    };
    ExitCode::from(status.code())
}
