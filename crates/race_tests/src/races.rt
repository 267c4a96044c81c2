//! Races: what they print, and what is told where they don't end well.
use crate::runs::{Outcome, is_told, run, run_into};
use shop_app::Status;
use shop_edges::{BytesOut, NoListener, Way};
use shop_text::{Listed, Memory};
use std::alloc::Global;
use std::sync::Wait;
use std::test::Fail;
use std::thread::Threads;

/// Four browsers that mostly order, a hundred requests each.
const ORDERING: &str = "race --workers 4 --steps 100 --mix ordering";

/// What comes of words that open no port, where the jobs are run in this way.
fn run_race<R: Threads + Wait + Clone + Drop + Send + 'static>(
    rt: &R,
    alloc: Global,
    line: &str,
    way: Way,
) -> Result<Outcome, Memory> {
    run(rt, alloc, line, way, &mut NoListener::new())
}

/// The number of entries that was printed, and the sum of those of the callers.
fn entries_of(printed: &str) -> Option<(u64, u64)> {
    let mut entries = None;
    let mut sum = 0_u64;
    for line in printed.lines() {
        let (name, number) = line.rsplit_once(' ')?;
        let number = number.parse::<u64>().ok()?;
        if name == "entries" {
            entries = Some(number);
        }
        if name.starts_with("caller ") {
            sum = sum.saturating_add(number);
        }
    }
    Some((entries?, sum))
}

/// Whether what was printed of a race has at least one entry, and each entry is of a caller.
fn has_entries_of_callers(printed: &[u8]) -> bool {
    let printed = std::str::from_utf8(printed).unwrap_or("(no text)");
    match entries_of(printed) {
        Some((entries, sum)) => entries > 0 && sum == entries,
        None => false,
    }
}

#[test]
fn a_worker_that_is_not_started_is_told_and_nothing_is_printed(
    rt: HostRuntime,
) -> Result<(), Fail> {
    let alloc = rt.alloc();
    let second = Listed::from_vec(vec![in alloc; 2]?);
    let line = "race --workers 2 --steps 1";
    let outcome = run_race(&rt, alloc, line, Way::Failing(second))?;
    assert!(rt;
        is_told(
            &outcome,
            Status::WorkerFault,
            (1, 1),
            "",
            "tpcw: worker fault\n"
        )
    );
    assert!(rt; outcome.status.code() == 6);
    Ok(())
}

#[test]
fn two_workers_race_where_no_number_is_given(rt: HostRuntime) -> Result<(), Fail> {
    let outcome = run_race(&rt, rt.alloc(), "race --steps 1", Way::AtOnce)?;
    let lines = "entries 0\norders 0\ncents 0\ncaller 1 0\ncaller 2 0\n";
    assert!(rt; is_told(&outcome, Status::Done, (2, 0), lines, ""));
    assert!(rt; outcome.status.code() == 0);
    Ok(())
}

/// What is printed where these browsers are run one after another.
const LINES: &str = "entries 176\norders 40\ncents 124969\n\
caller 1 44\ncaller 2 44\ncaller 3 44\ncaller 4 44\n";

/// The same browsers over a log that may have twenty changes.
const ORDERING_OF_20: &str = "race --workers 4 --steps 100 --mix ordering --limit 20";

/// The first browser makes all of these changes.
const LINES_OF_20: &str = "entries 20\norders 0\ncents 0\n\
caller 1 20\ncaller 2 0\ncaller 3 0\ncaller 4 0\n";

/// Whether a race of four at once prints these lines.
fn is_printed<R: Threads + Wait + Clone + Drop + Send + 'static>(
    rt: &R,
    alloc: Global,
    line: &str,
    lines: &str,
) -> Result<bool, Memory> {
    let outcome = run_race(rt, alloc, line, Way::AtOnce)?;
    Ok(is_told(&outcome, Status::Done, (4, 0), lines, ""))
}

#[test]
fn a_race_at_once_prints_the_same_lines_each_time(rt: HostRuntime) -> Result<(), Fail> {
    let first = is_printed(&rt, rt.alloc(), ORDERING, LINES)?;
    let second = is_printed(&rt, rt.alloc(), ORDERING, LINES)?;
    assert!(rt; first && second);
    Ok(())
}

#[test]
fn a_race_goes_on_behind_the_last_change_of_its_log(rt: HostRuntime) -> Result<(), Fail> {
    assert!(rt; is_printed(&rt, rt.alloc(), ORDERING_OF_20, LINES_OF_20)?);
    Ok(())
}

#[test]
fn each_entry_of_a_race_in_threads_is_of_a_caller(rt: HostRuntime) -> Result<(), Fail> {
    let outcome = run_race(&rt, rt.alloc(), ORDERING, Way::Threads)?;
    assert!(rt; (outcome.status, outcome.starts) == (Status::Done, (4, 0)));
    assert!(rt; outcome.told.bytes().is_empty());
    assert!(rt; has_entries_of_callers(outcome.printed.bytes()));
    Ok(())
}

/// Whether words ask for no race: nothing is started or printed.
fn is_refused<R: Threads + Wait + Clone + Drop + Send + 'static>(
    rt: &R,
    alloc: Global,
    line: &str,
) -> Result<bool, Memory> {
    let outcome = run_race(rt, alloc, line, Way::AtOnce)?;
    Ok(is_told(&outcome, Status::BadWords, (0, 0), "", "tpcw: bad words\n"))
}

#[test]
fn words_that_ask_for_no_race_start_nothing(rt: HostRuntime) -> Result<(), Fail> {
    let alloc = rt.alloc();
    assert!(rt; is_refused(&rt, alloc, "race --workers 17")?);
    assert!(rt; is_refused(&rt, alloc, "race --limit 0")?);
    assert!(rt; is_refused(&rt, alloc, "session")?);
    assert!(rt; is_refused(&rt, alloc, "")?);
    Ok(())
}

#[test]
fn a_sink_that_fails_holds_a_front_of_the_lines(rt: HostRuntime) -> Result<(), Fail> {
    let alloc = rt.alloc();
    let third = Listed::from_vec(vec![in alloc; 3]?);
    let sink = BytesOut::new(alloc, 8, third);
    let outcome = run_into(
        &rt,
        alloc,
        "race --steps 1",
        Way::AtOnce,
        &mut NoListener::new(),
        sink,
    )?;
    let lines = "entries 0\norders";
    assert!(rt;
        is_told(
            &outcome,
            Status::WriteFault,
            (2, 0),
            lines,
            "tpcw: write fault\n"
        )
    );
    assert!(rt; outcome.status.code() == 4);
    Ok(())
}
