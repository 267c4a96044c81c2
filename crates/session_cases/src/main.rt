//! Runs sessions over bytes in memory, and says of each whether it is what the files want.
//!
//! The first word names the folder of the cases; `rt try` copies the files that the others name. The
//! file `cases` there has a line a case, and says at its head what its columns are.
#![tactic(auto)]

mod case;
mod difference;
mod session;

use anyhow::{Context, Result, ensure};
use case::Case;
use difference::Difference;
use session::{Pieces, Streams, differs};
use std::alloc::Global;
use std::env::{self, Env};
use std::fs;
use std::rt::Files;

/// More bytes than a case has.
const ALL: usize = 1_000_000;

/// How the bytes are cut.
const CUTS: [Pieces; 3] = [
    Pieces {
        read: 1,
        write: ALL,
    },
    Pieces { read: 7, write: 1 },
    Pieces {
        read: ALL,
        write: ALL,
    },
];

/// The folder that the first word names.
fn folder(rt: &(impl Env + AllocGlobal)) -> Result<String> {
    env::args(rt)?.nth(1).context("no folder is named")
}

/// The first difference of a case from its streams, and how its bytes were cut.
fn first_among(
    alloc: Global,
    case: &Case,
    streams: &Streams,
) -> Result<Option<(Pieces, Difference)>> {
    for pieces in CUTS {
        if let Some(difference) = differs(alloc, case, streams, pieces)? {
            return Ok(Some((pieces, difference)));
        }
    }
    Ok(None)
}

/// The first difference of a case, and how its bytes were cut.
fn first_difference(
    rt: &(impl Files + AllocGlobal),
    folder: &str,
    case: &Case,
) -> Result<Option<(Pieces, Difference)>> {
    let streams = Streams::of(rt, folder, case)?;
    first_among(rt.alloc(), case, &streams)
}

/// Prints the line of a case.
fn print_case(rt: &impl Print, name: &str, difference: Option<(Pieces, Difference)>) -> Result<()> {
    match difference {
        None => println!(rt; "{name}: ok")?,
        Some((pieces, difference)) => println!(rt; "{name}: {pieces}: {difference}")?,
    }
    Ok(())
}

/// Runs a case, prints its line, and tells whether it is as it is wanted.
fn is_right(rt: &(impl Files + Print + AllocGlobal), folder: &str, case: &Case) -> Result<bool> {
    let name = case.name;
    let difference = first_difference(rt, folder, case).context(format_args!("case {name}"))?;
    print_case(rt, name, difference)?;
    Ok(difference.is_none())
}

fn is_comment(line: &str) -> bool {
    line.is_empty() || line.starts_with('#')
}

/// How many cases of an index differ from what is wanted.
fn wrong_in(rt: &(impl Files + Print + AllocGlobal), folder: &str, index: &str) -> Result<u64> {
    let mut wrong = 0_u64;
    for line in index.lines() {
        if is_comment(line) {
            continue;
        }
        let case = Case::of_line(line).context(format_args!("no case: {line}"))?;
        if !is_right(rt, folder, &case)? {
            wrong = wrong.saturating_add(1);
        }
    }
    Ok(wrong)
}

/// How many cases of the folder differ from what is wanted.
fn wrong_cases(rt: &(impl Files + Print + AllocGlobal), folder: &str) -> Result<u64> {
    let path = format!(in rt.alloc(); "{folder}/cases")?;
    let index = fs::read_to_string(rt, path.as_str()).context(format_args!("reading {path}"))?;
    wrong_in(rt, folder, index.as_str())
}

fn main(rt: HostRuntime) -> Result<()> {
    let folder = folder(&rt)?;
    let wrong = wrong_cases(&rt, folder.as_str())?;
    ensure!(wrong == 0, "{wrong} cases differ");
    Ok(())
}
