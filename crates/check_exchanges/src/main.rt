//! Worked exchanges: what clients send and what must be written back, as files, and a line a row that tells whether it is.
#![tactic(auto)]

mod by_hand;
mod course;
mod failure;
mod limits;
mod line;
mod row;
mod serving;
mod store;
mod trying;
mod wire;

use by_hand::try_by_hand;
use check_rows::{report, status};
use failure::Failure;
use row::{Row, read_rows};
use std::alloc::{AllocError, Global};
use std::process::ExitCode;
use std::rt::Files;
use std::{env, fs, io};
use trying::try_row;

fn main(rt: HostRuntime) -> io::Result<ExitCode> {
    let by_hand = try_by_hand(rt.alloc());
    let mut all_ok = tell(
        &rt,
        "a_session_is_fed_and_drained_by_hand",
        "by hand",
        by_hand,
    )?;
    for path in env::args(&rt)?.skip(1) {
        all_ok &= run_file(&rt, path.as_str())?;
    }
    Ok(status(all_ok))
}

// Prints a line for each row of the file, and answers whether all rows are as they must be.
fn run_file(rt: &(impl Files + Print + AllocGlobal), path: &str) -> io::Result<bool> {
    let text = fs::read_to_string(rt, path)?;
    let rows = read_rows(rt.alloc(), text.as_str())?;
    let mut all_ok = true;
    for row in &rows {
        all_ok &= run_row(rt, rt.alloc(), path, row)?;
    }
    Ok(all_ok)
}

fn run_row(rt: &impl Print, alloc: Global, path: &str, row: &Row<'_>) -> io::Result<bool> {
    tell(rt, row.name, path, try_row(alloc, row))
}

// Prints the line of a row, and answers whether it is as it must be.
fn tell(rt: &impl Print, name: &str, path: &str, outcome: Result<(), Failure>) -> io::Result<bool> {
    match outcome {
        Ok(()) => report(rt, name, path, None::<Failure>),
        Err(Failure::NoMemory) => Err(AllocError.into()),
        Err(failure) => report(rt, name, path, Some(failure)),
    }
}
