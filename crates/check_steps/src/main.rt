//! Random commands on a bucket of the store and on a plain one, whose answers must be the same: a line a theme.
#![tactic(auto)]

mod asking;
mod buckets;
mod changes;
mod comparing;
mod contents;
mod deletions;
mod dice;
mod filling;
mod kept;
mod kinds;
mod listings;
mod maker;
mod puts;
mod restores;
mod slot;
mod themes;
mod twins;
mod uploads;

use asking::whole_list;
use check_rows::{report, status};
use gcs_chunks::Chunks;
use gcs_meaning::{BucketName, Command, Text, View};
use kinds::Missing;
use maker::Maker;
use std::alloc::{AllocError, Global};
use std::process::ExitCode;
use std::{env, io};
use themes::{THEMES, Theme};
use twins::Twins;

/// How many commands a run has.
const COMMANDS: u32 = 25;

const VIEWS: [View; 3] = [View::Live, View::Versions, View::Soft];

/// A command whose answers differ: its number in its run, from 0, and what was wanted.
#[derive(Drop)]
struct Difference {
    command: u32,
    wanted: String,
}

fn main(rt: HostRuntime) -> io::Result<ExitCode> {
    let runs = match env::args(&rt)?.nth(1) {
        Some(runs) => runs.parse::<u64>().unwrap_or(0),
        None => 1,
    };
    let mut missing = Missing::all(rt.alloc())?;
    let mut all_ok = true;
    for theme in &THEMES {
        all_ok &= try_theme(&rt, theme, runs, &mut missing)?;
    }
    all_ok &= report(
        &rt,
        "each kind of answer comes",
        "never came",
        missing.kinds.first().copied(),
    )?;
    Ok(status(all_ok))
}

// Prints the line of a theme, and answers whether all its answers are the same.
fn try_theme(
    rt: &(impl Print + AllocGlobal),
    theme: &'static Theme,
    runs: u64,
    missing: &mut Missing,
) -> io::Result<bool> {
    let name = theme.name;
    for run in 0..runs {
        if let Some(difference) = first_difference(rt.alloc(), theme, run, missing)? {
            let Difference { command, wanted } = difference;
            println!(rt; "FAILED {name}: run {run}, command {command}: wanted {wanted}")?;
            return Ok(false);
        }
    }
    println!(rt; "ok {name}: {runs} runs of {COMMANDS} commands")?;
    Ok(true)
}

// Makes the commands of a run, and last lists all versions.
fn first_difference(
    alloc: Global,
    theme: &'static Theme,
    run: u64,
    missing: &mut Missing,
) -> Result<Option<Difference>, AllocError> {
    let chunks = Chunks::new(alloc)?;
    let mut twins = Twins::new(alloc, &chunks);
    let mut maker = Maker::new(alloc, &chunks, theme, run);
    for command in 0..COMMANDS {
        let moment = maker.moment(&twins.slot)?;
        let next = maker.command(&twins.slot)?;
        if let Some(wanted) = twins.step(moment, next, missing)? {
            return Ok(Some(Difference { command, wanted }));
        }
    }
    for view in VIEWS {
        let list = Command::List {
            bucket: BucketName::new(Text::from_str(alloc, "tub")?),
            query: whole_list(Text::new(alloc), view)?,
        };
        if let Some(wanted) = twins.step(0, list, missing)? {
            return Ok(Some(Difference {
                command: COMMANDS,
                wanted,
            }));
        }
    }
    Ok(None)
}
