//! An index beside a plain sorted list of its keys, after each of some changes, and a line a case that tells whether the two are
//! the same.
#![tactic(auto)]

ghost use Rattle.std.specs.Prelude.{◌≡◌, ◌<◌};

mod cases;
mod compared;

use cases::{CASES, Case, Change};
use check_rows::{report, status};
use compared::Compared;
use gcs_index::Steps;
use std::alloc::{AllocError, Global};
use std::io;
use std::marker::Brand;
use std::process::ExitCode;
use std::sync::ledger::{Blank, Ledger};

fn main(rt: HostRuntime) -> io::Result<ExitCode> {
    let all_ok = try_cases::<Brand>(&rt, Blank::new(1))?;
    Ok(status(all_ok))
}

// Prints a line for each case, and answers whether all are as they must be.
fn try_cases<L: Ledger>(rt: &(impl Print + AllocGlobal), blank: Blank) -> io::Result<bool>
    requires name { blank.name ≡ L.name }
    requires parts { blank.parts ≡ L.parts }
    requires some { 0 < blank.parts }
{
    let mut steps = Steps::<L>::new(blank);
    let mut all_ok = true;
    for case in &CASES {
        let failure = first_failure(rt.alloc(), case, &mut steps)?;
        all_ok &= report(rt, case.name, "change", failure)?;
    }
    Ok(all_ok)
}

// The number of the first change, from 1, after which the two differ. `Err`: no memory.
fn first_failure<L: Ledger>(
    alloc: Global,
    case: &Case,
    steps: &mut Steps<L>,
) -> Result<Option<usize>, AllocError> {
    let mut compared = Compared::new(alloc);
    let mut number: usize = 0;
    for change in case.changes {
        number = number.saturating_add(1);
        let is_same = make(&mut compared, change, steps)?;
        if !is_same || !compared.is_same(steps) || !compared.copy()?.is_same(steps) {
            return Ok(Some(number));
        }
    }
    Ok(None)
}

// Makes a change key by key, and answers whether what was said of each key is so.
fn make<L: Ledger>(
    compared: &mut Compared,
    change: &Change,
    steps: &mut Steps<L>,
) -> Result<bool, AllocError> {
    let mut is_same = true;
    match change {
        Change::PutIn(run) => {
            for number in 0..run.count {
                is_same &= compared.put_in(run.key(number), steps)?;
            }
        }
        Change::TakeOut(run) => {
            for number in 0..run.count {
                is_same &= compared.take_out(run.key(number));
            }
        }
    }
    Ok(is_same)
}
