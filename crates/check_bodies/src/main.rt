//! Bodies of requests and resources of replies, as rows of text, and a line a row that tells whether all texts are the wanted ones.
#![tactic(auto)]

mod bodies;
mod resources;
mod said;
mod samples;
mod shown;

use check_rows::{first_failure, read_rows, report, status};
use shown::Shown;
use std::process::ExitCode;
use std::rt::Files;
use std::{env, fs, io};

fn main(rt: HostRuntime) -> io::Result<ExitCode> {
    let mut all_ok = true;
    for path in env::args(&rt)?.skip(1) {
        all_ok &= run_file(&rt, path.as_str())?;
    }
    Ok(status(all_ok))
}

// Prints a line for each row of the file, and answers whether all rows are as they must be.
fn run_file(rt: &(impl Files + Print + AllocGlobal), path: &str) -> io::Result<bool> {
    let text = fs::read_to_string(rt, path)?;
    let mut all_ok = true;
    for row in &read_rows(rt.alloc(), text.as_str())? {
        let failure = first_failure(row, &mut Shown::new(rt.alloc()))?;
        all_ok &= report(rt, row.name, path, failure)?;
    }
    Ok(all_ok)
}
