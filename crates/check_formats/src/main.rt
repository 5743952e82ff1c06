//! What the crates of formats read and write, by vectors of their standards and rows written out by hand, and a line a case
//! that tells whether it is as it must be.
#![tactic(auto)]

mod contents;
mod digests;
mod events;
mod framing;
mod heads;
mod masks;
mod outside;
mod queries;
mod report;
mod times;

use check_rows::status;
use std::io;
use std::process::ExitCode;

fn main(rt: HostRuntime) -> io::Result<ExitCode> {
    let mut all_ok = digests::report_cases(&rt)?;
    all_ok &= contents::report_cases(&rt)?;
    all_ok &= outside::report_cases(&rt)?;
    all_ok &= times::report_cases(&rt)?;
    all_ok &= queries::report_cases(&rt)?;
    all_ok &= masks::report_cases(&rt)?;
    all_ok &= framing::report_cases(&rt)?;
    all_ok &= heads::report_cases(&rt)?;
    Ok(status(all_ok))
}
