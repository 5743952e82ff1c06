//! The words of the command line, the program over one connection, and connections served by workers beside each other, in
//! memory and over loopback: a line a case that tells whether what came is what must come.
#![tactic(auto)]

mod alone;
mod beside;
mod listener;
mod loopback;
mod many;
mod memory;
mod puts;
mod report;
mod shared;
mod statuses;
mod words;

use alone::try_alone;
use beside::try_beside;
use check_rows::status;
use loopback::try_loopback;
use many::try_many;
use memory::try_memory;
use puts::try_puts;
use shared::try_shared;
use statuses::try_statuses;
use std::io;
use std::process::ExitCode;
use words::try_words;

fn main(rt: HostRuntime) -> io::Result<ExitCode> {
    let mut all_ok = try_words(&rt)?;
    all_ok &= try_statuses(&rt)?;
    all_ok &= try_alone(&rt)?;
    all_ok &= try_memory(&rt)?;
    all_ok &= try_shared(&rt)?;
    all_ok &= try_beside(&rt)?;
    all_ok &= try_puts(&rt)?;
    all_ok &= try_loopback(&rt)?;
    all_ok &= try_many(&rt)?;
    Ok(status(all_ok))
}
