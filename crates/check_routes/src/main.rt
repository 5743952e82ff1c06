//! Requests as clients write them, as files, and a line a group that tells whether each is the call or the refusal beside it.
#![tactic(auto)]

mod shown;

use check_rows::status;
use shown::shown;
use std::process::ExitCode;
use std::rt::Files;
use std::{env, fs, io};

fn main(rt: HostRuntime) -> io::Result<ExitCode> {
    let mut all_ok = true;
    for path in env::args(&rt)?.skip(1) {
        all_ok &= run_file(&rt, path.as_str())?;
    }
    Ok(status(all_ok))
}

// Prints a line for each group of rows, and answers whether all rows are as they must be.
fn run_file(rt: &(impl Files + Print + AllocGlobal), path: &str) -> io::Result<bool> {
    let text = fs::read_to_string(rt, path)?;
    let mut all_ok = true;
    let mut group = "";
    let mut group_ok = true;
    for line in text.lines() {
        if let Some(name) = line.strip_prefix("== ") {
            close_group(rt, group, group_ok)?;
            group = name;
            group_ok = true;
        } else if !line.is_empty() && !line.starts_with("# ") {
            group_ok &= run_row(rt, group, line)?;
            all_ok &= group_ok;
        }
    }
    close_group(rt, group, group_ok)?;
    Ok(all_ok)
}

// Prints that all rows of a group are as they must be, if they are.
fn close_group(rt: &impl Print, group: &str, is_ok: bool) -> io::Result<()> {
    if is_ok && !group.is_empty() {
        println!(rt; "ok {group}")?;
    }
    Ok(())
}

// Prints a line for a row that is not as it must be, and answers whether it is: METHOD TARGET -> WANTED.
fn run_row(rt: &(impl Print + AllocGlobal), group: &str, line: &str) -> io::Result<bool> {
    let Some((request, wanted)) = line.split_once(" -> ") else {
        println!(rt; "FAILED {group}: no row: {line}")?;
        return Ok(false);
    };
    let Some((method, target)) = request.split_once(' ') else {
        println!(rt; "FAILED {group}: no request: {line}")?;
        return Ok(false);
    };
    let given = shown(rt.alloc(), method, target)?;
    if given.as_str() != wanted {
        println!(rt; "FAILED {group}: {request} -> {given}")?;
        return Ok(false);
    }
    Ok(true)
}
