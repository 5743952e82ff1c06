//! Calls of the crates of the store, as rows of text, and a line a row that tells whether all answers are the wanted ones.
#![tactic(auto)]

mod answers;
mod bucket_commands;
mod calls;
mod commands;
mod copies;
mod finishes;
mod in_turns;
mod joins;
mod steps;
mod upload_commands;
mod version_commands;

use check_rows::{first_failure, read_rows, report, status};
use copies::first_bad_copy;
use finishes::{has_digests_of_all, is_copied_whole};
use gcs_chunks::Chunks;
use in_turns::entries_in_turns;
use joins::{are_given, are_joined};
use std::process::ExitCode;
use std::rt::Files;
use std::{env, fs, io};
use steps::Store;

/// Callers and their numbers with the entries that they made.
const IN_TURNS: &str = "1.0 insert; 2.0 put; 1.1 get; ";

fn main(rt: HostRuntime) -> io::Result<ExitCode> {
    let mut all_ok = true;
    for path in env::args(&rt)?.skip(1) {
        all_ok &= run_file(&rt, path.as_str())?;
    }
    let copied = first_bad_copy(rt.alloc())?;
    all_ok &= report(&rt, "copies_equal_their_sources", "copies", copied)?;
    all_ok &= run_cases(&rt, &Chunks::new(rt.alloc())?)?;
    let came = entries_in_turns(&rt, rt.alloc())?;
    all_ok &= tell(
        &rt,
        "three_callers_of_a_store_call_in_turns",
        came.as_str() == IN_TURNS,
    )?;
    Ok(status(all_ok))
}

// Prints a line for each case that is no row, and answers whether all are as they must be.
fn run_cases(rt: &(impl Print + AllocGlobal), chunks: &Chunks) -> io::Result<bool> {
    let alloc = rt.alloc();
    let mut all_ok = tell(
        rt,
        "joined_contents_have_the_crc_of_all_their_bytes",
        are_joined(alloc, chunks)?,
    )?;
    all_ok &= tell(
        rt,
        "names_give_their_texts_and_sources_are_copied",
        are_given(alloc)?,
    )?;
    all_ok &= tell(
        rt,
        "a_content_of_three_pieces_has_the_bytes_of_its_copy",
        is_copied_whole(alloc, chunks)?,
    )?;
    all_ok &= tell(
        rt,
        "a_finish_handed_digests_of_the_first_piece_has_those_of_all",
        has_digests_of_all(alloc, chunks)?,
    )?;
    Ok(all_ok)
}

fn tell(rt: &impl Print, name: &str, is_so: bool) -> io::Result<bool> {
    let failure = if is_so { None } else { Some("it isn't so") };
    report(rt, name, "main", failure)
}

// Prints a line for each row of the file, and answers whether all rows are as they must be. Each row has a store of its own.
fn run_file(rt: &(impl Files + Print + AllocGlobal), path: &str) -> io::Result<bool> {
    let text = fs::read_to_string(rt, path)?;
    let mut all_ok = true;
    for row in &read_rows(rt.alloc(), text.as_str())? {
        let chunks = Chunks::new(rt.alloc())?;
        let failure = first_failure(row, &mut Store::new(rt.alloc(), &chunks))?;
        all_ok &= report(rt, row.name, path, failure)?;
    }
    Ok(all_ok)
}
