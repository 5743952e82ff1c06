//! An object on which callers take turns, by one thread and by two, and pieces that two threads publish: a line a case that
//! tells whether history, answers and bytes are what they must be.
#![tactic(auto)]

mod alone;
mod publishing;
mod tally;
mod together;

use alone::{on_one_thread, without_room};
use check_rows::{report, status};
use publishing::pieces_of_two_threads;
use std::io;
use std::process::ExitCode;
use together::on_two_threads;

/// Callers 1, 2 and 1, one after the other, and what each was answered.
const IN_TURN: &str = "5 12 23 of 1.0 at 10 adds 5; 2.0 at 20 adds 7; 1.1 at 30 adds 11; ";

/// The second call finds no room: its command comes back, and the third has the number that it would have had.
const NO_ROOM: &str = "5 and 7 back of 1.0 at 10 adds 5; ";

/// The call that comes first, and 1,000 of each thread.
const TOGETHER: &str = "2001 entries, 1001 and 1000, in order, sum 2001";

/// The piece of the first thread, and behind it that of the second.
const PIECES: &str = "aabb";

fn main(rt: HostRuntime) -> io::Result<ExitCode> {
    let alloc = rt.alloc();
    let came = on_one_thread(&rt, alloc)?;
    let mut all_ok = tell(&rt, "three callers on one thread", came.as_str(), IN_TURN)?;
    let came = without_room(&rt, alloc)?;
    all_ok &= tell(&rt, "a call that finds no room", came.as_str(), NO_ROOM)?;
    let came = on_two_threads(&rt, alloc)?;
    all_ok &= tell(&rt, "two threads of 1,000 calls", came.as_str(), TOGETHER)?;
    let came = pieces_of_two_threads(&rt, alloc)?;
    all_ok &= tell(
        &rt,
        "a content of two threads' pieces",
        came.as_str(),
        PIECES,
    )?;
    Ok(status(all_ok))
}

fn tell(rt: &impl Print, case: &str, came: &str, wanted: &str) -> io::Result<bool> {
    let other = if came == wanted { None } else { Some(came) };
    report(rt, case, wanted, other)
}
