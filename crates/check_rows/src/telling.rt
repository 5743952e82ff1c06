//! What a test program tells: a line a case, and its status.
use std::fmt::Display;
use std::io;
use std::process::ExitCode;

/// Prints the line of a case, and answers whether it is as it must be. `place` is where the case stands.
pub fn report<F: Display + Drop>(
    rt: &impl Print,
    name: &str,
    place: &str,
    failure: Option<F>,
) -> io::Result<bool> {
    match failure {
        None => {
            println!(rt; "ok {name}")?;
            Ok(true)
        }
        Some(failure) => {
            println!(rt; "FAILED {name}: {place}: {failure}")?;
            Ok(false)
        }
    }
}

/// The status of a program: 0 where all its cases are as they must be, and else 1.
pub fn status(all_ok: bool) -> ExitCode {
    if all_ok {
        ExitCode::SUCCESS
    } else {
        ExitCode::FAILURE
    }
}
