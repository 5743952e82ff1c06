//! The line of a case.
use std::io;

/// Prints whether what came is what was wanted, and answers it.
pub fn tell(rt: &impl Print, case: &str, came: &str, wanted: &str) -> io::Result<bool> {
    let other = if came == wanted { None } else { Some(came) };
    check_rows::report(rt, case, wanted, other)
}
