//! What the test programs share: the rows of a file, the line that tells of one, and the status of a program.
#![tactic(auto)]

mod rows;
mod telling;

pub use rows::{Failure, Row, Show, first_failure, read_rows};
pub use telling::{report, status};
