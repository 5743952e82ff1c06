//! What a case found, and the line that tells it.
use std::alloc::AllocError;
use std::io;

/// Why a case fails.
#[derive(Drop)]
pub enum Failure {
    /// The row of that number of its table, counted from 0, is not as it must be.
    Row(usize),
    NoMemory,
}

impl From<AllocError> for Failure {
    fn from(_error: AllocError) -> Failure {
        Failure::NoMemory
    }
}

/// `Err` where the row of that number is not as it must be.
pub fn expect(row: usize, holds: bool) -> Result<(), Failure> {
    if holds {
        Ok(())
    } else {
        Err(Failure::Row(row))
    }
}

/// Prints the line of a case, and answers whether all its rows are as they must be.
pub fn report(rt: &impl Print, name: &str, tried: Result<(), Failure>) -> io::Result<bool> {
    let row = match tried {
        Ok(()) => None,
        Err(Failure::Row(row)) => Some(row),
        Err(Failure::NoMemory) => return Err(AllocError.into()),
    };
    check_rows::report(rt, name, "row", row)
}
