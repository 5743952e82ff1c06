//! Why a row fails.
use crate::course::Course;
use gcs_session::SessionEnd;
use std::alloc::{AllocError, Global};
use std::fmt;

/// Why a row fails. Connections are counted from 1.
#[derive(Debug, Drop)]
pub enum Failure {
    /// The line of that number of the file is no line of a row.
    BadLine(usize),
    /// A connection ended otherwise.
    End {
        course: Course,
        connection: usize,
        wanted: SessionEnd,
        found: SessionEnd,
    },
    /// The bytes written differ.
    Bytes {
        course: Course,
        connection: usize,
        difference: Difference,
    },
    /// The histories have another number of entries.
    Entries {
        course: Course,
        wanted: usize,
        found: usize,
    },
    /// The program has another status.
    Status {
        wanted: u8,
        found: u8,
    },
    /// The session that is fed by hand.
    ByHand,
    NoMemory,
}

/// The first place where bytes differ, and what stands from a little before it, as ASCII with escapes.
#[derive(Debug, Drop)]
pub struct Difference {
    place: usize,
    wanted: String,
    found: String,
}

/// How many bytes of a difference are shown before its place, and how many in all.
const BEFORE: usize = 20;

const SHOWN: usize = 80;

impl Difference {
    pub fn between(alloc: Global, wanted: &[u8], found: &[u8]) -> Result<Difference, AllocError> {
        let place = wanted
            .iter()
            .zip(found)
            .take_while(|(left, right)| left == right)
            .count();
        Ok(Difference {
            place,
            wanted: shown(alloc, wanted, place)?,
            found: shown(alloc, found, place)?,
        })
    }
}

fn shown(alloc: Global, bytes: &[u8], place: usize) -> Result<String, AllocError> {
    let end = place
        .saturating_sub(BEFORE)
        .saturating_add(SHOWN)
        .min(bytes.len());
    let start = place.saturating_sub(BEFORE).min(end);
    format!(in alloc; "{}", bytes[start..end].escape_ascii())
}

impl From<AllocError> for Failure {
    fn from(_error: AllocError) -> Failure {
        Failure::NoMemory
    }
}

impl fmt::Display for Failure {
    fn fmt<W: fmt::Write>(&self, f: &mut fmt::Formatter<W>) -> fmt::Result {
        match self {
            Failure::BadLine(number) => write!(f, "line {number} is no line of a row"),
            Failure::End {
                course,
                connection,
                wanted,
                found,
            } => write!(
                f,
                "{course}: connection {connection} must end by {wanted:?}, and ended by {found:?}"
            ),
            Failure::Bytes {
                course,
                connection,
                difference,
            } => write!(f, "{course}: connection {connection}, {difference}"),
            Failure::Entries {
                course,
                wanted,
                found,
            } => write!(f, "{course}: {wanted} entries must stand, and {found} do"),
            Failure::Status { wanted, found } => {
                write!(f, "the program's status must be {wanted}, and is {found}")
            }
            Failure::ByHand => write!(f, "a step of the session is not as it must be"),
            Failure::NoMemory => write!(f, "no memory"),
        }
    }
}

impl fmt::Display for Difference {
    fn fmt<W: fmt::Write>(&self, f: &mut fmt::Formatter<W>) -> fmt::Result {
        let place = self.place;
        let wanted = &self.wanted;
        let found = &self.found;
        write!(f, "byte {place}\n  wanted {wanted}\n  found  {found}")
    }
}
