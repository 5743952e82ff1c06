//! All courses of a row.
use crate::course::{Course, SHORT};
use crate::failure::{Difference, Failure};
use crate::row::{Connection, Row};
use crate::serving::{Outcome, Served, run_program, serve_row};
use gcs_session::SessionEnd;
use std::alloc::Global;

/// The longest input that is cut at every place.
const LONGEST_CUT: usize = 2_000;

/// The longest input that is served a byte at a time.
const LONGEST_BY_BYTES: usize = 4_000_000;

/// Serves the row by each course, each over a store of its own. `Err`: the first thing that is not as it must be.
pub fn try_row(alloc: Global, row: &Row<'_>) -> Result<(), Failure> {
    if let Some(number) = row.bad_line {
        return Err(Failure::BadLine(number));
    }
    let longest = row.longest_input();
    try_course(alloc, row, Course::Whole)?;
    for size in piece_sizes(longest) {
        try_course(alloc, row, Course::Pieces(size))?;
    }
    let is_short = longest <= LONGEST_CUT;
    if is_short {
        for place in 1..longest {
            try_course(alloc, row, Course::CutAt(place))?;
        }
    }
    let [connection] = row.connections.as_slice() else {
        return Ok(());
    };
    if !row.is_limited {
        try_program(alloc, connection)?;
    }
    if is_short {
        try_faults(alloc, row, connection)?;
        try_room(alloc, row, connection)?;
    }
    Ok(())
}

// The sizes of the pieces in which an input of that length is served; long ones come in larger pieces, to spare time.
fn piece_sizes(longest: usize) -> [usize; 2] {
    if longest <= LONGEST_BY_BYTES {
        [1, SHORT]
    } else {
        [1_021, 65_537]
    }
}

// Each connection writes what it must and ends as it must.
fn try_course(alloc: Global, row: &Row<'_>, course: Course) -> Result<(), Failure> {
    let served = serve_row(alloc, row, course)?;
    let mut number: usize = 0;
    for (connection, outcome) in row.connections.iter().zip(&served.outcomes) {
        number = number.saturating_add(1);
        check_bytes(alloc, course, number, &connection.wanted, &outcome.written)?;
        check_end(course, number, connection.end, outcome.end)?;
    }
    match row.entries {
        Some(wanted) => check_entries(course, wanted, served.entries),
        None => Ok(()),
    }
}

fn try_program(alloc: Global, connection: &Connection) -> Result<(), Failure> {
    let (found, written) = run_program(alloc, connection)?;
    check_bytes(alloc, Course::Program, 1, &connection.wanted, &written)?;
    let wanted = match connection.end {
        SessionEnd::Cut => 6,
        _ => 0,
    };
    if found == wanted {
        Ok(())
    } else {
        Err(Failure::Status { wanted, found })
    }
}

// Each read fails once, and each write.
fn try_faults(alloc: Global, row: &Row<'_>, connection: &Connection) -> Result<(), Failure> {
    let by_pieces = serve_row(alloc, row, Course::Pieces(SHORT))?;
    let as_a_whole = serve_row(alloc, row, Course::Whole)?;
    for outcome in &by_pieces.outcomes {
        for number in 1..outcome.reads.saturating_add(1) {
            try_read_fault(alloc, row, connection, number)?;
        }
    }
    for outcome in &as_a_whole.outcomes {
        for number in 1..outcome.writes.saturating_add(1) {
            try_write_fault(alloc, row, connection, number)?;
        }
    }
    Ok(())
}

// A read that fails leaves what an input leaves that ends there.
fn try_read_fault(
    alloc: Global,
    row: &Row<'_>,
    connection: &Connection,
    number: u32,
) -> Result<(), Failure> {
    let course = Course::FailingRead(number);
    let served = serve_row(alloc, row, course)?;
    let read = (number as usize).saturating_sub(1).saturating_mul(SHORT);
    let ended = serve_row(alloc, row, Course::EndingAt(read))?;
    check_entries(course, ended.entries, served.entries)?;
    for (outcome, early) in served.outcomes.iter().zip(&ended.outcomes) {
        check_bytes(alloc, course, 1, &early.written, &outcome.written)?;
        check_front(alloc, course, &connection.wanted, &outcome.written)?;
        check_end(course, 1, SessionEnd::ReadFault, outcome.end)?;
    }
    Ok(())
}

fn try_write_fault(
    alloc: Global,
    row: &Row<'_>,
    connection: &Connection,
    number: u32,
) -> Result<(), Failure> {
    let course = Course::FailingWrite(number);
    let served = serve_row(alloc, row, course)?;
    for outcome in &served.outcomes {
        check_front(alloc, course, &connection.wanted, &outcome.written)?;
        check_end(course, 1, SessionEnd::WriteFault, outcome.end)?;
    }
    Ok(())
}

// However little room there is for the replies, it is filled.
fn try_room(alloc: Global, row: &Row<'_>, connection: &Connection) -> Result<(), Failure> {
    for room in (0..connection.wanted.len().min(LONGEST_CUT)).step_by(SHORT) {
        let course = Course::Room(room);
        let served = serve_row(alloc, row, course)?;
        for outcome in &served.outcomes {
            check_bytes(
                alloc,
                course,
                1,
                &connection.wanted[..room],
                &outcome.written,
            )?;
            check_end(course, 1, SessionEnd::WriteFault, outcome.end)?;
        }
    }
    Ok(())
}

fn check_bytes(
    alloc: Global,
    course: Course,
    connection: usize,
    wanted: &[u8],
    found: &[u8],
) -> Result<(), Failure> {
    if found == wanted {
        return Ok(());
    }
    let difference = Difference::between(alloc, wanted, found)?;
    Err(Failure::Bytes {
        course,
        connection,
        difference,
    })
}

fn check_front(alloc: Global, course: Course, wanted: &[u8], found: &[u8]) -> Result<(), Failure> {
    if wanted.starts_with(found) {
        return Ok(());
    }
    check_bytes(alloc, course, 1, wanted, found)
}

fn check_end(
    course: Course,
    connection: usize,
    wanted: SessionEnd,
    found: SessionEnd,
) -> Result<(), Failure> {
    if found == wanted {
        return Ok(());
    }
    Err(Failure::End {
        course,
        connection,
        wanted,
        found,
    })
}

fn check_entries(course: Course, wanted: usize, found: usize) -> Result<(), Failure> {
    if found == wanted {
        return Ok(());
    }
    Err(Failure::Entries {
        course,
        wanted,
        found,
    })
}
