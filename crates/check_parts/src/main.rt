//! Content types and multipart bodies with what must be told of them, and a line a row that says whether it is.
#![tactic(auto)]

mod bodies;
mod content_types;
mod contents;
mod heads;
mod telling;

use bodies::{BODIES, BodyRow};
use check_rows::{report, status};
use content_types::{NAMED, UNNAMED};
use contents::{BOUND, DELIMITERS, check_content};
use gcs_multipart::boundary;
use heads::{HEADS, HeadRow};
use std::alloc::{AllocError, Global};
use std::io;
use std::process::ExitCode;
use telling::{Fault, fault_at, tell_by_copy};

fn main(rt: HostRuntime) -> io::Result<ExitCode> {
    let mut all_ok = check_types(&rt)?;
    for row in &BODIES {
        all_ok &= report(&rt, row.name, "bodies", check_body(rt.alloc(), row)?)?;
    }
    all_ok &= report(
        &rt,
        "a_copy_goes_on_where_its_source_stands",
        "bodies",
        check_copies(rt.alloc())?,
    )?;
    for row in &HEADS {
        all_ok &= report(&rt, row.name, "heads", check_head(rt.alloc(), row)?)?;
    }
    for delimiter in DELIMITERS {
        all_ok &= check_fronts(&rt, rt.alloc(), delimiter)?;
    }
    Ok(status(all_ok))
}

fn check_types(rt: &impl Print) -> io::Result<bool> {
    let mut all_ok = true;
    for (text, wanted) in NAMED {
        let is_ok = boundary(text.as_bytes()) == Some(wanted.as_bytes());
        all_ok &= is_ok;
        println!(rt; "{} {text:?} names {wanted:?}", word(is_ok))?;
    }
    for text in UNNAMED {
        let is_ok = boundary(text.as_bytes()).is_none();
        all_ok &= is_ok;
        println!(rt; "{} {text:?} names none", word(is_ok))?;
    }
    Ok(all_ok)
}

fn check_body(alloc: Global, row: &BodyRow) -> Result<Option<Fault>, AllocError> {
    let Some(boundary) = boundary(row.content_type.as_bytes()) else {
        return Ok(Some(no_boundary(alloc)));
    };
    let body = row.body.as_bytes();
    for size in 1..=body.len() {
        let fault = fault_at(alloc, boundary, body, row.told.as_bytes(), size)?;
        if fault.is_some() {
            return Ok(fault);
        }
    }
    Ok(None)
}

// The fault of a reader that is copied behind so many bytes of the first body, if there is one.
fn check_copies(alloc: Global) -> Result<Option<Fault>, AllocError> {
    let row = &BODIES[0];
    let Some(boundary) = boundary(row.content_type.as_bytes()) else {
        return Ok(Some(no_boundary(alloc)));
    };
    let body = row.body.as_bytes();
    for place in 0..body.len() {
        let telling = tell_by_copy(alloc, boundary, body, place)?;
        if telling.line.as_slice() != row.told.as_bytes() {
            return Ok(Some(Fault {
                size: place,
                line: telling.line,
            }));
        }
    }
    Ok(None)
}

fn check_head(alloc: Global, row: &HeadRow) -> Result<Option<Fault>, AllocError> {
    let Some(boundary) = boundary(b"multipart/related; boundary=b") else {
        return Ok(Some(no_boundary(alloc)));
    };
    let body = row.body(alloc)?;
    for size in [1, 7, 4_096, body.len()] {
        let fault = fault_at(alloc, boundary, &body, row.told.as_bytes(), size)?;
        if fault.is_some() {
            return Ok(fault);
        }
    }
    Ok(None)
}

// A line for each front of the delimiter.
fn check_fronts(rt: &impl Print, alloc: Global, delimiter: &str) -> io::Result<bool> {
    let Some(boundary) = boundary(BOUND.as_bytes()) else {
        return report(rt, delimiter, BOUND, Some(no_boundary(alloc)));
    };
    let mut all_ok = true;
    for length in 0..delimiter.len() {
        let front = &delimiter.as_bytes()[..length];
        let name = format!(in alloc; "content with {length} bytes of {delimiter:?}")?;
        all_ok &= report(
            rt,
            name.as_str(),
            BOUND,
            check_content(alloc, boundary, front)?,
        )?;
    }
    Ok(all_ok)
}

fn no_boundary(alloc: Global) -> Fault {
    Fault {
        size: 0,
        line: Vec::new(alloc),
    }
}

fn word(is_ok: bool) -> &'static str {
    if is_ok { "ok" } else { "FAILED" }
}
