//! Masks as clients write them, on a page of a listing.
use crate::report::{Failure, expect, report};
use gcs_fields::{MaskFault, apply, read_mask};
use serde_json::Value;
use std::alloc::{AllocError, Global};
use std::io;

const PAGE: &str = concat!(
    "{\"etag\":null,\"items\":[{\"name\":\"a\",\"size\":\"3\"}],",
    "\"kind\":\"k\",\"prefixes\":[\"p\"]}",
);

// What a mask leaves of the page, or the place at which its text begins no mask.
const ROWS: [(&str, &str); 11] = [
    (
        "items(name,generation),nextPageToken",
        "{\"items\":[{\"name\":\"a\"}]}",
    ),
    ("*", PAGE),
    ("*/name", "{\"items\":[{\"name\":\"a\"}],\"prefixes\":[]}"),
    ("kind/name,etag/name", "{}"),
    (
        "items(name),items/size",
        "{\"items\":[{\"name\":\"a\",\"size\":\"3\"}]}",
    ),
    (
        "items,items(size)",
        "{\"items\":[{\"name\":\"a\",\"size\":\"3\"}]}",
    ),
    ("items(name", "no mask at 10"),
    ("a,,b", "no mask at 2"),
    ("items()", "no mask at 6"),
    ("a)", "no mask at 1"),
    ("", "no mask at 0"),
];

// Texts of a part many times and an end: what they are read as. 32 names are a mask, and one more is none. A bracket is no
// 4,096th byte, since a name and `)` would follow.
const LONG: [(&str, usize, &str, Option<u32>); 5] = [
    ("a/", 31, "a", None),
    ("a/", 32, "a", Some(63)),
    ("a", 4096, "", None),
    ("a", 4097, "", Some(4096)),
    ("a", 4095, "(", Some(4095)),
];

pub fn report_cases(rt: &(impl Print + AllocGlobal)) -> io::Result<bool> {
    let alloc = rt.alloc();
    let rows = report(
        rt,
        "a_mask_leaves_its_fields_or_names_its_place",
        try_rows(alloc),
    )?;
    let long = report(rt, "masks_end_at_their_limits", try_long(alloc))?;
    Ok(rows && long)
}

// The text of what the mask leaves of the page, or where its text is no mask.
fn shown(alloc: Global, mask: &str) -> Result<String, AllocError> {
    match read_mask(alloc, mask.as_bytes()) {
        Ok(mask) => match Value::from_str(alloc, PAGE) {
            Ok(value) => apply(alloc, &mask.copy()?, value)?.to_string(alloc),
            Err(_) => Err(AllocError),
        },
        Err(MaskFault::Bad { place }) => format!(in alloc; "no mask at {place}"),
        Err(MaskFault::NoMemory) => Err(AllocError),
    }
}

fn try_rows(alloc: Global) -> Result<(), Failure> {
    for (row, (mask, wanted)) in ROWS.iter().enumerate() {
        expect(row, shown(alloc, mask)?.as_str() == *wanted)?;
    }
    Ok(())
}

// Where a text is no mask.
fn fault_of(alloc: Global, text: &str) -> Result<Option<u32>, AllocError> {
    match read_mask(alloc, text.as_bytes()) {
        Ok(_) => Ok(None),
        Err(MaskFault::Bad { place }) => Ok(Some(place)),
        Err(MaskFault::NoMemory) => Err(AllocError),
    }
}

fn try_long(alloc: Global) -> Result<(), Failure> {
    for (row, (part, count, end, wanted)) in LONG.iter().enumerate() {
        let mut text = String::new(alloc);
        for _ in 0..*count {
            text.push_str(part)?;
        }
        text.push_str(end)?;
        expect(row, fault_of(alloc, &text)? == *wanted)?;
    }
    Ok(())
}
