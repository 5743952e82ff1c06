//! Queries as clients write them.
use crate::report::{Failure, expect, report};
use gcs_query::{Query, QueryFault, decoded, read_query};
use std::alloc::{AllocError, Global};
use std::io;

// The text of a key's last value, after form decoding (URL Standard, 5.1).
const TEXTS: [(&[u8], &str, Option<&str>); 6] = [
    (b"name=a%2Fb+c%252F&&prefix=&name=b", "name", Some("b")),
    (b"name=a%2Fb+c%252F&&prefix=&name=b", "prefix", None),
    (b"name=a%2Fb+c%252F&&prefix=&name=b", "absent", None),
    (
        b"name=a%2Fb+c%252F&emptied=a&emptied=",
        "name",
        Some("a/b c%2F"),
    ),
    (b"name=a%2Fb+c%252F&emptied=a&emptied=", "emptied", None),
    (b"name", "name", None),
];

// What a value is read as, to the greatest `int64`; `None` where it is no number.
const NUMBERS: [(&[u8], Option<Option<u64>>); 7] = [
    (
        b"key=9223372036854775807",
        Some(Some(9_223_372_036_854_775_807)),
    ),
    (b"key=9223372036854775808", None),
    (b"key=-1", None),
    (b"key=", Some(None)),
    (b"key=0012", Some(Some(12))),
    (b"key=0000000000000000012", Some(Some(12))),
    (b"key=00000000000000000012", None),
];

// The same of flags.
const FLAGS: [(&[u8], Option<bool>); 4] = [
    (b"key=TRUE", Some(true)),
    (b"key=false", Some(false)),
    (b"key=", Some(false)),
    (b"key=yes", None),
];

// Raw keys and values, and the bytes that they stand for.
const DECODED: [(&[u8], &[u8]); 4] = [
    (b"a+b", b"a b"),
    (b"%2B%2f", b"+/"),
    (b"%FF%", b"\xFF%"),
    (b"", b""),
];

pub fn report_cases(rt: &(impl Print + AllocGlobal)) -> io::Result<bool> {
    let alloc = rt.alloc();
    let texts = report(rt, "the_last_pair_of_a_key_counts", try_texts(alloc))?;
    let values = report(rt, "numbers_and_flags_are_read", try_values(alloc))?;
    let faults = report(rt, "the_pair_that_is_no_text_is_named", try_faults(alloc))?;
    let bytes = report(rt, "keys_and_values_are_decoded_once", try_decoded(alloc))?;
    Ok(texts && values && faults && bytes)
}

fn query_of(alloc: Global, text: &[u8]) -> Result<Query, AllocError> {
    match read_query(alloc, text) {
        Ok(query) => Ok(query),
        Err(_) => Err(AllocError),
    }
}

fn try_texts(alloc: Global) -> Result<(), Failure> {
    for (row, (text, key, wanted)) in TEXTS.iter().enumerate() {
        let query = query_of(alloc, text)?;
        expect(row, query.text(key) == *wanted)?;
        expect(row, query.copy()?.text(key) == *wanted)?;
    }
    Ok(())
}

fn try_values(alloc: Global) -> Result<(), Failure> {
    for (row, (text, wanted)) in NUMBERS.iter().enumerate() {
        let query = query_of(alloc, text)?;
        expect(row, query.number("key").ok() == *wanted)?;
    }
    for (row, (text, wanted)) in FLAGS.iter().enumerate() {
        let query = query_of(alloc, text)?;
        expect(row, query.flag("key").ok() == *wanted)?;
    }
    Ok(())
}

fn try_faults(alloc: Global) -> Result<(), Failure> {
    let second = read_query(alloc, b"a=1&&b=%FF&c=%FE");
    expect(0, matches!(second, Err(QueryFault::NotText { pair: 1 })))?;
    let key = read_query(alloc, b"%80=1");
    expect(1, matches!(key, Err(QueryFault::NotText { pair: 0 })))
}

fn try_decoded(alloc: Global) -> Result<(), Failure> {
    for (row, (text, wanted)) in DECODED.iter().enumerate() {
        expect(row, decoded(alloc, text)?.as_slice() == *wanted)?;
    }
    Ok(())
}
