//! Moments and their texts: civil dates as `date -u` gives them, and what RFC 3339 and this profile of it refuse.
use crate::report::{Failure, expect, report};
use gcs_time::{read_time, time_text};
use std::io;

const WRITTEN: [(u64, &[u8]); 5] = [
    (0, b"1970-01-01T00:00:00.000Z"),
    (1_700_000_000_000_000, b"2023-11-14T22:13:20.000Z"),
    (1_700_604_800_000_000, b"2023-11-21T22:13:20.000Z"),
    (951_868_799_999_999, b"2000-02-29T23:59:59.999Z"),
    (u64::MAX, b"9999-12-31T23:59:59.999Z"),
];

const READ: [(&[u8], u64); 8] = [
    (b"2023-11-14T22:13:20.000Z", 1_700_000_000_000_000),
    (b"2023-11-14t22:13:20z", 1_700_000_000_000_000),
    (b"2023-11-15T00:13:20+02:00", 1_700_000_000_000_000),
    (b"2023-11-14T20:43:20.5-01:30", 1_700_000_000_500_000),
    (b"1970-01-01T00:00:00.123456789Z", 123_456),
    (b"1969-12-31T23:30:00-01:00", 1_800_000_000),
    (b"2000-02-29T00:00:00Z", 951_782_400_000_000),
    (b"9999-12-31T23:59:59.999999Z", 253_402_300_799_999_999),
];

const OTHERS: [&[u8]; 12] = [
    b"",
    b"2023-11-14",
    b"2023-11-14T22:13:20",
    b"2023-11-14T22:13:60Z",
    b"2023-11-14T24:00:00Z",
    b"2023-02-29T00:00:00Z",
    b"2023-13-01T00:00:00Z",
    b"2023-11-14T22:13:20.Z",
    b"2023-11-14T22:13:20.1234567890Z",
    b"2023-11-14T22:13:20+24:00",
    b"1969-12-31T23:59:59Z",
    b"9999-12-31T23:59:59-00:01",
];

pub fn report_cases(rt: &impl Print) -> io::Result<bool> {
    let written = report(rt, "moments_have_their_civil_texts", try_written())?;
    let read = report(rt, "texts_in_any_zone_name_their_moment", try_read())?;
    let others = report(rt, "other_texts_name_no_moment", try_others())?;
    Ok(written && read && others)
}

fn try_written() -> Result<(), Failure> {
    for (row, (moment, wanted)) in WRITTEN.iter().enumerate() {
        expect(row, time_text(*moment).as_slice() == *wanted)?;
    }
    Ok(())
}

fn try_read() -> Result<(), Failure> {
    for (row, (text, wanted)) in READ.iter().enumerate() {
        expect(
            row,
            matches!(read_time(text), Ok(moment) if moment == *wanted),
        )?;
    }
    Ok(())
}

fn try_others() -> Result<(), Failure> {
    for (row, text) in OTHERS.iter().enumerate() {
        expect(row, read_time(text).is_err())?;
    }
    Ok(())
}
