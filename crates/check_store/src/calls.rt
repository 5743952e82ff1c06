//! Calls that need no store: names, segments of paths, tokens and moments. A text is written as a segment of a path.
use gcs_listing::{TokenFault, read_bucket_token, read_token, write_bucket_token, write_token};
use gcs_meaning::{BucketName, Text, Unit, effective, shard_of};
use gcs_names::{BadName, bucket_name, object_name, segment};
use std::alloc::{AllocError, Global};

/// What a call answers, as a text. `Err`: no memory.
pub fn call_text(alloc: Global, call: &str, argument: &str) -> Result<String, AllocError> {
    let bytes = segment(alloc, argument.as_bytes())?;
    let bytes = bytes.as_slice();
    match call {
        "segment" => String::from_str(alloc, str::from_utf8(bytes).unwrap_or("no text")),
        "bucket-name" => match bucket_name(alloc, bytes) {
            Ok(name) => String::from_str(alloc, name.as_str()),
            Err(bad) => bad_name_text(alloc, bad),
        },
        "object-name" => match object_name(alloc, bytes) {
            Ok(name) => String::from_str(alloc, name.as_str()),
            Err(bad) => bad_name_text(alloc, bad),
        },
        "shard" => Ok(format!(in alloc; "{}", shard_of(bytes))?),
        "moment" => moment_text(alloc, argument),
        _ => token_call_text(alloc, call, argument),
    }
}

fn bad_name_text(alloc: Global, bad: BadName) -> Result<String, AllocError> {
    match bad {
        BadName::Form => String::from_str(alloc, "no name"),
        BadName::NoMemory => Err(AllocError),
    }
}

// The moment of a reading after a last moment, `LAST READING`.
fn moment_text(alloc: Global, argument: &str) -> Result<String, AllocError> {
    let (last, reading) = argument.split_once(" ").unwrap_or((argument, ""));
    let last = last.parse::<u64>().unwrap_or(0);
    let reading = reading.parse::<u64>().unwrap_or(0);
    Ok(format!(in alloc; "{}", effective(last, reading))?)
}

fn token_call_text(alloc: Global, call: &str, argument: &str) -> Result<String, AllocError> {
    let token = argument.as_bytes();
    match call {
        "token" => {
            let (number, text) = argument.split_once(" ").unwrap_or((argument, ""));
            let unit = Unit {
                text: Text::from_str(alloc, text)?,
                number: number.parse::<u64>().unwrap_or(0),
            };
            String::from_str(alloc, write_token(alloc, &unit)?.as_str())
        }
        "read-token" => match read_token(alloc, token) {
            Ok(unit) => Ok(format!(in alloc; "{} {}", unit.number, unit.text.as_str())?),
            Err(fault) => no_token_text(alloc, fault),
        },
        "bucket-token" => {
            let name = BucketName::new(Text::from_str(alloc, argument)?);
            String::from_str(alloc, write_bucket_token(alloc, &name)?.as_str())
        }
        "read-bucket-token" => match read_bucket_token(alloc, token) {
            Ok(name) => String::from_str(alloc, name.as_str()),
            Err(fault) => no_token_text(alloc, fault),
        },
        _ => String::from_str(alloc, "no such call"),
    }
}

fn no_token_text(alloc: Global, fault: TokenFault) -> Result<String, AllocError> {
    match fault {
        TokenFault::Bad => String::from_str(alloc, "no token"),
        TokenFault::NoMemory => Err(AllocError),
    }
}
