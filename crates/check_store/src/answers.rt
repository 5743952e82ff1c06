//! Answers as short texts, which rows compare.
use gcs_meaning::{Answer, BucketRow, Kind, Reason, Row};
use std::alloc::{AllocError, Global};

/// What a row shows of an answer. `Err`: no memory.
pub fn answer_text(alloc: Global, answer: &Answer) -> Result<String, AllocError> {
    match answer {
        Answer::Bucket(row) => bucket_text(alloc, row),
        Answer::Object(row, _) => version_text(alloc, row),
        Answer::Empty => String::from_str(alloc, "empty"),
        Answer::Page(page) => Ok(format!(in alloc; "page of {}", page.items.len())?),
        Answer::Buckets(rows) => Ok(format!(in alloc; "buckets {}", rows.len())?),
        Answer::Started(upload) => Ok(format!(in alloc; "started {upload}")?),
        Answer::Kept(kept) => Ok(format!(in alloc; "kept {kept}")?),
        Answer::Complete(content) => Ok(format!(in alloc; "complete {}", content.len())?),
        Answer::Cancelled => String::from_str(alloc, "cancelled"),
        Answer::Refused(reason) => refusal_text(alloc, reason),
    }
}

/// A refusal: its status, its word and its message. `Err`: no memory.
pub fn refusal_text(alloc: Global, reason: &Reason) -> Result<String, AllocError> {
    let message = reason.message(alloc)?;
    Ok(format!(in alloc;
        "{} {}: {}",
        reason.status(),
        reason.word(),
        message.as_str()
    )?)
}

fn bucket_text(alloc: Global, row: &BucketRow) -> Result<String, AllocError> {
    let kept = format!(in alloc;
        "bucket {} {} keeps {} since {}",
        row.generation, row.metageneration, row.settings.soft_seconds, row.settings.soft_since
    )?;
    match row.settings.retention {
        Some(policy) => Ok(format!(in alloc;
            "{} retains {} since {}",
            kept.as_str(),
            policy.period,
            policy.since
        )?),
        None => Ok(kept),
    }
}

fn version_text(alloc: Global, row: &Row) -> Result<String, AllocError> {
    let numbers = format!(in alloc;
        "{} {} of {}",
        row.generation, row.metageneration, row.created
    )?;
    let numbers = numbers.as_str();
    Ok(match row.kind {
        Kind::Live => format!(in alloc; "live {numbers}")?,
        Kind::Noncurrent { at } => format!(in alloc; "noncurrent {numbers} since {at}")?,
        Kind::Soft { at, hard } => format!(in alloc; "soft {numbers} since {at} until {hard}")?,
    })
}
