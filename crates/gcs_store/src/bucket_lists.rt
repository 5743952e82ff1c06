//! The list of a shard's buckets.
ghost use Rattle.std.specs.Prelude.{◌≡◌, ◌≤◌, ◌+◌, ◌++◌, IfOk, OnOk, length};
ghost use Rattle.std.specs.List.{filter};
ghost use Rattle.gcs_meaning.specs.History.{is_listed, listed_buckets, shown_bucket, unnamed_answer};
ghost use Rattle.gcs_meaning.specs.Texts.{begins};
ghost use Rattle.gcs_store.specs.Shard.{is_passed, NamesRise};

use gcs_bucket::Bucket;
use gcs_listing::is_below;
use gcs_meaning::{Answer, BucketName, BucketRow, Command, List, Reason};
use std::alloc::{AllocError, Global};

/// The answer to a command that names no bucket: a list of the buckets that are alive. `Err`: no memory.
///
/// Source: Cloud Storage JSON API, "Buckets: list".
pub fn answer_unnamed(
    alloc: Global,
    slots: &[(BucketName, Bucket)],
    command: &Command,
) -> Result<Answer, AllocError>
    requires { NamesRise slots.now }
    ensures { IfOk result (λ answer. answer ≡ unnamed_answer slots.now command.now) }
{
    match command {
        Command::BucketList {
            shard: _,
            prefix,
            after,
            most,
        } => {
            let most = *most as usize;
            let rows = list_slots(alloc, slots, prefix.as_bytes(), after.as_bytes(), most)?;
            Ok(Answer::Buckets(List::from_vec(rows)))
        }
        _ => Ok(Answer::Refused(Reason::NoBucket)),
    }
}

// The first buckets whose names begin with the prefix and come after that one.
fn list_slots(
    alloc: Global,
    slots: &[(BucketName, Bucket)],
    prefix: &[u8],
    after: &[u8],
    most: usize,
) -> Result<Vec<BucketRow>, AllocError>
    requires { NamesRise slots.now }
    ensures { IfOk result (λ rows. rows.items ≡ listed_buckets prefix.now after.now most slots.now) }
{
    let mut rows = Vec::new(alloc);
    let listed = listed_slots(slots, prefix, after);
    for (name, bucket) in listed {
        if rows.len() >= most {
            return Ok(rows);
        }
        add_shown(&mut rows, name, bucket)?;
    }
    Ok(rows)
}

// The slots whose names begin with the prefix and come after that one. They stand side by side.
fn listed_slots<'a>(
    slots: &'a [(BucketName, Bucket)],
    prefix: &[u8],
    after: &[u8],
) -> &'a [(BucketName, Bucket)]
    requires { NamesRise slots.now }
    ensures { result.now ≡ filter (λ p. is_listed prefix.now after.now p.0) slots.now }
{
    let first = slots.partition_point(|slot| is_passed(prefix, after, &slot.0));
    let rest = &slots[first..];
    let count = rest.partition_point(|slot| has_prefix(&slot.0, prefix));
    &rest[..count]
}

fn is_passed(prefix: &[u8], after: &[u8], name: &BucketName) -> bool
    ensures { result ≡ is_passed prefix.now after.now name.now }
{
    !is_below(after, name.as_bytes()) || is_below(name.as_bytes(), prefix)
}

fn has_prefix(name: &BucketName, prefix: &[u8]) -> bool
    ensures { result ≡ begins prefix.now name.now }
{
    name.as_bytes().starts_with(prefix)
}

// Adds a bucket, if it is alive.
fn add_shown(
    rows: &mut Vec<BucketRow>,
    name: &BucketName,
    bucket: &Bucket,
) -> Result<(), AllocError>
    ensures items { OnOk result (rows.new.items ≡ rows.old.items ++ shown_bucket name.now bucket.now.alive) }
    ensures few { OnOk result (length rows.new.items ≤ length rows.old.items + 1) }
{
    if let Some(row) = bucket.show(name)? {
        rows.push(row)?;
    }
    Ok(())
}
