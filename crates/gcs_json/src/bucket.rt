//! The body of a bucket.
ghost use Rattle.std.specs.Prelude.{◌≡◌, ◌≢◌, IfOk, IfErr, IsSome, Ok, Err};
ghost use Rattle.serde_json.specs.View.{view};
ghost use Rattle.gcs_meaning.specs.BucketChange.{AreSetInLimits};
ghost use Rattle.gcs_json.specs.declared.fault.BodyFault.TheVariants.{NoMemory};
ghost use Rattle.gcs_json.specs.Bucket.{bucket_in, bucket_of, name_in};

use crate::fault::BodyFault;
use crate::fields::{Fields, field, given, given_if, read_body};
use crate::kind::{Flag, Inside};
use crate::lifecycle::Compact;
use crate::numbers::Number;
use crate::pairs::Pairs;
use crate::texts::NameOfBucket;
use crate::words::{CLASS, PLACE};
use gcs_meaning::{BucketName, Copied, Key, SettingsChange, Text};
use std::alloc::{AllocError, Global};

// The row of a bucket's insert.
const INSERT: u32 = 1;

// The row of a bucket's PATCH.
const PATCH: u32 = 4;

// In bytes.
const LONGEST_LABELS: usize = 8192;

// In bytes of compact text.
const LONGEST_LIFECYCLE: usize = 65536;

// In seconds: 1 to 100 years.
const RETENTION: Inside<Number> = Inside {
    name: "retentionPeriod",
    kind: Number {
        zero: false,
        least: 1,
        most: 3_155_760_000,
    },
};

// In seconds: none, or 7 to 90 days.
const SOFT_DELETE: Inside<Number> = Inside {
    name: "retentionDurationSeconds",
    kind: Number {
        zero: true,
        least: 604_800,
        most: 7_776_000,
    },
};

const VERSIONING: Inside<Flag> = Inside {
    name: "enabled",
    kind: Flag,
};

/// What the body of a bucket says.
#[derive(Drop)]
pub struct BucketBody {
    pub name: Option<BucketName>,
    pub location: Option<Text>,
    pub change: SettingsChange,
}

impl Copied for BucketBody {
    fn copy(&self) -> Result<BucketBody, AllocError> {
        Ok(BucketBody {
            name: self.name.copy()?,
            location: self.location.copy()?,
            change: self.change.copy()?,
        })
    }
}

/// Reads the body of a bucket on a row of the table of paths: 1 inserts a bucket, 4 patches it, 5 replaces its settings.
///
/// Source: Cloud Storage JSON API, "Buckets".
#[tactic(auto, unfolding(crate::specs::Bucket::bucket_of))]
pub fn read_bucket_body(alloc: Global, row: u32, body: &[u8]) -> Result<BucketBody, BodyFault>
    ensures body { IfOk result (λ read. bucket_of row body.now ≡ Ok read) }
    ensures fault { IfErr result (λ fault. fault ≢ NoMemory → bucket_of row body.now ≡ Err fault) }
    ensures limits { IfOk result (λ read. AreSetInLimits read.change) }
    ensures named { row ≡ 1 → IfOk result (λ read. IsSome read.name) }
{
    let body = read_body(alloc, body)?;
    bucket(
        row == INSERT,
        &Fields {
            alloc,
            removes: row == PATCH,
            body: &body,
        },
    )
}

/// The fields in byte order of their names.
#[tactic(auto, unfolding(crate::specs::Bucket::bucket_in))]
pub fn bucket(inserts: bool, fields: &Fields<'_>) -> Result<BucketBody, BodyFault>
    ensures body { IfOk result (λ read. bucket_in inserts fields.now.removes (view fields.now.body.now) ≡ Ok read) }
    ensures fault { IfErr result (λ fault. fault ≢ NoMemory → bucket_in inserts fields.now.removes (view fields.now.body.now) ≡ Err fault) }
{
    let labels = Pairs {
        removes: fields.removes,
        most: Some(LONGEST_LABELS),
    };
    let lifecycle = Compact {
        most: LONGEST_LIFECYCLE,
    };
    let default_event_hold = field(fields, Key::DefaultEventBasedHold, &Flag)?;
    let labels = field(fields, Key::Labels, &labels)?;
    let lifecycle = field(fields, Key::Lifecycle, &lifecycle)?;
    let location = given_if(inserts, fields, Key::Location, &PLACE)?;
    let name = name_in(inserts, fields)?;
    let retention_period = field(fields, Key::RetentionPolicy, &RETENTION)?;
    let soft_seconds = field(fields, Key::SoftDeletePolicy, &SOFT_DELETE)?;
    let storage_class = field(fields, Key::StorageClass, &CLASS)?;
    let versioned = field(fields, Key::Versioning, &VERSIONING)?;
    Ok(BucketBody {
        name,
        location,
        change: SettingsChange {
            labels,
            lifecycle,
            versioned,
            default_event_hold,
            retention_period,
            soft_seconds,
            storage_class,
        },
    })
}

// The name of a new bucket.
fn name_in(inserts: bool, fields: &Fields<'_>) -> Result<Option<BucketName>, BodyFault>
    ensures name { IfOk result (λ name. name_in inserts (view fields.now.body.now) ≡ Ok name) }
    ensures fault { IfErr result (λ fault. fault ≢ NoMemory → name_in inserts (view fields.now.body.now) ≡ Err fault) }
{
    if !inserts {
        return Ok(None);
    }
    match given(fields, Key::Name, &NameOfBucket)? {
        Some(name) => Ok(Some(name)),
        None => Err(BodyFault::Missing { name: Key::Name }),
    }
}
