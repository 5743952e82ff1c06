//! The tests of a request on a bucket, a version and a content, each as the refusal that it makes.
ghost use Rattle.std.specs.Prelude.{◌≡◌, ◌<◌, ◌^◌};
ghost use Rattle.gcs_meaning.specs.Content.{bytes_in};
ghost use Rattle.gcs_meaning.specs.ObjectChange.{custom_refusal, time_refusal};
ghost use Rattle.gcs_meaning.specs.Pairs.{pairs_size};
ghost use Rattle.gcs_meaning.specs.Policy.{AreInLimits, bucket_pre_refusal, condition_refusal, policy_refusal, pre_refusal};
ghost use Rattle.gcs_meaning.specs.Put.{crc_refusal, hash_refusal, md5_refusal};
ghost use Rattle.gcs_meaning.specs.Retiring.{cover_refusal, facts_of, taken_refusal};
ghost use Rattle.gcs_meaning.specs.Tests.{size_refusal};
ghost use Rattle.gcs_bucket.specs.Alive.{IsEarly};

use gcs_meaning::{
    Cover, Digest, Expect, Hashed, LARGEST_CUSTOM, LARGEST_OBJECT, Pairs, Pre, PreResult, Reason,
    Retention, Row, RowFacts, Settings,
};
use gcs_policy::{bucket_holds, covered, holds, may_change_policy};

/// The first precondition that fails on a version's two numbers.
pub fn failed_precondition(pre: &Pre, generation: u64, metageneration: u64) -> Option<Reason>
    ensures { result ≡ pre_refusal pre.now generation metageneration }
{
    refused(holds(pre, generation, metageneration))
}

/// The first precondition that fails on a bucket's metageneration.
pub fn failed_on_bucket(pre: &Pre, metageneration: u64) -> Option<Reason>
    ensures { result ≡ bucket_pre_refusal pre.now metageneration }
{
    refused(bucket_holds(pre, metageneration))
}

fn refused(tested: PreResult) -> Option<Reason>
    ensures { result ≡ condition_refusal tested }
{
    match tested {
        PreResult::Holds => None,
        PreResult::Fails {
            which,
            wanted,
            found,
        } => Some(Reason::Condition {
            which,
            wanted,
            found,
        }),
    }
}

/// The first given digest that isn't the content's: the CRC32C, then the MD5.
#[tactic(auto, unfolding(gcs_meaning::specs::Put::hash_refusal))]
pub fn differing_digest(expect: &Expect, hashed: &Hashed) -> Option<Reason>
    ensures { result ≡ hash_refusal expect.now hashed.now }
{
    differing_crc(expect.crc, hashed).or_else(|| differing_md5(expect.md5, hashed))
}

fn differing_crc(given: Option<u32>, hashed: &Hashed) -> Option<Reason>
    ensures { result ≡ crc_refusal given (bytes_in hashed.now) }
{
    let found = hashed.crc();
    match given {
        Some(given) if given != found => Some(Reason::HashDiffers {
            given: Digest::Crc(given),
            found: Digest::Crc(found),
        }),
        _ => None,
    }
}

// A composed content has no MD5, and none that was given is tested on it.
fn differing_md5(given: Option<[u8; 16]>, hashed: &Hashed) -> Option<Reason>
    ensures { result ≡ md5_refusal given hashed.now }
{
    let given = given?;
    let found = hashed.md5()?;
    if given == found {
        return None;
    }
    Some(Reason::HashDiffers {
        given: Digest::Md5(given),
        found: Digest::Md5(found),
    })
}

/// A content of so many bytes is larger than an object may be.
///
/// Source: Cloud Storage, "Quotas and limits": 5 TiB.
pub fn too_large(size: u64) -> Option<Reason>
    ensures { result ≡ size_refusal size }
{
    if size <= LARGEST_OBJECT {
        None
    } else {
        Some(Reason::TooLarge { size })
    }
}

/// What keeps a version from being taken away at `moment`, replaced or deleted, with its generation
/// named or not.
#[tactic(auto, unfolding(gcs_meaning::specs::Retiring::taken_refusal))]
pub fn kept_version(settings: &Settings, moment: u64, named: bool, row: &Row) -> Option<Reason>
    requires limits { AreInLimits settings.now }
    requires early { IsEarly row.now }
    requires moment { moment < 2 ^ 62 }
    ensures { result ≡ taken_refusal settings.now moment named row.now }
{
    if settings.versioned && !named {
        return None;
    }
    covering(moment, covered(settings, &facts(row), moment))
}

fn facts(row: &Row) -> RowFacts
    ensures { result ≡ facts_of row.now }
{
    RowFacts {
        temporary_hold: row.meta.temporary_hold,
        event_hold: row.meta.event_hold.unwrap_or(false),
        retention_start: row.retention_start,
        kind: row.kind,
    }
}

fn covering(moment: u64, cover: Cover) -> Option<Reason>
    ensures { result ≡ cover_refusal moment cover }
{
    match cover {
        Cover::Free => None,
        Cover::Temporary => Some(Reason::Held { event: false }),
        Cover::EventBased => Some(Reason::Held { event: true }),
        Cover::Retained { until } | Cover::SoftDeleted { until } => {
            Some(Reason::Retained { until, now: moment })
        }
    }
}

/// A locked policy would be removed or shortened.
pub fn locked_policy(had: Option<Retention>, asked: Option<u64>) -> Option<Reason>
    ensures { result ≡ policy_refusal had asked }
{
    match may_change_policy(had, asked) {
        Ok(()) => None,
        Err(reason) => Some(reason),
    }
}

/// A custom time would be removed, which shows as 0, or made earlier.
pub fn earlier_time(had: Option<u64>, asked: Option<u64>) -> Option<Reason>
    ensures { result ≡ time_refusal had asked }
{
    let had = had?;
    match asked {
        None => Some(Reason::TimeBack { had, asked: 0 }),
        Some(asked) if asked < had => Some(Reason::TimeBack { had, asked }),
        Some(_) => None,
    }
}

/// Custom metadata of so many bytes is more than a version may have.
///
/// Source: Cloud Storage, "Quotas and limits": 8 KiB.
pub fn too_much_custom(custom: &Pairs) -> Option<Reason>
    ensures { result ≡ custom_refusal (pairs_size custom.now) }
{
    let length = custom.size();
    if length <= LARGEST_CUSTOM {
        None
    } else {
        Some(Reason::MetadataTooLong { length })
    }
}
