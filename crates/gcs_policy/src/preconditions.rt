//! The four preconditions of a request.
ghost use Rattle.std.specs.Prelude.{◌≡◌};
ghost use Rattle.gcs_meaning.specs.Policy.{and_then, bucket_pre_of, must_be, must_not_be, pre_of};

use gcs_meaning::{Key, Pre, PreResult};

/// Whether the preconditions that are given hold of a version's two numbers; `Fails` tells the
/// first that doesn't, in the order of `Pre`'s fields.
///
/// Both numbers of a version that is absent are 0. Source: Cloud Storage, "Request preconditions".
#[tactic(auto, unfolding(gcs_meaning::specs::Policy::pre_of))]
pub fn holds(pre: &Pre, generation: u64, metageneration: u64) -> PreResult
    ensures { result ≡ pre_of pre.now generation metageneration }
{
    let generation_is = test_match(Key::IfGenerationMatch, pre.generation_is, generation);
    let generation_not = test_not_match(Key::IfGenerationNotMatch, pre.generation_not, generation);
    let metageneration_is = test_match(
        Key::IfMetagenerationMatch,
        pre.metageneration_is,
        metageneration,
    );
    let metageneration_not = test_not_match(
        Key::IfMetagenerationNotMatch,
        pre.metageneration_not,
        metageneration,
    );
    let on_metageneration = first_failure(metageneration_is, metageneration_not);
    first_failure(
        generation_is,
        first_failure(generation_not, on_metageneration),
    )
}

/// Whether the preconditions on a metageneration hold of a bucket's; `Fails` tells the first that doesn't. Those on
/// a generation are passed over: a bucket has none.
///
/// Source: Cloud Storage, "Request preconditions".
#[tactic(auto, unfolding(gcs_meaning::specs::Policy::bucket_pre_of))]
pub fn bucket_holds(pre: &Pre, metageneration: u64) -> PreResult
    ensures { result ≡ bucket_pre_of pre.now metageneration }
{
    let wanted = test_match(
        Key::IfMetagenerationMatch,
        pre.metageneration_is,
        metageneration,
    );
    let unwanted = test_not_match(
        Key::IfMetagenerationNotMatch,
        pre.metageneration_not,
        metageneration,
    );
    first_failure(wanted, unwanted)
}

fn first_failure(first: PreResult, second: PreResult) -> PreResult
    ensures { result ≡ and_then first second }
{
    match first {
        PreResult::Holds => second,
        PreResult::Fails { .. } => first,
    }
}

fn test_match(which: Key, wanted: Option<u64>, found: u64) -> PreResult
    ensures { result ≡ must_be which wanted found }
{
    match wanted {
        Some(wanted) if wanted != found => PreResult::Fails {
            which,
            wanted,
            found,
        },
        _ => PreResult::Holds,
    }
}

fn test_not_match(which: Key, unwanted: Option<u64>, found: u64) -> PreResult
    ensures { result ≡ must_not_be which unwanted found }
{
    match unwanted {
        Some(wanted) if wanted == found => PreResult::Fails {
            which,
            wanted,
            found,
        },
        _ => PreResult::Holds,
    }
}
