//! Laws over every slot, history and command. Each is the contract of a function that does nothing.
ghost use Rattle.gcs_meaning.specs.Apart.{BucketsStandApart};
ghost use Rattle.gcs_meaning.specs.Laws.{AnswersFit, ContentsStay, CoveredIsKept, FitIsKept, GenerationsRise, LockedIsKept, SmallIsKept, SoftIsKept};

/// The versions that are made under a bucket's name have greater and greater generations, also over its deletion and restore; and
/// each version and each bucket that a step leaves was there before it, or has a greater generation than all that were made before.
pub fn law_generations()
    ensures { GenerationsRise }
{}

/// A version that a hold, the retention policy or its soft deletion covers at the moment of a command is still there after the
/// command, in the bucket or in a deleted one, with the same bytes. It may have become noncurrent, and its hold may have been
/// released.
///
/// The slot before the command is fit (`IsFit`), as `law_fit` says of every slot of a history. Of other slots it isn't so: a deleted
/// bucket whose hard time lies before that of one of its versions takes a version along that is still covered.
///
/// Source: Cloud Storage, "Object holds", "Bucket Lock" and "Soft delete".
pub fn law_covered()
    ensures { CoveredIsKept }
{}

/// A live or noncurrent version in a bucket whose retention policy is locked stays live or noncurrent with its bytes, whatever
/// commands come, as long as their moments are before the end of its retention (`retained_until`), as it stood at first.
///
/// Source: Cloud Storage, "Bucket Lock".
pub fn law_locked()
    ensures { LockedIsKept }
{}

/// A soft-deleted version, in the bucket or in a deleted one, is kept with its bytes, whatever commands come, as long as their
/// moments are before its hard time: also where its bucket is deleted or restored, or the version itself.
///
/// Source: Cloud Storage, "Soft delete".
pub fn law_soft()
    ensures { SoftIsKept }
{}

/// A slot that is fit stays fit, and every slot of a history is fit: its counters are not behind what it has, its versions rise by
/// name and generation with at most one live of a name, and a deleted bucket stays as long as each of its versions.
pub fn law_fit()
    ensures { FitIsKept }
{}

/// The numbers of a slot, and of the deleted buckets of its name, grow by at most one with each command: so a slot of a history of
/// at most 2^61 entries leaves room for one more step (`IsSmall`).
pub fn law_small()
    ensures { SmallIsKept }
{}

/// Each command gets an answer of its kind, and the answer at an entry is found by the entry's numbers.
pub fn law_answers()
    ensures { AnswersFit }
{}

/// Buckets stand apart from each other: a bucket's slot after a history of its shard, and the answer at each entry that names the
/// bucket, are those after its own entries alone. So a history of a shard is one history for each of its buckets.
pub fn law_buckets()
    ensures { BucketsStandApart }
{}

/// Contents stay in their chunks: what a command answers and leaves lies in those in which the slot and the command lie. So does it
/// on the slots of a shard, and so do the slots of a history whose commands lie in them.
pub fn law_contents()
    ensures { ContentsStay }
{}
