//! What keeps a version from being deleted or replaced.
ghost use Rattle.std.specs.Prelude.{◌≡◌, ◌<◌, ◌^◌};
ghost use Rattle.std.specs.Option.{ForSome};
ghost use Rattle.gcs_meaning.specs.Policy.{AreInLimits, IsPeriod, cover_of, kept_cover, retention_cover};

use gcs_meaning::{Cover, Kind, MICROSECONDS_PER_SECOND, Retention, RowFacts, Settings};

/// What covers a version at `moment` (microseconds since 1970): the first of its temporary hold,
/// its event-based hold and its retention, or its soft deletion. The version may be deleted or
/// replaced where this is `Free`.
///
/// Source: Cloud Storage, "Object holds", "Bucket Lock" and "Soft delete".
#[tactic(auto, unfolding(gcs_meaning::specs::Policy::cover_of))]
pub fn covered(settings: &Settings, facts: &RowFacts, moment: u64) -> Cover
    requires limits { AreInLimits settings.now }
    requires start { facts.now.retention_start < 2 ^ 62 }
    requires moment { moment < 2 ^ 62 }
    ensures { result ≡ cover_of settings.now facts.now moment }
{
    match facts.kind {
        Kind::Live | Kind::Noncurrent { .. } => kept(settings, facts, moment),
        Kind::Soft { hard, .. } if moment < hard => Cover::SoftDeleted { until: hard },
        Kind::Soft { .. } => Cover::Free,
    }
}

// The holds come before the retention.
fn kept(settings: &Settings, facts: &RowFacts, moment: u64) -> Cover
    requires limits { AreInLimits settings.now }
    requires start { facts.now.retention_start < 2 ^ 62 }
    ensures { result ≡ kept_cover settings.now facts.now moment }
{
    if facts.temporary_hold {
        Cover::Temporary
    } else if facts.event_hold {
        Cover::EventBased
    } else {
        retained(settings.retention, facts.retention_start, moment)
    }
}

// What covers a version whose retention began at `start`. The end moment itself is free.
fn retained(policy: Option<Retention>, start: u64, moment: u64) -> Cover
    requires period { ForSome policy (λ p. IsPeriod p.period) }
    requires start { start < 2 ^ 62 }
    ensures { result ≡ retention_cover policy start moment }
{
    let Some(policy) = policy else {
        return Cover::Free;
    };
    let until = start + policy.period * MICROSECONDS_PER_SECOND;
    if moment < until {
        Cover::Retained { until }
    } else {
        Cover::Free
    }
}
