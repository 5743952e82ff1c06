//! The lock of a bucket's retention policy.
ghost use Rattle.std.specs.Prelude.{◌≡◌, IfErr, None, OnOk, Some};
ghost use Rattle.gcs_meaning.specs.Policy.{policy_refusal};

use gcs_meaning::{Reason, Retention};

/// Whether a bucket's policy may become one of `asked` seconds, or, with `None`, be removed.
///
/// `Err`: `Locked`, where a locked policy would be removed or shortened. Source: Cloud Storage,
/// "Bucket Lock".
pub fn may_change_policy(had: Option<Retention>, asked: Option<u64>) -> Result<(), Reason>
    ensures allowed { OnOk result (policy_refusal had asked ≡ None) }
    ensures refused { IfErr result (λ reason. policy_refusal had asked ≡ Some reason) }
{
    let Some(policy) = had else {
        return Ok(());
    };
    let longer = asked.is_some_and(|seconds| seconds >= policy.period);
    if !policy.locked || longer {
        return Ok(());
    }
    Err(Reason::Locked {
        kept: policy.period,
        asked: asked.unwrap_or(0),
    })
}
