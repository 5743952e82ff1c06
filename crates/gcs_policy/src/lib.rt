//! What a request must meet before a version or a bucket's policy changes: preconditions on a
//! version's two numbers, what covers a version from deletion, what becomes of one that is taken
//! away, and the lock of a retention policy.
//!
//! Moments are microseconds since 1970; periods and durations of settings are seconds.
#![tactic(auto)]

mod cover;
mod lock;
mod preconditions;
mod retirement;

pub use cover::covered;
pub use lock::may_change_policy;
pub use preconditions::{bucket_holds, holds};
pub use retirement::retire;
