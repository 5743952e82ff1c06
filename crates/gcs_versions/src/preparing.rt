//! What a change takes of memory beside slots and entries: the name, once for each key that the change may make.
ghost use Rattle.std.specs.Prelude.{◌≡◌, IfOk};
ghost use Rattle.std.specs.Arc.{arc_value};
ghost use Rattle.gcs_versions.specs.Ready.{IsForPut, IsForRetirement};

use gcs_meaning::{Copied, Name};
use std::alloc::{AllocError, Global};
use std::sync::Arc;

/// The name of a live version that is put, for its keys in three indexes.
#[derive(Drop)]
pub(crate) struct ForPut {
    pub(crate) all: Arc<Name>,
    pub(crate) readable: Arc<Name>,
    pub(crate) live: Arc<Name>,
}

/// The name of a version that is retired, for its keys in two indexes where it becomes soft-deleted.
#[derive(Drop)]
pub(crate) struct ForRetirement {
    pub(crate) soft: Arc<Name>,
    pub(crate) due: Arc<Name>,
}

/// What one put and one retirement of the name take. `Err`: no memory.
pub(crate) fn prepare(alloc: Global, name: &Name) -> Result<(ForPut, ForRetirement), AllocError>
    ensures put { IfOk result (λ made. IsForPut name.now made.0) }
    ensures retirement { IfOk result (λ made. IsForRetirement name.now made.1) }
{
    let all = Arc::new(alloc, name.copy()?)?;
    let to_put = ForPut {
        readable: Arc::try_clone(&all)?,
        live: Arc::try_clone(&all)?,
        all,
    };
    let to_retire = ForRetirement {
        soft: Arc::try_clone(&to_put.all)?,
        due: Arc::try_clone(&to_put.all)?,
    };
    Ok((to_put, to_retire))
}
