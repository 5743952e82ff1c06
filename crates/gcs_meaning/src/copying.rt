//! Copies that take memory.
ghost use Rattle.std.specs.Prelude.{◌≡◌, IfOk};

use gcs_chunks::Content;
use std::alloc::AllocError;

/// A type whose copy takes memory and equals its source.
pub trait Copied: Drop {
    /// A copy. `Err`: no memory.
    fn copy(&self) -> Result<Self, AllocError>
    where
        Self: Sized,
        ensures { IfOk result (λ made. made ≡ self.now) };
}

impl Copied for u8 {
    fn copy(&self) -> Result<u8, AllocError> {
        Ok(*self)
    }
}

impl Copied for bool {
    fn copy(&self) -> Result<bool, AllocError> {
        Ok(*self)
    }
}

impl Copied for u32 {
    fn copy(&self) -> Result<u32, AllocError> {
        Ok(*self)
    }
}

impl Copied for u64 {
    fn copy(&self) -> Result<u64, AllocError> {
        Ok(*self)
    }
}

impl Copied for Content {
    fn copy(&self) -> Result<Content, AllocError> {
        self.copy()
    }
}

impl<T: Copied> Copied for Option<T> {
    fn copy(&self) -> Result<Option<T>, AllocError> {
        match self {
            Some(value) => Ok(Some(value.copy()?)),
            None => Ok(None),
        }
    }
}

impl<S: Copied, T: Copied> Copied for (S, T) {
    fn copy(&self) -> Result<(S, T), AllocError> {
        let first = self.0.copy()?;
        let second = self.1.copy()?;
        Ok((first, second))
    }
}
