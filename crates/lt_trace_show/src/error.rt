//! Why is there no picture?
ghost use Rattle.std.specs.Prelude.{◌≡◌};
ghost use Rattle.lt_trace_show.specs.declared.error.PictureError.TheVariants.{Memory};

use std::alloc::{AllocError, AllocFailed};
use thiserror::Error;

/// Why there is no picture.
#[derive(Clone, Copy, Debug, PartialEq, Eq, Drop, Error)]
pub enum PictureError {
    /// There are more than `MOST_STEPS` steps. Ask for a range of them.
    #[error("a picture has at most 400 steps; choose a range")]
    TooManySteps,
    #[error("out of memory")]
    Memory,
}

impl From<AllocError> for PictureError {
    ghost from_gives = { λ _ e. e ≡ Memory };

    fn from(_e: AllocError) -> PictureError {
        PictureError::Memory
    }
}
