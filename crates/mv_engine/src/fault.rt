//! Why a run over lines ends early.

ghost use Rattle.std.specs.Prelude.{◌≡◌};
ghost use Rattle.mv_engine.specs.declared.fault.ServeFault.TheVariants.{Memory};

use std::alloc::AllocError;
use thiserror::Error;

/// Why a run ended early. Its text is its number.
#[derive(Clone, Copy, Debug, PartialEq, Eq, Error)]
pub enum ServeFault {
    /// A read failed, or 1,000 reads of the run answered that they were interrupted.
    #[error("V1")]
    Read,
    /// A write failed, was interrupted or took nothing.
    #[error("V2")]
    Write,
    /// Memory was refused.
    #[error("V3")]
    Memory,
    /// A byte stood behind the last line that a run may have.
    #[error("V4")]
    TooManyLines,
    /// A line was longer than a line may be.
    #[error("V5")]
    LineTooLong,
    /// A thread could not be started, or its memory not be had: nothing was submitted.
    #[error("V6")]
    Start,
}

impl From<AllocError> for ServeFault {
    ghost from_gives = { λ _ fault. fault ≡ Memory };

    fn from(_: AllocError) -> Self {
        ServeFault::Memory
    }
}
