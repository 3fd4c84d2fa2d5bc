//! Why a link gives no frame.

ghost use Rattle.std.specs.Prelude.{◌≡◌};

use std::alloc::AllocError;
use thiserror::Error;

/// Why a link gives no frame.
#[derive(Clone, Copy, Debug, PartialEq, Eq, Error)]
pub enum LinkFault {
    /// L1: every item that was pushed has been relayed.
    #[error("every item of the link has been relayed")]
    Nothing,
    /// L2: no frame of this number was relayed.
    #[error("no frame of this number was relayed")]
    NotSent,
    /// L3: the frame of this number is kept no longer.
    #[error("the frame of this number is kept no longer")]
    Gone,
    /// L4: memory was refused.
    #[error("out of memory")]
    Memory,
}

impl LinkFault {
    ghost use Rattle.mv_link.specs.Fault.{code_of};

    /// The number of the fault, as `L1`.
    pub fn code(self) -> &'static str
        ensures { result.now ≡ code_of self }
    {
        match self {
            LinkFault::Nothing => "L1",
            LinkFault::NotSent => "L2",
            LinkFault::Gone => "L3",
            LinkFault::Memory => "L4",
        }
    }
}

impl From<AllocError> for LinkFault {
    ghost use Rattle.std.specs.Prelude.{◌≡◌};
    ghost use Rattle.mv_link.specs.declared.fault.LinkFault.TheVariants.{Memory};

    ghost from_gives = { λ _ fault. fault ≡ Memory };

    fn from(_: AllocError) -> LinkFault {
        LinkFault::Memory
    }
}
