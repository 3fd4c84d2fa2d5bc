//! Why a line that opens, or one that needs what is open, is refused.

ghost use Rattle.std.specs.Prelude.{◌≡◌};

use mv_hub::HubFault;
use mv_machine::LimitsFault;
use thiserror::Error;

/// Why a line is refused by what is open.
#[derive(Clone, Copy, Debug, PartialEq, Eq, Error)]
pub enum OpenFault {
    /// C1: no opening has succeeded.
    #[error("no system is open")]
    NotOpen,
    /// C2: an opening has succeeded.
    #[error("a system is open already")]
    AlreadyOpen,
    /// H1 to H3: the parties cannot be made.
    #[error(transparent)]
    Parties(HubFault),
    /// O1 to O4: a limit is out of its range.
    #[error(transparent)]
    Limits(LimitsFault),
    /// Memory was refused.
    #[error("out of memory")]
    Memory,
}

impl OpenFault {
    ghost use Rattle.mv_format.specs.Openings.{code_of};

    /// The number of the fault, as `C1`.
    pub fn code(self) -> &'static str
        ensures { result.now ≡ code_of self }
    {
        match self {
            OpenFault::NotOpen => "C1",
            OpenFault::AlreadyOpen => "C2",
            OpenFault::Parties(fault) => fault.code(),
            OpenFault::Limits(fault) => fault.code(),
            OpenFault::Memory => "H7",
        }
    }
}
