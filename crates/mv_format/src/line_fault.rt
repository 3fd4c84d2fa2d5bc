//! Why a line asks nothing.

ghost use Rattle.std.specs.Prelude.{◌≡◌};
ghost use Rattle.mv_format.specs.declared.line_fault.LineFault.TheVariants.{Memory};

use crate::LineField;
use mv_json::MessageFault;
use mv_json::members::Named;
use mv_message::Text;
use mv_pack::PackFault;
use std::alloc::{AllocError, AllocFailed};
use thiserror::Error;

/// Why a line asks nothing.
#[derive(Debug, Drop, Error)]
pub enum LineFault {
    /// M1: the line is no JSON.
    #[error("the line is no JSON")]
    NotJson,
    /// M2: the line is no JSON object.
    #[error("the line is no JSON object")]
    NotObject,
    /// M3: the field is absent.
    #[error("the field `{name}` is missing", name = .0.name())]
    Missing(LineField),
    /// M4: the line has a key that lines of its kind do not have: the first, in byte order.
    #[error("lines of this kind have no field `{name}`", name = .0.as_str())]
    Unknown(Text),
    /// M5: the field is of another kind.
    #[error("the field `{name}` is of another kind", name = .0.name())]
    Kind(LineField),
    /// M6: a text of the field is no value.
    #[error("the field `{name}`: {1}", name = .0.name())]
    Pack(LineField, PackFault),
    /// The message that the line holds has a fault.
    #[error(transparent)]
    Message(MessageFault),
    /// Memory was refused. Inside, also that the fields which were met do not tell what the line asks; then it is read by its value.
    #[error("out of memory")]
    Memory,
}

impl From<AllocError> for LineFault {
    ghost from_gives = { λ _ fault. fault ≡ Memory };

    fn from(_refused: AllocError) -> LineFault {
        LineFault::Memory
    }
}

impl<T: Drop> From<AllocFailed<T>> for LineFault {
    ghost from_gives = { λ _ fault. fault ≡ Memory };

    fn from(_refused: AllocFailed<T>) -> LineFault {
        LineFault::Memory
    }
}
