//! Why bytes or a value are no message. Each fault has its number, which replies print.

ghost use Rattle.std.specs.Prelude.{◌≡◌};
ghost use Rattle.mv_json.specs.Fault.{code_of};
ghost use Rattle.mv_json.specs.declared.fault.MessageFault.TheVariants.{Memory};

use crate::Field;
use mv_message::Text;
use mv_pack::PackFault;
use std::alloc::{AllocError, AllocFailed};
use thiserror::Error;

/// Why bytes or a value are no message.
#[derive(Debug, PartialEq, Eq, Drop, Error)]
pub enum MessageFault {
    /// M1: the bytes are no JSON.
    #[error("the bytes are no JSON")]
    NotJson,
    /// M2: the value is no object.
    #[error("the value is no object")]
    NotObject,
    /// M3: this field is missing.
    #[error("the field `{name}` is missing", name = .0.as_str())]
    Missing(Field),
    /// M4: the message has no field of this name.
    #[error("the message has no field `{name}`", name = .0.as_str())]
    Unknown(Text),
    /// M5: this field is of another kind.
    #[error("the field `{name}` is of another kind", name = .0.as_str())]
    Kind(Field),
    /// M6: a reader of values refused this field.
    #[error("the field `{name}`: {1}", name = .0.as_str())]
    Pack(Field, PackFault),
    /// M7: this list has too few or too many members.
    #[error("the list `{name}` has too few or too many members", name = .0.as_str())]
    Count(Field),
    /// M8: this text is empty or too long.
    #[error("the text `{name}` is empty or too long", name = .0.as_str())]
    TextLength(Field),
    /// M9: memory was refused.
    #[error("out of memory")]
    Memory,
}

impl MessageFault {
    /// The number of the fault, as `M3`.
    pub fn code(&self) -> &'static str
        ensures { result.now ≡ code_of self.now }
    {
        match self {
            MessageFault::NotJson => "M1",
            MessageFault::NotObject => "M2",
            MessageFault::Missing(_) => "M3",
            MessageFault::Unknown(_) => "M4",
            MessageFault::Kind(_) => "M5",
            MessageFault::Pack(_, _) => "M6",
            MessageFault::Count(_) => "M7",
            MessageFault::TextLength(_) => "M8",
            MessageFault::Memory => "M9",
        }
    }
}

impl From<AllocError> for MessageFault {
    ghost from_gives = { λ _ e. e ≡ Memory };

    fn from(_refused: AllocError) -> MessageFault {
        MessageFault::Memory
    }
}

impl<T: Drop> From<AllocFailed<T>> for MessageFault {
    ghost from_gives = { λ _ e. e ≡ Memory };

    fn from(_refused: AllocFailed<T>) -> MessageFault {
        MessageFault::Memory
    }
}
