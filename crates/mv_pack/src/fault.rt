//! Why a text is no value. Each fault has its number, which replies print.

ghost use Rattle.std.specs.Prelude.{◌≡◌};

use thiserror::Error;

/// Why a text is no value.
#[derive(Clone, Copy, Debug, PartialEq, Eq, Error)]
pub enum PackFault {
    /// P1: a GTIN has 8, 12, 13 or 14 digits.
    #[error("a GTIN has 8, 12, 13 or 14 digits")]
    Length,
    /// P2: a GTIN has digits alone.
    #[error("a GTIN has digits alone")]
    Digit,
    /// P3: the last digit of a GTIN does not fit the others.
    #[error("the last digit of the GTIN does not fit the others")]
    CheckDigit,
    /// P4: a code has at least one byte.
    #[error("a code has at least one byte")]
    Empty,
    /// P5: a code has at most 20 bytes.
    #[error("a code has at most 20 bytes")]
    TooLong,
    /// P6: the byte at this place, counted from one, is none of the 82 characters of codes.
    #[error("the byte at place {0} is none of the 82 characters of codes")]
    Character(u32),
    /// P7: there is no such date.
    #[error("there is no such date")]
    Date,
    /// P8: a market has two capital letters.
    #[error("a market has two capital letters")]
    Market,
    /// P9: the moment is not before the year 2100.
    #[error("the moment is not before the year 2100")]
    Moment,
}

impl PackFault {
    ghost use Rattle.mv_pack.specs.Fault.{code_of};

    /// The number of the fault, as `P3`.
    pub fn code(self) -> &'static str
        ensures { result.now ≡ code_of self }
    {
        match self {
            PackFault::Length => "P1",
            PackFault::Digit => "P2",
            PackFault::CheckDigit => "P3",
            PackFault::Empty => "P4",
            PackFault::TooLong => "P5",
            PackFault::Character(_) => "P6",
            PackFault::Date => "P7",
            PackFault::Market => "P8",
            PackFault::Moment => "P9",
        }
    }
}
