//! What a repository found of a pack that it was asked for.

ghost use Rattle.std.specs.Prelude.{◌≡◌};

use crate::Standing;
use mv_pack::{Batch, Expiry, National};

/// What a repository found of a pack.
#[derive(PartialEq, Eq, Drop)]
pub enum Found {
    /// It does not hold the pack.
    Absent,
    /// It holds the pack.
    Present {
        /// The batch that the pack is of.
        batch: Batch,
        /// When the pack expires.
        expiry: Expiry,
        /// Its national number, where it has one.
        national: Option<National>,
        /// What it may be used for.
        standing: Standing,
        /// Whether its batch is recalled.
        recalled: bool,
        /// Whether its product is withdrawn.
        withdrawn: bool,
    },
}

impl Found {
    /// The same once more. It takes no memory.
    pub fn copy(&self) -> Found
        ensures { result ≡ self.now }
    {
        match self {
            Found::Absent => Found::Absent,
            Found::Present {
                batch,
                expiry,
                national,
                standing,
                recalled,
                withdrawn,
            } => Found::Present {
                batch: batch.copy(),
                expiry: *expiry,
                national: national_copy(national),
                standing: *standing,
                recalled: *recalled,
                withdrawn: *withdrawn,
            },
        }
    }
}

/// A national number once more, where there is one.
pub(crate) fn national_copy(national: &Option<National>) -> Option<National>
    ensures { result ≡ national.now }
{
    match national {
        Some(number) => Some(number.copy()),
        None => None,
    }
}
