//! Moments, by which dates have passed or not.

ghost use Rattle.std.specs.Prelude.{◌≡◌};
ghost use Rattle.mv_pack.specs.Moment.{read_moment};

use crate::PackFault;
use std::marker::Model;

/// The first second of the year 2100, which is past the range of moments.
pub const YEAR_2100: u64 = 4_102_444_800;

/// A moment from 1970 to 2099, in whole seconds since 1970-01-01T00:00:00Z.
#[derive(Clone, Copy, PartialEq, Eq, PartialOrd, Ord, Hash)]
pub struct Moment {
    /// The seconds since 1970, fewer than [`YEAR_2100`].
    seconds: u64,
}

impl Model for Moment {
    ghost use Rattle.std.specs.Prelude.{ℕ};
    ghost use Rattle.mv_pack.specs.Moment.{IsMoment};

    ghost Value = { ℕ };

    ghost view = { λ m. m.seconds };

    ghost invariant = { λ m. IsMoment m.seconds };

    ghost inverse = { λ n. record { seconds = n } };
}

impl Moment {
    /// The moment that many seconds after 1970-01-01T00:00:00Z; P9 from the year 2100 on.
    pub fn of(seconds: u64) -> Result<Moment, PackFault>
        ensures exact { result ≡ read_moment seconds }
    {
        if seconds < YEAR_2100 {
            Ok(Moment { seconds })
        } else {
            Err(PackFault::Moment)
        }
    }

    /// The seconds since 1970-01-01T00:00:00Z.
    pub fn seconds(self) -> u64
        ensures { result ≡ self }
    {
        self.seconds
    }
}
