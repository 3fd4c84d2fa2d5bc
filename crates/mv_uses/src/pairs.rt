//! A table of pairs of parties that is made, and written at one pair.

ghost use Rattle.std.specs.Prelude.{◌≡◌, ◌<◌, IfOk, IfSome, replicate};
ghost use Rattle.mv_pairs.specs.Pairs.{put};

use mv_pairs::PairTable;
use std::alloc::{AllocError, Global};

/// A table for so many parties that has 1 at one pair, and 0 at each other. None where one of the two is no party, or memory is
/// refused.
pub fn table_with(alloc: Global, parties: u32, from: u32, to: u32) -> Option<PairTable<u32>>
    ensures pair { IfSome result (λ table. (from < parties) × (to < parties)) }
    ensures values { IfSome result (λ table. table ≡ put (replicate parties (replicate parties 0)) from to 1) }
{
    if from >= parties || to >= parties {
        return None;
    }
    let zero = || -> Result<u32, AllocError>
        ensures { IfOk result (λ zero. zero ≡ 0) }
    { Ok(0) };
    let Ok(mut table) = PairTable::from_fn(alloc, parties, zero) else {
        return None;
    };
    *table.at_mut(from, to) = 1;
    Some(table)
}
