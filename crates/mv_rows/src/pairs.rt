//! Tables with one value for each pair of parties.

use mv_pairs::PairTable;
use std::alloc::{AllocError, Global};

/// A table for three parties, whose value from 0 to 2 is another than all others.
fn marked(alloc: Global) -> Option<PairTable<u32>> {
    let mut table = PairTable::from_fn(alloc, 3, || -> Result<u32, AllocError> { Ok(7) }).ok()?;
    if table.parties() == 3 {
        *table.at_mut(0, 2) = 8;
    }
    Some(table)
}

#[test]
fn keeps_a_value_for_each_pair(rt: HostRuntime) {
    let Some(mut table) = marked(rt.alloc()) else {
        assert!(rt; false, "memory is refused");
        return;
    };
    let parties = table.parties();
    assert!(rt; parties == 3);
    if parties != 3 {
        return;
    }
    *table.at_mut(2, 0) = 9;
    for (from, to, value) in [(0, 2, 8), (2, 0, 9), (0, 0, 7), (1, 2, 7), (2, 2, 7)] {
        assert!(rt; *table.at(from, to) == value);
    }
}
