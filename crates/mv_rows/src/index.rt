//! Numbers that are found by hashes, and by what they stand for.

use mv_index::{HashIndex, hash_of};
use std::alloc::{AllocError, Global};

/// Gives one more name the next number.
fn add(
    index: &mut HashIndex,
    names: &mut Vec<u32>,
    name: u32,
    hash: u32,
) -> Result<(), AllocError> {
    index.reserve(1)?;
    names.reserve(1)?;
    index.push(hash);
    names.push_reserved(name);
    Ok(())
}

/// The number of a name with this hash.
fn number_of(index: &HashIndex, names: &[u32], name: u32, hash: u32) -> Option<usize> {
    index.find(hash, |number: usize| -> bool {
        names.get(number) == Some(&name)
    })
}

/// The numbers of three of four hundred names, of which each fourth has the same hash, and of one that is not there; and of one under the
/// hash of another.
fn numbers(alloc: Global) -> Result<[Option<usize>; 5], AllocError> {
    let mut index = HashIndex::new(alloc);
    let mut names = Vec::new(alloc);
    for name in 0..400u32 {
        add(&mut index, &mut names, name, name % 4)?;
    }
    let names = names.as_slice();
    index.touch(names);
    Ok([
        number_of(&index, names, 0, 0),
        number_of(&index, names, 7, 3),
        number_of(&index, names, 399, 3),
        number_of(&index, names, 400, 0),
        number_of(&index, names, 7, 2),
    ])
}

#[test]
fn finds_numbers_by_hash_and_name(rt: HostRuntime) {
    assert!(rt; numbers(rt.alloc()) == Ok([Some(0), Some(7), Some(399), None, None]));
}

#[test]
fn hashes_alike_what_is_equal(rt: HostRuntime) {
    assert!(rt; hash_of(&7u32) == hash_of(&7u32));
    assert!(rt; hash_of(&7u32) != hash_of(&8u32));
}
