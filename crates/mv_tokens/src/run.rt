//! Finds where the plain bytes of a text end.

ghost use Rattle.std.specs.Prelude.{◌≡◌, ◌≤◌, drop, length};
ghost use Rattle.std.specs.List.{prefix_len};
ghost use Rattle.json.specs.Run.{is_plain};
ghost use Rattle.json.specs.Written.{PlainBetween};

use std::simd::prelude::*;

/// How many bytes are looked at together.
const LANES: usize = 16;

/// Where the plain bytes from a place on end: at the first quote, backslash or control character, or behind the last byte. Where there are
/// fewer than sixteen bytes in all, none is passed, and the library reads the text: no line that asks a step, and no message, is so short.
#[inline(always)]
#[tactic(auto, using(crate::proofs::RunLemmas::few_left))]
pub(crate) fn plain_end(bytes: &[u8], from: usize) -> usize
    requires within { from ≤ length bytes.now }
    ensures within { (from ≤ result) × (result ≤ length bytes.now) }
    ensures plain { PlainBetween bytes.now from result }
{
    let mut at = from;
    while bytes.len() - at >= LANES {
        let plain = plain_count(u8x16::from_slice(&bytes[at..]), 0);
        if plain < LANES {
            return at + plain;
        }
        at += LANES;
    }
    if bytes.len() < LANES {
        return at;
    }
    let last = bytes.len() - LANES;
    at + plain_count(u8x16::from_slice(&bytes[last..]), at - last)
}

/// Of sixteen bytes, how many behind the first `passed` are plain before one that is not.
#[inline(always)]
#[tactic(auto, using(crate::proofs::RunLemmas::counted))]
fn plain_count(lanes: u8x16, passed: usize) -> usize
    requires within { passed ≤ 16 }
    ensures { result ≡ prefix_len is_plain (drop passed lanes) }
{
    let stops = lanes.simd_eq(u8x16::splat(b'"'))
        | lanes.simd_eq(u8x16::splat(b'\\'))
        | lanes.simd_lt(u8x16::splat(0x20));
    let places = stops.to_bitmask() >> passed;
    if places == 0 {
        return LANES - passed;
    }
    places.trailing_zeros() as usize
}
