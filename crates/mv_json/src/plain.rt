//! Whether a text needs no escape where it stands in JSON. Two loads that overlap cover a short text.

ghost use Rattle.std.specs.Prelude.{◌≡◌, ◌+◌, ◌≤◌, length};
ghost use Rattle.std.specs.Bool.{OnTrue};
ghost use Rattle.json.specs.Print.{escape};
ghost use Rattle.json.specs.Written.{PlainBetween};

use std::simd::prelude::*;

/// Whether a text has no quote, no backslash and no control character.
#[inline(always)]
#[tactic(auto, using(json::proofs::Printed::Plain::escape_on_plain))]
pub(crate) fn is_plain(text: &[u8]) -> bool
    ensures { OnTrue result (escape text.now ≡ text.now) }
{
    let len = text.len();
    if len < 4 || len > 32 {
        has_plain_bytes(text)
    } else if len <= 8 {
        has_plain_ends::<4>(text)
    } else if len <= 16 {
        has_plain_ends::<8>(text)
    } else {
        has_plain_ends::<16>(text)
    }
}

/// The same, looked at byte by byte.
fn has_plain_bytes(text: &[u8]) -> bool
    ensures { OnTrue result (PlainBetween text.now 0 (length text.now)) }
{
    for &byte in text {
        if byte == b'"' || byte == b'\\' || byte < 0x20 {
            return false;
        }
    }
    true
}

/// The same of a text of N to 2 N bytes.
#[inline(always)]
fn has_plain_ends<const N: usize>(text: &[u8]) -> bool
    requires { (N ≤ length text.now) × (length text.now ≤ N + N) × (N ≤ 16) }
    ensures { OnTrue result (PlainBetween text.now 0 (length text.now)) }
{
    is_plain_at::<N>(text, 0) && is_plain_at::<N>(text, text.len() - N)
}

/// The same of the N bytes from a place on.
#[inline(always)]
fn is_plain_at<const N: usize>(text: &[u8], at: usize) -> bool
    requires { (at + N ≤ length text.now) × (N ≤ 16) }
    ensures { OnTrue result (PlainBetween text.now at (at + N)) }
{
    let bytes = Simd::<u8, N>::from_slice(&text[at..]);
    (bytes.simd_eq(Simd::splat(b'"'))
        | bytes.simd_eq(Simd::splat(b'\\'))
        | bytes.simd_lt(Simd::splat(0x20))).to_bitmask()
        == 0
}
