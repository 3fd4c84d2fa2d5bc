//! Bytes that are text.

ghost use Rattle.std.specs.Prelude.{◌≡◌, ◌+◌, ◌<◌, ◌≤◌, ℕ, IsTrue, IsUtf8, MatchOption, get_or, length};

use std::simd::prelude::*;
use std::str;

/// From how many bytes on the library looks at many of them at once.
const MANY: usize = 64;

/// How many bytes are looked at together where there are fewer.
const LANES: usize = 16;

/// The text that bytes are, where they are UTF-8. Most lines are short, and of ASCII alone: these are not looked at byte by byte.
#[inline(always)]
pub fn text_of(bytes: &[u8]) -> Option<&str>
    ensures { MatchOption result (¬ (IsUtf8 bytes.now)) (λ text. (text.now ≡ bytes.now) × IsUtf8 bytes.now) }
{
    if bytes.len() < MANY && are_ascii(bytes) {
        // SAFETY: ASCII is UTF-8.
        return Some(unsafe { str::from_utf8_unchecked(bytes) });
    }
    simdutf8::basic::from_utf8(bytes).ok()
}

/// Whether bytes are ASCII, if they are sixteen or more. The last sixteen are looked at together, though some of them were before.
#[inline(always)]
fn are_ascii(bytes: &[u8]) -> bool
    ensures { IsTrue result → IsUtf8 bytes.now }
{
    if bytes.len() < LANES {
        return false;
    }
    let mut at = 0;
    while bytes.len() - at > LANES {
        if !are_ascii_from(bytes, at) {
            return false;
        }
        at += LANES;
    }
    are_ascii_from(bytes, bytes.len() - LANES)
}

/// Whether the sixteen bytes from a place on are ASCII.
#[inline(always)]
fn are_ascii_from(bytes: &[u8], at: usize) -> bool
    requires within { at + 16 ≤ length bytes.now }
    ensures { IsTrue result → (k : ℕ) → at ≤ k → k < at + 16 → get_or bytes.now k 0 < 128 }
{
    let high = u8x16::from_slice(&bytes[at..]).simd_ge(u8x16::splat(0x80));
    high.to_bitmask() == 0
}
