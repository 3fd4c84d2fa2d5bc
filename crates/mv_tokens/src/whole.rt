//! Whole numbers.

ghost use Rattle.std.specs.Prelude.{◌≡◌, ◌<◌, ◌≤◌, ◌^◌, ◌++◌, decimal, drop, get_or, length, true, IfSome, Some};
ghost use Rattle.std.specs.Char.{is_ascii_digit};
ghost use Rattle.serde_json.specs.Data.{unsigned};
ghost use Rattle.serde_json.specs.Read.{number_of};

use fast_float::Numeral;

/// A number from which on one more digit may be too many.
const MOST: u64 = 100_000_000_000_000_000;

/// The number that a text is, where it is a whole one of 64 bits and has no sign.
#[tactic(auto, unfolding(serde_json::specs::Read::number_of))]
pub fn whole_of(text: &str) -> Option<u64>
    ensures { IfSome result (λ n. number_of text.now ≡ Some (unsigned n)) }
{
    let bytes = text.as_bytes();
    if bytes.is_empty() || bytes[0] == b'-' {
        return None;
    }
    Numeral::scan(bytes).to_u64()
}

/// The number whose digits begin at a place, and the place behind them. It has at most 18 of them, and no zero in front.
#[inline(always)]
#[tactic(auto, using(crate::proofs::LexLemmas::digits))]
pub(crate) fn whole_at(bytes: &[u8], at: usize) -> Option<(u64, usize)>
    requires within { at < length bytes.now }
    requires digit { is_ascii_digit (get_or bytes.now at 0) ≡ true }
    ensures digits { IfSome result (λ whole.
        drop at bytes.now ≡ decimal whole.0 ++ drop whole.1 bytes.now) }
    ensures within { IfSome result (λ whole. (at < whole.1) × (whole.1 ≤ length bytes.now)) }
    ensures fits { IfSome result (λ whole. whole.0 < 2 ^ 64) }
{
    let mut number = u64::from(bytes[at] - b'0');
    let mut end = at + 1;
    while end < bytes.len() && bytes[end].is_ascii_digit() {
        if number == 0 || number >= MOST {
            return None;
        }
        number = number * 10 + u64::from(bytes[end] - b'0');
        end += 1;
    }
    Some((number, end))
}
