//! Product codes.

ghost use Rattle.std.specs.Prelude.{◌≡◌, ◌+◌, ◌*◌, ◌-◌, ◌≤◌, ◌↔◌, [], ◌∷◌, length, map, take, drop, IsOk, IsTrue};
ghost use Rattle.mv_pack.specs.Words.{hashing, list_all};
ghost use Rattle.std.proofs.Common.{rules};
ghost use Rattle.mv_pack.specs.Gtin.{is_digit, check_sum, padded, read_gtin, IsGtinText, digit_values};

use crate::PackFault;
use crate::ascii::text_of;
use std::hash::{Hash, Hasher};
use std::marker::Model;

/// A Global Trade Item Number, by its 14 digits.
#[derive(Clone, Copy, PartialEq, Eq, PartialOrd, Ord)]
pub struct Gtin {
    /// The digits, as text.
    bytes: [u8; 14],
}

impl Model for Gtin {
    ghost use Rattle.std.specs.Prelude.{◌≡◌, List, ℕ, length};
    ghost use Rattle.mv_pack.specs.Gtin.{IsGtin};

    ghost Value = { List ℕ };

    ghost view = { λ g. g.bytes };

    ghost invariant = { λ g. IsGtin g.bytes };

    ghost inverse = { λ b. record { bytes = b } };
}

impl Gtin {
    /// Reads a GTIN of 8, 12, 13 or 14 digits, with zeros on its left to 14.
    ///
    /// The first of these that holds is the fault: P1, another number of bytes; P2, a byte that is no digit; P3, the
    /// last digit is not the check digit of the others (GS1 General Specifications, section 7.9).
    #[tactic(auto, using(crate::proofs::TextLemmas::padded_digits, crate::proofs::TextLemmas::length_padded))]
    pub fn read(text: &str) -> Result<Gtin, PackFault>
        ensures exact { result ≡ read_gtin text.now }
        ensures accepted { IsOk result ↔ IsGtinText text.now }
    {
        let digits = text.as_bytes();
        if !matches!(digits.len(), 8 | 12 | 13 | 14) {
            return Err(PackFault::Length);
        }
        if !are_digits(digits) {
            return Err(PackFault::Digit);
        }
        let bytes = padded(digits);
        if check_sum(&bytes) % 10 != 0 {
            return Err(PackFault::CheckDigit);
        }
        Ok(Gtin { bytes })
    }

    /// The 14 digits, as text.
    #[tactic(auto, using(crate::proofs::TextLemmas::digits_are_text))]
    pub fn as_str(&self) -> &str
        ensures { result.now ≡ self.now }
    {
        text_of(&self.bytes)
    }

    /// The 14 numbers.
    pub fn digits(&self) -> [u8; 14]
        ensures { result ≡ digit_values self.now }
    {
        self.bytes.map(|byte| byte.saturating_sub(b'0'))
    }
}

/// By its digits, in two writes: of the first 6 and of the last 8. Both are read off a fresh copy at once, which a hasher that
/// took the first 8 would have to wait for.
impl Hash for Gtin {
    ghost hash_input = { λ digits. take 6 digits ∷ drop 6 digits ∷ [] };

    ghost respects_eq = { Prim.search (hashing, rules) };

    fn hash<H: Hasher>(&self, state: &mut H) {
        let (front, back) = self.bytes.split_at(6);
        state.write(front);
        state.write(back);
    }
}

/// Whether all bytes are digits.
pub(crate) fn are_digits(text: &[u8]) -> bool
    ensures { result ≡ list_all is_digit text.now }
{
    text.iter().all(|b| b.is_ascii_digit())
}

/// The digits behind zeros, 14 in all.
fn padded(digits: &[u8]) -> [u8; 14]
    requires { length digits.now ≤ 14 }
    ensures { result ≡ padded digits.now }
{
    let mut bytes = [b'0'; 14];
    bytes[14 - digits.len()..].copy_from_slice(digits);
    bytes
}

/// The sum of the digits with the weights 3, 1, 3, 1 and so on.
#[tactic(auto, using(crate::proofs::TextLemmas::weighted_sum_is_check_sum))]
fn check_sum(digits: &[u8]) -> u32
    requires short { length digits.now ≤ 14 }
    requires digits { IsTrue (list_all is_digit digits.now) }
    ensures { result ≡ check_sum digits.now }
{
    let mut sum = 0u32;
    let mut weight = 3u32;
    for byte in digits {
        sum += weight * (*byte - b'0') as u32;
        weight = 4 - weight;
    }
    sum
}
