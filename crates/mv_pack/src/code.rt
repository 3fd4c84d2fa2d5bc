//! Serial, batch and national numbers: texts of one form, which must not be taken for one another.
//!
//! The three are one type with a marker, so that reading, equality, order and hash are written once.

ghost use Rattle.std.specs.Prelude.{◌≡◌, ◌<◌, ◌≤◌, ◌↔◌, length, nat_eq, refl, IsOk, IfSome, IsTrue, MatchResult, Ok, Err, Some, None};
ghost use Rattle.mv_pack.specs.Words.{count_by, hashing, nat_cmp, nat_list_cmp_total, nat_list_eq_equiv, pointwise, slice_cmp, texts_po, texts_ties};
ghost use Rattle.std.specs.Cmp.{partial_equiv_from_equiv};
ghost use Rattle.std.proofs.Common.{rules};
ghost use Rattle.mv_pack.specs.Code.{code_pieces, filled_up, is_code_character, is_mark, first_wrong, most_code_bytes, read_code, IsCode};
ghost use Rattle.mv_pack.specs.inside.Code.{is_filled, text_before, IsFilledUp};

use crate::PackFault;
use crate::ascii::text_of;
use std::cmp::Ordering;
use std::hash::{Hash, Hasher};
use std::marker::{Model, PhantomData};

/// The most bytes of a serial, batch or national number.
pub const MOST_CODE_BYTES: usize = 20;

/// The serial number of a pack (Delegated Regulation (EU) 2016/161, Article 4(b)(ii)).
pub type Serial = Code<SerialKind>;

/// The number of a batch (Delegated Regulation (EU) 2016/161, Article 4(b)(iv)).
pub type Batch = Code<BatchKind>;

/// A national reimbursement number, or another national number of a product (Delegated Regulation (EU) 2016/161,
/// Article 4(b)(iii)).
pub type National = Code<NationalKind>;

/// Marks serial numbers.
#[derive(Clone, Copy)]
pub struct SerialKind;

/// Marks batch numbers.
#[derive(Clone, Copy)]
pub struct BatchKind;

/// Marks national numbers.
#[derive(Clone, Copy)]
pub struct NationalKind;

/// A text of 1 to 20 characters of codes, of the kind `K`.
#[derive(Drop)]
pub struct Code<K> {
    /// The characters, and zeros behind them.
    bytes: [u8; MOST_CODE_BYTES],
    /// Which of the three it is.
    kind: PhantomData<K>,
}

impl<K> Model for Code<K> {
    ghost use Rattle.std.specs.Prelude.{List, ℕ};
    ghost use Rattle.mv_pack.specs.inside.Code.{text_before, IsFilledUp};

    ghost Value = { List ℕ };

    ghost view = { λ c. text_before c.bytes };

    ghost invariant = { λ c. IsFilledUp c.bytes };
}

impl<K> Code<K> {
    /// Reads a text of 1 to 20 characters.
    ///
    /// The first of these that holds is the fault: P4, no byte; P5, more than 20 bytes; P6, a byte that is no character
    /// of codes (GS1 General Specifications, section 7.11).
    #[tactic(auto, using(crate::proofs::CodeLemmas::read_code_of, crate::proofs::CodeLemmas::no_fault, crate::proofs::CodeLemmas::text_filled_up, crate::proofs::CodeLemmas::code_filled_up))]
    pub fn read(text: &str) -> Result<Code<K>, PackFault>
        ensures exact { result ≡ read_code text.now }
        ensures accepted { IsOk result ↔ IsCode text.now }
    {
        check_code(text)?;
        Ok(Code {
            bytes: filled_up(text.as_bytes()),
            kind: PhantomData,
        })
    }

    /// The text that was read.
    #[tactic(auto, using(crate::proofs::CodeLemmas::codes_are_text))]
    pub fn as_str(&self) -> &str
        ensures { result.now ≡ self.now }
    {
        text_of(text_before(&self.bytes))
    }

    /// The same once more; it takes no memory.
    pub fn copy(&self) -> Code<K>
        ensures { result ≡ self.now }
    {
        Code {
            bytes: self.bytes,
            kind: PhantomData,
        }
    }
}

/// The text with zeros behind it.
#[tactic(auto, using(crate::proofs::CodeLemmas::two_pieces))]
fn filled_up(text: &[u8]) -> [u8; MOST_CODE_BYTES]
    requires { length text.now ≤ most_code_bytes }
    ensures { result ≡ filled_up text.now }
{
    let mut bytes = [0; MOST_CODE_BYTES];
    let len = text.len();
    if len < 8 || len > 16 {
        bytes[..len].copy_from_slice(text);
    } else {
        // Two pieces of a fixed length, which meet or overlap, are copied without a call.
        bytes[..8].copy_from_slice(&text[..8]);
        bytes[len - 8..len].copy_from_slice(&text[len - 8..]);
    }
    bytes
}

/// The text of a code, and the zeros behind it, which are text too.
#[tactic(auto, using(crate::proofs::CodeLemmas::filled_up_is_text))]
fn with_zeros(bytes: &[u8; MOST_CODE_BYTES]) -> &str
    requires { IsFilledUp bytes.now }
    ensures { result.now ≡ bytes.now }
{
    text_of(bytes)
}

/// What stands before the zeros.
fn text_before(bytes: &[u8; MOST_CODE_BYTES]) -> &[u8]
    requires { IsFilledUp bytes.now }
    ensures { result.now ≡ text_before bytes.now }
{
    &bytes[..count_filled(bytes)]
}

/// How many bytes are not zero. Each is looked at, so that many are at once.
fn count_filled(bytes: &[u8; MOST_CODE_BYTES]) -> usize
    ensures value { result ≡ count_by is_filled bytes.now }
    ensures bound { result ≤ most_code_bytes }
{
    let mut count = 0u8;
    for byte in bytes.as_slice() {
        count += (*byte != 0) as u8;
    }
    count as usize
}

/// Whether the text is a code, or its first fault.
#[inline(always)]
#[tactic(auto, using(crate::proofs::CodeLemmas::no_wrong_byte))]
fn check_code(text: &str) -> Result<(), PackFault>
    ensures { MatchResult result (λ _. IsCode text.now) (λ e. read_code text.now ≡ Err e) }
{
    if text.is_empty() {
        return Err(PackFault::Empty);
    }
    if text.len() > MOST_CODE_BYTES {
        return Err(PackFault::TooLong);
    }
    match first_wrong(text.as_bytes()) {
        Some(place) => Err(PackFault::Character(place as u32 + 1)),
        None => Ok(()),
    }
}

/// The place of the first byte that is no character of codes, counted from zero.
fn first_wrong(text: &[u8]) -> Option<usize>
    ensures place { result ≡ first_wrong text.now }
    ensures bound { IfSome result (λ i. i < length text.now) }
{
    if has_characters_alone(text) {
        return None;
    }
    text.iter().position(|byte| !is_code_character(*byte))
}

/// Whether all bytes are characters of codes; one of fewer than 8 bytes or more than 16 may have them alone and is not said to.
#[tactic(auto, using(crate::proofs::CodeLemmas::none_wrong_in_pieces))]
fn has_characters_alone(text: &[u8]) -> bool
    ensures { IsTrue result → first_wrong text.now ≡ None }
{
    let len = text.len();
    if len < 8 || len > 16 {
        return false;
    }
    // The first 8 and the last 8, which meet or overlap.
    count_characters(&text[..8]) + count_characters(&text[len - 8..]) == 16
}

/// How many bytes of a piece are characters of codes. Each is looked at, so that many are at once.
#[inline(always)]
fn count_characters(piece: &[u8]) -> u8
    requires { length piece.now ≡ 8 }
    ensures value { result ≡ count_by is_code_character piece.now }
    ensures bound { result ≤ 8 }
{
    let mut count = 0u8;
    for byte in piece {
        count += is_code_character(*byte) as u8;
    }
    count
}

/// Whether a byte is one of the 82 characters of codes.
fn is_code_character(byte: u8) -> bool
    ensures { result ≡ is_code_character byte }
{
    byte.is_ascii_alphanumeric() | is_mark(byte)
}

/// Whether a byte is one of the 20 marks of codes.
fn is_mark(byte: u8) -> bool
    ensures { result ≡ is_mark byte }
{
    ((byte >= b'!') & (byte <= b'"'))
        | ((byte >= b'%') & (byte <= b'/'))
        | ((byte >= b':') & (byte <= b'?'))
        | (byte == b'_')
}

impl<K> PartialEq for Code<K> {
    ghost eq = { pointwise nat_eq };

    ghost laws = { partial_equiv_from_equiv nat_list_eq_equiv };

    // With the zeros behind them: texts of 20 bytes are compared eight bytes at a time, where bytes would be compared one by one.
    fn eq(&self, other: &Self) -> bool {
        with_zeros(&self.bytes) == with_zeros(&other.bytes)
    }
}

impl<K> Eq for Code<K> {
    ghost laws = { nat_list_eq_equiv };
}

impl<K> PartialOrd for Code<K> {
    ghost partial_cmp = { λ s t. Some (slice_cmp nat_cmp s t) };

    ghost laws = { texts_po };

    fn partial_cmp(&self, other: &Self) -> Option<Ordering> {
        Some(self.cmp(other))
    }
}

/// By their bytes.
impl<K> Ord for Code<K> {
    ghost cmp = { slice_cmp nat_cmp };

    ghost total = { nat_list_cmp_total };

    ghost matches_partial_cmp = { λ s t. refl };

    ghost matches_eq = { texts_ties };

    fn cmp(&self, other: &Self) -> Ordering {
        self.as_str().cmp(other.as_str())
    }
}

/// By all its bytes, in two writes: of the first 16 and of the others, as a code is copied. A hasher that took the last 16 at
/// once would wait until a fresh copy has left the processor's buffer of stores.
impl<K> Hash for Code<K> {
    ghost hash_input = { code_pieces };

    ghost respects_eq = { Prim.search (hashing, rules) };

    fn hash<H: Hasher>(&self, state: &mut H) {
        let (front, back) = self.bytes.split_at(16);
        state.write(front);
        state.write(back);
    }
}
