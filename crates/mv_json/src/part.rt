//! The fields of an object as they are met, in any order, and what stands in each.

ghost use Rattle.std.specs.Prelude.{◌≡◌, ◌≢◌, ◌<◌, ◌∷◌, ◌++◌, [], All, Contains, MatchOption, IsTrue, IfSome, get_or, length};
ghost use Rattle.mv_json.specs.inside.Parts.{entry, ArePlaced, field_number, IsOneOf, IsTaken};
ghost use Rattle.mv_json.specs.declared.part.Entry.{Entry as AnEntry};

use crate::Field;
use crate::form::Version;
use mv_message::{Boxed, Found};
use mv_pack::{Market, Serial};
use std::mem;

/// More than the number of any field.
pub(crate) const NUMBERS: usize = 32;

/// What stands in a field, as its tokens say.
#[derive(Drop)]
pub(crate) enum Part<'a> {
    /// What was found of a pack.
    Found(Boxed<Sighting>),
    /// Markets.
    Markets(Vec<Market>),
    /// `null`.
    Null,
    /// Serial numbers.
    Serials(Vec<Serial>),
    /// A list that was taken out.
    Taken,
    /// A text.
    Text(&'a str),
    /// `true` or `false`.
    Truth(bool),
    /// A whole number.
    Whole(u64),
}

/// The pack that was found, and the version that says it so.
#[derive(Drop)]
pub(crate) struct Sighting {
    /// What was found.
    pub(crate) found: Found,
    /// The version.
    pub(crate) version: Version,
}

/// A field that was met, and what stands there.
#[derive(Drop)]
pub(crate) struct Entry<'a> {
    /// The field.
    pub(crate) field: Field,
    /// What stands there.
    pub(crate) part: Part<'a>,
}

/// The fields that were met, and where each stands among them.
#[derive(Drop)]
pub(crate) struct Met<'a> {
    /// What was met, in order.
    pub(crate) entries: Vec<Entry<'a>>,
    /// By the number of a field, one more than its place among them; 0 where it was not met.
    pub(crate) places: [u8; NUMBERS],
}

impl<'a> Met<'a> {
    /// Adds an entry, unless its field was met before or memory is refused, and says whether it did.
    #[tactic(auto, using(crate::proofs::MetLemmas::one_more_placed), unfolding(crate::specs::inside::Parts::ArePlaced))]
    #[inline(always)]
    pub(crate) fn adds(&mut self, field: Field, part: Part<'a>) -> bool
        ensures added { IsTrue result → self.new.entries.items ≡ self.old.entries.items ++ entry field part.entry ∷ [] }
        ensures apart { IsTrue result → ArePlaced self.old → All (λ other. other.field ≢ field) self.old.entries.items }
        ensures placed { IsTrue result → ArePlaced self.old → ArePlaced self.new }
    {
        if self.places[number_of(field)] != 0 {
            return false;
        }
        let Ok(place) = u8::try_from(self.entries.len() + 1) else {
            return false;
        };
        self.places[number_of(field)] = place;
        self.entries.push(Entry { field, part }).is_ok()
    }

    /// What stands in a field.
    pub(crate) fn find(&self, field: Field) -> Option<&Part<'a>>
        ensures { MatchOption result
            (ArePlaced self.now → All (λ other. other.field ≢ field) self.now.entries.items)
            (λ part. Contains self.now.entries.items (entry field part.now)) }
    {
        let place = self.place_of(field)?;
        Some(&self.entries[place].part)
    }

    /// Takes out what stands in a field.
    pub(crate) fn take(&mut self, field: Field) -> Option<Part<'a>>
        ensures { IfSome result (λ part. IsTaken self.old field part self.new) }
    {
        let place = self.place_of(field)?;
        Some(mem::replace(&mut self.entries[place].part, Part::Taken))
    }

    /// The place of a field among those that were met.
    #[tactic(auto, unfolding(crate::specs::inside::Parts::ArePlaced))]
    fn place_of(&self, field: Field) -> Option<usize>
        ensures { MatchOption result
            (ArePlaced self.now → All (λ other. other.field ≢ field) self.now.entries.items)
            (λ place. (place < length self.now.entries.items)
            × ((d : AnEntry) → (get_or self.now.entries.items place d).field ≡ field)) }
    {
        let number = number_of(field);
        let after = self.places[number] as usize;
        if after == 0
            || after > self.entries.len()
            || number_of(self.entries[after - 1].field) != number
        {
            return None;
        }
        Some(after - 1)
    }

    /// Whether each is one of these.
    pub(crate) fn has_only(&self, fields: &[Field]) -> bool
        ensures { IsTrue result → All (λ met. IsOneOf fields.now met.field) self.now.entries.items }
    {
        // By the number of a field, whether it is one of these.
        let mut marks = [false; NUMBERS];
        for field in fields {
            marks[number_of(*field)] = true;
        }
        for met in &self.entries {
            if !marks[number_of(met.field)] {
                return false;
            }
        }
        true
    }
}

/// The number of a field.
#[tactic(auto, unfolding(crate::specs::inside::Parts::field_number))]
#[inline(always)]
fn number_of(field: Field) -> usize
    ensures value { result ≡ field_number field }
    ensures bound { result < 32 }
{
    field as usize
}
