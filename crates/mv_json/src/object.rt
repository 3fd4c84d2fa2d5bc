//! Objects of JSON, of which messages are read: values, and fields that were met. What stands in a field is read alike of both.
#![tactic(auto, using(crate::proofs::PartLemmas::part_is))]

ghost use Rattle.std.specs.Prelude.{◌≡◌, IsTrue, MatchOption, None, is_some, map, option_map};
ghost use Rattle.mv_json.specs.Words.{Data, as_bool, as_null, as_str, get};
ghost use Rattle.mv_json.specs.Fields.{field_name};
ghost use Rattle.mv_json.specs.Reading.{whole_number};
ghost use Rattle.mv_json.specs.Members.{HasOnly};
ghost use Rattle.mv_json.specs.inside.Parts.{IsPlace, IsThere, Stands};

use crate::Field;
use crate::part::{Met, Part};
use serde_json::Value;

/// An object.
#[derive(Drop)]
pub(crate) enum Object<'a> {
    /// The fields that were met, and no other.
    Met(Met<'a>),
    /// A value.
    Value(&'a Value),
}

/// What stands in a field.
#[derive(Clone, Copy)]
pub(crate) enum Place<'a> {
    /// What was met.
    Part(&'a Part<'a>),
    /// A value.
    Value(&'a Value),
}

impl Object<'_> {
    /// What stands in a field.
    #[tactic(auto, using(crate::proofs::PartLemmas::not_there), unfolding(crate::specs::inside::Parts::there))]
    pub(crate) fn get(&self, field: Field) -> Option<Place<'_>>
        ensures { (value : Data) → Stands value self.now
            → MatchOption result (get (field_name field) value ≡ None)
            (IsThere field value) }
    {
        match self {
            Object::Met(met) => Some(Place::Part(met.find(field)?)),
            Object::Value(value) => Some(Place::Value(value.get(field.as_str())?)),
        }
    }

    /// Whether it is of fields that were met, each of which is one of these.
    pub(crate) fn has_met_only(&self, fields: &[Field]) -> bool
        ensures { IsTrue result → (value : Data) → Stands value self.now → HasOnly (map field_name fields.now) value }
    {
        match self {
            Object::Met(met) => met.has_only(fields),
            Object::Value(_) => false,
        }
    }
}

impl<'a> Place<'a> {
    /// The text.
    pub(crate) fn as_str(self) -> Option<&'a str>
        ensures { (value : Data) → IsPlace value self.entry → option_map (λ text. text.now) result ≡ as_str value }
    {
        match self {
            Place::Part(Part::Text(text)) => Some(text),
            Place::Part(_) => None,
            Place::Value(value) => value.as_str(),
        }
    }

    /// The whole number.
    pub(crate) fn as_u64(self) -> Option<u64>
        ensures { (value : Data) → IsPlace value self.entry → result ≡ whole_number value }
    {
        match self {
            Place::Part(Part::Whole(number)) => Some(*number),
            Place::Part(_) => None,
            Place::Value(value) => value.as_u64(),
        }
    }

    /// Whether it is `true`.
    pub(crate) fn as_bool(self) -> Option<bool>
        ensures { (value : Data) → IsPlace value self.entry → result ≡ as_bool value }
    {
        match self {
            Place::Part(Part::Truth(truth)) => Some(*truth),
            Place::Part(_) => None,
            Place::Value(value) => value.as_bool(),
        }
    }

    /// Whether it is `null`.
    pub(crate) fn is_null(self) -> bool
        ensures { (value : Data) → IsPlace value self.entry → result ≡ is_some (as_null value) }
    {
        match self {
            Place::Part(part) => matches!(part, Part::Null),
            Place::Value(value) => value.is_null(),
        }
    }
}
