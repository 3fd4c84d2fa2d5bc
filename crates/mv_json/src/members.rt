//! The keys of JSON objects, for every reader of objects: it knows neither messages nor their fields.

ghost use Rattle.std.specs.Prelude.{◌≡◌, ℕ, List, bytes_eq, map, option_map};
ghost use Rattle.mv_json.specs.Words.{list_any, members_view};
ghost use Rattle.mv_json.specs.Members.{first_unknown};

use serde_json::{Map, Value};

/// A field of objects, which has a name.
pub trait Named {
    /// The name, as contracts see it.
    ghost name: { Self → List ℕ };

    /// The name, as it stands in the object.
    fn name(&self) -> &'static str
        ensures { result.now ≡ name self.now };
}

/// The first key of an object, in byte order, that is the name of none of these fields.
///
/// It takes no memory: a caller that keeps the key copies it.
pub fn first_unknown<'a, N: Named>(members: &'a Map<String, Value>, fields: &[N]) -> Option<&'a str>
    ensures { option_map (λ key. key.now) result
        ≡ first_unknown (map N.name fields.now) (members_view members.now.entries) }
{
    for key in members.keys() {
        if !is_named(fields, key.as_str()) {
            return Some(key.as_str());
        }
    }
    None
}

/// Whether a key is the name of one of these fields.
fn is_named<N: Named>(fields: &[N], key: &str) -> bool
    ensures { result ≡ list_any (bytes_eq key.now) (map N.name fields.now) }
{
    for field in fields {
        if key == field.name() {
            return true;
        }
    }
    false
}
