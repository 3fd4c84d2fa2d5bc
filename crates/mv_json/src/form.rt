//! The versions of the JSON form, told apart by the field `v`; the forms of messages, and the fields of each.

ghost use Rattle.std.specs.Prelude.{◌≡◌, filter};
ghost use Rattle.mv_json.specs.Shapes.{form_named, form_at, fields_of, version_at};
ghost use Rattle.mv_json.specs.Fields.{is_in};
ghost use Rattle.mv_json.specs.inside.Parts.{Gives};

use crate::object::Object;
use crate::reading::text_at;
use crate::{Field, MessageFault};

/// The form of a message, which its field `msg` names.
#[derive(Clone, Copy)]
pub(crate) enum Form {
    /// `answer`: what was found of a pack.
    Answer,
    /// `master`: the product master.
    Master,
    /// `query`: what is there of a pack?
    Query,
    /// `recall`: the recall of a batch.
    Recall,
    /// `repack`: packs were repackaged.
    Repack,
    /// `status`: a change of a pack's standing.
    Status,
    /// `upload`: packs of a batch.
    Upload,
    /// `withdraw`: the withdrawal of a product.
    Withdraw,
}

impl Form {
    /// The fields of such a message, in byte order of their names. Version 1 never has the last of them.
    pub(crate) fn fields(self, version: Version) -> &'static [Field]
        ensures { result.now ≡ filter (λ field. is_in field version) (fields_of self) }
    {
        use Field::*;
        match self {
            Self::Answer => &[Asker, Found, Gtin, Msg, Q, Serial, V],
            Self::Master => &[
                Common, Form, Gtin, Markets, Msg, Name, PackSize, PackType, Scheme, Strength, V,
            ],
            Self::Query => &[Gtin, Msg, Serial, V],
            Self::Recall => &[At, Batch, Gtin, Msg, V],
            Self::Repack => &[
                AfterBatch,
                AfterGtin,
                AfterSerials,
                At,
                BeforeBatch,
                BeforeGtin,
                BeforeSerials,
                Msg,
                V,
            ],
            Self::Status => &[At, Gtin, Msg, Serial, To, User, V],
            Self::Upload => match version {
                Version::One => &[Batch, Expiry, Gtin, Msg, Serials, V],
                Version::Two => &[Batch, Expiry, Gtin, Msg, National, Serials, V],
            },
            Self::Withdraw => &[At, Gtin, Msg, V],
        }
    }
}

/// The form of that name, among those of the version: the second has all of them.
pub(crate) fn form_named(version: Version, name: &str) -> Option<Form>
    ensures { result ≡ form_named version name.now }
{
    match name {
        "status" => Some(Form::Status),
        "upload" => Some(Form::Upload),
        "query" => Some(Form::Query),
        "recall" => Some(Form::Recall),
        "repack" => Some(Form::Repack),
        "answer" => Some(Form::Answer),
        "master" => Some(Form::Master),
        "withdraw" if version == Version::Two => Some(Form::Withdraw),
        _ => None,
    }
}

/// The form of an object: M3, M5.
#[inline(always)]
#[tactic(auto, unfolding(crate::specs::Shapes::form_at))]
pub(crate) fn form_at(object: &Object<'_>, version: Version) -> Result<Form, MessageFault>
    ensures { Gives (form_at version) object.now result }
{
    form_named(version, text_at(object, Field::Msg)?).ok_or(MessageFault::Kind(Field::Msg))
}

/// A version of the JSON form of messages.
#[derive(Clone, Copy, PartialEq, Eq)]
pub(crate) enum Version {
    /// The first, whose objects have no `v`.
    One,
    /// The second, which has withdrawals, national numbers, and whether a product is withdrawn.
    Two,
}

/// The version of an object: M5 of `v`.
#[tactic(auto, unfolding(crate::specs::Shapes::version_at))]
pub(crate) fn version_at(object: &Object<'_>) -> Result<Version, MessageFault>
    ensures { Gives version_at object.now result }
{
    let Some(found) = object.get(Field::V) else {
        return Ok(Version::One);
    };
    match found.as_u64() {
        Some(2) => Ok(Version::Two),
        _ => Err(MessageFault::Kind(Field::V)),
    }
}
