//! The names of the fields of a message's JSON object.

ghost use Rattle.std.specs.Prelude.{◌≡◌};

use crate::members::Named;

/// A field of a message, named as in its JSON object.
#[derive(Clone, Copy, Debug, PartialEq, Eq)]
pub enum Field {
    /// `after_batch`: the batch of packs after repackaging.
    AfterBatch,
    /// `after_gtin`: their product code.
    AfterGtin,
    /// `after_serials`: their serial numbers.
    AfterSerials,
    /// `asker`: the party that asked.
    Asker,
    /// `at`: when it happened.
    At,
    /// `batch`: the batch of the packs.
    Batch,
    /// `before_batch`: the batch of packs before repackaging.
    BeforeBatch,
    /// `before_gtin`: their product code.
    BeforeGtin,
    /// `before_serials`: their serial numbers.
    BeforeSerials,
    /// `common`: the common name of the product.
    Common,
    /// `expiry`: when the packs expire.
    Expiry,
    /// `form`: the product's pharmaceutical form.
    Form,
    /// `found`: what was found of the pack.
    Found,
    /// `gtin`: the product code.
    Gtin,
    /// `markets`: where the product is sold.
    Markets,
    /// `msg`: which message it is.
    Msg,
    /// `name`: the name of the product.
    Name,
    /// `national`: the national number of the packs, or none.
    National,
    /// `pack_size`: how much a pack holds.
    PackSize,
    /// `pack_type`: what a pack is.
    PackType,
    /// `q`: the number of the query among what the asker sent.
    Q,
    /// `recalled`, in `found`: whether the batch is recalled.
    Recalled,
    /// `scheme`: the scheme of the product code.
    Scheme,
    /// `serial`: the serial number of the pack.
    Serial,
    /// `serials`: the serial numbers of the packs.
    Serials,
    /// `standing`, in `found`: what the pack may be used for.
    Standing,
    /// `strength`: the strength of the product.
    Strength,
    /// `to`: the standing that the pack takes.
    To,
    /// `user`: who changed it.
    User,
    /// `v`: the version of the message, where it is not the first.
    V,
    /// `withdrawn`, in `found`: whether the product is withdrawn.
    Withdrawn,
}

impl Named for Field {
    ghost use Rattle.mv_json.specs.Fields.{field_name};

    ghost name = { field_name };

    fn name(&self) -> &'static str {
        self.as_str()
    }
}

impl Field {
    ghost use Rattle.mv_json.specs.Fields.{field_name};

    /// The name of the field, as it stands in the object.
    pub fn as_str(self) -> &'static str
        ensures { result.now ≡ field_name self }
    {
        match self {
            Field::AfterBatch => "after_batch",
            Field::AfterGtin => "after_gtin",
            Field::AfterSerials => "after_serials",
            Field::Asker => "asker",
            Field::At => "at",
            Field::Batch => "batch",
            Field::BeforeBatch => "before_batch",
            Field::BeforeGtin => "before_gtin",
            Field::BeforeSerials => "before_serials",
            Field::Common => "common",
            Field::Expiry => "expiry",
            Field::Form => "form",
            Field::Found => "found",
            Field::Gtin => "gtin",
            Field::Markets => "markets",
            Field::Msg => "msg",
            Field::Name => "name",
            Field::National => "national",
            Field::PackSize => "pack_size",
            Field::PackType => "pack_type",
            Field::Q => "q",
            Field::Recalled => "recalled",
            Field::Scheme => "scheme",
            Field::Serial => "serial",
            Field::Serials => "serials",
            Field::Standing => "standing",
            Field::Strength => "strength",
            Field::To => "to",
            Field::User => "user",
            Field::V => "v",
            Field::Withdrawn => "withdrawn",
        }
    }
}
