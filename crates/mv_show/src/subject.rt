//! What the lines of a party tell of.

use mv_pack::{BatchKey, Gtin, PackKey};

/// What a line of a party tells of.
#[derive(PartialEq, Eq, Hash, Drop)]
pub(crate) enum Subject {
    /// The party itself.
    Party,
    /// A product.
    Product(Gtin),
    /// A batch that is recalled.
    Recall(BatchKey),
    /// A pack.
    Pack(PackKey),
}

/// Of which kind the subjects are that entries of a log name.
#[derive(Clone, Copy)]
pub(crate) enum Kind {
    /// Products.
    Products,
    /// Batches that are recalled.
    Recalls,
    /// Packs.
    Packs,
}
