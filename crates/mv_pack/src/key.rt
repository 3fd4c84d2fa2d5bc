//! The names of packs and of batches.

ghost use Rattle.std.specs.Prelude.{◌≡◌};

use crate::{Batch, Gtin, Serial};

/// A pack, by its product code and its serial number; ordered by the bytes of these, in this order.
#[derive(PartialEq, Eq, PartialOrd, Ord, Hash, Drop)]
pub struct PackKey {
    /// The product code.
    pub gtin: Gtin,
    /// The serial number, which no other pack of the product has.
    pub serial: Serial,
}

impl PackKey {
    /// The same key; it takes no memory.
    pub fn copy(&self) -> PackKey
        ensures { result ≡ self.now }
    {
        PackKey {
            gtin: self.gtin,
            serial: self.serial.copy(),
        }
    }
}

/// A batch of a product, by its product code and its batch number; ordered by the bytes of these, in this order.
#[derive(PartialEq, Eq, PartialOrd, Ord, Hash, Drop)]
pub struct BatchKey {
    /// The product code.
    pub gtin: Gtin,
    /// The batch number.
    pub batch: Batch,
}

impl BatchKey {
    /// The same key; it takes no memory.
    pub fn copy(&self) -> BatchKey
        ensures { result ≡ self.now }
    {
        BatchKey {
            gtin: self.gtin,
            batch: self.batch.copy(),
        }
    }
}
