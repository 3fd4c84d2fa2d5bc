//! What stops a batch for ever: for each batch the place in the log of its first recall by stamp, and for each product
//! that of its first withdrawal.

ghost use Rattle.std.specs.Prelude.{◌≡◌};
ghost use Rattle.mv_repository.specs.Clauses.{entry_at, standing_at, stopped_product, stops_in};

use crate::LogEntry;
use crate::entry::is_before;
use indexmap::IndexMap;
use mv_pack::{BatchKey, Gtin};

/// How a batch stands.
#[derive(Clone, Copy)]
pub struct BatchStanding {
    /// The batch is recalled.
    pub recalled: bool,
    /// Its product is withdrawn.
    pub withdrawn: bool,
}

/// What stops packs for ever.
#[derive(Clone, Copy)]
pub(crate) enum Stop<'a> {
    /// A recall of a batch.
    OfBatch(&'a BatchKey),
    /// A withdrawal of a product.
    OfProduct(&'a Gtin),
}

impl<'a> Stop<'a> {
    /// The product of the packs that it stops.
    pub fn gtin(&self) -> &'a Gtin
        ensures { result.now ≡ stopped_product self.now }
    {
        match *self {
            Stop::OfBatch(batch) => &batch.gtin,
            Stop::OfProduct(gtin) => gtin,
        }
    }
}

/// The first recall of each batch and the first withdrawal of each product, by their places in the log.
#[derive(Drop)]
pub(crate) struct Stops {
    /// The place of the first recall of each batch, in the order in which the first of each came.
    pub recalls: IndexMap<BatchKey, u32>,
    /// The place of the first withdrawal of each product, in the same order.
    pub withdrawals: IndexMap<Gtin, u32>,
}

impl Stops {
    /// How a batch stands where an entry stands.
    pub fn standing_at(&self, log: &[LogEntry], batch: &BatchKey, place: u32) -> BatchStanding
        ensures { result ≡ standing_at (stops_in log.now self.now) (entry_at log.now place) batch.now }
    {
        BatchStanding {
            recalled: is_before(log, self.recalls.get(batch).copied(), place),
            withdrawn: is_before(log, self.withdrawals.get(&batch.gtin).copied(), place),
        }
    }
}
