//! What parties send each other.

ghost use Rattle.std.specs.Prelude.{◌≡◌, IfOk, IsOk, IsTrue};

use crate::found::national_copy;
use crate::{Boxed, Found, Markets, Serials, Standing, Text};
use mv_pack::{Batch, BatchKey, Expiry, Gtin, Moment, National, PackKey};
use std::alloc::{AllocError, Global};
use std::mem::size_of;

/// A party, by its number from 0.
pub type Party = u32;

/// What is sold under a product code, as its manufacturer describes it.
#[derive(PartialEq, Eq, Drop)]
pub struct Product {
    /// The scheme of the product code, as `GTIN`.
    pub scheme: Text,
    /// The name of the product.
    pub name: Text,
    /// Its common name.
    pub common: Text,
    /// Its pharmaceutical form, as `tablet`.
    pub form: Text,
    /// Its strength, as `500 mg`.
    pub strength: Text,
    /// What a pack is, as `blister`.
    pub pack_type: Text,
    /// How much a pack holds, as `30`.
    pub pack_size: Text,
    /// Where the product is sold.
    pub markets: Markets,
}

impl Product {
    /// A product of its own with the same texts and markets.
    pub fn copy(&self, alloc: Global) -> Result<Product, AllocError>
        ensures { IfOk result (λ product. product ≡ self.now) }
    {
        Ok(Product {
            scheme: self.scheme.copy(alloc)?,
            name: self.name.copy(alloc)?,
            common: self.common.copy(alloc)?,
            form: self.form.copy(alloc)?,
            strength: self.strength.copy(alloc)?,
            pack_type: self.pack_type.copy(alloc)?,
            pack_size: self.pack_size.copy(alloc)?,
            markets: self.markets.copy(alloc)?,
        })
    }
}

/// What a party sends.
#[derive(PartialEq, Eq, Drop)]
pub enum Message {
    /// The product master: what is sold under a product code, and where.
    Master {
        /// The product code.
        gtin: Gtin,
        /// What is sold under it from now on; in a place of its own, so that no other message is as large as a product.
        product: Boxed<Product>,
    },
    /// Packs of a batch, each active from now on (Article 33 of Delegated Regulation (EU) 2016/161).
    Upload {
        /// The product code of the packs.
        gtin: Gtin,
        /// Their batch.
        batch: Batch,
        /// The last day on which they may be supplied.
        expiry: Expiry,
        /// Their national number, where the product has one.
        national: Option<National>,
        /// Their serial numbers: 1 to 100 in a legal message.
        serials: Serials,
    },
    /// A change of a pack's standing: it is decommissioned, or made active again (Articles 13 and 16 to 25).
    Status {
        /// The pack.
        key: PackKey,
        /// The standing that it is to take.
        to: Standing,
        /// Who changes it, by a name of the sender's own: 1 to 200 bytes in a legal message.
        user: Text,
        /// When it changes, in whole seconds since 1970.
        at: Moment,
    },
    /// The recall of a batch.
    Recall {
        /// The batch.
        key: BatchKey,
        /// When it is recalled, in whole seconds since 1970.
        at: Moment,
    },
    /// Packs of a batch were repackaged as packs of another (Articles 16 and 35(4)).
    Repack {
        /// The batch of the packs that were taken; in a place of its own, as the other, so that no message is as large as two.
        before: Boxed<BatchKey>,
        /// The serial numbers of these: 1 to 100 in a legal message.
        before_serials: Serials,
        /// The batch of the packs that were made of them. It may be the same.
        after: Boxed<BatchKey>,
        /// The serial numbers of these: 1 to 100 in a legal message.
        after_serials: Serials,
        /// When they were repackaged, in whole seconds since 1970.
        at: Moment,
    },
    /// The withdrawal of a product.
    Withdraw {
        /// The product code.
        gtin: Gtin,
        /// When it is withdrawn, in whole seconds since 1970.
        at: Moment,
    },
    /// The question what a repository holds of a pack (Article 34).
    Query {
        /// The pack.
        key: PackKey,
    },
    /// The answer to a query.
    Answer {
        /// The party that asked.
        asker: Party,
        /// The number of the query among all that this party sent, counted from 1; not 0 in a legal message.
        q: u32,
        /// The pack that it asked for.
        key: PackKey,
        /// What was found of the pack.
        found: Found,
    },
}

// Each message takes the place of the largest kind. What is kept for good is for the most part uploads.
const _: () = prove!(size_of::<Message>() <= 96);

impl Message {
    ghost use Rattle.mv_message.specs.Kinds.{has_codes_alone};

    /// A message of its own that equals this one.
    pub fn copy(&self, alloc: Global) -> Result<Message, AllocError>
        ensures copy { IfOk result (λ message. message ≡ self.now) }
        // What holds no text and no list takes no memory to copy.
        ensures no_memory { IsTrue (has_codes_alone self.now) → IsOk result }
    {
        match self {
            Message::Master { gtin, product } => Ok(Message::Master {
                gtin: *gtin,
                product: Boxed::new(alloc, product.get().copy(alloc)?)?,
            }),
            Message::Upload {
                gtin,
                batch,
                expiry,
                national,
                serials,
            } => {
                let serials = serials.copy(alloc)?;
                Ok(Message::Upload {
                    gtin: *gtin,
                    batch: batch.copy(),
                    expiry: *expiry,
                    national: national_copy(national),
                    serials,
                })
            }
            Message::Status { key, to, user, at } => {
                let user = user.copy(alloc)?;
                Ok(Message::Status {
                    key: key.copy(),
                    to: *to,
                    user,
                    at: *at,
                })
            }
            Message::Recall { key, at } => Ok(Message::Recall {
                key: key.copy(),
                at: *at,
            }),
            Message::Repack {
                before,
                before_serials,
                after,
                after_serials,
                at,
            } => {
                let (before, before_serials) = side_copy(alloc, before.get(), before_serials)?;
                let (after, after_serials) = side_copy(alloc, after.get(), after_serials)?;
                Ok(Message::Repack {
                    before,
                    before_serials,
                    after,
                    after_serials,
                    at: *at,
                })
            }
            Message::Withdraw { gtin, at } => Ok(Message::Withdraw {
                gtin: *gtin,
                at: *at,
            }),
            Message::Query { key } => Ok(Message::Query { key: key.copy() }),
            Message::Answer {
                asker,
                q,
                key,
                found,
            } => Ok(Message::Answer {
                asker: *asker,
                q: *q,
                key: key.copy(),
                found: found.copy(),
            }),
        }
    }
}

/// One side of a repackaging, with the same values: its batch, and the serial numbers of its packs.
fn side_copy(
    alloc: Global,
    batch: &BatchKey,
    serials: &Serials,
) -> Result<(Boxed<BatchKey>, Serials), AllocError>
    ensures { IfOk result (λ side. (side.0 ≡ batch.now) × (side.1 ≡ serials.now)) }
{
    Ok((Boxed::new(alloc, batch.copy())?, serials.copy(alloc)?))
}
