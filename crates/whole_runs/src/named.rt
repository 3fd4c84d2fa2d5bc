//! What the steps of an input name.

use mv_machine::Step;
use mv_message::{Message, Serials};
use mv_pack::{Batch, BatchKey, Gtin, PackKey};
use std::alloc::Global;

/// The products, batches and packs that steps name, each once, in the order in which they are first named.
#[derive(Drop)]
pub(crate) struct Named {
    products: Vec<Gtin>,
    batches: Vec<BatchKey>,
    packs: Vec<PackKey>,
}

impl Named {
    /// Nothing is named.
    pub(crate) fn new(alloc: Global) -> Named {
        Named {
            products: Vec::new(alloc),
            batches: Vec::new(alloc),
            packs: Vec::new(alloc),
        }
    }

    /// The products.
    pub(crate) fn products(&self) -> &[Gtin] {
        self.products.as_slice()
    }

    /// The batches.
    pub(crate) fn batches(&self) -> &[BatchKey] {
        self.batches.as_slice()
    }

    /// The packs.
    pub(crate) fn packs(&self) -> &[PackKey] {
        self.packs.as_slice()
    }

    /// Notes what a step names. None where memory was refused.
    pub(crate) fn note(&mut self, step: &Step) -> Option<()> {
        match step {
            Step::Submit { message, .. } => self.note_message(message.get()),
            Step::Verify { key, .. } => self.note_pack(key),
            _ => Some(()),
        }
    }

    /// Notes what a message names.
    fn note_message(&mut self, message: &Message) -> Option<()> {
        match message {
            Message::Master { gtin, .. } => self.note_product(gtin),
            Message::Withdraw { gtin, .. } => self.note_product(gtin),
            Message::Upload {
                gtin,
                batch,
                serials,
                ..
            } => self.note_batch_and_packs(gtin, batch, serials),
            Message::Repack {
                before,
                before_serials,
                after,
                after_serials,
                ..
            } => {
                let before = before.get();
                let after = after.get();
                self.note_batch_and_packs(&before.gtin, &before.batch, before_serials)?;
                self.note_batch_and_packs(&after.gtin, &after.batch, after_serials)
            }
            Message::Recall { key, .. } => self.note_batch(key),
            Message::Status { key, .. } => self.note_pack(key),
            Message::Query { key } => self.note_pack(key),
            Message::Answer { key, .. } => self.note_pack(key),
        }
    }

    /// Notes a batch, and packs of its product.
    fn note_batch_and_packs(
        &mut self,
        gtin: &Gtin,
        batch: &Batch,
        serials: &Serials,
    ) -> Option<()> {
        self.note_batch(&BatchKey {
            gtin: *gtin,
            batch: batch.copy(),
        })?;
        for serial in serials.as_slice() {
            self.note_pack(&PackKey {
                gtin: *gtin,
                serial: serial.copy(),
            })?;
        }
        Some(())
    }

    /// Notes a product.
    fn note_product(&mut self, gtin: &Gtin) -> Option<()> {
        if self.products().contains(gtin) {
            return Some(());
        }
        self.products.push(*gtin).ok()
    }

    /// Notes a batch and its product.
    fn note_batch(&mut self, batch: &BatchKey) -> Option<()> {
        self.note_product(&batch.gtin)?;
        if self.batches().contains(batch) {
            return Some(());
        }
        self.batches.push(batch.copy()).ok()
    }

    /// Notes a pack and its product.
    fn note_pack(&mut self, pack: &PackKey) -> Option<()> {
        self.note_product(&pack.gtin)?;
        if self.packs().contains(pack) {
            return Some(());
        }
        self.packs.push(pack.copy()).ok()
    }
}
