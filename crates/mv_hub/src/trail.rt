//! The audit trail: the record of what the hub did, and tables of what it says of products and batches, so that no call
//! walks the record.

ghost use Rattle.std.specs.Prelude.{◌≡◌, ◌++◌, ◌∷◌, [], Contains, List, None, Some, OnOk, OnErr, IfOk, if◌then◌else◌};
ghost use Rattle.mv_hub.specs.Words.{BatchKey as ABatch, Entry as AnEntry, is_same_batch, option_copied};
ghost use Rattle.mv_hub.specs.Record.{product_of};
ghost use Rattle.mv_hub.specs.Catalogue.{catalogue_of};
ghost use Rattle.mv_hub.specs.BatchLinks.{linked_to, IsAscendingList};
ghost use Rattle.mv_hub.specs.inside.Kept.{AreTables, Gathers, Notes, catalogue_after, linked_in, listing_of, no_catalogue};

use crate::{Catalogue, Entry, MasterProduct, Pairs};
use indexmap::{IndexMap, IndexSet};
use mv_message::{Message, Shared};
use mv_pack::{Batch, BatchKey, Expiry, Gtin};
use std::alloc::{AllocError, Global};
use std::marker::Model;

/// The record and its tables. Contracts see the record, the oldest entry first.
#[derive(Drop)]
pub(crate) struct AuditTrail {
    /// Where the tables get their memory.
    alloc: Global,
    /// The record, the oldest entry first.
    entries: Vec<Entry>,
    /// What it says of each product, by its code.
    catalogues: IndexMap<Gtin, Listed>,
    /// The batches after of each batch before, in the order of their links.
    batch_links: IndexMap<BatchKey, Vec<BatchKey>>,
}

impl Model for AuditTrail {
    ghost use Rattle.std.specs.Prelude.{List};
    ghost use Rattle.mv_hub.specs.declared.entry.Entry.{Entry as AnEntry};
    ghost use Rattle.mv_hub.specs.inside.Kept.{AreTables};

    ghost Value = { List AnEntry };

    ghost view = { λ a. a.entries.items };

    ghost invariant = { λ a. AreTables
        a.entries.items a.catalogues.entries a.batch_links.entries };
}

impl AuditTrail {
    /// An empty record.
    #[tactic(auto, unfolding(crate::specs::Record::last_product, crate::specs::Catalogue::batches_of, crate::specs::BatchLinks::linked_to))]
    pub(crate) fn new(alloc: Global) -> AuditTrail
        ensures { result ≡ [] }
    {
        AuditTrail {
            alloc,
            entries: Vec::new(alloc),
            catalogues: IndexMap::new(alloc),
            batch_links: IndexMap::new(alloc),
        }
    }

    /// The entries, the oldest first.
    pub(crate) fn entries(&self) -> &[Entry]
        ensures { result.now ≡ self.now }
    {
        self.entries.as_slice()
    }

    /// Puts an entry at the end of the record. Where memory is refused nothing has changed.
    pub(crate) fn push(&mut self, entry: Entry) -> Result<(), AllocError>
        ensures ok { OnOk result (self.new ≡ self.old ++ entry ∷ []) }
        ensures err { OnErr result (self.new ≡ self.old) }
    {
        self.entries.reserve(1)?;
        add_to_tables(
            self.alloc,
            &mut self.catalogues,
            &mut self.batch_links,
            &entry,
        )?;
        // Nothing fails from here on.
        self.entries.push_reserved(entry);
        Ok(())
    }

    /// The batches that are linked to a batch, in the order of their links.
    pub(crate) fn links_of(&self, batch: &BatchKey) -> &[BatchKey]
        ensures { result.now ≡ linked_to self.now batch.now }
    {
        match self.batch_links.get(batch) {
            Some(batches) => batches.as_slice(),
            None => &[],
        }
    }

    /// What the record says of a product.
    pub(crate) fn catalogue(&self, gtin: &Gtin) -> Option<&Catalogue>
        ensures { option_copied result ≡ catalogue_of self.now gtin.now }
    {
        Some(&self.catalogues.get(gtin)?.catalogue)
    }
}

/// Puts into the tables what an entry says. Where memory is refused no catalogue and no link has changed.
#[tactic(auto, using(crate::proofs::TrailLemmas::table_steps))]
fn add_to_tables(
    alloc: Global,
    catalogues: &mut IndexMap<Gtin, Listed>,
    batch_links: &mut IndexMap<BatchKey, Vec<BatchKey>>,
    entry: &Entry,
) -> Result<(), AllocError>
    ensures ok { OnOk result ((entries : List AnEntry)
        → AreTables entries catalogues.old.entries batch_links.old.entries
        → AreTables (entries ++ entry.now ∷ []) catalogues.new.entries batch_links.new.entries) }
    ensures catalogues { OnErr result (catalogues.new.entries ≡ catalogues.old.entries) }
    ensures links { OnErr result ((batch : ABatch) → linked_in batch_links.new.entries batch
        ≡ linked_in batch_links.old.entries batch) }
{
    let Entry::Routed { message, .. } = entry else {
        return Ok(());
    };
    match message.get() {
        Message::Master { gtin, .. } | Message::Upload { gtin, .. } => {
            note(alloc, catalogues, *gtin, message)
        }
        Message::Repack { before, after, .. } => {
            add_link(alloc, batch_links, before.get(), after.get())
        }
        // No other message says anything of what a product is, of its batches or of links.
        _ => Ok(()),
    }
}

/// A catalogue, and its batches as a set.
struct Listed {
    /// What the hub shows of the product.
    catalogue: Catalogue,
    /// Its pairs once more, so that one is found without a walk.
    known: IndexSet<(Batch, Expiry)>,
}

// Written here, so that no function beside this one proves how its parts are dropped.
impl Drop for Listed {
    fn drop(self) {
        let Self {
            catalogue: _,
            known: _,
        } = self;
    }
}

impl Model for Listed {
    ghost use Rattle.std.specs.Prelude.{◌≡◌};
    ghost use Rattle.mv_hub.specs.declared.catalogue.Catalogue.{Catalogue as ACatalogue};

    ghost Value = { ACatalogue };

    ghost view = { λ l. l.catalogue };

    ghost invariant = { λ l. l.known.keys ≡ l.catalogue.batches };
}

impl Listed {
    /// Nothing is known of a product.
    fn new(alloc: Global) -> Listed
        ensures { result ≡ no_catalogue }
    {
        Listed {
            catalogue: Catalogue {
                product: MasterProduct::new(None),
                batches: Pairs::new(Vec::new(alloc)),
            },
            known: IndexSet::new(alloc),
        }
    }

    /// Notes what a message says: a master its product, an upload its batch. Where memory is refused nothing has changed.
    fn note(&mut self, message: &Shared<Message>) -> Result<(), AllocError>
        ensures ok { OnOk result (self.new
            ≡ catalogue_after self.old (product_of message.now) (listing_of message.now)) }
        ensures err { OnErr result (self.new ≡ self.old) }
    {
        match message.get() {
            Message::Master { .. } => {
                self.catalogue.product = MasterProduct::new(Some(message.share()?));
            }
            Message::Upload { batch, expiry, .. } => self.add(batch, *expiry)?,
            _ => {}
        }
        Ok(())
    }

    /// Puts a batch and its expiry behind the others, unless they are there. Where memory is refused nothing has changed.
    fn add(&mut self, batch: &Batch, expiry: Expiry) -> Result<(), AllocError>
        ensures ok { OnOk result (self.new
            ≡ catalogue_after self.old None (Some (batch.now, expiry))) }
        ensures err { OnErr result (self.new ≡ self.old) }
    {
        let listing = (batch.copy(), expiry);
        if self.known.contains(&listing) {
            return Ok(());
        }
        self.catalogue.batches.list.reserve(1)?;
        self.known.insert(listing)?;
        // Nothing fails from here on.
        let pair = (batch.copy(), expiry);
        self.catalogue.batches.list.push_reserved(pair);
        Ok(())
    }
}

/// Notes what a message says of a product: a master its description, an upload a batch of it. Where memory is refused nothing has
/// changed.
fn note(
    alloc: Global,
    catalogues: &mut IndexMap<Gtin, Listed>,
    gtin: Gtin,
    message: &Shared<Message>,
) -> Result<(), AllocError>
    ensures ok { OnOk result
        (Notes catalogues.old.entries catalogues.new.entries gtin message.now) }
    ensures err { OnErr result (catalogues.new.entries ≡ catalogues.old.entries) }
{
    if let Some(listed) = catalogues.get_mut(&gtin) {
        return listed.note(message);
    }
    let mut listed = Listed::new(alloc);
    listed.note(message)?;
    catalogues.insert(gtin, listed)?;
    Ok(())
}

/// A batch is linked to another from now on. Where memory is refused no link has changed.
fn add_link(
    alloc: Global,
    links: &mut IndexMap<BatchKey, Vec<BatchKey>>,
    before: &BatchKey,
    after: &BatchKey,
) -> Result<(), AllocError>
    ensures ok { OnOk result ((other : ABatch) → linked_in links.new.entries other
        ≡ linked_in links.old.entries other
        ++ (if is_same_batch before.now other then after.now ∷ [] else [])) }
    ensures err { OnErr result ((other : ABatch) → linked_in links.new.entries other
        ≡ linked_in links.old.entries other) }
{
    if let Some(batches) = links.get_mut(before) {
        return Ok(batches.push(after.copy())?);
    }
    let batches = vec![in alloc; after.copy()]?;
    links.insert(before.copy(), batches)?;
    Ok(())
}

/// Puts batches into a set, behind those that are there.
pub(crate) fn add_all(set: &mut IndexSet<BatchKey>, batches: &[BatchKey]) -> Result<(), AllocError>
    ensures { OnOk result (Gathers set.old.keys batches.now set.new.keys) }
{
    for batch in batches {
        set.insert(batch.copy())?;
    }
    Ok(())
}

/// The same batches in a list of its own, ascending and each once. Refused for want of memory.
pub(crate) fn ascending(alloc: Global, batches: &[BatchKey]) -> Result<Vec<BatchKey>, AllocError>
    ensures { IfOk result (λ list. IsAscendingList list.items (Contains batches.now)) }
{
    let mut list: Vec<BatchKey> = batches.iter().map(BatchKey::copy).collect(alloc)?;
    list.sort_unstable();
    list.dedup();
    Ok(list)
}
