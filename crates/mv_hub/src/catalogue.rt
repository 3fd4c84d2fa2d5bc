//! What the hub shows of a product.

ghost use Rattle.std.specs.Prelude.{◌≡◌, option_and_then};
ghost use Rattle.mv_hub.specs.Words.{lists_equiv, option_copied, option_eq, options_equiv, partial_equiv_from_equiv, pointwise};
ghost use Rattle.mv_message.specs.contracts.message.ProductEq.TheImpl.Laws.{laws-law};
ghost use Rattle.mv_hub.specs.Record.{product_of};
ghost use Rattle.mv_hub.specs.Listing.{is_same_listing};
ghost use Rattle.mv_hub.specs.inside.Kept.{listing_equiv};

use mv_message::{Message, Product, Shared};
use mv_pack::{Batch, Expiry};
use std::marker::Model;

/// Batches of a product, each with its expiry: a small type over `Vec`, which contracts see as a list.
#[derive(Drop)]
pub struct Pairs {
    /// The pairs, in order.
    pub(crate) list: Vec<(Batch, Expiry)>,
}

impl Model for Pairs {
    ghost use Rattle.std.specs.Prelude.{List};
    ghost use Rattle.mv_hub.specs.Listing.{Listing};

    ghost Value = { List Listing };

    ghost view = { λ p. p.list.items };
}

impl Pairs {
    /// The pairs of a vector.
    pub fn new(list: Vec<(Batch, Expiry)>) -> Pairs
        ensures { result ≡ list.items }
    {
        Pairs { list }
    }

    /// The pairs, in order.
    pub fn as_slice(&self) -> &[(Batch, Expiry)]
        ensures { result.now ≡ self.now }
    {
        self.list.as_slice()
    }
}

impl PartialEq for Pairs {
    ghost eq = { pointwise is_same_listing };

    ghost laws = { partial_equiv_from_equiv (lists_equiv listing_equiv) };

    fn eq(&self, other: &Self) -> bool {
        self.as_slice() == other.as_slice()
    }
}

impl Eq for Pairs {
    ghost laws = { lists_equiv listing_equiv };
}

/// The product of a master, if there is one. It is lent from the master, which is kept once with all others that hold it.
#[derive(Drop)]
pub struct MasterProduct {
    /// The master that the product is lent from.
    master: Option<Shared<Message>>,
}

impl Model for MasterProduct {
    ghost use Rattle.std.specs.Prelude.{Option, option_and_then};
    ghost use Rattle.mv_message.specs.declared.message.Product.{Product as AProduct};
    ghost use Rattle.mv_hub.specs.Record.{product_of};

    ghost Value = { Option AProduct };

    ghost view = { λ p. option_and_then product_of p.master };
}

impl MasterProduct {
    /// The product of a master. No other message has one.
    pub fn new(master: Option<Shared<Message>>) -> MasterProduct
        ensures { result ≡ option_and_then product_of master }
    {
        MasterProduct { master }
    }

    /// The product.
    pub fn get(&self) -> Option<&Product>
        ensures { option_copied result ≡ self.now }
    {
        match self.master.as_ref()?.get() {
            Message::Master { product, .. } => Some(product.get()),
            _ => None,
        }
    }
}

impl PartialEq for MasterProduct {
    ghost eq = { option_eq ⟦<Product as PartialEq>⟧.eq };

    ghost laws = { partial_equiv_from_equiv (options_equiv laws-law) };

    fn eq(&self, other: &Self) -> bool {
        self.get() == other.get()
    }
}

impl Eq for MasterProduct {
    ghost laws = { options_equiv laws-law };
}

/// What the hub knows of a product.
#[derive(PartialEq, Eq, Drop)]
pub struct Catalogue {
    /// The product of its last routed master, if there is one.
    pub product: MasterProduct,
    /// The distinct pairs of batch and expiry of all its routed uploads, in the order of their first routing.
    pub batches: Pairs,
}
