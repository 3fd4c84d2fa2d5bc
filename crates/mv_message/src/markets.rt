//! The markets of a product: a small type over `Vec<Market>`, which contracts see as a list.

ghost use Rattle.std.specs.Prelude.{◌≡◌, nat_eq, IfOk};
ghost use Rattle.std.specs.Cmp.{partial_equiv_from_equiv};
ghost use Rattle.std.specs.Cmp.Lexicographic.{pointwise, nat_list_eq_equiv, lists_equiv};

use mv_pack::Market;
use std::alloc::{AllocError, Global};
use std::marker::Model;

/// Markets in the order in which a message names them. One may stand twice.
pub struct Markets {
    markets: Vec<Market>,
}

impl Drop for Markets {
    fn drop(self) {
        let Self { markets: _ } = self;
    }
}

impl Model for Markets {
    ghost use Rattle.std.specs.Prelude.{List, ℕ};

    ghost Value = { List (List ℕ) };

    ghost view = { λ m. m.markets.items };
}

impl Markets {
    /// The markets of a vector.
    pub fn new(markets: Vec<Market>) -> Markets
        ensures { result ≡ markets.items }
    {
        Markets { markets }
    }

    /// The markets, in order.
    pub fn as_slice(&self) -> &[Market]
        ensures { result.now ≡ self.now }
    {
        self.markets.as_slice()
    }

    /// A list of its own with the same markets.
    pub fn copy(&self, alloc: Global) -> Result<Markets, AllocError>
        ensures { IfOk result (λ markets. markets ≡ self.now) }
    {
        let markets = Vec::from_slice(alloc, self.markets.as_slice())?;
        Ok(Markets { markets })
    }
}

impl PartialEq for Markets {
    ghost eq = { pointwise (pointwise nat_eq) };

    ghost laws = { partial_equiv_from_equiv (lists_equiv nat_list_eq_equiv) };

    fn eq(&self, other: &Self) -> bool {
        self.as_slice() == other.as_slice()
    }
}

impl Eq for Markets {
    ghost laws = { lists_equiv nat_list_eq_equiv };
}
