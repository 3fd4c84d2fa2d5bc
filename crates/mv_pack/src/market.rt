//! Markets, by the two letters of the Member State.

ghost use Rattle.std.specs.Prelude.{◌≡◌, ◌<◌, ◌↔◌, IsOk};
ghost use Rattle.std.specs.List.{list_all};
ghost use Rattle.mv_pack.specs.Market.{is_capital, read_market, place_of, IsMarket};

use crate::PackFault;
use crate::ascii::text_of;
use std::marker::Model;

/// How many markets there can be: each has two letters of 26.
pub const MARKETS_LIMIT: usize = 676;

/// A Member State where a product is sold, by its two capital letters, as `FI`.
#[derive(Clone, Copy, PartialEq, Eq, PartialOrd, Ord, Hash)]
pub struct Market {
    /// The letters, `A` to `Z`.
    letters: [u8; 2],
}

impl Model for Market {
    ghost use Rattle.std.specs.Prelude.{List, ℕ};
    ghost use Rattle.mv_pack.specs.Market.{IsMarket};

    ghost Value = { List ℕ };

    ghost view = { λ m. m.letters };

    ghost invariant = { λ m. IsMarket m.letters };

    ghost inverse = { λ t. record { letters = t } };
}

impl Market {
    /// Reads a market of two letters `A` to `Z`; anything else is P8.
    pub fn read(text: &str) -> Result<Market, PackFault>
        ensures exact { result ≡ read_market text.now }
        ensures accepted { IsOk result ↔ IsMarket text.now }
    {
        let [first, second] = text.as_bytes() else {
            return Err(PackFault::Market);
        };
        let letters = [*first, *second];
        if !are_capitals(&letters) {
            return Err(PackFault::Market);
        }
        Ok(Market { letters })
    }

    /// The two letters.
    #[tactic(auto, using(crate::proofs::MarketLemmas::capitals_are_text))]
    pub fn as_str(&self) -> &str
        ensures { result.now ≡ self.now }
    {
        text_of(&self.letters)
    }

    /// Its place among all markets that there can be, in the order of their letters, from 0.
    #[tactic(auto, using(crate::proofs::MarketLemmas::letters_within))]
    pub fn place(&self) -> usize
        ensures value { result ≡ place_of self.now }
        ensures within { result < MARKETS_LIMIT }
        ensures market { IsMarket self.now }
    {
        let [first, second] = self.letters;
        usize::from(first - b'A') * 26 + usize::from(second - b'A')
    }
}

/// Whether all bytes are capital letters.
fn are_capitals(text: &[u8]) -> bool
    ensures { result ≡ list_all is_capital text.now }
{
    text.iter().all(|b| b.is_ascii_uppercase())
}
