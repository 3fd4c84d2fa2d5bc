//! What a line that opens gives: the parties and the limits.

ghost use Rattle.std.specs.Prelude.{◌≡◌, IfErr, IsOk};
ghost use Rattle.mv_hub.specs.Parties.{parties_of};
ghost use Rattle.mv_machine.specs.Limits.{limits_of};
ghost use Rattle.mv_json.specs.Reading.{GivesOr, map_err};

use crate::{MarketLists, OpenFault};
use mv_hub::{HubFault, Parties};
use mv_machine::Limits;
use std::alloc::Global;

/// The parties of lists of markets: H1 to H3.
pub fn parties_of(alloc: Global, lists: MarketLists) -> Result<Parties, OpenFault>
    ensures gives { GivesOr result (map_err OpenFault.Parties (parties_of lists)) OpenFault.Memory }
    // Memory is asked for once they are known to be parties.
    ensures memory { IfErr result (λ fault. fault ≡ OpenFault.Memory → IsOk (parties_of lists)) }
{
    match Parties::new(alloc, lists.into_lists()) {
        Ok(parties) => Ok(parties),
        Err(HubFault::Memory) => Err(OpenFault::Memory),
        Err(fault) => Err(OpenFault::Parties(fault)),
    }
}

/// The limits of numbers: O1 to O4.
pub fn limits_of(window: u32, wire: u32, uplink: u32, submissions: u32) -> Result<Limits, OpenFault>
    ensures { result ≡ map_err OpenFault.Limits (limits_of window wire uplink submissions) }
{
    Limits::of(window, wire, uplink, submissions).map_err(OpenFault::Limits)
}
