//! A system for the tests, opened again where memory was refused.

use mv_hub::Parties;
use mv_machine::Limits;
use mv_pack::Market;
use mv_system::World;
use std::alloc::Global;

/// Two parties: 0 serves no market, 1 Finland.
fn parties(alloc: Global) -> Option<Parties> {
    let finland = Market::read("FI").ok()?;
    let served = vec![in alloc; finland].ok()?;
    let mut lists = Vec::with_capacity(alloc, 2).ok()?;
    lists.push_reserved(Vec::new(alloc));
    lists.push_reserved(served);
    Parties::new(alloc, lists).ok()
}

/// A system of these parties with this uplink and number of submissions, and none where memory was refused.
fn opened(alloc: Global, uplink: u32, submissions: u32) -> Option<World> {
    let parties = parties(alloc)?;
    let limits = Limits::of(8, 8, uplink, submissions).ok()?;
    World::open(alloc, parties, limits).ok()
}

/// That system, opened again where memory was refused once.
pub(crate) fn opened_at_last(alloc: Global, uplink: u32, submissions: u32) -> Option<World> {
    match opened(alloc, uplink, submissions) {
        Some(world) => Some(world),
        None => opened(alloc, uplink, submissions),
    }
}

/// How many entries the record has, how many messages each party submitted, and how many items each repository applied.
pub(crate) fn lengths(world: &World) -> [usize; 5] {
    if !world.is_party(0) || !world.is_party(1) {
        return [0; 5];
    }
    [
        world.record().len(),
        world.sub(0).len(),
        world.sub(1).len(),
        world.log(0).len(),
        world.log(1).len(),
    ]
}
