//! Queries that a party asks without a look at home.

use crate::system::{lengths, opened_at_last};
use mv_machine::{Refusal, Reply};
use mv_pack::{Gtin, PackKey, Serial};
use mv_system::World;
use std::test::Fail;

/// The reply to a query of a pack. Where memory was refused nothing has changed, and the query is asked again.
pub(crate) fn asked_at_last(world: &mut World, party: u32) -> Option<Reply> {
    let gtin = Gtin::read("09506000134352").ok()?;
    let serial = Serial::read("S1").ok()?;
    let key = PackKey { gtin, serial };
    let before = lengths(world);
    let reply = world.ask(party, &key);
    if reply != Reply::Refused(Refusal::Memory) {
        return Some(reply);
    }
    if lengths(world) != before {
        return None;
    }
    Some(world.ask(party, &key))
}

/// Whether nothing is under way from party 1 to party 0.
fn is_idle(world: &World) -> bool {
    world.is_party(0) && world.is_party(1) && world.frame_number(1, 0, 0).is_none()
}

/// Whether a party asks once, for whose second query there is no room on the uplink, and one that is none does not.
fn fills_uplink(world: &mut World) -> bool {
    world.limits().uplink() == 1
        && is_idle(world)
        && asked_at_last(world, 1) == Some(Reply::Asked { q: 1 })
        && asked_at_last(world, 1) == Some(Reply::Refused(Refusal::UplinkFull))
        && asked_at_last(world, 9) == Some(Reply::Refused(Refusal::Party))
}

#[test]
fn asks_no_more_than_the_uplink_takes(rt: HostRuntime) -> Result<(), Fail> {
    let mut world = opened_at_last(rt.alloc(), 1, 1000).ok_or("a system")?;
    let filled = fills_uplink(&mut world);
    drop(world);
    assert!(rt; filled);
    Ok(())
}

/// Whether a party asks once that may submit no more.
fn fills_submissions(world: &mut World) -> bool {
    asked_at_last(world, 1) == Some(Reply::Asked { q: 1 })
        && asked_at_last(world, 1) == Some(Reply::Refused(Refusal::SenderFull))
}

#[test]
fn asks_no_more_than_the_submissions_allow(rt: HostRuntime) -> Result<(), Fail> {
    let mut world = opened_at_last(rt.alloc(), 8, 1).ok_or("a system")?;
    let filled = fills_submissions(&mut world);
    drop(world);
    assert!(rt; filled);
    Ok(())
}
