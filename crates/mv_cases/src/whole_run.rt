//! Steps that are taken by one call.

use crate::asking::asked_at_last;
use crate::message::message_of;
use crate::system::{lengths, opened_at_last};
use mv_machine::{Refusal, Reply, Step};
use mv_repository::{Counts, Effect};
use mv_system::World;
use std::alloc::Global;
use std::test::Fail;

/// The master of a product for Finland.
const MASTER: &str =
    "{\"common\":\"paracetamol\",\"form\":\"tablet\",\"gtin\":\"09506000134352\",\"markets\":[\"FI\"],\"msg\":\"master\",\"name\":\"Examplin\",\"pack_size\":\"30\",\"pack_type\":\"blister\",\"scheme\":\"GTIN\",\"strength\":\"500 mg\"}";

/// The upload of a pack of the product.
const UPLOAD: &str =
    "{\"batch\":\"B1\",\"expiry\":\"280200\",\"gtin\":\"09506000134352\",\"msg\":\"upload\",\"serials\":[\"S1\"]}";

/// A message of party 0, from its text.
fn submission(alloc: Global, text: &str) -> Option<Step> {
    let message = message_of(alloc, text)?;
    Some(Step::Submit { from: 0, message })
}

/// Party 0 submits the master and the upload, and both go to Finland's repository; none where memory was refused.
fn steps(alloc: Global) -> Option<Vec<Step>> {
    let master = submission(alloc, MASTER)?;
    let upload = submission(alloc, UPLOAD)?;
    let mut steps = Vec::with_capacity(alloc, 8).ok()?;
    steps.push_reserved(master);
    steps.push_reserved(upload);
    steps.push_reserved(Step::Route { from: 0 });
    steps.push_reserved(Step::Route { from: 0 });
    steps.push_reserved(Step::Relay { from: 0, to: 1 });
    steps.push_reserved(Step::Relay { from: 0, to: 1 });
    steps.push_reserved(Step::Apply { from: 0, to: 1 });
    steps.push_reserved(Step::Apply { from: 0, to: 1 });
    Some(steps)
}

/// These steps, made again where memory was refused once.
fn steps_at_last(alloc: Global) -> Option<Vec<Step>> {
    match steps(alloc) {
        Some(steps) => Some(steps),
        None => steps(alloc),
    }
}

/// The replies to steps. Where memory was refused to the run nothing has changed, and the steps are taken again.
fn replies_at_last(world: &mut World, steps: &[Step]) -> Option<Vec<Reply>> {
    match world.run(steps) {
        Ok(replies) => Some(replies),
        Err(_) => {
            if lengths(world) != [0; 5] {
                return None;
            }
            world.run(steps).ok()
        }
    }
}

/// Whether a message was routed to Finland's party alone.
fn is_routed(reply: &Reply, number: u32) -> bool {
    match reply {
        Reply::Routed { k, reach } => *k == number && reach.to_reach().as_slice() == [1].as_slice(),
        _ => false,
    }
}

/// Whether a frame was applied with this effect.
fn is_applied(reply: &Reply, frame: u32, wanted: Effect) -> bool {
    match reply {
        Reply::Applied {
            number,
            effect,
            answer,
        } => *number == frame && *effect == wanted && answer.is_none(),
        _ => false,
    }
}

/// Whether these are the replies to the steps.
fn are_right(replies: &[Reply]) -> bool {
    match replies {
        [first, second, third, fourth, fifth, sixth, seventh, eighth] => {
            *first == Reply::Submitted { k: 1 }
                && *second == Reply::Submitted { k: 2 }
                && is_routed(third, 1)
                && is_routed(fourth, 2)
                && *fifth == Reply::Relayed { number: 1 }
                && *sixth == Reply::Relayed { number: 2 }
                && is_applied(seventh, 1, Effect::Done)
                && is_applied(eighth, 2, Effect::Uploaded { new: 1, old: 0 })
        }
        _ => false,
    }
}

/// Whether the system shows what the steps did.
fn is_done(world: &World) -> bool {
    let counts = Counts {
        entries: 2,
        products: 1,
        packs: 1,
        active: 1,
        recalled: 0,
    };
    world.is_party(1)
        && lengths(world) == [2, 2, 0, 0, 2]
        && world.repository(1).counts() == counts
        && world.hub().record().len() == 2
}

/// The place of the first step to which memory was refused.
fn refused_place(replies: &[Reply]) -> Option<usize> {
    for place in 0..replies.len() {
        if replies[place] == Reply::Refused(Refusal::Memory) {
            return Some(place);
        }
    }
    None
}

/// Whether steps, taken by one call in a system, get these replies.
fn are_replies(world: &mut World, steps: &[Step], replies: &[Reply]) -> bool {
    match world.run(steps) {
        Ok(found) => found.as_slice() == replies,
        Err(_) => false,
    }
}

/// Whether all came as it comes in a new system where the step at that place is left out: refused, it has changed nothing.
fn is_left_out(
    world: &World,
    alloc: Global,
    steps: &[Step],
    replies: &[Reply],
    place: usize,
) -> bool {
    if place >= steps.len() || place >= replies.len() {
        return false;
    }
    match opened_at_last(alloc, 8, 1000) {
        Some(mut other) => {
            let first = are_replies(&mut other, &steps[..place], &replies[..place]);
            let rest = are_replies(&mut other, &steps[place + 1..], &replies[place + 1..]);
            let found = lengths(&other);
            drop(other);
            first && rest && found == lengths(world)
        }
        None => false,
    }
}

/// Whether the replies are right and the system is as it should be, or memory was refused to a step, which changed nothing.
fn is_right(world: &World, alloc: Global, steps: &[Step], replies: &[Reply]) -> bool {
    match refused_place(replies) {
        Some(place) => is_left_out(world, alloc, steps, replies, place),
        None => are_right(replies) && is_done(world),
    }
}

/// Whether the steps, taken by one call, do what they should.
fn is_run(world: &mut World, alloc: Global) -> bool {
    let Some(steps) = steps_at_last(alloc) else {
        return false;
    };
    match replies_at_last(world, steps.as_slice()) {
        Some(replies) => is_right(world, alloc, steps.as_slice(), replies.as_slice()),
        None => false,
    }
}

#[test]
fn takes_steps_by_one_call(rt: HostRuntime) -> Result<(), Fail> {
    let mut world = opened_at_last(rt.alloc(), 8, 1000).ok_or("a system")?;
    let run = is_run(&mut world, rt.alloc());
    // The pack is held by Finland's repository, and asked about elsewhere all the same.
    let asked = asked_at_last(&mut world, 1) == Some(Reply::Asked { q: 1 });
    drop(world);
    assert!(rt; run);
    assert!(rt; asked);
    Ok(())
}
