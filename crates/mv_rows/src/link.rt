//! Links: what is pushed, relayed, repeated and accepted.

use mv_link::{Frame, Incoming, Item, LinkFault, Look, Outgoing, PartySet, Reached};
use std::alloc::{AllocError, Global};

fn receipt(k: u32) -> Item {
    Item::Receipt {
        k,
        reach: Reached::of(PartySet::none()),
        query: false,
    }
}

/// The number of a frame whose item has the same number, else 0.
fn number_of(relayed: Result<Frame, LinkFault>) -> u32 {
    match relayed {
        Ok(
            Frame {
                number,
                item: Item::Receipt { k, .. },
            },
        ) => { if k == number { number } else { 0 } }
        _ => 0,
    }
}

/// The number of the message that the next item of a link is a receipt of, else 0.
fn number_of_next(link: &Outgoing) -> u32 {
    match link.next() {
        Some(Item::Receipt { k, .. }) => *k,
        _ => 0,
    }
}

/// Pushes an item where there is room for it.
fn push(link: &mut Outgoing, k: u32) -> bool {
    link.room(1) && link.push(receipt(k)).is_ok()
}

/// A link with a window of two, on which three items were pushed and relayed.
fn relayed(alloc: Global) -> Option<Outgoing> {
    let mut link = Outgoing::new(alloc, 2).ok()?;
    for k in 1..=3 {
        if !push(&mut link, k) || number_of(link.relay()) != k {
            return None;
        }
    }
    Some(link)
}

/// The number of the fault by which the frame of a number is refused.
fn refusal(link: &Outgoing, number: u32) -> &'static str {
    match link.again(number) {
        Ok(_) => "none",
        Err(fault) => fault.code(),
    }
}

#[test]
fn takes_no_item_into_a_full_window(rt: HostRuntime) -> Result<(), AllocError> {
    let mut link = Outgoing::new(rt.alloc(), 2)?;
    assert!(rt; push(&mut link, 1));
    assert!(rt; push(&mut link, 2));
    assert!(rt; !push(&mut link, 3));
    assert!(rt; number_of_next(&link) == 1);
    assert!(rt; number_of(link.relay()) == 1);
    assert!(rt; push(&mut link, 3));
    assert!(rt; link.total() == 3);
    assert!(rt; link.sent() == 1);
    Ok(())
}

#[test]
fn gives_again_the_frames_of_its_window_alone(rt: HostRuntime) {
    let Some(mut link) = relayed(rt.alloc()) else {
        assert!(rt; false, "memory is refused");
        return;
    };
    assert!(rt; refusal(&link, 0) == "L2");
    assert!(rt; refusal(&link, 1) == "L3");
    assert!(rt; number_of(link.again(2)) == 2);
    assert!(rt; number_of(link.again(3)) == 3);
    assert!(rt; refusal(&link, 4) == "L2");
    assert!(rt; matches!(link.relay(), Err(LinkFault::Nothing)));
    assert!(rt; link.next().is_none());
}

#[test]
fn numbers_its_faults(rt: HostRuntime) {
    assert!(rt; LinkFault::Nothing.code() == "L1");
    assert!(rt; LinkFault::Memory.code() == "L4");
}

#[test]
fn takes_each_frame_once_and_in_order(rt: HostRuntime) {
    let first = Frame {
        number: 1,
        item: receipt(1),
    };
    let second = Frame {
        number: 2,
        item: receipt(2),
    };
    let mut end = Incoming::new();
    assert!(rt; end.look(&second) == Look::Gap { expected: 1 });
    assert!(rt; end.look(&first) == Look::Next);
    assert!(rt; end.count() == 0);
    end.advance();
    assert!(rt; end.count() == 1);
    assert!(rt; end.look(&first) == Look::Old);
    assert!(rt; end.look(&second) == Look::Next);
}

#[test]
fn copies_a_frame(rt: HostRuntime) {
    let frame = Frame {
        number: 9,
        item: Item::Receipt {
            k: 7,
            reach: Reached::of(PartySet::none().with(3)),
            query: true,
        },
    };
    let copied = frame.copy();
    assert!(rt; copied == Ok(frame));
}

/// Whether a set has these parties alone.
fn has_alone(set: PartySet, parties: &[u32]) -> bool {
    Reached::of(set).to_reach().as_slice() == parties
}

#[test]
fn keeps_the_parties_of_a_reach(rt: HostRuntime) {
    let set = PartySet::none().with(63).with(3).with(5).without(5);
    let others = PartySet::none().with(0).with(3);
    assert!(rt; has_alone(set, &[3, 63]));
    assert!(rt; Reached::of(set) == Reached::of(PartySet::none().with(3).with(63)));
    assert!(rt; Reached::of(set) != Reached::of(PartySet::none().with(3)));
    assert!(rt; set.has(63) && !set.has(62));
    assert!(rt; has_alone(set.or(others), &[0, 3, 63]));
    assert!(rt; has_alone(set.and(others), &[3]));
    assert!(rt; PartySet::all().to_reach().as_slice().len() == 64);
}
