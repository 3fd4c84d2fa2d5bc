//! The lists of a system: what each party submitted, the record, the frames of each link, and what lies on the wires.

use crate::items::write_item;
use crate::page::Page;
use mv_hub::{Entry, Hub, HubFault};
use mv_link::Frame;
use mv_machine::{Reply, Step, WIRE_LIMIT};
use mv_message::{Message, Party, Shared};
use mv_system::World;

/// Writes what each party submitted, the record, and the frames of each link.
pub(crate) fn write_lists(page: &mut Page, world: &World) {
    for party in 0..world.hub().parties().len() {
        if world.is_party(party) {
            write_submissions(page, party, world.sub(party));
        }
    }
    write_record(page, world.record());
    write_links(page, world.hub())
}

/// Writes what a party submitted, its first message first.
fn write_submissions(page: &mut Page, party: Party, messages: &[Shared<Message>]) {
    for place in 0..messages.len() {
        write_submission(page, party, place + 1, messages[place].get());
    }
}

/// Writes the message of this number that a party submitted.
fn write_submission(page: &mut Page, party: Party, number: usize, message: &Message) {
    page.begin_object();
    page.message("message", message);
    page.number("party", u64::from(party));
    page.number("submitted", number as u64);
    page.end_object_and_line()
}

/// Writes the record, its first entry first.
fn write_record(page: &mut Page, record: &[Entry]) {
    for place in 0..record.len() {
        write_entry(page, place + 1, &record[place]);
    }
}

/// Writes an entry of the record, by its place, which is counted from 1 as stamps are.
fn write_entry(page: &mut Page, place: usize, entry: &Entry) {
    match entry {
        Entry::Routed { from, k, message } => write_routed(page, place, *from, *k, message.get()),
        Entry::Closed { from, to } => write_closed(page, place, *from, *to),
    }
}

/// Writes a routing.
fn write_routed(page: &mut Page, place: usize, from: Party, k: u32, message: &Message) {
    page.begin_object();
    page.number("from", u64::from(from));
    page.number("k", u64::from(k));
    page.message("message", message);
    page.number("record", place as u64);
    page.end_object_and_line()
}

/// Writes a closing.
fn write_closed(page: &mut Page, place: usize, from: Party, to: Party) {
    page.begin_object();
    page.number("from", u64::from(from));
    page.number("record", place as u64);
    page.number("to", u64::from(to));
    page.end_object_and_line()
}

/// Writes the frames of each link.
fn write_links(page: &mut Page, hub: &Hub) {
    let count = hub.parties().len();
    for from in 0..count {
        for to in 0..count {
            let total = hub.total(from, to);
            write_link(page, hub, from, to, total);
        }
    }
}

/// Writes the frames of a link, so many.
fn write_link(page: &mut Page, hub: &Hub, from: Party, to: Party, total: u32) {
    for place in 0..total {
        write_frame(page, hub, from, to, place + 1);
    }
}

/// Writes a frame of a link by its number, or why it cannot be repeated: it was not relayed, or is kept no longer.
fn write_frame(page: &mut Page, hub: &Hub, from: Party, to: Party, number: u32) {
    page.begin_object();
    page.number("frame", u64::from(number));
    page.number("from", u64::from(from));
    write_repeated(page, &hub.repeat(from, to, number));
    page.number("to", u64::from(to));
    page.end_object_and_line()
}

/// Writes what a frame carries, or why it cannot be repeated.
fn write_repeated(page: &mut Page, repeated: &Result<Frame, HubFault>) {
    match repeated {
        Ok(frame) => write_item(page, "item", &frame.item),
        Err(fault) => page.text("item", fault.code()),
    }
}

/// Writes what lies on each wire, the front frame first, and loses it.
pub(crate) fn write_wires(page: &mut Page, world: &mut World) {
    let count = world.hub().parties().len();
    for from in 0..count {
        for to in 0..count {
            write_wire(page, world, from, to);
        }
    }
}

/// Writes what lies on a wire, and loses it.
fn write_wire(page: &mut Page, world: &mut World, from: Party, to: Party) {
    for _ in 0..WIRE_LIMIT {
        let Some(number) = lost(world, from, to) else {
            return;
        };
        write_lost(page, from, to, number);
    }
}

/// The number of the front frame of a wire, which is lost; none where the wire is empty.
fn lost(world: &mut World, from: Party, to: Party) -> Option<u32> {
    match world.step(&Step::Lose { from, to }) {
        Reply::Lost { number } => Some(number),
        _ => None,
    }
}

/// Writes a frame that lay on a wire, by its number.
fn write_lost(page: &mut Page, from: Party, to: Party, number: u32) {
    page.begin_object();
    page.number("from", u64::from(from));
    page.number("to", u64::from(to));
    page.number("wire", u64::from(number));
    page.end_object_and_line()
}
