//! What stands for each pack of a product. A slot does not hold the serial number of its pack, which stands in the log, or among the names of
//! the packs that have a track: so a pack that has no status takes some 20 bytes here.

ghost use Rattle.std.specs.Prelude.{◌≡◌};
ghost use Rattle.mv_repository.specs.Clauses.{IsNamed, YieldsFirstRef, item_count, serial_of};

use crate::LogEntry;
use crate::entry::message_at;
use mv_message::Message;
use mv_pack::Serial;
use std::marker::Model;
use std::mem::size_of;

/// What stands for a pack: the upload that made it, or the number of its track.
#[derive(Clone, Copy)]
pub(crate) enum Slot {
    /// The pack has no status: the place in the log of the first upload that names it, and where that names it.
    Made {
        /// The place among the serial numbers of the upload. It comes first, so that a slot takes 8 bytes.
        index: u16,
        /// The place in the log.
        place: u32,
    },
    /// The number of its track.
    Own(u32),
}

// Each pack of each repository has one.
const _: () = prove!(size_of::<Slot>() <= 8);

/// Where a serial number stands among the slots, or would stand.
#[derive(Clone, Copy)]
pub(crate) struct Spot {
    /// The hash of the serial number.
    pub hash: u32,
    /// The number of its slot; where it has none, the number that the next slot gets.
    pub number: usize,
    /// Its slot, where it has one.
    pub slot: Option<Slot>,
}

/// The serial number of the pack that a slot stands for, which stands in the log, or among those of the packs that have a track.
pub(crate) fn serial_of<'a>(log: &'a [LogEntry], names: &'a [Serial], slot: Slot) -> &'a Serial
    requires { IsNamed log.now names.now slot }
    ensures { result.now ≡ serial_of log.now names.now slot }
{
    match slot {
        Slot::Made { place, index } => match message_at(log, place as usize) {
            Some(Message::Upload { serials, .. }) => &serials.as_slice()[index as usize],
            _ => unreachable!(),
        },
        Slot::Own(number) => &names[number as usize],
    }
}

/// The serial numbers of a product, in the order in which each came first; contracts see those that are still to come.
#[derive(Drop)]
pub struct ProductSerials<'a> {
    /// The log, whose uploads name packs.
    pub(crate) log: &'a [LogEntry],
    /// The serial numbers of the packs that have a track.
    pub(crate) names: &'a [Serial],
    /// The slots of those that are still to come.
    pub(crate) slots: &'a [Slot],
}

impl<'a> Model for ProductSerials<'a> {
    ghost use Rattle.mv_repository.specs.Clauses.{AllByRecursion, IsNamed, List, map, serial_of, ℕ};

    ghost Value = { List (List ℕ) };

    ghost view = { λ it. map (serial_of it.log.now it.names.now) it.slots.now };

    ghost invariant = { λ it. AllByRecursion (IsNamed it.log.now it.names.now) it.slots.now };
}

impl<'a> Iterator for ProductSerials<'a> {
    type Item = &'a Serial;

    ghost next_gives = { YieldsFirstRef (λ it. it) };

    ghost remaining = { item_count (λ it. it) };

    fn next(&mut self) -> Option<&'a Serial> {
        if let Some((slot, rest)) = self.slots.split_first() {
            self.slots = rest;
            return Some(serial_of(self.log, self.names, *slot));
        }
        None
    }
}
