//! What is kept of each pack of one product, by serial numbers alone. This file knows no other product.

ghost use Rattle.std.specs.Prelude.{◌≡◌, ◌<◌, ◌≤◌, ◌+◌, ◌==◌, ◌++◌, ◌∷◌};
ghost use Rattle.mv_repository.specs.Clauses.{AreShelfOf, AreSlots, AreStopsOf, IfOk, IsNamed, IsOfProduct, IsPut, IsRefreshed, IsSpot, IfSome, List, lists, made_batch, message_in, option_and_then, option_map_or, OnErr, OnOk, Some, Writes, [], bytes_eq, comes_first, newest_effect, entry_at, filter, get_or, is_some, is_status_of, is_stop, kept_by, kept_in, length, list_any, no_shelf, no_slot, nothing_kept, serial_of, serials_uploaded, shelf_by, slice_get, stopped_product, stops_in, take, false, true, ℕ};

use crate::entry::comes_first;
use crate::listing::Listing;
use crate::slots::{Slot, Spot, serial_of};
use crate::state::Newest;
use crate::stops::Stop;
use crate::track::Track;
use crate::{Effect, LogEntry};
use indexmap::IndexMap;
use mv_index::{HashIndex, hash_of};
use mv_message::Message;
use mv_pack::{Gtin, PackKey, Serial};
use std::alloc::{AllocError, Global};
use std::marker::Model;

/// Works out again the track of a number, where there is one.
fn refresh_track(tracks: &mut Vec<Track>, newest: &Newest<'_>, gtin: &Gtin, number: usize)
    ensures count { length tracks.new.items ≡ length tracks.old.items }
    ensures tracks { (other : ℕ) → IsRefreshed newest.now.log.now (stops_in newest.now.log.now newest.now.stops.now) gtin.now (other == number)
        (get_or tracks.old.items other nothing_kept) (get_or tracks.new.items other nothing_kept) }
{
    if let Some(track) = tracks.get_mut(number) {
        let birth = track.birth;
        track.refresh(newest, gtin, birth);
    }
}

/// Works out again the tracks of these numbers.
fn refresh_tracks(tracks: &mut Vec<Track>, newest: &Newest<'_>, gtin: &Gtin, numbers: &[u32])
    ensures count { length tracks.new.items ≡ length tracks.old.items }
    ensures tracks { (other : ℕ) → IsRefreshed newest.now.log.now (stops_in newest.now.log.now newest.now.stops.now) gtin.now (list_any (λ one. other == one) numbers.now)
        (get_or tracks.old.items other nothing_kept) (get_or tracks.new.items other nothing_kept) }
{
    for number in numbers {
        refresh_track(tracks, newest, gtin, *number as usize);
    }
}

/// The most serial numbers that an upload names: where one stands among them takes 16 bits.
const MOST_SERIALS: usize = 1 << 16;

/// What is kept of the packs of a product.
#[derive(Drop)]
pub(crate) struct Shelf {
    /// The numbers of the slots, by the hashes of the serial numbers.
    index: HashIndex,
    /// What stands for each serial number that an upload or a status names, in the order in which each came first.
    pub slots: Vec<Slot>,
    /// The serial numbers of the packs that have a track, by the numbers of these.
    pub names: Vec<Serial>,
    /// The tracks, by their numbers.
    tracks: Vec<Track>,
    /// The numbers of the tracks by batch.
    listing: Listing,
}

impl Model for Shelf {
    ghost use Rattle.std.specs.Prelude.{◌≡◌, ◌-◌, length, min, vec_capacity};
    ghost use Rattle.mv_repository.specs.inside.Shelf.{ShelfParts, listing_of};

    ghost Value = { ShelfParts };

    ghost view = { λ a. record {
      table = record { hashes = a.index.hashes; slots = a.slots.items; names = a.names.items };
      room = min a.index.room (vec_capacity a.slots - length a.slots.items);
      tracks = a.tracks.items;
      listing = listing_of a.listing;
    } };

    ghost invariant = { λ a. (length a.index.hashes ≡ length a.slots.items) × (length a.names.items ≡ length a.tracks.items) };
}

impl Shelf {
    /// No pack.
    pub fn new(alloc: Global) -> Shelf
        ensures { result ≡ no_shelf }
    {
        Shelf {
            index: HashIndex::new(alloc),
            slots: Vec::new(alloc),
            names: Vec::new(alloc),
            tracks: Vec::new(alloc),
            listing: Listing {
                alloc,
                batches: IndexMap::new(alloc),
                is_whole: true,
            },
        }
    }

    /// Where a serial number stands.
    #[inline(always)]
    pub fn find(&self, log: &[LogEntry], serial: &Serial) -> Spot
        requires { AreSlots log.now self.now.table }
        ensures { IsSpot log.now self.now.table serial.now result }
    {
        let hash = hash_of(serial);
        let slots = self.slots.as_slice();
        let names = self.names.as_slice();
        let is_it = |number: usize| -> bool
            requires within { number < length slots.now }
            requires named { IsNamed log.now names.now (get_or slots.now number no_slot) }
            ensures { result ≡ bytes_eq (serial_of log.entry.now names.entry.now (get_or slots.entry.now number no_slot)) serial.entry.now }
        { serial_of(log, names, slots[number]) == serial };
        let (number, slot) = match self.index.find(hash, is_it) {
            Some(number) => (number, Some(slots[number])),
            None => (slots.len(), None),
        };
        Spot { hash, number, slot }
    }

    /// What is kept of the pack that a slot stands for: the place of its first upload, its statuses, and the entry by which it
    /// stands.
    pub fn kept(&self, slot: Option<Slot>) -> (Option<u32>, &[u32], u32)
        ensures { record { birth = result.0; statuses = result.1.now; by = result.2; blocks = [] } ≡ record (kept_by self.now.tracks slot) { blocks = [] } }
    {
        match slot {
            Some(Slot::Made { place, .. }) => (Some(place), &[], place),
            Some(Slot::Own(number)) => match self.tracks.get(number as usize) {
                Some(track) => (track.birth, track.statuses.as_slice(), track.by),
                None => (None, &[], 0),
            },
            None => (None, &[], 0),
        }
    }

    /// How many packs of the product are held, and how many of these are active: those that stand by their uploads.
    pub fn count(&self) -> (usize, usize)
        ensures held { result.0 ≡ length (filter (λ slot. is_some (kept_by self.now.tracks (Some slot)).birth) self.now.table.slots) }
        ensures active { result.1 ≡ length (filter (λ slot. option_map_or (λ birth. birth == (kept_by self.now.tracks (Some slot)).by) (kept_by self.now.tracks (Some slot)).birth false) self.now.table.slots) }
    {
        let (mut held, mut active) = (0, 0);
        for slot in self.slots.as_slice() {
            let (birth, _, by) = self.kept(Some(*slot));
            if let Some(birth) = birth {
                held += 1;
                if birth == by {
                    active += 1;
                }
            }
        }
        (held, active)
    }

    /// Writes the slot of a pack where its serial number stands, or behind all.
    fn put(&mut self, spot: Spot, slot: Slot)
        requires room { 0 < self.old.room }
        ensures others { self.new ≡ record self.old { table = self.new.table; room = self.new.room } }
        ensures written { Writes spot slot self.old.table self.new.table }
        ensures room { self.old.room ≤ self.new.room + 1 }
    {
        if spot.number < self.slots.len() {
            self.slots[spot.number] = slot;
        } else {
            self.index.push(spot.hash);
            self.slots.push_reserved(slot);
        }
    }

    /// Adds the newest entry, an upload, to what is kept of the pack that it names at a place; whether it is the first such by stamp. Where
    /// it is, the pack's track is listed under its batch.
    fn put_upload(&mut self, newest: &Newest<'_>, gtin: &Gtin, serial: &Serial, index: u16) -> bool
        requires room { 0 < self.old.room }
        requires named { slice_get (serials_uploaded (entry_at newest.now.log.now newest.now.place).entry.item) index ≡ Some serial.now }
        requires slots { AreSlots newest.now.log.now self.old.table }
        ensures room { self.old.room ≤ self.new.room + 1 }
        ensures slots { AreSlots newest.now.log.now self.new.table }
        ensures put { IsPut newest.now.log.now (stops_in newest.now.log.now newest.now.stops.now) gtin.now newest.now.place serial.now
            (shelf_by newest.now.log.now self.old) (shelf_by newest.now.log.now self.new) }
        ensures first { result ≡ comes_first newest.now.log.now newest.now.place (kept_in (shelf_by newest.now.log.now self.old) serial.now).birth }
    {
        let spot = self.find(newest.log, serial);
        let (birth, _, _) = self.kept(spot.slot);
        if !comes_first(newest.log, newest.place, birth) {
            return false;
        }
        let Some(Slot::Own(number)) = spot.slot else {
            let place = newest.place;
            self.put(spot, Slot::Made { index, place });
            return true;
        };
        self.tracks[number as usize].refresh(newest, gtin, Some(newest.place));
        self.listing.note(newest.log, Some(newest.place), number);
        true
    }

    /// Adds the newest entry, which carries an upload or a status of packs of the product; its effect where it stands. Where memory is
    /// refused nothing has changed; for an upload of more than 2^16 serial numbers there is want of memory.
    pub fn add(
        &mut self,
        newest: &Newest<'_>,
        gtin: &Gtin,
        message: &Message,
    ) -> Result<Effect, AllocError>
        requires stops { AreStopsOf (take newest.now.place newest.now.log.now) newest.now.stops.now }
        requires message { message_in (entry_at newest.now.log.now newest.now.place).entry.item ≡ Some message.now }
        requires product { IsOfProduct gtin.now message.now }
        requires shelf { AreShelfOf (take newest.now.place newest.now.log.now) gtin.now self.old }
        ensures ok { OnOk result (AreShelfOf newest.now.log.now gtin.now self.new) }
        ensures few { OnOk result (length (serials_uploaded (entry_at newest.now.log.now newest.now.place).entry.item) ≤ MOST_SERIALS) }
        ensures effect { IfOk result (λ effect. effect ≡ newest_effect newest.now.log.now newest.now.place) }
        ensures err { OnErr result (AreShelfOf (take newest.now.place newest.now.log.now) gtin.now self.new) }
    {
        let serials = match message {
            Message::Upload { serials, .. } => serials.as_slice(),
            Message::Status { key, .. } => return self.add_status(newest, key),
            _ => unreachable!(),
        };
        if serials.len() > MOST_SERIALS {
            return Err(AllocError);
        }
        let more = serials.len();
        self.index.reserve(more).and(self.slots.reserve(more))?;
        self.index.touch(serials);
        // All room is got: nothing fails from here on. A track that finds no memory to be listed by makes the listing not whole.
        let mut new = 0;
        for index in 0..serials.len() {
            let is_first = self.put_upload(newest, gtin, &serials[index], index as u16);
            new = if is_first { new + 1 } else { new };
        }
        Ok(Effect::Uploaded {
            new: new as u64,
            old: (serials.len() - new) as u64,
        })
    }

    /// Puts the track of one more pack behind all, lists it under the batch of its upload, and gets room for one more slot; the number of the
    /// track. Where memory is refused all is kept as it was; beyond 2^32 packs with a status there is want of memory.
    fn push(&mut self, log: &[LogEntry], serial: &Serial, track: Track) -> Result<u32, AllocError>
        ensures pushed { IfOk result (λ number. (number ≡ length self.old.table.names) × (0 < self.new.room)
            × (self.new.table ≡ record self.old.table { names = self.old.table.names ++ serial.now ∷ [] }) × (self.new.tracks ≡ self.old.tracks ++ track ∷ [])) }
        ensures listed { IfOk result (λ number. IfSome (option_and_then (λ place. made_batch (entry_at log.now place)) track.birth) (λ batch. lists self.new.listing batch number ≡ true)
            × ((batch : List ℕ) (other : ℕ) → lists self.old.listing batch other ≡ true → lists self.new.listing batch other ≡ true)) }
        ensures err { OnErr result (self.new ≡ record self.old { room = self.new.room }) }
    {
        let names = self.names.reserve(1).and(self.tracks.reserve(1));
        let room = self.index.reserve(1).and(self.slots.reserve(1)).and(names);
        let number = room.and(u32::try_from(self.names.len()).or(Err(AllocError)))?;
        // All room is got: nothing fails from here on.
        self.listing.note(log, track.birth, number);
        self.names.push_reserved(serial.copy());
        self.tracks.push_reserved(track);
        Ok(number)
    }

    /// Adds the newest entry, a status of a pack of the product; its effect where it stands. Where memory is refused nothing
    /// has changed; beyond 2^32 packs with a status there is want of memory.
    fn add_status(&mut self, newest: &Newest<'_>, pack: &PackKey) -> Result<Effect, AllocError>
        requires stops { AreStopsOf (take newest.now.place newest.now.log.now) newest.now.stops.now }
        requires own { is_status_of pack.now (entry_at newest.now.log.now newest.now.place).entry.item ≡ true }
        requires shelf { AreShelfOf (take newest.now.place newest.now.log.now) pack.now.gtin self.old }
        ensures ok { OnOk result (AreShelfOf newest.now.log.now pack.now.gtin self.new) }
        ensures effect { IfOk result (λ effect. effect ≡ newest_effect newest.now.log.now newest.now.place) }
        ensures err { OnErr result (AreShelfOf (take newest.now.place newest.now.log.now) pack.now.gtin self.new) }
    {
        let spot = self.find(newest.log, &pack.serial);
        if let Some(Slot::Own(number)) = spot.slot {
            return self.tracks[number as usize].add_status(newest, pack);
        }
        let (birth, _, by) = self.kept(spot.slot);
        let mut track = Track {
            birth,
            statuses: Vec::new(self.listing.alloc),
            by,
            blocks: Vec::new(self.listing.alloc),
        };
        let effect = track.add_status(newest, pack)?;
        let number = self.push(newest.log, &pack.serial, track)?;
        self.put(spot, Slot::Own(number));
        Ok(effect)
    }

    /// Works out again the packs that may be stopped by the newest entry, which stops packs of the product.
    pub fn refresh(&mut self, newest: &Newest<'_>, stop: &Stop<'_>)
        requires stops { AreStopsOf newest.now.log.now newest.now.stops.now }
        requires stop { is_stop stop.now (entry_at newest.now.log.now newest.now.place).entry.item ≡ true }
        requires shelf { AreShelfOf (take newest.now.place newest.now.log.now) (stopped_product stop.now) self.old }
        ensures { AreShelfOf newest.now.log.now (stopped_product stop.now) self.new }
    {
        let gtin = stop.gtin();
        let tracks = &mut self.tracks;
        if let Stop::OfBatch(key) = *stop
            && self.listing.is_whole
        {
            let Some(numbers) = self.listing.batches.get(&key.batch) else {
                return;
            };
            refresh_tracks(tracks, newest, gtin, numbers.ascending.as_slice());
            refresh_tracks(tracks, newest, gtin, numbers.others.as_slice());
            return;
        }
        for number in 0..tracks.len() {
            refresh_track(tracks, newest, gtin, number);
        }
    }
}
