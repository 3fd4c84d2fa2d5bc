//! What decides one pack, lent from a repository, and whether two have the same.

ghost use Rattle.std.specs.Prelude.{◌≡◌, ◌↔◌};
ghost use Rattle.mv_repository.specs.Clauses.{IsTrue, YieldsFirstRef, as_sent, entry_at, entry_of, history_at, item_count, map, option_and_then, option_copied, option_map, sent_of, sent_status, slice_get};

use crate::LogEntry;
use crate::entry::is_before;
use mv_link::Item;
use mv_message::laws::messages_are_equal;
use mv_message::{Message, Party};
use std::marker::Model;

/// The places of what decides a pack, in their log.
#[derive(Clone, Copy)]
pub(crate) struct Places<'a> {
    /// The log.
    pub log: &'a [LogEntry],
    /// The first upload that names the pack.
    pub upload: Option<u32>,
    /// The statuses, in the order of stamps.
    pub statuses: &'a [u32],
    /// The first recall of the pack's batch.
    pub recall: Option<u32>,
    /// The first withdrawal of the pack's product.
    pub withdrawal: Option<u32>,
}

impl<'a> Places<'a> {
    /// The entry at a place, if there is one.
    fn entry(&self, place: Option<u32>) -> Option<&'a LogEntry>
        ensures { option_copied result ≡ option_and_then (slice_get self.now.log.now) place }
    {
        match place {
            Some(place) => self.log.get(place as usize),
            None => None,
        }
    }
}

/// The sender, the stamp and the message of the entry at a place, if there is one; none of a receipt.
fn sent_at(log: &[LogEntry], place: Option<u32>) -> Option<(Party, u32, &Message)>
    ensures { option_map (λ sent. record { sender = sent.0; stamp = sent.1; message = sent.2.now }) result
        ≡ option_and_then sent_of (option_map (entry_at log.now) place) }
{
    if let Some(place) = place
        && let Some(entry) = log.get(place as usize)
        && let Item::Carried { stamp, message, .. } = &entry.item
    {
        return Some((entry.sender, *stamp, message.get()));
    }
    None
}

/// Whether the same was sent by the entries at two places, if there are any.
fn is_same_sent(
    one: &Places<'_>,
    mine: Option<u32>,
    other: &Places<'_>,
    theirs: Option<u32>,
) -> bool
    ensures { IsTrue result ↔ (option_and_then sent_of (option_map (entry_at one.now.log.now) mine)
        ≡ option_and_then sent_of (option_map (entry_at other.now.log.now) theirs)) }
{
    let theirs = sent_at(other.log, theirs);
    let Some((sender, stamp, message)) = sent_at(one.log, mine) else {
        return theirs.is_none();
    };
    let Some((other_sender, other_stamp, other_message)) = theirs else {
        return false;
    };
    // By `&`, so that no way out between the two has to be proved.
    (sender == other_sender) & (stamp == other_stamp) && messages_are_equal(message, other_message)
}

/// Whether two statuses were sent alike, and stand alike behind the upload, the recall and the withdrawal.
fn is_same_status(one: &Places<'_>, mine: u32, other: &Places<'_>, theirs: u32) -> bool
    ensures { IsTrue result ↔ (sent_status (history_at one.now) (entry_at one.now.log.now mine)
        ≡ sent_status (history_at other.now) (entry_at other.now.log.now theirs)) }
{
    let is_uploaded = is_before(one.log, one.upload, mine);
    let is_recalled = is_before(one.log, one.recall, mine);
    let is_withdrawn = is_before(one.log, one.withdrawal, mine);
    // By `&`, as above. Where two statuses differ, nothing more is compared.
    (is_uploaded == is_before(other.log, other.upload, theirs))
        & (is_recalled == is_before(other.log, other.recall, theirs))
        & (is_withdrawn == is_before(other.log, other.withdrawal, theirs))
        & is_same_sent(one, Some(mine), other, Some(theirs))
}

/// Whether two packs have the same statuses, one after another: each was sent alike, and stands alike behind the upload, the recall
/// and the withdrawal.
fn have_same_statuses(one: &Places<'_>, other: &Places<'_>) -> bool
    ensures { IsTrue result ↔ (map (sent_status (history_at one.now)) (history_at one.now).statuses
        ≡ map (sent_status (history_at other.now)) (history_at other.now).statuses) }
{
    if one.statuses.len() != other.statuses.len() {
        return false;
    }
    for index in 0..one.statuses.len() {
        if !is_same_status(one, one.statuses[index], other, other.statuses[index]) {
            return false;
        }
    }
    true
}

/// What decides a pack: the first upload that names it, its statuses, the first recall of its batch and the first withdrawal
/// of its product, the first by stamp. It goes by tables, and looks through no log.
#[derive(Drop)]
pub struct History<'a> {
    /// Where in the log each stands.
    pub(crate) places: Places<'a>,
}

impl<'a> Model for History<'a> {
    ghost use Rattle.mv_repository.specs.Clauses.{AreAt, PackHistory, history_at};

    ghost Value = { PackHistory };

    ghost view = { λ a. history_at a.places };

    ghost invariant = { λ a. AreAt a.places.log.now (history_at a.places) };
}

impl<'a> History<'a> {
    /// The first upload that names the pack; none where it is not held.
    pub fn upload(&self) -> Option<&'a LogEntry>
        ensures { option_copied result ≡ option_map entry_of self.now.upload }
    {
        self.places.entry(self.places.upload)
    }

    /// The statuses of the pack, in the order of stamps.
    pub fn statuses(&self) -> Statuses<'a>
        ensures { result ≡ map entry_of self.now.statuses }
    {
        Statuses {
            log: self.places.log,
            statuses: self.places.statuses,
        }
    }

    /// The first recall of the pack's batch. There is none where the pack is not held.
    pub fn recall(&self) -> Option<&'a LogEntry>
        ensures { option_copied result ≡ option_map entry_of self.now.recall }
    {
        self.places.entry(self.places.recall)
    }

    /// The first withdrawal of the pack's product.
    pub fn withdrawal(&self) -> Option<&'a LogEntry>
        ensures { option_copied result ≡ option_map entry_of self.now.withdrawal }
    {
        self.places.entry(self.places.withdrawal)
    }

    /// Whether two histories are the same: what decides the packs was sent alike, and each status stands alike behind the
    /// upload, the recall and the withdrawal.
    pub fn is_same(&self, other: &History<'_>) -> bool
        ensures { IsTrue result ↔ (as_sent self.now ≡ as_sent other.now) }
    {
        let one = &self.places;
        let other = &other.places;
        is_same_sent(one, one.upload, other, other.upload)
            && have_same_statuses(one, other)
            && is_same_sent(one, one.recall, other, other.recall)
            && is_same_sent(one, one.withdrawal, other, other.withdrawal)
    }
}

/// The statuses of a pack, in the order of stamps; contracts see those that are still to come.
#[derive(Drop)]
pub struct Statuses<'a> {
    /// The log.
    log: &'a [LogEntry],
    /// Where in it those stand that are still to come.
    statuses: &'a [u32],
}

impl<'a> Model for Statuses<'a> {
    ghost use Rattle.mv_repository.specs.Clauses.{AllByRecursion, AnEntry, IsAt, List, entry_at, entry_of, map};

    ghost Value = { List AnEntry };

    ghost view = { λ it. map entry_of (map (entry_at it.log.now) it.statuses.now) };

    ghost invariant = { λ it. AllByRecursion (IsAt it.log.now) (map (entry_at it.log.now) it.statuses.now) };
}

impl<'a> Iterator for Statuses<'a> {
    type Item = &'a LogEntry;

    ghost next_gives = { YieldsFirstRef (λ it. it) };

    ghost remaining = { item_count (λ it. it) };

    fn next(&mut self) -> Option<&'a LogEntry> {
        if let Some((place, rest)) = self.statuses.split_first() {
            self.statuses = rest;
            return self.log.get(*place as usize);
        }
        None
    }
}
