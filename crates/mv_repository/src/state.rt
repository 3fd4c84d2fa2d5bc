//! The one place that decides what a status does: its effect on a pack that stands by an entry of the log, and by which entry
//! the pack stands then.

ghost use Rattle.std.specs.Prelude.{◌≡◌, ◌+◌, length};
ghost use Rattle.mv_repository.specs.Clauses.{change_in, effect_in, entry_at, fold, is_active, next_in, revert_effect, Some, held_of, known_at, message_in, option_map, standing_of};

use crate::entry::{is_before, message_at, sender_at};
use crate::held::REVERT_SECONDS;
use crate::stops::{BatchStanding, Stops};
use crate::{Change, Effect, Held, LogEntry};
use mv_message::{Message, Party, Standing, Text};
use mv_pack::{BatchKey, Expiry, Gtin, Moment};

/// Whether a pack stands active.
pub(crate) fn is_active(standing: Standing) -> bool
    ensures { result ≡ is_active standing }
{
    matches!(standing, Standing::Active)
}

/// How a pack stands that stands by the entry at a place.
pub(crate) fn standing_by(log: &[LogEntry], by: u32) -> Standing
    ensures { result ≡ standing_of (message_in (entry_at log.now by).entry.item) }
{
    match message_at(log, by as usize) {
        Some(Message::Status { to, .. }) => *to,
        _ => Standing::Active,
    }
}

/// What a revert does to a pack that stands by an entry; it has a sender, a user and a moment.
fn revert_effect(
    log: &[LogEntry],
    by: u32,
    expiry: Expiry,
    batch: BatchStanding,
    revert: (Party, &Text, Moment),
) -> Effect
    ensures { result ≡ revert_effect expiry batch (change_in (entry_at log.now by)) revert.entry.0 revert.entry.1.now revert.entry.2 }
{
    let by = by as usize;
    let (sender, reverter, moment) = revert;
    if let Some(Message::Status { user, at, .. }) = message_at(log, by)
        && sender_at(log, by) == sender
        && *user == *reverter
    {
        let changed_at = at.seconds();
        let reverted_at = moment.seconds();
        return if reverted_at < changed_at {
            Effect::TooEarly
        } else if changed_at + REVERT_SECONDS < reverted_at {
            Effect::TooLate
        } else if expiry.expired_at(moment) {
            Effect::Expired
        } else if batch.recalled {
            Effect::Recalled
        } else if batch.withdrawn {
            Effect::Withdrawn
        } else {
            Effect::Done
        };
    }
    Effect::OtherUser
}

/// The newest entry of a log, and the first recalls and withdrawals by which it is worked out.
#[derive(Clone, Copy)]
pub(crate) struct Newest<'a> {
    /// The log, with the entry.
    pub log: &'a [LogEntry],
    /// The first recalls and withdrawals.
    pub stops: &'a Stops,
    /// The place of the entry in the log.
    pub place: u32,
    /// The entry is the last of the log.
    ghost last: { length log.now ≡ place + 1 },
}

/// By what the statuses of a pack are worked out.
#[derive(Clone, Copy)]
pub(crate) struct Basis<'a> {
    /// The log.
    pub log: &'a [LogEntry],
    /// Its first recalls and withdrawals.
    pub stops: &'a Stops,
    /// The product code of the pack.
    pub gtin: &'a Gtin,
    /// The place of the first upload that names the pack.
    pub birth: u32,
}

impl Basis<'_> {
    /// The effect of the status at a place on the pack, where it stands by an entry. The batch is looked up for a revert alone.
    fn effect_on(&self, by: u32, place: u32) -> Effect
        ensures { result ≡ effect_in self.now by place }
    {
        let log = self.log;
        let birth = self.birth;
        if is_before(log, Some(birth), place)
            && let Some(Message::Upload { batch, expiry, .. }) = message_at(log, birth as usize)
        {
            let Some(Message::Status { to, user, at, .. }) = message_at(log, place as usize) else {
                return Effect::Noted;
            };
            return match (is_active(*to), standing_by(log, by)) {
                (false, Standing::Active) => Effect::Done,
                (false, _) => Effect::NotActive,
                (true, Standing::Active) => Effect::AlreadyActive,
                (true, Standing::Destruction | Standing::Stolen | Standing::Repackaged) =>
                    Effect::Fixed,
                (true, _) => {
                    let key = BatchKey {
                        gtin: *self.gtin,
                        batch: batch.copy(),
                    };
                    let stands = self.stops.standing_at(log, &key, place);
                    let revert = (sender_at(log, place as usize), user, *at);
                    revert_effect(log, by, *expiry, stands, revert)
                }
            };
        }
        Effect::Unknown
    }

    /// What the status at a place does to the pack, where it stands by an entry: its effect, and the place of the entry by
    /// which the pack stands then.
    pub fn next(&self, by: u32, place: u32) -> (Effect, u32)
        ensures effect { result.0 ≡ effect_in self.now by place }
        ensures by { result.1 ≡ next_in self.now by place }
    {
        let effect = self.effect_on(by, place);
        match effect {
            Effect::Done if is_active(standing_by(self.log, place)) => (effect, self.birth),
            Effect::Done => (effect, place),
            _ => (effect, by),
        }
    }

    /// The place of the entry by which the pack stands behind these statuses, where it stands by one in front of them.
    pub fn after(&self, by: u32, own: &[u32]) -> u32
        ensures { result ≡ fold (next_in self.now) by own.now }
    {
        let mut last = by;
        for place in own {
            last = self.next(last, *place).1;
        }
        last
    }
}

/// The pack that the upload at a place made, where it stands by the entry at another.
pub(crate) fn held_at(log: &[LogEntry], birth: u32, by: u32) -> Option<Held>
    ensures { result ≡ option_map held_of (known_at (entry_at log.now birth) (entry_at log.now by)) }
{
    if let Some(
        Message::Upload {
            batch,
            expiry,
            national,
            ..
        },
    ) = message_at(log, birth as usize)
    {
        let national = match national {
            Some(national) => Some(national.copy()),
            None => None,
        };
        let entry = by as usize;
        let change = match message_at(log, entry) {
            Some(Message::Status { at, .. }) => Some(Change {
                by: sender_at(log, entry),
                at: *at,
                entry,
            }),
            _ => None,
        };
        return Some(Held {
            batch: batch.copy(),
            expiry: *expiry,
            national,
            standing: standing_by(log, by),
            change,
        });
    }
    None
}
