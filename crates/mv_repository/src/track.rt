//! What is kept of one pack: the place in the log of its first upload, its statuses in the order of stamps, and the entry by
//! which the pack stands behind them. This file knows no other pack.

ghost use Rattle.std.specs.Prelude.{◌≡◌, ◌≤◌};
ghost use Rattle.mv_repository.specs.Clauses.{AreStopsOf, Ascends, IfOk, IsAgain, IsKept, OnErr, OnOk, IsPartitionPoint, newest_effect, entry_at, false, is_status_of, length, life_of, map, not, passes, stops_in, take, true};

use crate::blocks::{Block, put_late};
use crate::entry::passes;
use crate::state::{Basis, Newest};
use crate::{Effect, LogEntry};
use mv_pack::{Gtin, PackKey};
use std::alloc::AllocError;
use std::marker::Model;

/// Where the newest entry goes among statuses in the order of stamps: behind all that it doesn't pass.
fn place_for(log: &[LogEntry], statuses: &[u32], new: u32) -> usize
    requires ascend { Ascends (map (entry_at log.now) statuses.now) }
    ensures within { result ≤ length statuses.now }
    ensures cut { IsPartitionPoint (λ place. passes (entry_at log.now new) (entry_at log.now place) ≡ false)
        (λ place. passes (entry_at log.now new) (entry_at log.now place) ≡ true) statuses.now result }
{
    statuses.partition_point(
        |place: &u32| -> bool
            ensures { result ≡ not (passes (entry_at log.entry.now new) (entry_at log.entry.now place.now)) }
        { !passes(log, new, *place) },
    )
}

/// What is kept of a pack.
#[derive(Drop)]
pub(crate) struct Track {
    /// The place of the first upload that names the pack.
    pub birth: Option<u32>,
    /// The places of its statuses, in the order of stamps.
    pub statuses: Vec<u32>,
    /// The place of the entry by which it stands behind all.
    pub by: u32,
    /// What many statuses do, where one came late.
    pub blocks: Vec<Block>,
}

impl Model for Track {
    ghost use Rattle.mv_repository.specs.inside.Track.{Kept};

    ghost Value = { Kept };

    ghost view = { λ a. record { birth = a.birth; statuses = a.statuses.items; by = a.by; blocks = a.blocks.items } };
}

impl Track {
    /// Adds a status of the pack, which is the newest entry of the log, and gives its effect where it stands. Where memory
    /// is refused nothing has changed.
    pub fn add_status(&mut self, newest: &Newest<'_>, pack: &PackKey) -> Result<Effect, AllocError>
        requires stops { AreStopsOf (take newest.now.place newest.now.log.now) newest.now.stops.now }
        requires own { is_status_of pack.now (entry_at newest.now.log.now newest.now.place).entry.item ≡ true }
        requires kept { IsKept (life_of pack.now (take newest.now.place newest.now.log.now)) self.old }
        ensures ok { OnOk result (IsKept (life_of pack.now newest.now.log.now) self.new) }
        ensures effect { IfOk result (λ effect. effect ≡ newest_effect newest.now.log.now newest.now.place) }
        ensures err { OnErr result (self.new ≡ self.old) }
    {
        let at = place_for(newest.log, self.statuses.as_slice(), newest.place);
        self.statuses.insert(at, newest.place)?;
        let Some(birth) = self.birth else {
            return Ok(Effect::Unknown);
        };
        let basis = Basis {
            log: newest.log,
            stops: newest.stops,
            gtin: &pack.gtin,
            birth,
        };
        let statuses = self.statuses.as_slice();
        let (effect, by) = put_late(&basis, statuses, &mut self.blocks, at, self.by);
        self.by = by;
        Ok(effect)
    }

    /// Works the pack out again, where this is the place of the first upload that names it.
    pub fn refresh(&mut self, newest: &Newest<'_>, gtin: &Gtin, birth: Option<u32>)
        ensures { IsAgain newest.now.log.now (stops_in newest.now.log.now newest.now.stops.now) gtin.now birth self.old self.new }
    {
        self.birth = birth;
        self.by = match birth {
            Some(birth) => Basis {
                log: newest.log,
                stops: newest.stops,
                gtin,
                birth,
            }
            .after(birth, self.statuses.as_slice()),
            None => 0,
        };
        self.blocks.clear();
    }
}
