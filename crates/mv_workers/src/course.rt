//! What the workers of a run share: when all may take their first turn, when nothing more can come, and what they sleep on.
//!
//! A worker rests where each call of its turn was refused, and what a call answers follows from its end and from what is on its
//! rings. So once every worker has rested, each in a turn that began behind the last move of any, every call would be refused for
//! ever. No contract speaks of this: a run that ended early is complete or not by what it left.
//!
//! Each worker writes its own counts alone, and only one that rests looks at those of all. Counts only grow: where their sum is what
//! it was, no worker has moved between.

ghost use Rattle.std.specs.Prelude.{◌≡◌, ◌≤◌, IfOk};

use std::alloc::{AllocError, Global};
use std::sync::atomic::{AtomicU64, Ordering};
use std::sync::{Condvar, Mutex, Wait};
use std::thread::Parker;
use std::time::Duration;

/// What stands for a worker that takes no turn any more.
const GONE: u64 = u64::MAX;

/// What is noted of a worker.
#[derive(Drop)]
struct Notes {
    /// How many of its turns there were in which something was done.
    moves: AtomicU64,
    /// 0, or one more than the moves of all workers that it saw when its last rest began, or [`GONE`].
    rest: AtomicU64,
    /// What it sleeps on.
    parker: Parker,
    /// So wide that the notes of two workers never are in one line of a processor's cache.
    apart: [u64; 8],
}

/// What the workers of a run share: nothing of what they carry.
#[derive(Drop)]
pub(crate) struct Course {
    /// How many parties there are.
    pub parties: u32,
    /// How many turns each worker takes at most.
    pub turns: u32,
    /// Whether all workers have started, once that is known.
    started: Mutex<Option<bool>>,
    /// Wakes the workers that wait to know it.
    told: Condvar,
    /// The notes of each worker: that of each party, and behind them the hub's.
    notes: Vec<Notes>,
}

impl Course {
    /// The course of a run with a worker for the hub and one for each of so many parties, none of which took a turn yet. Refused for
    /// want of memory.
    pub(crate) fn new(alloc: Global, parties: u32, turns: u32) -> Result<Course, AllocError>
        ensures { IfOk result (λ course. course.turns ≡ turns) }
    {
        let mut notes = Vec::new(alloc);
        for _ in 0..parties.saturating_add(1) {
            notes.push(Notes {
                moves: AtomicU64::new(0),
                rest: AtomicU64::new(0),
                parker: Parker::new(),
                apart: [0; 8],
            })?;
        }
        Ok(Course {
            parties,
            turns,
            started: Mutex::new(None),
            told: Condvar::new(),
            notes,
        })
    }

    /// Tells the workers whether all have started: they take their turns, or end before the first.
    pub(crate) fn tell(&self, rt: &impl Wait, all: bool) {
        *self.started.lock(rt) = Some(all);
        self.told.notify_all();
    }

    /// How many turns a worker takes at most, once it is told whether all have started: none where they have not.
    pub(crate) fn turns_once_told(&self, rt: &impl Wait) -> u32
        ensures { result ≤ self.now.turns }
    {
        let started = self
            .told
            .wait_while(rt, self.started.lock(rt), |all| matches!(*all, None));
        match *started {
            Some(true) => self.turns,
            _ => 0,
        }
    }

    /// How many moves there were of all workers.
    pub(crate) fn moves(&self) -> u64 {
        let mut moves = 0_u64;
        for notes in self.notes.iter() {
            moves = moves.wrapping_add(notes.moves.load(Ordering::SeqCst));
        }
        moves
    }

    /// Notes that a worker did something in a turn, before its next turn begins.
    pub(crate) fn moved(&self, worker: u32) {
        if let Some(notes) = self.notes.get(worker as usize) {
            notes.moves.fetch_add(1, Ordering::SeqCst);
        }
    }

    /// Has a worker sleep for so long, or until all are woken; not at all where they were since its
    /// last sleep.
    pub(crate) fn sleep(&self, rt: &impl Wait, worker: u32, time: Duration) {
        if let Some(notes) = self.notes.get(worker as usize) {
            notes.parker.park_timeout(rt, time);
        }
    }

    /// Wakes all workers that sleep. Each other one, the caller too, passes over its next sleep.
    pub(crate) fn wake_all(&self) {
        for notes in self.notes.iter() {
            notes.parker.unpark();
        }
    }

    /// Notes that a worker did nothing in a turn that began behind so many moves. True where no worker can do anything any more.
    pub(crate) fn rested(&self, worker: u32, moves: u64) -> bool {
        let rest = moves.wrapping_add(1);
        self.note(worker, rest);
        for notes in self.notes.iter() {
            let noted = notes.rest.load(Ordering::SeqCst);
            if noted != rest && noted != GONE {
                return false;
            }
        }
        self.moves() == moves
    }

    /// Notes that a worker takes no turn any more. Its moves are noted before.
    pub(crate) fn gone(&self, worker: u32) {
        self.note(worker, GONE);
    }

    /// Writes down what stands for a worker from now on.
    fn note(&self, worker: u32, rest: u64) {
        if let Some(notes) = self.notes.get(worker as usize) {
            notes.rest.store(rest, Ordering::SeqCst);
        }
    }
}
