//! How a worker goes from turn to turn: one that can do nothing waits, the longer the longer it can't, at most until all are woken.

use crate::course::Course;
use std::alloc::AllocError;
use std::sync::Wait;
use std::thread;
use std::time::Duration;

/// Up to so many rests in a row the worker leaves its processor to others. Behind that it sleeps: a worker that looks at its rings again and
/// again takes them from the cache of the one that puts there.
const YIELDS: u32 = 4;

/// How long its first sleep is, in microseconds. Each further one is twice as long, up to the longest.
const FIRST_SLEEP: u64 = 50;

/// How often a sleep is twice as long as the one before it: the longest is 12.8 milliseconds.
const DOUBLINGS: u32 = 8;

/// Behind so many rests in a row, the last three of which are sleeps, the worker wakes all, once,
/// where none moved over the last of these, 0.2 milliseconds if nothing woke it: the run may be
/// over, and who sleeps long would be late to see it.
const QUIET: u32 = YIELDS + 3;

/// How a worker goes from turn to turn.
#[derive(Drop)]
pub(crate) struct Pace {
    /// The number of the worker: that of its party, or how many parties there are.
    worker: u32,
    /// How many moves of all workers there were before its turn. None where it did something in the turn before: it is not looked at
    /// whether nothing more can come until it rests twice.
    moves: Option<u64>,
    /// How many rests in a row there were.
    rests: u32,
    /// Whether memory was refused to it.
    short: bool,
}

impl Pace {
    /// That of a worker before its first turn.
    pub(crate) fn new(worker: u32) -> Pace {
        Pace {
            worker,
            moves: None,
            rests: 0,
            short: false,
        }
    }

    /// Notes a turn, by whether something was done in it, or that memory was refused, and waits for the next. False where the worker
    /// takes no further one: memory was refused to it, or no worker can do anything any more.
    pub(crate) fn goes_on(
        &mut self,
        rt: &impl Wait,
        course: &Course,
        moved: Result<bool, AllocError>,
    ) -> bool {
        if let Ok(false) = moved {
            let worker = self.worker;
            if self.moves.is_some_and(|moves| course.rested(worker, moves)) {
                course.wake_all();
                return false;
            }
            self.rest(rt, course);
            let moves = course.moves();
            if self.rests == QUIET && self.moves == Some(moves) {
                course.wake_all();
            }
            self.moves = Some(moves);
            return true;
        }
        course.moved(self.worker);
        self.moves = None;
        self.rests = 0;
        self.short = moved.is_err();
        !self.short
    }

    /// Waits behind a turn in which nothing was done.
    fn rest(&mut self, rt: &impl Wait, course: &Course) {
        if self.rests < YIELDS {
            thread::yield_now();
        } else {
            let doublings = (self.rests - YIELDS).min(DOUBLINGS);
            let micros = FIRST_SLEEP << doublings;
            course.sleep(rt, self.worker, Duration::from_micros(micros));
        }
        self.rests = self.rests.saturating_add(1);
    }

    /// Notes that the worker takes no further turn. It answers whether memory was refused to it.
    pub(crate) fn ends(self, course: &Course) -> bool {
        course.gone(self.worker);
        self.short
    }
}
