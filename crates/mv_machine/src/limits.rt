//! The limits of a system.

ghost use Rattle.std.specs.Prelude.{◌≡◌};
ghost use Rattle.mv_machine.specs.Limits.{AreBounds, Bounds, bounds_of, code_of, is_between, limits_of};

use mv_link::{WINDOW_LEAST, WINDOW_LIMIT};
use mv_party::SUBMISSIONS_LIMIT;
use std::marker::Model;
use thiserror::Error;

/// The most frames that are under way on each link.
pub const WIRE_LIMIT: u32 = 64;

/// The most messages of each party that are under way to the hub.
pub const UPLINK_LIMIT: u32 = 64;

/// How much a system holds at most.
#[derive(Clone, Copy, PartialEq, Eq)]
pub struct Limits {
    /// How many items each link keeps.
    window: u32,
    /// How many frames are under way on each link at most.
    wire: u32,
    /// How many messages of each party are under way to the hub at most.
    uplink: u32,
    /// How many messages each party submits at most.
    submissions: u32,
}

impl Model for Limits {
    ghost Value = { Bounds };

    ghost view = { λ l. bounds_of l.window l.wire l.uplink l.submissions };

    ghost invariant = { λ l. AreBounds (bounds_of l.window l.wire l.uplink l.submissions) };

    ghost inverse = { λ b. record {
      window = b.window;
      wire = b.wire;
      uplink = b.uplink;
      submissions = b.submissions;
    } };
}

impl Limits {
    /// The limits of these numbers: items that each link keeps (2 to 256), frames under way on each link (1 to 64),
    /// messages of each party under way to the hub (1 to 64), and messages that each party submits in all (1 to
    /// 1,000,000). The first that is out of its range is the fault, O1 to O4.
    pub fn of(window: u32, wire: u32, uplink: u32, submissions: u32) -> Result<Limits, LimitsFault>
        ensures { result ≡ limits_of window wire uplink submissions }
    {
        if !is_between(WINDOW_LEAST, WINDOW_LIMIT, window) {
            return Err(LimitsFault::Window);
        }
        if !is_between(1, WIRE_LIMIT, wire) {
            return Err(LimitsFault::Wire);
        }
        if !is_between(1, UPLINK_LIMIT, uplink) {
            return Err(LimitsFault::Uplink);
        }
        if !is_between(1, SUBMISSIONS_LIMIT, submissions) {
            return Err(LimitsFault::Submissions);
        }
        Ok(Limits {
            window,
            wire,
            uplink,
            submissions,
        })
    }

    /// How many items each link keeps, 2 to 256.
    pub fn window(&self) -> u32
        ensures value { result ≡ self.now.window }
        ensures bounds { AreBounds self.now }
    {
        self.window
    }

    /// How many frames are under way on each link at most, 1 to 64.
    pub fn wire(&self) -> u32
        ensures value { result ≡ self.now.wire }
        ensures bounds { AreBounds self.now }
    {
        self.wire
    }

    /// How many messages of each party are under way to the hub at most, 1 to 64.
    pub fn uplink(&self) -> u32
        ensures value { result ≡ self.now.uplink }
        ensures bounds { AreBounds self.now }
    {
        self.uplink
    }

    /// How many messages each party submits at most, 1 to 1,000,000.
    pub fn submissions(&self) -> u32
        ensures value { result ≡ self.now.submissions }
        ensures bounds { AreBounds self.now }
    {
        self.submissions
    }
}

/// Whether a number lies between two others, both included.
fn is_between(least: u32, most: u32, number: u32) -> bool
    ensures { result ≡ is_between least most number }
{
    least <= number && number <= most
}

/// Which limit is out of its range.
#[derive(Clone, Copy, Debug, PartialEq, Eq, Error)]
pub enum LimitsFault {
    /// O1: the window is not 2 to 256.
    #[error("the window is not 2 to 256")]
    Window,
    /// O2: the wire is not 1 to 64.
    #[error("the wire is not 1 to 64")]
    Wire,
    /// O3: the uplink is not 1 to 64.
    #[error("the uplink is not 1 to 64")]
    Uplink,
    /// O4: the submissions are not 1 to 1,000,000.
    #[error("the submissions are not 1 to 1,000,000")]
    Submissions,
}

impl LimitsFault {
    /// The number of the fault, as `O1`.
    pub fn code(self) -> &'static str
        ensures { result.now ≡ code_of self }
    {
        match self {
            LimitsFault::Window => "O1",
            LimitsFault::Wire => "O2",
            LimitsFault::Uplink => "O3",
            LimitsFault::Submissions => "O4",
        }
    }
}
