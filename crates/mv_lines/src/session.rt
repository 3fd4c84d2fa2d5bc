//! What comes of the lines of a run of steps.

ghost use Rattle.std.specs.Prelude.{◌≡◌, ◌≢◌, None, Ok, IfOk, IfErr, IfSome, MatchResult};
ghost use Rattle.std.specs.Mem.{manually_drop_value};
ghost use Rattle.std.specs.Option.{option_copied};
ghost use Rattle.mv_hub.specs.Parties.{parties_of};
ghost use Rattle.mv_format.specs.Requests.{read_line};
ghost use Rattle.mv_json.specs.Reading.{map_err};
ghost use Rattle.mv_lines.specs.Sessions.{opened_by, IsRequestTaken, IsTaken, IsReply};
ghost use Rattle.mv_lines.specs.inside.Said.{IsSaid};

use json::Scratch;
use mv_engine::Answering;
use mv_format::{
    Answered, LineFault, MarketLists, OpenFault, Request, append_json, limits_of, parties_of,
    read_step,
};
use mv_machine::{Limits, Step};
use mv_system::World;
use std::alloc::{AllocError, Global};
use std::marker::Model;
use std::mem::ManuallyDrop;

/// The system that is open, seen as the state of the list machine; none before an opening has succeeded. The memory in
/// which lines are read is kept from line to line.
#[derive(Drop)]
pub struct Session {
    /// What memory is got from.
    alloc: Global,
    /// In which lines are read.
    scratch: Scratch,
    /// What is open.
    world: Option<World>,
}

impl Model for Session {
    ghost use Rattle.mv_lines.specs.Sessions.{Open};

    ghost Value = { Open };

    ghost view = { λ s. s.world };
}

impl Answering for Session {
    ghost replies = { IsReply };

    fn answer(&mut self, _number: u32, line: &[u8], out: &mut Vec<u8>) -> Result<bool, AllocError> {
        let mut read = None;
        read_step(self.alloc, &mut self.scratch, line, &mut read);
        self.say(&read, line, out)?;
        Ok(true)
    }
}

impl Session {
    /// Nothing is open.
    pub fn new(alloc: Global) -> Session
        ensures { result ≡ None }
    {
        Session {
            alloc,
            scratch: Scratch::new(alloc),
            world: None,
        }
    }

    /// Nothing is open. What is open at the end is not taken apart: it is for the last thing in a process, which gives all its
    /// memory back at once.
    pub fn last(alloc: Global) -> ManuallyDrop<Session>
        ensures { manually_drop_value result ≡ None }
    {
        ManuallyDrop::new(Session::new(alloc))
    }

    /// The system that is open.
    pub fn world(&self) -> Option<&World>
        ensures { option_copied result ≡ self.now }
    {
        self.world.as_ref()
    }

    /// Takes a line that isn't empty, without what ends it, and does what it asks. Where memory is refused before it is known what
    /// the line asks, or for an opening, there is no answer, and nothing changed; a step that memory is refused for answers S14.
    pub fn take(&mut self, line: &[u8]) -> Result<Answered, AllocError>
        ensures ok { IfOk result (λ answered. IsTaken self.old line.now answered self.new) }
        ensures err { IfErr result (λ _. self.new ≡ self.old) }
    {
        let read = Request::read_in(self.alloc, &mut self.scratch, line);
        self.take_read(read)
    }

    /// Does what a line asks that was read, or says its fault.
    fn take_read(&mut self, read: Result<Request, LineFault>) -> Result<Answered, AllocError>
        ensures ok { IfOk result (λ answered. MatchResult read
            (λ request. IsRequestTaken self.old request answered self.new)
            (λ fault. (fault ≢ LineFault.Memory) × (answered ≡ Answered.Unread fault) × (self.new ≡ self.old))) }
        ensures err { IfErr result (λ _. self.new ≡ self.old) }
    {
        match read {
            Ok(
                Request::Open {
                    parties,
                    submissions,
                    uplink,
                    window,
                    wire,
                },
            ) => {
                let limits = limits_of(window, wire, uplink, submissions);
                self.open(parties, limits)
            }
            Ok(Request::Step(step)) => Ok(self.step(step)),
            Err(LineFault::Memory) => Err(AllocError),
            Err(fault) => Ok(Answered::Unread(fault)),
        }
    }

    /// Does what a line asks, and writes the reply. A step that was read of it is made where it stands: what is handed on is copied.
    #[inline(always)]
    fn say(&mut self, read: &Option<Step>, line: &[u8], out: &mut Vec<u8>) -> Result<(), AllocError>
        requires read { IfSome read.now (λ step. read_line line.now ≡ Ok (Request.Step step)) }
        ensures { IsSaid (IsTaken self.old line.now) self.old out.old.items result out.new.items self.new }
    {
        let Some(step) = read else {
            return self.say_read(line, out);
        };
        let Some(world) = &mut self.world else {
            return append_json(self.alloc, out, &Answered::NotTaken(OpenFault::NotOpen));
        };
        append_json(self.alloc, out, &world.step(step))
    }

    /// Reads a line by its value, takes it, and writes the reply.
    #[inline(never)]
    fn say_read(&mut self, line: &[u8], out: &mut Vec<u8>) -> Result<(), AllocError>
        ensures { IsSaid (IsTaken self.old line.now) self.old out.old.items result out.new.items self.new }
    {
        let answered = self.take_read(Request::read(self.alloc, line))?;
        append_json(self.alloc, out, &answered)
    }

    /// Opens a system of these parties and limits: C2, H1 to H3, O1 to O4.
    fn open(
        &mut self,
        lists: MarketLists,
        limits: Result<Limits, OpenFault>,
    ) -> Result<Answered, AllocError>
        ensures ok { IfOk result (λ answered.
            (answered, self.new) ≡ opened_by self.old (map_err OpenFault.Parties (parties_of lists)) limits) }
        ensures err { IfErr result (λ _. self.new ≡ self.old) }
    {
        if self.world.is_some() {
            return Ok(Answered::NotTaken(OpenFault::AlreadyOpen));
        }
        let parties = match parties_of(self.alloc, lists) {
            Ok(parties) => parties,
            Err(OpenFault::Memory) => return Err(AllocError),
            Err(fault) => return Ok(Answered::NotTaken(fault)),
        };
        let limits = match limits {
            Ok(limits) => limits,
            Err(fault) => return Ok(Answered::NotTaken(fault)),
        };
        let count = parties.len();
        let world = World::open(self.alloc, parties, limits)?;
        self.world = Some(world);
        Ok(Answered::Opened { parties: count })
    }

    /// Makes a step: C1, else what the system answers.
    fn step(&mut self, step: Step) -> Answered
        ensures { IsRequestTaken self.old (Request.Step step) result self.new }
    {
        match &mut self.world {
            None => Answered::NotTaken(OpenFault::NotOpen),
            Some(world) => {
                let reply = world.step(&step);
                Answered::Stepped { step, reply }
            }
        }
    }
}
