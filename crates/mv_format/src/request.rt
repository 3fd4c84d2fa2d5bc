//! What a line asks.

ghost use Rattle.mv_format.specs.Words.{GivesOr, view};
ghost use Rattle.mv_format.specs.inside.LineFields.{asked_by};
ghost use Rattle.mv_format.specs.Requests.{read_request, read_line};

use crate::field_reading::{gtin_of, message_of, number_of, serial_of};
use crate::kind::{LineKind, kind_of};
use crate::market_lists::market_lists_of;
use crate::token_line::read_step;
use crate::{LineFault, LineField, MarketLists};
use json::Scratch;
use mv_json::members::first_unknown;
use mv_machine::Step;
use mv_message::Text;
use mv_pack::PackKey;
use serde_json::Value;
use std::alloc::Global;

/// What a line asks.
#[derive(Drop)]
pub enum Request {
    /// To open a system of these parties and limits, which are as the line has them.
    Open {
        /// The markets of each party.
        parties: MarketLists,
        /// How many messages each party submits at most.
        submissions: u32,
        /// How many messages of each party are under way to the hub at most.
        uplink: u32,
        /// How many items each link keeps.
        window: u32,
        /// How many frames are under way on each link at most.
        wire: u32,
    },
    /// To make a step.
    Step(Step),
}

impl Request {
    /// Reads a line.
    ///
    /// The first of these that holds is the fault: M1, the bytes are no JSON; M2, the value is no object; M3 or M5 of
    /// `do`; M4 with the first key, in byte order, that such lines do not have; then the faults of the fields, in byte
    /// order of their names. Want of memory may stand in place of any answer.
    #[tactic(auto, using(mv_json::proofs::CallerLemmas::utf8_test, mv_json::proofs::CallerLemmas::utf8_fact))]
    pub fn read(alloc: Global, line: &[u8]) -> Result<Request, LineFault>
        ensures { GivesOr result (read_line line.now) LineFault.Memory }
    {
        match Value::from_slice(alloc, line) {
            Ok(value) => Request::from_value(alloc, &value),
            Err(error) if error.is_memory() => Err(LineFault::Memory),
            Err(_) => Err(LineFault::NotJson),
        }
    }

    /// Reads a line as `read` does, in memory that is kept from line to line: what asks a step by its tokens, and what these
    /// give no step of by its value.
    pub fn read_in(alloc: Global, scratch: &mut Scratch, line: &[u8]) -> Result<Request, LineFault>
        ensures { GivesOr result (read_line line.now) LineFault.Memory }
    {
        let mut step = None;
        read_step(alloc, scratch, line, &mut step);
        match step {
            Some(step) => Ok(Request::Step(step)),
            None => Request::read(alloc, line),
        }
    }

    /// What the value of a line asks.
    #[tactic(auto, unfolding(crate::specs::Requests::read_request, crate::specs::Requests::request_at))]
    fn from_value(alloc: Global, value: &Value) -> Result<Request, LineFault>
        ensures { GivesOr result (read_request (view value.now)) LineFault.Memory }
    {
        let members = value.as_object().ok_or(LineFault::NotObject)?;
        let kind = kind_of(value)?;
        if let Some(key) = first_unknown(members, kind.fields()) {
            return Err(LineFault::Unknown(Text::new(String::from_str(alloc, key)?)));
        }
        Request::of_kind(alloc, kind, value)
    }

    /// What the fields of a line of that kind ask, each of which is read in byte order of its name.
    fn of_kind(alloc: Global, kind: LineKind, value: &Value) -> Result<Request, LineFault>
        ensures { GivesOr result (asked_by kind (view value.now)) LineFault.Memory }
    {
        match kind {
            LineKind::Open => Request::open_of(alloc, value),
            LineKind::Submit => Ok(Request::Step(Step::Submit {
                from: number_of(value, LineField::From)?,
                message: message_of(alloc, value)?,
            })),
            LineKind::Route => Ok(Request::Step(Step::Route {
                from: number_of(value, LineField::From)?,
            })),
            LineKind::Relay => Ok(Request::Step(Step::Relay {
                from: number_of(value, LineField::From)?,
                to: number_of(value, LineField::To)?,
            })),
            LineKind::Apply => Ok(Request::Step(Step::Apply {
                from: number_of(value, LineField::From)?,
                to: number_of(value, LineField::To)?,
            })),
            LineKind::Repeat => Ok(Request::Step(Step::Repeat {
                from: number_of(value, LineField::From)?,
                number: number_of(value, LineField::Number)?,
                to: number_of(value, LineField::To)?,
            })),
            LineKind::Close => Ok(Request::Step(Step::Close {
                from: number_of(value, LineField::From)?,
                to: number_of(value, LineField::To)?,
            })),
            LineKind::Lose => Ok(Request::Step(Step::Lose {
                from: number_of(value, LineField::From)?,
                to: number_of(value, LineField::To)?,
            })),
            LineKind::Verify => Request::verify_of(value),
            LineKind::Verdict => Ok(Request::Step(Step::Verdict {
                party: number_of(value, LineField::Party)?,
                q: number_of(value, LineField::Q)?,
            })),
        }
    }

    /// The opening that the fields of a line ask.
    fn open_of(alloc: Global, value: &Value) -> Result<Request, LineFault>
        ensures { GivesOr result (asked_by LineKind.Open (view value.now)) LineFault.Memory }
    {
        Ok(Request::Open {
            parties: market_lists_of(alloc, value, LineField::Parties)?,
            submissions: number_of(value, LineField::Submissions)?,
            uplink: number_of(value, LineField::Uplink)?,
            window: number_of(value, LineField::Window)?,
            wire: number_of(value, LineField::Wire)?,
        })
    }

    /// The verifying of a pack that the fields of a line ask.
    fn verify_of(value: &Value) -> Result<Request, LineFault>
        ensures { GivesOr result (asked_by LineKind.Verify (view value.now)) LineFault.Memory }
    {
        let gtin = gtin_of(value, LineField::Gtin)?;
        let party = number_of(value, LineField::Party)?;
        let serial = serial_of(value, LineField::Serial)?;
        let key = PackKey { gtin, serial };
        Ok(Request::Step(Step::Verify { party, key }))
    }
}
