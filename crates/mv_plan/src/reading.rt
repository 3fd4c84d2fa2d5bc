//! Reads the lines of an input to what they plan.

ghost use Rattle.std.specs.Prelude.{IfOk, IfErr, IfSome};
ghost use Rattle.mv_plan.specs.Planning.{planned_of};
ghost use Rattle.mv_plan.specs.Reading.{IsRead, Unread};

use crate::planned::Planned;
use crate::planner::Planner;
use mv_engine::{ServeFault, answer_lines};
use std::alloc::Global;
use std::io::{self, Read};

/// Reads all lines to what they plan.
pub fn read_plan<R: Read>(alloc: Global, reader: &mut R) -> Result<Planned, ServeFault>
    ensures ok { IfOk result (λ planned. IfSome (R.remaining reader.old) (λ bytes. IsRead bytes (planned_of planned))) }
    ensures err { IfErr result (λ fault. Unread fault (R.remaining reader.old) (R.remaining reader.new)) }
{
    let mut planner = Planner::new(alloc);
    match answer_lines(alloc, &mut planner, reader, &mut io::sink()) {
        Ok(()) => Ok(planner.into_planned()),
        // This never comes, since a sink takes all bytes, but no contract of a writer can say so. What is left is to say that
        // memory was refused, which may come at any place.
        Err(ServeFault::Write) => Err(ServeFault::Memory),
        Err(fault) => Err(fault),
    }
}
