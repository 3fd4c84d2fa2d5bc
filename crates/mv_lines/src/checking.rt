//! Checks messages, a line each.

ghost use Rattle.std.specs.Prelude.{◌≡◌, true, IfOk, IfErr, IfSome};
ghost use Rattle.std.specs.Io.KnownBytes.{Appends};
ghost use Rattle.mv_engine.specs.Served.{Served, EndedBy};
ghost use Rattle.mv_lines.specs.Checks.{IsChecked, are_messages, refusals_of};

use json::Scratch;
use mv_engine::{Answering, ServeFault, answer_lines};
use mv_format::append_refusal;
use mv_json::MessageFault;
use std::alloc::{AllocError, Global};
use std::io::{Read, Write};
use std::marker::Model;

/// What checks messages, seen as whether each line so far is one.
#[derive(Drop)]
struct Checker {
    /// What memory is got from.
    alloc: Global,
    /// In which messages are read.
    scratch: Scratch,
    /// Whether each line so far is a message.
    all_messages: bool,
}

impl Model for Checker {
    ghost use Rattle.std.specs.Prelude.{Bool};

    ghost Value = { Bool };

    ghost view = { λ c. c.all_messages };
}

impl Answering for Checker {
    ghost replies = { IsChecked };

    fn answer(&mut self, number: u32, line: &[u8], out: &mut Vec<u8>) -> Result<bool, AllocError> {
        match mv_json::read_in(self.alloc, &mut self.scratch, line).err() {
            None => Ok(false),
            Some(MessageFault::Memory) => Err(AllocError),
            Some(fault) => {
                append_refusal(self.alloc, out, &fault, Some(number))?;
                self.all_messages = false;
                Ok(true)
            }
        }
    }
}

/// Writes the refusal of each message that is refused, with the number of its line, in order, each ended by a line feed, and nothing
/// else. It answers whether each line is a message; an empty line is none that counts.
///
/// The lines, their limits, and what a fault leaves are as for [`serve`](crate::serve). Memory that is refused is V3, also within a
/// message.
pub fn check<R: Read, W: Write>(
    alloc: Global,
    reader: &mut R,
    writer: &mut W,
) -> Result<bool, ServeFault>
    ensures texts { IfOk result (λ _. IfSome (R.remaining reader.old) (λ bytes.
        Appends (W.contents writer.old) (W.contents writer.new) (refusals_of bytes))) }
    ensures all { IfOk result (λ all_messages. IfSome (R.remaining reader.old) (λ bytes.
        all_messages ≡ are_messages bytes)) }
    // The input had no line over the limits.
    ensures ok { IfOk result (λ all_messages. IfSome (R.remaining reader.old) (λ bytes.
        Served IsChecked true bytes all_messages (W.contents writer.old) (W.contents writer.new))) }
    // The bytes are those that were read. The refusals of which of their lines went out, the fault says.
    ensures err { IfErr result (λ fault. EndedBy IsChecked fault true
        (R.remaining reader.old) (R.remaining reader.new) (W.contents writer.old) (W.contents writer.new)) }
{
    let mut checker = Checker {
        alloc,
        scratch: Scratch::new(alloc),
        all_messages: true,
    };
    answer_lines(alloc, &mut checker, reader, writer)?;
    Ok(checker.all_messages)
}
