//! Runs messages, a line each.

ghost use Rattle.std.specs.Prelude.{◌≡◌, OnOk, IfOk, IfErr, IfSome};
ghost use Rattle.std.specs.Io.KnownBytes.{Appends};
ghost use Rattle.mv_json.specs.Messages.{read_bytes};
ghost use Rattle.mv_json.specs.Reading.{GivesOr};
ghost use Rattle.mv_lines.specs.Canon.{IsCanon, canon_of, canon_text};
ghost use Rattle.mv_engine.specs.Replies.{Readied};
ghost use Rattle.mv_engine.specs.Served.{Served, EndedBy};

use json::Scratch;
use mv_engine::{Answering, ServeFault, answer_lines};
use mv_format::append_refusal;
use mv_json::MessageFault;
use mv_message::Message;
use std::alloc::{AllocError, Global};
use std::io::{Read, Write};
use std::marker::Model;

/// What answers messages. It keeps from line to line only the memory in which they are read.
#[derive(Drop)]
struct Canonizer {
    /// What memory is got from.
    alloc: Global,
    /// In which messages are read.
    scratch: Scratch,
}

impl Model for Canonizer {
    ghost use Rattle.std.specs.Prelude.{⊤};

    ghost Value = { ⊤ };

    ghost view = { λ _. tt };
}

impl Answering for Canonizer {
    ghost replies = { IsCanon };

    fn answer(&mut self, _number: u32, line: &[u8], out: &mut Vec<u8>) -> Result<bool, AllocError> {
        self.write(line, out)?;
        Ok(true)
    }
}

impl Canonizer {
    /// Writes the canonical text of the message that a line is, or its refusal, behind what the buffer holds.
    fn write(&mut self, line: &[u8], out: &mut Vec<u8>) -> Result<(), AllocError>
        ensures ok { IfOk result (λ _. Readied out.old.items out.new.items (λ text. text ≡ canon_text line.now)) }
        ensures err { IfErr result (λ _. out.new.items ≡ out.old.items) }
    {
        match self.read(line) {
            Ok(message) => mv_json::write_text(self.alloc, &message, out),
            Err(MessageFault::Memory) => Err(AllocError),
            Err(fault) => append_refusal(self.alloc, out, &fault, None),
        }
    }

    /// Reads a message.
    fn read(&mut self, line: &[u8]) -> Result<Message, MessageFault>
        ensures { GivesOr result (read_bytes line.now) MessageFault.Memory }
    {
        mv_json::read_in(self.alloc, &mut self.scratch, line)
    }
}

/// Writes the canonical text of the message that each line is, or its refusal, in order, each ended by a line feed, and
/// nothing else. An empty line gets none.
///
/// The lines, their limits, and what a fault leaves are as for `serve`. Want of memory is V3, also within a message.
pub fn canon<R: Read, W: Write>(
    alloc: Global,
    reader: &mut R,
    writer: &mut W,
) -> Result<(), ServeFault>
    ensures texts { OnOk result (IfSome (R.remaining reader.old) (λ bytes.
        Appends (W.contents writer.old) (W.contents writer.new) (canon_of bytes))) }
    // The input had no line over the limits.
    ensures ok { OnOk result (IfSome (R.remaining reader.old) (λ bytes.
        Served IsCanon tt bytes tt (W.contents writer.old) (W.contents writer.new))) }
    // The bytes are those that were read. The texts to which of their lines went out, the fault says.
    ensures err { IfErr result (λ fault. EndedBy IsCanon fault tt
        (R.remaining reader.old) (R.remaining reader.new) (W.contents writer.old) (W.contents writer.new)) }
{
    let mut canonizer = Canonizer {
        alloc,
        scratch: Scratch::new(alloc),
    };
    let ended = answer_lines(alloc, &mut canonizer, reader, writer);
    drop(canonizer);
    ended
}
