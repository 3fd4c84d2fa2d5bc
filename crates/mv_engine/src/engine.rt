//! Reads lines in blocks, and answers all lines of a block before it reads again.

ghost use Rattle.std.specs.Prelude.{◌≡◌, ℕ, ◌<◌, ◌≤◌, List, length, take, OnOk, IfOk, IfErr, IfSome};
ghost use Rattle.std.specs.Io.KnownBytes.{Consumes, Keeps, IsAtEnd};
ghost use Rattle.mv_engine.specs.Served.{Served, EndedAt, EndedBy};

use crate::input::Input;
use crate::limits::{BLOCK_LEN, INTERRUPTIONS_LIMIT};
use crate::{Answering, ServeFault};
use std::alloc::Global;
use std::io::{ErrorKind, Read, Write};

/// Writes the reply to each line that is read and has one, and nothing else. A line is known to be whole by its line feed, or by the
/// end of the input.
pub fn answer_lines<S: Answering, R: Read, W: Write>(
    alloc: Global,
    answering: &mut S,
    reader: &mut R,
    writer: &mut W,
) -> Result<(), ServeFault>
    ensures ok { OnOk result (IfSome (R.remaining reader.old) (λ bytes.
        Served S.replies answering.old bytes answering.new
        (W.contents writer.old) (W.contents writer.new))) }
    // The bytes are those that were read.
    ensures err { IfErr result (λ fault. EndedBy S.replies fault answering.old
        (R.remaining reader.old) (R.remaining reader.new) (W.contents writer.old) (W.contents writer.new)) }
    // And so what answers is left behind the lines that were answered.
    ensures ended { IfErr result (λ fault. (bytes : List ℕ)
        × Consumes (R.remaining reader.old) (R.remaining reader.new) bytes
        × EndedAt S.replies fault answering.old bytes (R.remaining reader.new) answering.new
        (W.contents writer.old) (W.contents writer.new)) }
{
    let mut input = Input::new(alloc);
    let mut interruptions = 0;
    let mut block = [0u8; BLOCK_LEN];
    for _ in 0..u64::MAX {
        let count = read_block(reader, &mut block, &mut interruptions)?;
        if count == 0 {
            return input.answer_last(answering, writer);
        }
        input.answer_block(answering, writer, &block[..count])?;
    }
    Err(ServeFault::Read)
}

/// Reads some bytes, none at the end alone. An interrupted read is made again, but for the last that a run may have.
fn read_block<R: Read>(
    reader: &mut R,
    block: &mut [u8],
    interruptions: &mut u32,
) -> Result<usize, ServeFault>
    requires room { 0 < length block.old }
    ensures count { IfOk result (λ count. count ≤ length block.new) }
    ensures read { IfOk result (λ count.
        Consumes (R.remaining reader.old) (R.remaining reader.new) (take count block.new)) }
    ensures end { IfOk result (λ count. count ≡ 0 → IsAtEnd (R.remaining reader.new)) }
    ensures fault { IfErr result (λ fault. fault ≡ ServeFault.Read) }
    ensures err { IfErr result (λ _. Keeps (R.remaining reader.old) (R.remaining reader.new)) }
{
    while *interruptions < INTERRUPTIONS_LIMIT {
        match reader.read(block) {
            Ok(count) => return Ok(count),
            Err(error) => {
                if error.kind() != ErrorKind::Interrupted {
                    return Err(ServeFault::Read);
                }
                *interruptions += 1;
            }
        }
    }
    Err(ServeFault::Read)
}
