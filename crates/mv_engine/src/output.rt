//! Writes replies, each byte once.

ghost use Rattle.std.specs.Prelude.{◌≡◌, OnOk, IfErr};
ghost use Rattle.std.specs.Io.KnownBytes.{Appends};
ghost use Rattle.mv_engine.specs.Output.{WrotePart};

use crate::ServeFault;
use std::io::Write;

/// Writes all of the bytes and flushes, where there are any. A write that fails, is interrupted or takes nothing ends it.
pub fn put_out<W: Write>(writer: &mut W, bytes: &[u8]) -> Result<(), ServeFault>
    ensures ok { OnOk result (Appends (W.contents writer.old) (W.contents writer.new) bytes.now) }
    ensures fault { IfErr result (λ fault. fault ≡ ServeFault.Write) }
    ensures err { IfErr result (λ _. WrotePart bytes.now (W.contents writer.old) (W.contents writer.new)) }
{
    if bytes.is_empty() {
        return Ok(());
    }
    write_whole(writer, bytes)?;
    match writer.flush() {
        Ok(()) => Ok(()),
        Err(_) => Err(ServeFault::Write),
    }
}

/// Writes all of the bytes. The loop is its own, since the library's writes again after an interruption.
#[tactic(auto, using(crate::proofs::OutputLemmas::wrote_more, crate::proofs::OutputLemmas::front_is_part))]
fn write_whole<W: Write>(writer: &mut W, bytes: &[u8]) -> Result<(), ServeFault>
    ensures ok { OnOk result (Appends (W.contents writer.old) (W.contents writer.new) bytes.now) }
    ensures fault { IfErr result (λ fault. fault ≡ ServeFault.Write) }
    ensures err { IfErr result (λ _. WrotePart bytes.now (W.contents writer.old) (W.contents writer.new)) }
{
    let mut done = 0;
    while done < bytes.len() {
        match writer.write(&bytes[done..]) {
            Ok(0) => return Err(ServeFault::Write),
            Ok(count) => done += count,
            Err(_) => return Err(ServeFault::Write),
        }
    }
    Ok(())
}
