//! A message that is read from JSON and written as its canonical text.

ghost use Rattle.std.specs.Prelude.{◌≡◌, ◌≢◌, IfErr, IfOk, IsOk, OnOk, Err, string_bytes};
ghost use Rattle.mv_json.specs.Messages.{read_bytes, value_of};
ghost use Rattle.mv_json.specs.Words.{compact_text};
ghost use Rattle.mv_json.specs.declared.fault.MessageFault.TheVariants.{Memory};

use mv_json::MessageFault;
use mv_json::laws::read_is_legal;
use std::alloc::Global;

/// The canonical text of the message that a text is, which is read back as that message. Else the first fault of the text, or M9
/// where memory was refused.
pub fn canonical_text(alloc: Global, text: &str) -> Result<String, MessageFault>
    ensures read { OnOk result (IsOk (read_bytes text.now)) }
    ensures written { IfOk result (λ canonical. IfOk (read_bytes text.now)
        (λ message. string_bytes canonical ≡ compact_text (value_of message))) }
    ensures same { IfOk result (λ canonical. read_bytes (string_bytes canonical) ≡ read_bytes text.now) }
    ensures fault { IfErr result (λ fault. fault ≢ Memory → read_bytes text.now ≡ Err fault) }
{
    read_is_legal();
    let message = mv_json::read(alloc, text.as_bytes())?;
    mv_json::text(alloc, &message)
}
