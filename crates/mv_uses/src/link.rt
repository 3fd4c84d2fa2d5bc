//! A frame that goes from one end of a link to the other.

ghost use Rattle.std.specs.Prelude.{◌≡◌, ◌+◌, OnOk, OnErr, IfOk};
ghost use Rattle.mv_link.specs.Fault.{FailsBy};
ghost use Rattle.mv_link.specs.Receiving.{look_at};
ghost use Rattle.mv_link.specs.Sending.{relay_fault, with_relayed};

use mv_link::{Incoming, LinkFault, Look, Outgoing};

/// Relays the next frame of a link, and has the other end accept it where it is the next there too. So an end that accepted all that
/// was relayed has accepted all again. Refused, both ends are as they were.
pub fn carry_one(link: &mut Outgoing, end: &mut Incoming) -> Result<Look, LinkFault>
    ensures look { IfOk result (λ look. look ≡ look_at end.old (link.old.sent + 1)) }
    ensures relayed { OnOk result (link.new ≡ with_relayed link.old) }
    ensures all { OnOk result (end.old ≡ link.old.sent → end.new ≡ link.new.sent) }
    ensures refused { OnErr result ((link.new ≡ link.old) × (end.new ≡ end.old)) }
    ensures fault { FailsBy LinkFault.Memory (relay_fault link.old.total link.old.sent) result }
{
    let look = end.look(&link.relay()?);
    if look == Look::Next {
        end.advance();
    }
    Ok(look)
}
