//! Limits are read from numbers, and every run keeps them.

ghost use Rattle.std.specs.Prelude.{◌≡◌, List, ℕ, IfErr, IfOk};
ghost use Rattle.mv_machine.specs.Bounded.{KeepsLimits};
ghost use Rattle.mv_machine.specs.Limits.{code_of, limits_of};
ghost use Rattle.mv_machine.specs.Runs.{Runs};
ghost use Rattle.mv_machine.specs.State.{State, opening};
ghost use Rattle.mv_machine.specs.declared.limits.LimitsFault.{LimitsFault as AFault};
ghost use Rattle.mv_machine.specs.declared.reply.Reply.{Reply as AReply};
ghost use Rattle.mv_machine.specs.declared.step.Step.{Step as AStep};

use mv_machine::{Limits, LimitsFault, limits_are_kept};

/// The limits of these numbers, or the code of the first number that is out of its range. Whatever parties a system is opened with, and
/// whatever steps it takes, it keeps these limits.
pub fn limits_or_code(
    window: u32,
    wire: u32,
    uplink: u32,
    submissions: u32,
) -> Result<Limits, &'static str>
    ensures ok { IfOk result (λ limits. limits_of window wire uplink submissions ≡ Ok limits) }
    ensures err { IfErr result (λ code. (fault : AFault)
        × (limits_of window wire uplink submissions ≡ Err fault) × (code.now ≡ code_of fault)) }
    ensures kept { IfOk result (λ limits. (parties : List (List (List ℕ))) (steps : List AStep) (replies : List AReply) (after : State)
        → Runs (opening parties limits) steps replies after → KeepsLimits after) }
{
    limits_are_kept();
    Limits::of(window, wire, uplink, submissions).map_err(LimitsFault::code)
}
