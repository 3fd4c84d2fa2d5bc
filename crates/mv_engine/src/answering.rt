//! What the engine asks of that which answers the lines.

ghost use Rattle.std.specs.Prelude.{◌≡◌, IfOk, IfErr};
ghost use Rattle.mv_engine.specs.Lines.{line_at};
ghost use Rattle.mv_engine.specs.Replies.{GotNoReply, Readied, ReplyRule, said};

use std::alloc::AllocError;

/// What answers lines, one after the other. A reply may depend on the lines before it.
pub trait Answering {
    /// Which replies are right.
    ghost replies: { ReplyRule Self };

    /// Writes the reply's text to a line that isn't empty behind what the buffer holds, and says whether there is one: where
    /// there is none, what was written is dropped. Where memory is refused the buffer is as it was,
    /// and the line may have been taken all the same.
    ///
    /// The number of the line is counted from one, with the empty lines.
    fn answer(&mut self, number: u32, line: &[u8], out: &mut Vec<u8>) -> Result<bool, AllocError>
        ensures ok { IfOk result (λ spoken. Readied out.old.items out.new.items (λ text.
            replies self.old (line_at number line.now) (said spoken text) self.new)) }
        ensures err { IfErr result (λ _. out.new.items ≡ out.old.items) }
        ensures left { IfErr result (λ _. GotNoReply replies self.old (line_at number line.now) self.new) };
}
