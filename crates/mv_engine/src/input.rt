//! The line that is being read, and the replies that are still to be written.

ghost use Rattle.std.specs.Prelude.{◌≡◌, ℕ, ◌+◌, ◌<◌, ◌≤◌, List, [], ◌∷◌, ◌++◌, length, OnOk, IfErr, vec_items};
ghost use Rattle.std.specs.Io.BufRead.{strip_last};
ghost use Rattle.mv_engine.specs.Lines.{IsUnended, unless_empty, line_limit, lines_limit, whole_from};
ghost use Rattle.mv_engine.specs.Replies.{Readied};
ghost use Rattle.mv_engine.specs.Served.{AreAnswered, Halted, TookAtMostOne, Wrote, StoppedAt};
ghost use Rattle.mv_engine.specs.inside.Taking.{StopsIn, Taken};

use crate::limits::{LINE_LIMIT, LINES_LIMIT};
use crate::{Answering, ServeFault, put_out};
use memchr::memchr;
use std::alloc::Global;
use std::io::Write;

/// What has come of the line that is being read, how many lines came before it, and the replies to write.
#[derive(Drop)]
pub(crate) struct Input {
    /// What has come of the line that is being read.
    pub(crate) begun: Vec<u8>,
    /// How many lines came before it.
    pub(crate) lines: u32,
    /// The replies that are ready to be written.
    pub(crate) replies: Vec<u8>,
    ghost few: { lines ≤ lines_limit },
    ghost not_behind: { 0 < length (vec_items begun) → lines < lines_limit },
    ghost short: { length (vec_items begun) ≤ line_limit },
}

impl Input {
    /// Nothing has come.
    pub(crate) fn new(alloc: Global) -> Input
        ensures begun { result.begun.items ≡ [] }
        ensures lines { result.lines ≡ 0 }
        ensures replies { result.replies.items ≡ [] }
    {
        Input {
            begun: Vec::new(alloc),
            lines: 0,
            replies: Vec::new(alloc),
        }
    }

    /// Takes the next bytes, and writes the replies to the lines that end in them.
    pub(crate) fn answer_block<S: Answering, W: Write>(
        &mut self,
        answering: &mut S,
        writer: &mut W,
        bytes: &[u8],
    ) -> Result<(), ServeFault>
        ensures ok { OnOk result (Wrote (W.contents writer.old) (W.contents writer.new) (λ out.
            Taken S.replies self.old.begun.items self.old.lines answering.old bytes.now
            self.new.begun.items self.new.lines answering.new out)) }
        ensures err { IfErr result (λ fault.
            Halted S.replies fault self.old.begun.items self.old.lines answering.old bytes.now
            (whole_from self.old.begun.items bytes.now) answering.new (W.contents writer.old) (W.contents writer.new)) }
    {
        self.replies.clear();
        let taken = self.take_all(answering, bytes);
        put_out(writer, self.replies.as_slice())?;
        taken
    }

    /// Writes the reply to the last line, where the input doesn't end by a line feed.
    pub(crate) fn answer_last<S: Answering, W: Write>(
        &mut self,
        answering: &mut S,
        writer: &mut W,
    ) -> Result<(), ServeFault>
        ensures ok { OnOk result (Wrote (W.contents writer.old) (W.contents writer.new)
            (AreAnswered S.replies self.old.lines answering.old (unless_empty self.old.begun.items) answering.new)) }
        ensures err { IfErr result (λ fault.
            Halted S.replies fault self.old.begun.items self.old.lines answering.old []
            (unless_empty self.old.begun.items) answering.new (W.contents writer.old) (W.contents writer.new)) }
    {
        self.replies.clear();
        let answered = self.finish(answering);
        put_out(writer, self.replies.as_slice())?;
        answered
    }

    /// Takes the next bytes, and answers the lines that end in them.
    fn take_all<S: Answering>(&mut self, answering: &mut S, bytes: &[u8]) -> Result<(), ServeFault>
        requires empty { self.old.replies.items ≡ [] }
        ensures ok { OnOk result (
            Taken S.replies self.old.begun.items self.old.lines answering.old bytes.now
            self.new.begun.items self.new.lines answering.new self.new.replies.items) }
        ensures err { IfErr result (λ fault.
            StoppedAt S.replies fault self.old.begun.items self.old.lines answering.old bytes.now
            (whole_from self.old.begun.items bytes.now) answering.new self.new.replies.items) }
    {
        let mut rest = bytes;
        while let Some(end) = memchr(b'\n', rest) {
            self.take_line(answering, &rest[..end])?;
            rest = &rest[end + 1..];
        }
        self.take_part(rest)
    }

    /// Takes what is left of a line, but for its line feed, and answers the line.
    fn take_line<S: Answering>(&mut self, answering: &mut S, part: &[u8]) -> Result<(), ServeFault>
        requires unended { IsUnended part.now }
        ensures ok { OnOk result (Readied self.old.replies.items self.new.replies.items (λ out.
            Taken S.replies self.old.begun.items self.old.lines answering.old
            (part.now ++ 10 ∷ []) self.new.begun.items self.new.lines answering.new out)) }
        // Where it stops, it does so whatever bytes come behind the line.
        ensures err { IfErr result (λ fault. (tail : List ℕ) →
            Readied self.old.replies.items self.new.replies.items (λ out.
            StoppedAt S.replies fault self.old.begun.items self.old.lines answering.old
            (part.now ++ 10 ∷ tail) (whole_from self.old.begun.items (part.now ++ 10 ∷ tail)) answering.new out)) }
    {
        self.check_part(part)?;
        if self.lines == LINES_LIMIT {
            return Err(ServeFault::TooManyLines);
        }
        self.answer_line(answering, part)?;
        self.begun.clear();
        self.lines += 1;
        Ok(())
    }

    /// Answers the line that has come whole with these bytes: where it stands, if nothing of it had come before.
    fn answer_line<S: Answering>(
        &mut self,
        answering: &mut S,
        part: &[u8],
    ) -> Result<(), ServeFault>
        requires few { self.old.lines < lines_limit }
        requires short { length self.old.begun.items + length part.now ≤ line_limit }
        ensures ok { OnOk result (Readied self.old.replies.items self.new.replies.items
            (AreAnswered S.replies self.old.lines answering.old
            ((self.old.begun.items ++ part.now) ∷ []) answering.new)) }
        ensures fault { IfErr result (λ fault. fault ≡ ServeFault.Memory) }
        ensures err { IfErr result (λ _. self.new.replies.items ≡ self.old.replies.items) }
        ensures left { IfErr result (λ _. TookAtMostOne S.replies self.old.lines answering.old
            ((self.old.begun.items ++ part.now) ∷ []) answering.new) }
        ensures lines { self.new.lines ≡ self.old.lines }
    {
        if self.begun.is_empty() {
            return answer_piece(answering, self.lines, part, &mut self.replies);
        }
        self.begun.extend_from_slice(part)?;
        let line = self.begun.as_slice();
        answer_piece(answering, self.lines, line, &mut self.replies)
    }

    /// Takes the next bytes of a line, of which none ends it.
    fn take_part(&mut self, part: &[u8]) -> Result<(), ServeFault>
        requires unended { IsUnended part.now }
        ensures ok { OnOk result (self.new.begun.items ≡ self.old.begun.items ++ part.now) }
        ensures err { IfErr result (λ fault.
            StopsIn fault self.old.begun.items self.old.lines part.now) }
        ensures lines { self.new.lines ≡ self.old.lines }
        ensures replies { self.new.replies.items ≡ self.old.replies.items }
    {
        self.check_part(part)?;
        self.begun.extend_from_slice(part)?;
        Ok(())
    }

    /// Whether the line may have these bytes more, of which none ends it.
    #[tactic(auto, using(crate::proofs::PartLemmas::too_long))]
    fn check_part(&self, part: &[u8]) -> Result<(), ServeFault>
        requires unended { IsUnended part.now }
        ensures behind { OnOk result (0 < length part.now → self.now.lines < lines_limit) }
        ensures short { OnOk result (length self.now.begun.items + length part.now ≤ line_limit) }
        ensures err { IfErr result (λ fault.
            StopsIn fault self.now.begun.items self.now.lines part.now) }
    {
        if part.is_empty() {
            return Ok(());
        }
        if self.lines == LINES_LIMIT {
            return Err(ServeFault::TooManyLines);
        }
        if part.len() > LINE_LIMIT - self.begun.len() {
            return Err(ServeFault::LineTooLong);
        }
        Ok(())
    }

    /// Answers the last line, if the input doesn't end by a line feed.
    fn finish<S: Answering>(&mut self, answering: &mut S) -> Result<(), ServeFault>
        requires empty { self.old.replies.items ≡ [] }
        ensures ok { OnOk result (AreAnswered S.replies self.old.lines answering.old
            (unless_empty self.old.begun.items) answering.new self.new.replies.items) }
        ensures err { IfErr result (λ fault.
            StoppedAt S.replies fault self.old.begun.items self.old.lines answering.old []
            (unless_empty self.old.begun.items) answering.new self.new.replies.items) }
    {
        if self.begun.is_empty() {
            return Ok(());
        }
        self.answer_line(answering, &[])?;
        Ok(())
    }
}

/// Writes the reply to a line that has come after `count` others, with what ends it but its line feed, behind those that are
/// ready; an empty line gets none.
#[tactic(auto, using(crate::proofs::RepliesLemmas::took_one))]
fn answer_piece<S: Answering>(
    answering: &mut S,
    count: u32,
    piece: &[u8],
    replies: &mut Vec<u8>,
) -> Result<(), ServeFault>
    requires few { count < lines_limit }
    requires short { length piece.now ≤ line_limit }
    ensures ok { OnOk result (Readied replies.old.items replies.new.items
        (AreAnswered S.replies count answering.old (piece.now ∷ []) answering.new)) }
    ensures fault { IfErr result (λ fault. fault ≡ ServeFault.Memory) }
    ensures err { IfErr result (λ _. replies.new.items ≡ replies.old.items) }
    ensures left { IfErr result (λ _.
        TookAtMostOne S.replies count answering.old (piece.now ∷ []) answering.new) }
{
    let line = without_return(piece);
    if line.is_empty() {
        return Ok(());
    }
    let kept = replies.len();
    if !answering.answer(count + 1, line, replies)? {
        replies.truncate(kept);
        return Ok(());
    }
    if replies.push(b'\n').is_err() {
        replies.truncate(kept);
        return Err(ServeFault::Memory);
    }
    Ok(())
}

/// The bytes without a carriage return at their end.
fn without_return(piece: &[u8]) -> &[u8]
    ensures { result.now ≡ strip_last 13 piece.now }
{
    match piece {
        [head @ .., b'\r'] => head,
        _ => piece,
    }
}
