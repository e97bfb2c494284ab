//! What a reader keeps, and what one part of a piece changes of it.
ghost use Rattle.std.specs.Prelude.{[], ◌++◌, ◌+◌, ◌<◌, ◌==◌, ◌^◌, ◌∷◌, ◌≡◌, IfErr, IfOk, List, OnErr, false};
ghost use Rattle.std.specs.Prelude.{if◌then◌else◌, length};
ghost use Rattle.{arrayvec.specs.ArrayVec.{array_vec_len}, taxi_units.specs.Reading.{Gives}};
ghost use Rattle.drive_text.specs.{Content.{runs_of}, Fields.{line_runs}, declared.run.Run.{Run}};
ghost use Rattle.drive_text.specs.{Lines.{IsOneLine, is_comment}, Reading.{HasFailed, HasSense, HasTaken}};

use crate::fields;
use crate::fields::{Content, content_of_line, is_long, without_carriage_return};
use crate::plain::plain_line;
use crate::reader::BadLine;
use crate::run::Run;
use arrayvec::ArrayVec;
use taxi_units::split_at_byte;

/// How many lines were begun, the bytes of an unfinished line that is no comment, whether the unfinished line is a
/// comment, and whether a bad line came.
#[derive(Drop)]
pub(crate) struct State {
    pub(crate) begun: u64,
    pub(crate) kept: ArrayVec<u8, 81>,
    pub(crate) comment: bool,
    pub(crate) failed: bool,
}

impl State {
    ghost use Rattle.drive_text.specs.Part.{FailsIn, TakesPart, reading_of};

    /// Before the first byte.
    pub(crate) fn new() -> State
        ensures new { reading_of result ≡ record { begun = 0; kept = []; comment = false; failed = false } }
        ensures taken { HasTaken (reading_of result) [] }
    {
        State {
            begun: 0,
            kept: ArrayVec::new(),
            comment: false,
            failed: false,
        }
    }

    /// Takes the first line of a piece with its LF, or the whole piece if it has no LF. Answers what is left of the
    /// piece.
    pub(crate) fn take<'a>(
        &mut self,
        piece: &'a [u8],
        out: &mut ArrayVec<Run, 64>,
    ) -> Result<&'a [u8], BadLine>
        requires sense { HasSense (reading_of self.old) }
        requires going { self.old.failed ≡ false }
        requires few { self.old.begun + 1 < 2 ^ 64 }
        requires some { 0 < length piece.now }
        requires room { array_vec_len out.old < 64 }
        ensures ok { IfOk result (λ rest.
            TakesPart (reading_of self.old) (reading_of self.new) piece.now rest.now out.old.items out.new.items) }
        ensures err { IfErr result (λ e. FailsIn (reading_of self.old) (reading_of self.new) piece.now e.line) }
        ensures out { OnErr result (out.new ≡ out.old) }
    {
        if !self.comment
            && self.kept.is_empty()
            && let Some((run, rest)) = plain_line(piece)
        {
            self.begun += 1;
            out.push(run);
            return Ok(rest);
        }
        let (line, rest) = split_at_byte(piece, b'\n');
        match rest {
            Some(rest) => {
                self.end_line(line, out)?;
                Ok(rest)
            }
            None => {
                self.add_part(line)?;
                Ok(&line[line.len()..])
            }
        }
    }

    /// Takes the last bytes of a line and its LF, and appends the run of the line, if it has one.
    #[inline(never)]
    fn end_line(&mut self, line: &[u8], out: &mut ArrayVec<Run, 64>) -> Result<(), BadLine>
        requires sense { HasSense (reading_of self.old) }
        requires going { self.old.failed ≡ false }
        requires few { self.old.begun + 1 < 2 ^ 64 }
        requires one { IsOneLine line.now }
        requires room { array_vec_len out.old < 64 }
        ensures ok { IfOk result (λ _.
            TakesPart (reading_of self.old) (reading_of self.new)
            (line.now ++ 10 ∷ []) [] out.old.items out.new.items) }
        ensures err { IfErr result (λ e.
            FailsIn (reading_of self.old) (reading_of self.new) (line.now ++ 10 ∷ []) e.line) }
        ensures out { OnErr result (out.new ≡ out.old) }
    {
        if self.comment {
            self.comment = false;
            return Ok(());
        }
        let number = self.number();
        match self.content_with(line) {
            None => Err(self.fail(number)),
            Some(Content::Nothing) => {
                self.begun = number;
                Ok(())
            }
            Some(Content::One(run)) => {
                self.begun = number;
                out.push(run);
                Ok(())
            }
        }
    }

    /// Takes bytes of a line that doesn't end in them.
    #[inline(never)]
    fn add_part(&mut self, part: &[u8]) -> Result<(), BadLine>
        requires sense { HasSense (reading_of self.old) }
        requires going { self.old.failed ≡ false }
        requires few { self.old.begun + 1 < 2 ^ 64 }
        requires one { IsOneLine part.now }
        requires some { 0 < length part.now }
        ensures ok { IfOk result (λ _. (runs : List Run)
            → TakesPart (reading_of self.old) (reading_of self.new) part.now [] runs runs) }
        ensures err { IfErr result (λ e. FailsIn (reading_of self.old) (reading_of self.new) part.now e.line) }
    {
        if self.comment {
            return Ok(());
        }
        let number = self.number();
        if self.begins_comment(part) {
            self.begun = number;
            self.comment = true;
            return Ok(());
        }
        match self.kept.try_extend_from_slice(part) {
            Err(_) => Err(self.fail(number)),
            Ok(()) => {
                if is_long(without_carriage_return(self.kept.as_slice())) {
                    return Err(self.fail(number));
                }
                self.begun = number;
                Ok(())
            }
        }
    }

    /// Whether these bytes begin a comment.
    fn begins_comment(&self, part: &[u8]) -> bool
        requires { is_comment self.now.kept.items ≡ false }
        ensures { result ≡ is_comment (self.now.kept.items ++ part.now) }
    {
        self.kept.is_empty() && fields::is_comment(part)
    }

    /// The number of the line that has the next byte.
    fn number(&self) -> u64
        requires { self.now.begun + 1 < 2 ^ 64 }
        ensures { result ≡ (if length self.now.kept.items == 0 then self.now.begun + 1 else self.now.begun) }
    {
        if self.kept.is_empty() {
            self.begun + 1
        } else {
            self.begun
        }
    }

    /// What the line has that these bytes end. Nothing of the line is kept.
    ///
    /// `None` if it is no line of a drive.
    fn content_with(&mut self, line: &[u8]) -> Option<Content>
        requires { is_comment self.old.kept.items ≡ false }
        ensures content { Gives runs_of result (line_runs (self.old.kept.items ++ line.now)) }
        ensures state { reading_of self.new
            ≡ record { begun = self.old.begun; kept = []; comment = self.old.comment; failed = self.old.failed } }
    {
        if self.kept.is_empty() {
            return content_of_line(line);
        }
        match self.kept.try_extend_from_slice(line) {
            Ok(()) => {
                let content = content_of_line(self.kept.as_slice());
                self.kept.clear();
                content
            }
            Err(_) => {
                self.kept.clear();
                None
            }
        }
    }

    /// Fails at the line of this number, and keeps nothing.
    fn fail(&mut self, number: u64) -> BadLine
        ensures line { result.line ≡ number }
        ensures failed { HasFailed (reading_of self.new) number }
    {
        self.begun = number;
        self.kept.clear();
        self.comment = false;
        self.failed = true;
        BadLine { line: number }
    }
}
