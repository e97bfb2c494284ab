//! Reads a drive in any pieces.
ghost use Rattle.std.specs.Prelude.{[], ℕ, ◌++◌, ◌+◌, ◌<◌, ◌^◌, ◌≡◌, ◌≤◌, All, IfErr, IfOk, List, None, OnErr, OnOk};
ghost use Rattle.{std.specs.Prelude.{Some, false, length, take, true}, arrayvec.specs.ArrayVec.{array_vec_len}};
ghost use Rattle.drive_text.specs.{Drive.{bad_at_end}, Ranges.{IsRunInRange}, Reading.{BreaksIn, HasTaken, TakesTo}};

use crate::run::Run;
use crate::state::State;
use arrayvec::ArrayVec;
use std::marker::Model;

/// A line, counted from 1, that is no line of a drive.
#[derive(Clone, Copy)]
pub struct BadLine {
    pub line: u64,
}

/// Reads a drive that comes in pieces. It keeps the bytes of one unfinished line, at most 81, and takes no memory.
///
/// Contracts see a reader as a `Reading`, and say by `HasTaken` which bytes it has taken; for each reader there are
/// such bytes. After a bad line every call answers that line again.
#[derive(Drop)]
pub struct Reader {
    state: State,
}

impl Model for Reader {
    ghost use Rattle.drive_text.specs.{Part.{reading_of}, Reading.{HasSense, Reading}};

    ghost Value = { Reading };

    ghost view = { λ r. reading_of r.state };

    ghost invariant = { λ r. HasSense (reading_of r.state) };
}

impl Reader {
    /// A reader that has taken nothing.
    pub fn new() -> Reader
        ensures new { result ≡ record { begun = 0; kept = []; comment = false; failed = false } }
        ensures taken { HasTaken result [] }
    {
        Reader {
            state: State::new(),
        }
    }

    /// Takes bytes of a piece, appends the runs of the lines that end in them, and answers how many bytes it took: all
    /// of the piece, or all up to the LF whose run filled `out`. With a full `out` it takes none.
    ///
    /// `BadLine` with the first bad line, if the runs of the lines before it leave room in `out`. A line is bad if it
    /// is ended and is no line of a drive, or if it has more than 80 bytes and is no comment. `out` then has the runs
    /// before it, and the piece counts as taken. Each later call answers the same, whether `out` is full or not, and
    /// changes nothing. The lines and their limits are this project's own.
    ///
    /// The bytes taken and those of the piece are together fewer than 2^64. It is enough that the lines begun and the
    /// bytes of the piece are, since no more lines were begun than bytes taken.
    pub fn feed(&mut self, piece: &[u8], out: &mut ArrayVec<Run, 64>) -> Result<usize, BadLine>
        requires few { self.old.begun + length piece.now < 2 ^ 64 }
        ensures within { IfOk result (λ n. n ≤ length piece.now) }
        ensures some { IfOk result (λ n. array_vec_len out.old < 64 → 0 < length piece.now → 0 < n) }
        ensures taken { IfOk result (λ n. (b : List ℕ) → HasTaken self.old b
            → HasTaken self.new (b ++ take n piece.now)) }
        ensures runs { IfOk result (λ n. (b : List ℕ) → HasTaken self.old b
            → TakesTo b piece.now out.old.items out.new.items n) }
        ensures failed { OnErr result ((b : List ℕ) → HasTaken self.old b → HasTaken self.new (b ++ piece.now)) }
        ensures bad { IfErr result (λ e. self.old.failed ≡ false → (b : List ℕ) → HasTaken self.old b
            → BreaksIn b piece.now out.old.items out.new.items e.line) }
        ensures again { self.old.failed ≡ true → (result ≡ Err (record { line = self.old.begun }))
            × (self.new ≡ self.old) × (out.new ≡ out.old) }
        ensures stands { OnErr result (self.new.failed ≡ true) × IfErr result (λ e. e.line ≡ self.new.begun)
            × OnOk result (self.new.failed ≡ false) }
        ensures begun { IfOk result (λ n. self.new.begun ≤ self.old.begun + n) }
        ensures begun_at_most { self.new.begun ≤ self.old.begun + length piece.now }
        ensures range { All IsRunInRange out.old.items → All IsRunInRange out.new.items }
    {
        if self.state.failed {
            return Err(BadLine {
                line: self.state.begun,
            });
        }
        let mut rest = piece;
        while !rest.is_empty() {
            if out.is_full() {
                return Ok(piece.len() - rest.len());
            }
            rest = self.state.take(rest, out)?;
        }
        Ok(piece.len())
    }

    /// Tells whether the drive may end here.
    ///
    /// `BadLine` with the line that `feed` answered before, or with the unfinished line if bytes are behind the last
    /// LF.
    pub fn finish(&self) -> Result<(), BadLine>
        ensures ok { OnOk result ((b : List ℕ) → HasTaken self.now b → bad_at_end b ≡ None) }
        ensures bad { IfErr result (λ e. (b : List ℕ) → HasTaken self.now b → bad_at_end b ≡ Some e.line) }
    {
        if self.state.failed || self.state.comment || !self.state.kept.is_empty() {
            Err(BadLine {
                line: self.state.begun,
            })
        } else {
            Ok(())
        }
    }
}
