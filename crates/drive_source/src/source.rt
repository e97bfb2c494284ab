//! Reads a drive from its file, piece by piece.
ghost use Rattle.std.specs.Prelude.{[], ℕ, ◌-◌, ◌<◌, ◌↔◌, ◌≡◌, ◌≢◌, ◌≤◌, All, IfSome, IsTrue, List, None, Some, drop};
ghost use Rattle.{std.specs.Prelude.{length, take}, outside.specs.{Faults.{MayRise, Rose}, Reading.{LeavesOthers}}};
ghost use Rattle.drive_text.specs.{Drive.{bad_at_end}, Ranges.{IsRunInRange}};
ghost use Rattle.drive_source.specs.{Common.{HasTaken}, Source.{Fills, GivesRuns, HasGiven, StopsBy}};

use arrayvec::ArrayVec;
use drive_text::{Reader, Run};
use outside::Files;
use std::marker::Model;
use taxi_units::STREAM_LIMIT;

/// Why no more of a drive is read.
#[derive(Clone, Copy)]
pub enum Stop {
    /// The drive was read to its end.
    Whole,
    /// The line of this number, from 1, is no line of a drive.
    BadLine(u64),
    /// As many bytes as a drive may have were taken, and its end wasn't told.
    TooLong,
    /// A read failed.
    ReadFault,
}

/// A source of the runs of a drive: it reads the file of a word in pieces of at most 512 bytes, and takes
/// no memory.
#[derive(Drop)]
pub struct Source {
    reader: Reader,
    piece: [u8; 512],
    from: usize,
    to: usize,
    left: u64,
}

impl Model for Source {
    ghost use Rattle.std.specs.Prelude.{◌-◌, ◌≤◌, drop, take};
    ghost use Rattle.drive_source.specs.Source.{Progress};

    ghost Value = { Progress };

    ghost view = { λ s. record {
      reading = s.reader;
      ahead = take (s.to - s.from) (drop s.from s.piece);
      left = s.left;
    } };

    ghost invariant = { λ s. (s.from ≤ s.to) × (s.to ≤ 512) };
}

impl Source {
    /// A source that has given nothing.
    pub fn new() -> Source
        ensures given { HasGiven result [] }
        ensures none { result.ahead ≡ [] }
    {
        Source {
            reader: Reader::new(),
            piece: [0; 512],
            from: 0,
            to: 0,
            left: STREAM_LIMIT,
        }
    }

    /// Gives the runs of the next lines, at most 64, in place of what `runs` has. `None` if more may follow; the runs
    /// are then those of at least one byte. Otherwise no more is read: the drive is too long or has ended, a line is
    /// bad, or the read failed. `runs` then has the runs of the last good lines.
    ///
    /// A drive has at most 2^40 bytes, and each of its lines ends in LF; both are this project's own.
    pub fn next<F: Files>(
        &mut self,
        files: &mut F,
        word: usize,
        runs: &mut ArrayVec<Run, 64>,
    ) -> Option<Stop>
        requires given { (given : List ℕ) × HasGiven self.old given }
        ensures more { result ≡ None → (given : List ℕ) → HasGiven self.old given
            → GivesRuns F.tells self.old self.new (F.rest files.old word) (F.rest files.new word) given runs.new.items }
        ensures stops { IfSome result (λ stop. (given : List ℕ) → HasGiven self.old given
            → StopsBy F.tells self.old (F.rest files.old word) (F.rest files.new word) given runs.new.items stop) }
        ensures range { All IsRunInRange runs.new.items }
        ensures others { LeavesOthers F.rest word files.old files.new }
        ensures read_fault { result ≡ Some Stop.ReadFault → Rose (F.faults files.old word) (F.faults files.new word) }
        ensures counts { (other : ℕ)
            → MayRise (result ≡ Some Stop.ReadFault) (F.faults files.old other) (F.faults files.new other) }
    {
        runs.clear();
        if let Some(stop) = self.fill(files, word) {
            return Some(stop);
        }
        self.feed(runs)
    }

    /// Whether no byte that was taken is ahead.
    pub fn is_through(&self) -> bool
        ensures { IsTrue result ↔ (self.now.ahead ≡ []) }
    {
        part(&self.piece, self.from, self.to).is_empty()
    }

    /// Reads the next piece, if nothing is ahead.
    fn fill<F: Files>(&mut self, files: &mut F, word: usize) -> Option<Stop>
        ensures filled { result ≡ None → Fills F.tells self.old self.new (F.rest files.old word)
            (F.rest files.new word) }
        ensures stops { IfSome result (λ stop. (given : List ℕ) → HasGiven self.old given
            → StopsBy F.tells self.old (F.rest files.old word) (F.rest files.new word) given [] stop) }
        ensures others { LeavesOthers F.rest word files.old files.new }
        ensures read_fault { result ≡ Some Stop.ReadFault → Rose (F.faults files.old word) (F.faults files.new word) }
        ensures counts { (other : ℕ)
            → MayRise (result ≡ Some Stop.ReadFault) (F.faults files.old other) (F.faults files.new other) }
    {
        if self.from < self.to {
            return None;
        }
        self.read_piece(files, word)
    }

    /// Reads the next piece, by one read. If it stops, it took no bytes.
    pub fn read_piece<F: Files>(&mut self, files: &mut F, word: usize) -> Option<Stop>
        requires none { self.old.ahead ≡ [] }
        ensures filled { result ≡ None → Fills F.tells self.old self.new (F.rest files.old word)
            (F.rest files.new word) }
        ensures stops { IfSome result (λ stop. (given : List ℕ) → HasGiven self.old given
            → StopsBy F.tells self.old (F.rest files.old word) (F.rest files.new word) given [] stop) }
        ensures few { result ≡ None → length self.new.ahead ≤ 512 }
        ensures unread { result ≢ None → F.tells → F.rest files.new word ≡ F.rest files.old word }
        ensures others { LeavesOthers F.rest word files.old files.new }
        ensures read_fault { result ≡ Some Stop.ReadFault → Rose (F.faults files.old word) (F.faults files.new word) }
        ensures counts { (other : ℕ)
            → MayRise (result ≡ Some Stop.ReadFault) (F.faults files.old other) (F.faults files.new other) }
    {
        if self.left == 0 {
            return Some(Stop::TooLong);
        }
        let most = self.left.min(512) as usize;
        match files.read(word, &mut self.piece[..most]) {
            Ok(0) => Some(self.end()),
            Ok(count) => {
                self.from = 0;
                self.to = count;
                self.left -= count as u64;
                None
            }
            Err(_) => Some(Stop::ReadFault),
        }
    }

    /// How a drive ends if no byte follows.
    fn end(&self) -> Stop
        ensures whole { result ≡ Stop.Whole → (given : List ℕ) → HasTaken self.now.reading given
            → bad_at_end given ≡ None }
        ensures bad { (line : ℕ) → result ≡ Stop.BadLine line → (given : List ℕ) → HasTaken self.now.reading given
            → bad_at_end given ≡ Some line }
        ensures not_long { result ≢ Stop.TooLong }
        ensures not_fault { result ≢ Stop.ReadFault }
    {
        match self.reader.finish() {
            Ok(()) => Stop::Whole,
            Err(bad) => Stop::BadLine(bad.line),
        }
    }

    /// Gives the reader what is ahead, and appends its runs. It stops at a bad line alone.
    pub fn feed(&mut self, runs: &mut ArrayVec<Run, 64>) -> Option<Stop>
        requires given { (given : List ℕ) × HasGiven self.old given }
        requires some { 0 < length self.old.ahead }
        requires none { runs.old.items ≡ [] }
        ensures more { result ≡ None → (given rest : List ℕ) → HasGiven self.old given
            → GivesRuns (Unit {0}) self.old self.new rest rest given runs.new.items }
        ensures stops { IfSome result (λ stop. (given rest : List ℕ) → HasGiven self.old given
            → StopsBy (Unit {0}) self.old rest rest given runs.new.items stop) }
        ensures no_fault { result ≢ Some Stop.ReadFault }
        ensures bad { (stop : Stop) → result ≡ Some stop → (line : ℕ) × (stop ≡ Stop.BadLine line) }
        ensures range { All IsRunInRange runs.new.items }
    {
        let ahead = part(&self.piece, self.from, self.to);
        match self.reader.feed(ahead, runs) {
            Ok(taken) => {
                self.from += taken;
                None
            }
            Err(bad) => Some(Stop::BadLine(bad.line)),
        }
    }
}

/// The bytes of a piece from one place to another.
fn part(piece: &[u8], from: usize, to: usize) -> &[u8]
    requires { (from ≤ to) × (to ≤ length piece.now) }
    ensures { result.now ≡ take (to - from) (drop from piece.now) }
{
    &piece[from..to]
}
