//! Reads the receipts of a roll from its file, piece by piece.
ghost use Rattle.std.specs.Prelude.{[], ℕ, ◌++◌, ◌+◌, ◌-◌, ◌<◌, ◌↔◌, ◌∷◌, ◌≡◌, ◌≢◌, ◌≤◌, Err, IfErr, IfNone, IfOk};
ghost use Rattle.std.specs.Prelude.{IfSome, IsErr, IsTrue, List, None, Ok, OnErr, OnOk, Some, drop, is_some, length};
ghost use Rattle.{std.specs.Prelude.{option_to_list, take, true}, outside.specs.Faults.{HasCause}};
ghost use Rattle.receipt_reading.specs.{Common.{LeavesOthers, MayRise, RisesOnlyIf, stream_limit}, Printed.{IsPrinted}};
ghost use Rattle.receipt_reading.specs.Reading.{FailsNow, GoesOn, HasBegun, IsOver, IsReading, ReadsOn};
ghost use Rattle.receipt_reading.specs.declared.roll.RollEnd.{RollEnd};

use crate::printed_receipt::PrintedReceipt;
use crate::receipt_search::find_receipt;
use outside::{Failed, Files};
use std::marker::Model;
use taxi_units::STREAM_LIMIT;

/// How many bytes of a roll are looked through at once.
const WINDOW: usize = 8192;

/// Why no more of a roll is read.
#[derive(Clone, Copy)]
pub enum RollEnd {
    /// The roll was read to its end.
    Whole,
    /// As many bytes as a roll may have were taken, and its end wasn't seen.
    TooLong,
    /// A read failed.
    ReadFault,
}

/// A reader of a roll, which is the printed output of runs: it may break off anywhere and go on with the output of the
/// next run. It looks through the file of a word by a window of 8,192 bytes, and takes no memory.
#[derive(Drop)]
pub struct Roll {
    window: [u8; WINDOW],
    from: usize,
    to: usize,
    left: u64,
    end: Option<RollEnd>,
}

impl Model for Roll {
    ghost use Rattle.std.specs.Prelude.{◌-◌, ◌≤◌, drop, take};
    ghost use Rattle.receipt_reading.specs.Reading.{Place};

    ghost Value = { Place };

    ghost view = { λ r. record { ahead = take (r.to - r.from) (drop r.from r.window); left = r.left; end = r.end } };

    ghost invariant = { λ r. (r.from ≤ r.to) × (r.to ≤ 8192) };
}

impl Roll {
    /// Begins to read the roll of a word, by one reading, unless that fails.
    pub fn begin<F: Files>(files: &mut F, word: usize) -> Roll
        ensures reads { IsReading F.Files word files.old files.new result [] }
        ensures begun { result.end ≢ Some RollEnd.ReadFault → HasBegun result }
        ensures failed { result.end ≡ Some RollEnd.ReadFault → IsOver result RollEnd.ReadFault
            × (result.left ≡ stream_limit) }
    {
        let mut roll = Roll {
            window: [0; WINDOW],
            from: 0,
            to: 0,
            left: STREAM_LIMIT,
            end: None,
        };
        roll.fill(files, word);
        roll
    }

    /// Whether a reading failed.
    pub fn has_failed(&self) -> bool
        ensures { IsTrue result ↔ (self.now.end ≡ Some RollEnd.ReadFault) }
    {
        matches!(self.end, Some(RollEnd::ReadFault))
    }

    /// The next receipt of the roll, wherever it begins: a torn text hides no receipt that follows it. If no more of
    /// the roll is read, the call looks through all that was taken, and then answers why. Each later call answers the
    /// same, and nothing is read any more: no read follows one that failed.
    ///
    /// `Whole`: the end of the file. `TooLong`: 2^40 bytes were taken and the end wasn't seen. `ReadFault`: a read
    /// failed, which raises the word's count of faults; a call before this answer may have met it and then handed out a
    /// receipt. The limit is this project's own.
    pub fn next<F: Files>(&mut self, files: &mut F, word: usize) -> Result<PrintedReceipt, RollEnd>
        ensures receipt { IfOk result IsPrinted }
        ensures found { IfOk result (λ it. ReadsOn F.Files word files.old files.new self.old self.new (it ∷ [])) }
        ensures over { OnErr result (ReadsOn F.Files word files.old files.new self.old self.new []) }
        ensures end { IfErr result (IsOver self.new) }
        ensures again { (end : RollEnd) → IsOver self.old end
            → (result ≡ Err end) × (self.new ≡ self.old) × (files.new ≡ files.old) }
        ensures fewer { OnOk result (length self.new.ahead + self.new.left < length self.old.ahead + self.old.left) }
        ensures left { self.new.left ≤ self.old.left }
        ensures stays { (end : RollEnd) → self.old.end ≡ Some end
            → (self.new.end ≡ Some end) × (files.new ≡ files.old) }
    {
        loop {
            if let Some(receipt) = self.find() {
                return Ok(receipt);
            }
            if let Some(end) = self.end {
                return Err(end);
            }
            self.fill(files, word);
        }
    }

    /// Looks for the next receipt in what is ahead.
    fn find(&mut self) -> Option<PrintedReceipt>
        ensures receipt { IfSome result IsPrinted }
        ensures goes { (rest : List ℕ) → GoesOn self.old self.new rest rest (option_to_list result) }
        ensures fewer { IfSome result (λ _. length self.new.ahead < length self.old.ahead) }
        ensures no_more { length self.new.ahead ≤ length self.old.ahead }
        ensures few { IfNone result (length self.new.ahead < 480) }
        ensures all { IfNone result (is_some self.new.end ≡ true → self.new.ahead ≡ []) }
        ensures nothing { self.old.ahead ≡ [] → (result ≡ None) × (self.new ≡ self.old) }
        ensures left { self.new.left ≡ self.old.left }
        ensures end { self.new.end ≡ self.old.end }
    {
        let ended = self.end.is_some();
        let (count, receipt) = find_receipt(&self.window[self.from..self.to], ended);
        self.from += count;
        receipt
    }

    /// Takes more bytes, or finds why no more are taken.
    fn fill<F: Files>(&mut self, files: &mut F, word: usize)
        requires going { self.old.end ≡ None }
        requires few { length self.old.ahead < 480 }
        ensures goes { F.tells → GoesOn self.old self.new (F.rest files.old word) (F.rest files.new word) [] }
        ensures fewer { self.new.end ≡ None → self.new.left < self.old.left }
        ensures most { length self.new.ahead + self.new.left ≤ length self.old.ahead + self.old.left }
        ensures left { self.new.left ≤ self.old.left }
        ensures failed { self.new.end ≡ Some RollEnd.ReadFault → (self.new.ahead ≡ self.old.ahead)
            × (self.new.left ≡ self.old.left) }
        ensures long { self.new.end ≡ Some RollEnd.TooLong → self.old.left ≡ 0 }
        ensures fault { RisesOnlyIf (self.new.end ≡ Some RollEnd.ReadFault)
            (F.faults files.old word) (F.faults files.new word) }
        ensures others { LeavesOthers F.rest word files.old files.new }
        ensures counts { (other : ℕ) → MayRise (self.new.end ≡ Some RollEnd.ReadFault)
            (F.faults files.old other) (F.faults files.new other) }
    {
        if self.left == 0 {
            self.end = Some(RollEnd::TooLong);
            return;
        }
        let kept = close_up(&mut self.window, self.from, self.to);
        self.from = 0;
        self.to = kept;
        let most = self.left.min((WINDOW - kept) as u64) as usize;
        match read_behind(files, word, &mut self.window, kept, most) {
            Ok(0) => {
                self.end = Some(RollEnd::Whole);
            }
            Ok(count) => {
                self.to = kept + count;
                self.left -= count as u64;
            }
            Err(_) => {
                self.end = Some(RollEnd::ReadFault);
            }
        }
    }
}

/// Moves the bytes from one place to another to the front, and answers how many they are.
fn close_up(window: &mut [u8], from: usize, to: usize) -> usize
    requires { (from ≤ to) × (to ≤ length window.old) }
    ensures count { result ≡ to - from }
    ensures front { take (to - from) window.new ≡ take (to - from) (drop from window.old) }
{
    window.copy_within(from..to, 0);
    to - from
}

/// Reads the next bytes of a word's file, at most this number, behind the bytes that are kept at the front.
fn read_behind<F: Files>(
    files: &mut F,
    word: usize,
    window: &mut [u8],
    kept: usize,
    most: usize,
) -> Result<usize, Failed>
    requires some { 0 < most }
    requires room { kept + most ≤ length window.old }
    ensures within { IfOk result (λ n. n ≤ most) }
    ensures kept { take kept window.new ≡ take kept window.old }
    ensures taken { F.tells → IfOk result (λ n. F.rest files.old word
        ≡ take n (drop kept window.new) ++ F.rest files.new word) }
    ensures over { F.tells → result ≡ Ok 0 → F.rest files.old word ≡ [] }
    ensures same { F.tells → OnErr result (F.rest files.new word ≡ F.rest files.old word) }
    ensures others { LeavesOthers F.rest word files.old files.new }
    ensures cause { HasCause (F.faults files.old word) (F.faults files.new word) result }
    ensures counts { (other : ℕ) → MayRise (IsErr result) (F.faults files.old other) (F.faults files.new other) }
{
    files.read(word, &mut window[kept..kept + most])
}
