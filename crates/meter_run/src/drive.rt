//! Carries out a drive, until no more of it is read.
ghost use Rattle.std.specs.Prelude.{ℕ, ◌++◌, ◌<◌, ◌≡◌, ◌≢◌, ◌⊎◌, IfOk, IfSome, IsErr, List, None, Ok, OnErr, OnOk};
ghost use Rattle.{std.specs.Prelude.{Some, length}, meter_run.specs.Drives.{BreaksDrive, TakesDrive}};
ghost use Rattle.meter_run.specs.Common.{HasCause, HasGiven, LeavesOthers, MayRise, Rose, events_in};
ghost use Rattle.meter_run.specs.Pieces.{AreCarried, CarriesAhead, CarriesPiece, IsThrough};

use crate::carrier::{Carrier, SealedTables};
use crate::runs::carry_runs;
use arrayvec::ArrayVec;
use drive_source::{Source, Stop};
use drive_text::Run;
use meter_model::Acts;
use outside::{Failed, Files, Printer, STORE_SIZE};
use std::sync::ledger::Ledger;
use taxi_units::Steps;

/// Reads the drive of a word, piece by piece, and carries out the events of each piece before it reads the next one.
/// The answer is why no more of the drive is read. At most 64 steps an event.
pub(crate) fn carry_drive<C: Carrier<B, L>, F: Files, B: Printer<STORE_SIZE, L>, L: Ledger>(
    meter: &mut C,
    by: &SealedTables<'_>,
    files: &mut F,
    word: usize,
    board: &mut B,
    steps: &mut Steps<L>,
) -> Result<Stop, Failed>
    requires ready { C.ready by.now meter.old board.old }
    ensures ready { OnOk result (C.ready by.now meter.new board.new) }
    ensures carried { IfOk result (λ stop. TakesDrive F.tells (F.rest files.old word) (F.rest files.new word) stop
        (λ events. C.carried by.now meter.old board.old events meter.new board.new) steps.old steps.new) }
    ensures broke_off { OnErr result (BreaksDrive F.tells (F.rest files.old word) (F.rest files.new word)
        (λ events. C.broke_off by.now meter.old board.old events board.new) steps.old steps.new) }
    ensures cause { HasCause (B.faults board.old) (B.faults board.new) result }
    ensures others { LeavesOthers F.rest word files.old files.new }
    ensures read_fault { result ≡ Ok Stop.ReadFault → Rose (F.faults files.old word) (F.faults files.new word) }
    ensures counts { (other : ℕ) → MayRise ((result ≡ Ok Stop.ReadFault) ⊎ IsErr result)
        (F.faults files.old other) (F.faults files.new other) }
{
    let mut source = Source::new();
    let mut runs: ArrayVec<Run, 64> = ArrayVec::new();
    let mut acts = Acts::new();
    loop {
        let stop = carry_piece(
            meter,
            by,
            &mut source,
            files,
            word,
            &mut runs,
            &mut acts,
            board,
            steps,
        )?;
        if let Some(stop) = stop {
            return Ok(stop);
        }
    }
}

/// Reads at most one piece of a drive, and carries out the events of all bytes that were taken so far, with those of
/// this piece. `None` if more may follow. If it stops for another reason than a bad line, it took no bytes, so no piece
/// is read behind another. `runs` and `acts` are lists to work with.
fn carry_piece<C: Carrier<B, L>, F: Files, B: Printer<STORE_SIZE, L>, L: Ledger>(
    meter: &mut C,
    by: &SealedTables<'_>,
    source: &mut Source,
    files: &mut F,
    word: usize,
    runs: &mut ArrayVec<Run, 64>,
    acts: &mut Acts,
    board: &mut B,
    steps: &mut Steps<L>,
) -> Result<Option<Stop>, Failed>
    requires ready { C.ready by.now meter.old board.old }
    requires through { (taken : List ℕ) × IsThrough source.old taken }
    ensures ready { OnOk result (C.ready by.now meter.new board.new) }
    ensures goes_on { result ≡ Ok None → (x : C) (a : B) (start : ℕ) (taken : List ℕ) → IsThrough source.old taken
        → AreCarried taken (λ events. C.carried by.now x a events meter.old board.old) start steps.old
        → CarriesPiece F.tells source.new (F.rest files.old word) (F.rest files.new word) taken
        (λ events. C.carried by.now x a events meter.new board.new) start steps.new }
    ensures stops { IfOk result (λ answer. IfSome answer (λ stop. (x : C) (a : B) (start : ℕ) (taken : List ℕ)
        → IsThrough source.old taken
        → AreCarried taken (λ events. C.carried by.now x a events meter.old board.old) start steps.old
        → TakesDrive F.tells (taken ++ F.rest files.old word) (F.rest files.new word) stop
        (λ events. C.carried by.now x a events meter.new board.new) start steps.new)) }
    ensures broke_off { OnErr result ((x : C) (a : B) (start : ℕ) (taken : List ℕ) → IsThrough source.old taken
        → AreCarried taken (λ events. C.carried by.now x a events meter.old board.old) start steps.old
        → BreaksDrive F.tells (taken ++ F.rest files.old word) (F.rest files.new word)
        (λ events. C.broke_off by.now x a events board.new) start steps.new) }
    ensures unread { (stop : Stop) → result ≡ Ok (Some stop) → ((line : ℕ) → stop ≢ Stop.BadLine line) → F.tells
        → F.rest files.new word ≡ F.rest files.old word }
    ensures cause { HasCause (B.faults board.old) (B.faults board.new) result }
    ensures others { LeavesOthers F.rest word files.old files.new }
    ensures read_fault { result ≡ Ok (Some Stop.ReadFault) → Rose (F.faults files.old word) (F.faults files.new word) }
    ensures counts { (other : ℕ) → MayRise (result ≡ Ok (Some Stop.ReadFault))
        (F.faults files.old other) (F.faults files.new other) }
{
    if let Some(stop) = source.read_piece(files, word) {
        return Ok(Some(stop));
    }
    carry_ahead(meter, by, source, runs, acts, board, steps)
}

/// Carries out the events of the bytes that are ahead of a source, of which there is at least one. `None` if all lines
/// are good; else the first bad line among them, behind the events before it.
fn carry_ahead<C: Carrier<B, L>, B: Printer<STORE_SIZE, L>, L: Ledger>(
    meter: &mut C,
    by: &SealedTables<'_>,
    source: &mut Source,
    runs: &mut ArrayVec<Run, 64>,
    acts: &mut Acts,
    board: &mut B,
    steps: &mut Steps<L>,
) -> Result<Option<Stop>, Failed>
    requires ready { C.ready by.now meter.old board.old }
    requires given { (given : List ℕ) × HasGiven source.old given }
    requires some { 0 < length source.old.ahead }
    ensures ready { OnOk result (C.ready by.now meter.new board.new) }
    ensures goes_on { result ≡ Ok None → (x : C) (a : B) (start : ℕ) (given : List ℕ) → HasGiven source.old given
        → AreCarried given (λ events. C.carried by.now x a events meter.old board.old) start steps.old
        → CarriesAhead source.old source.new given (λ events. C.carried by.now x a events meter.new board.new)
        start steps.new }
    ensures stops { IfOk result (λ answer. IfSome answer (λ stop. (x : C) (a : B) (start : ℕ) (given rest : List ℕ)
        → HasGiven source.old given
        → AreCarried given (λ events. C.carried by.now x a events meter.old board.old) start steps.old
        → TakesDrive (Unit {0}) (given ++ (source.old.ahead ++ rest)) rest stop
        (λ events. C.carried by.now x a events meter.new board.new) start steps.new)) }
    ensures broke_off { OnErr result ((x : C) (a : B) (start : ℕ) (given rest : List ℕ) → HasGiven source.old given
        → AreCarried given (λ events. C.carried by.now x a events meter.old board.old) start steps.old
        → BreaksDrive (Unit {0}) (given ++ (source.old.ahead ++ rest)) rest
        (λ events. C.broke_off by.now x a events board.new) start steps.new) }
    ensures bad { (stop : Stop) → result ≡ Ok (Some stop) → (line : ℕ) × (stop ≡ Stop.BadLine line) }
    ensures cause { HasCause (B.faults board.old) (B.faults board.new) result }
{
    'ahead: loop {
        runs.clear();
        let stop = source.feed(runs);
        carry_runs(meter, by, runs.as_slice(), acts, board, steps)?;
        if let Some(stop) = stop {
            return Ok(Some(stop));
        }
        if source.is_through() {
            return Ok(None);
        }
    }
}
