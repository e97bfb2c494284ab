//! A drive that is carried out without a store.
ghost use Rattle.std.specs.Prelude.{ℕ, ◌+◌, ◌≡◌, ◌≤◌, ◌⊎◌, Err, OnOk};
ghost use Rattle.{outside.specs.Faults.{RisesOnlyIf}, meter_run.specs.Drives.{IsBoundedByDrive, RunsDrive, answer_of}};
ghost use Rattle.meter_run.specs.Common.{HasCause, KeepsStore, LeavesOthers, MayRise, Off, Rose, ended};
ghost use Rattle.meter_run.specs.Dry.{IsMeterReady, Prints, PrintsSome};

use crate::carrier::SealedTables;
use crate::drive::carry_drive;
use crate::dry::DryMeter;
use crate::fault::RunFault;
use crate::supply::is_off;
use drive_source::Stop;
use meter_model::Acts;
use outside::{Board, Failed, Files, Printer, STORE_SIZE};
use seal_record::Seal;
use std::sync::ledger::Ledger;
use tariff_compile::Tables;
use taxi_units::{Event, Steps};

/// Carries out the drive of a word without a store, under tables that were compiled with the seal's constant. It reads
/// pieces of at most 512 bytes, and carries out the events of each before it reads the next one. Displays and refusals
/// are printed, and no receipts. No store is needed, and none can be touched. The durable state is a value: it begins
/// with number 1, totals of zero and no held trip, entries and held trips change it, and an `Up` goes on from it. At
/// most 64 steps for each event of the bytes that were taken, and 64 for the supply drop at the end, if the supply is
/// there then. It takes no memory itself; the devices may.
///
/// `BadDrive` with the first line that is no line of a drive. `TooLong` if 2^40 bytes were taken, none of their lines
/// is bad, and the end wasn't told. `ReadFault` only if the count of faults of the word rose; `BoardFault` only if the
/// board's did. At the drive's end and before each of these but `BoardFault` the supply drops, if the meter is powered;
/// if the board fails in that, the answer is `BoardFault`. All of this is this project's own.
pub fn print_drive<F: Files, B: Printer<STORE_SIZE, L>, L: Ledger>(
    tables: &Tables,
    seal: &Seal,
    files: &mut F,
    word: usize,
    board: &mut B,
    steps: &mut Steps<L>,
) -> Result<(), RunFault>
    requires constant { tables.now.constant ≡ seal.now.params.constant }
    ensures ends { F.tells → RunsDrive B.tells_text tables.now seal.now
        (F.rest files.old word) (F.rest files.new word) (B.printed board.old) (B.printed board.new) result }
    ensures steps { IsBoundedByDrive 0 F.tells (F.rest files.old word) (F.rest files.new word) steps.old steps.new }
    ensures others { LeavesOthers F.rest word files.old files.new }
    ensures read_fault { result ≡ Err RunFault.ReadFault → Rose (F.faults files.old word) (F.faults files.new word) }
    ensures board_fault { RisesOnlyIf (result ≡ Err RunFault.BoardFault) (B.faults board.old) (B.faults board.new) }
    ensures counts { (other : ℕ) → MayRise ((result ≡ Err RunFault.ReadFault) ⊎ (result ≡ Err RunFault.BoardFault))
        (F.faults files.old other) (F.faults files.new other) }
    ensures store { KeepsStore B.Printer board.old board.new }
{
    tables.recall();
    let by = SealedTables { tables, seal };
    let mut meter = DryMeter::new();
    match carry_drive(&mut meter, &by, files, word, board, steps) {
        Ok(stop) => match drop_at_end(&mut meter, tables, seal, board, steps) {
            Ok(()) => answer(stop),
            Err(_) => Err(RunFault::BoardFault),
        },
        Err(_) => Err(RunFault::BoardFault),
    }
}

/// Carries out a drive as `print_drive` does, for those who have a board. Its store is left as it is. The same answers
/// come for the same reasons.
pub fn dry_run<F: Files, B: Board<STORE_SIZE, L>, L: Ledger>(
    tables: &Tables,
    seal: &Seal,
    files: &mut F,
    word: usize,
    board: &mut B,
    steps: &mut Steps<L>,
) -> Result<(), RunFault>
    requires constant { tables.now.constant ≡ seal.now.params.constant }
    ensures ends { F.tells → RunsDrive B.tells_text tables.now seal.now
        (F.rest files.old word) (F.rest files.new word) (B.printed board.old) (B.printed board.new) result }
    ensures steps { IsBoundedByDrive 0 F.tells (F.rest files.old word) (F.rest files.new word) steps.old steps.new }
    ensures others { LeavesOthers F.rest word files.old files.new }
    ensures read_fault { result ≡ Err RunFault.ReadFault → Rose (F.faults files.old word) (F.faults files.new word) }
    ensures board_fault { RisesOnlyIf (result ≡ Err RunFault.BoardFault) (B.faults board.old) (B.faults board.new) }
    ensures counts { (other : ℕ) → MayRise ((result ≡ Err RunFault.ReadFault) ⊎ (result ≡ Err RunFault.BoardFault))
        (F.faults files.old other) (F.faults files.new other) }
    ensures store { KeepsStore B.Printer board.old board.new }
{
    print_drive(tables, seal, files, word, board, steps)
}

/// The supply drops if the meter is powered. At most 64 steps, and none if it is off.
fn drop_at_end<B: Printer<STORE_SIZE, L>, L: Ledger>(
    meter: &mut DryMeter,
    tables: &Tables,
    seal: &Seal,
    board: &mut B,
    steps: &mut Steps<L>,
) -> Result<(), Failed>
    requires ready { IsMeterReady tables.now seal.now meter.old.core meter.old.durable }
    ensures whole { OnOk result (Prints B.Printer tables.now seal.now ended meter.old board.old board.new) }
    ensures begun { PrintsSome B.Printer tables.now seal.now ended meter.old board.old board.new }
    ensures cause { HasCause (B.faults board.old) (B.faults board.new) result }
    ensures steps { steps.new ≤ steps.old + 64 }
    ensures idle { meter.old.core.state.operating ≡ Off → steps.new ≡ steps.old }
    ensures store { KeepsStore B.Printer board.old board.new }
{
    if is_off(&meter.core) {
        return Ok(());
    }
    let mut acts = Acts::new();
    meter.carry_event(tables, seal, Event::Down, &mut acts, board, steps)
}

/// The answer of a run that stopped for a reason.
pub(crate) fn answer(stop: Stop) -> Result<(), RunFault>
    ensures { result ≡ answer_of stop }
{
    match stop {
        Stop::Whole => Ok(()),
        Stop::BadLine(line) => Err(RunFault::BadDrive(line)),
        Stop::TooLong => Err(RunFault::TooLong),
        Stop::ReadFault => Err(RunFault::ReadFault),
    }
}
