//! A drive that is carried out on a store.
ghost use Rattle.std.specs.Prelude.{ℕ, ◌+◌, ◌≡◌, ◌≤◌, ◌⊎◌, Err, IsOk, OnOk};
ghost use Rattle.{outside.specs.Faults.{RisesOnlyIf}, meter_run.specs.Runs.{EndsRun, LeavesPoints}};
ghost use Rattle.meter_run.specs.Common.{HasCause, IsSeal, LeavesOthers, MayRise, Off, Rose, Whole, drive_end, ended};
ghost use Rattle.meter_run.specs.Drives.{IsBoundedByDrive};
ghost use Rattle.meter_run.specs.OnStore.{CarriesOut, IsMeterReadyOn, StopsAmid, WritesTotals};

use crate::carrier::SealedTables;
use crate::drive::carry_drive;
use crate::dry_drive::answer;
use crate::fault::RunFault;
use crate::stored::StoreMeter;
use crate::supply::is_off;
use meter_model::Acts;
use outside::{Board, Failed, Files, STORE_SIZE};
use seal_record::Seal;
use std::sync::ledger::Ledger;
use tariff_compile::Tables;
use taxi_units::{Event, Steps};

/// Carries out the drive of a word on the store, under tables that were compiled with the constant of a seal in its
/// ranges. It reads pieces of at most 512 bytes, and carries out the events of each before it reads the next one.
/// Displays, refusals and receipts are printed; entries and held trips are committed to the pair of totals. If the
/// meter is off, an `Up` scans that pair, and goes on from what it finds. At most 64 steps for each event of the bytes
/// that were taken, and 64 for the supply drop at the end, if the supply is there then. It takes no memory itself; the
/// devices may.
///
/// `BadDrive` with the first line that is no line of a drive. `TooLong` if 2^40 bytes were taken, none of their lines
/// is bad, and the end wasn't told. `ReadFault` only if the count of faults of the word rose; `BoardFault` only if the
/// board's did. So a drive without a bad line and without a fault ends in `Ok`. At the drive's end and before each of
/// these but `BoardFault` the supply drops, if the meter is powered; if the board fails in that, the answer is
/// `BoardFault`. After a fault of the board nothing more is done.
///
/// It asks nothing of the board. If the board tells its image, and opens with a durable state whose held trip fits, all
/// that the run does was done at each answer but `BoardFault`, and a part of it there. A cut of the power at any moment
/// leaves a point of it. At each answer but `BoardFault` the commits in turn are all that was written: each goes into
/// the slot without the state before it, and without a commit the store is kept. A board that tells nothing may answer
/// a scan by anything: if that is no durable state, or one whose held trip doesn't fit, the meter stays off. All of
/// this is this project's own.
pub fn run_events<F: Files, B: Board<STORE_SIZE, L>, L: Ledger>(
    tables: &Tables,
    seal: &Seal,
    files: &mut F,
    word: usize,
    board: &mut B,
    steps: &mut Steps<L>,
) -> Result<(), RunFault>
    requires constant { tables.now.constant ≡ seal.now.params.constant }
    requires seal { IsSeal seal.now }
    ensures ends { F.tells → EndsRun B.Printer tables.now seal.now board.old board.new
        (F.rest files.old word) (F.rest files.new word) result }
    ensures cuts { F.tells → LeavesPoints B.Printer tables.now seal.now board.old board.new
        (F.rest files.old word) (F.rest files.new word) }
    ensures beside { B.tells_image → WritesTotals B.Printer board.old board.new }
    ensures complete { F.tells → drive_end (F.rest files.old word) ≡ Whole
        → ¬ Rose (F.faults files.old word) (F.faults files.new word)
        → ¬ Rose (B.faults board.old) (B.faults board.new) → IsOk result }
    ensures steps { IsBoundedByDrive 0 F.tells (F.rest files.old word) (F.rest files.new word) steps.old steps.new }
    ensures others { LeavesOthers F.rest word files.old files.new }
    ensures read_fault { result ≡ Err RunFault.ReadFault → Rose (F.faults files.old word) (F.faults files.new word) }
    ensures board_fault { RisesOnlyIf (result ≡ Err RunFault.BoardFault) (B.faults board.old) (B.faults board.new) }
    ensures counts { (other : ℕ) → MayRise ((result ≡ Err RunFault.ReadFault) ⊎ (result ≡ Err RunFault.BoardFault))
        (F.faults files.old other) (F.faults files.new other) }
{
    tables.recall();
    let by = SealedTables { tables, seal };
    let mut meter = StoreMeter::new();
    match carry_drive(&mut meter, &by, files, word, board, steps) {
        Ok(stop) => match drop_at_end(&mut meter, tables, seal, board, steps) {
            Ok(()) => answer(stop),
            Err(_) => Err(RunFault::BoardFault),
        },
        Err(_) => Err(RunFault::BoardFault),
    }
}

/// The supply drops if the meter is powered. At most 64 steps, and none if it is off.
fn drop_at_end<B: Board<STORE_SIZE, L>, L: Ledger>(
    meter: &mut StoreMeter,
    tables: &Tables,
    seal: &Seal,
    board: &mut B,
    steps: &mut Steps<L>,
) -> Result<(), Failed>
    requires ready { IsMeterReadyOn B.Printer tables.now seal.now meter.old board.old }
    ensures carried { OnOk result (CarriesOut B.Printer tables.now seal.now ended
        meter.old board.old meter.new board.new) }
    ensures stopped { StopsAmid B.Printer tables.now seal.now ended meter.old board.old board.new }
    ensures cause { HasCause (B.faults board.old) (B.faults board.new) result }
    ensures steps { steps.new ≤ steps.old + 64 }
    ensures idle { meter.old.core.state.operating ≡ Off → steps.new ≡ steps.old }
{
    if is_off(&meter.core) {
        return Ok(());
    }
    let mut acts = Acts::new();
    meter.carry_event(tables, seal, Event::Down, &mut acts, board, steps)
}
