//! Prints the receipts of a roll as rows of CSV.
ghost use Rattle.std.specs.Prelude.{ℕ, ◌≡◌, ◌≢◌, Some};
ghost use Rattle.log_commands.specs.{Calls.{MayHave, MayHaveReadFault}, Endings.{status_of}, RowsCalls.{rows_end}};
ghost use Rattle.log_commands.specs.{Common.{KeepsStore, MayRise, RisesOnlyIf, Rose}, ListedRows.{RowsReachLine}};

use crate::ending::Ended;
use crate::words::Call;
use outside::{Board, Files, LOG_SIZE};
use receipt_reading::{Roll, RollEnd, heading, row_of};
use std::sync::ledger::Ledger;
use taxi_units::Steps;

/// How the call ends if the roll ends so.
fn ended_rows(end: RollEnd) -> Ended
    ensures { result ≡ rows_end end }
{
    match end {
        RollEnd::Whole => Ended::Listed,
        RollEnd::TooLong => Ended::TooLong,
        RollEnd::ReadFault => Ended::ReadFault,
    }
}

/// Prints the heading, once a reading has succeeded, and then a row for each receipt of the roll of word 1, before more
/// of the roll is read.
pub(crate) fn list_rows<F: Files, G: Board<LOG_SIZE, L>, L: Ledger>(
    files: &mut F,
    log: &mut G,
    steps: &mut Steps<L>,
) -> Ended
    ensures comes { F.tells → RowsReachLine F.Files G.Printer files.old files.new log.old log.new result
        steps.old steps.new }
    ensures read_fault { result ≡ Ended.ReadFault → Rose (F.faults files.old 1) (F.faults files.new 1) }
    ensures reads { (word : ℕ) → MayRise (MayHaveReadFault (status_of result))
        (F.faults files.old word) (F.faults files.new word) }
    ensures board_fault { RisesOnlyIf (result ≡ Ended.BoardFault) (G.faults log.old) (G.faults log.new) }
    ensures has { MayHave (Some Call.Rows) (status_of result) }
    ensures keeps { KeepsStore G.Printer log.old log.new }
    ensures others { (word : ℕ) → word ≢ 1 → F.rest files.new word ≡ F.rest files.old word }
{
    let mut roll = Roll::begin(files, 1);
    if roll.has_failed() {
        return Ended::ReadFault;
    }
    if log.print(heading().as_slice(), steps).is_err() {
        return Ended::BoardFault;
    }
    loop {
        match roll.next(files, 1) {
            Err(end) => return ended_rows(end),
            Ok(receipt) => {
                if log.print(row_of(&receipt).as_slice(), steps).is_err() {
                    return Ended::BoardFault;
                }
            }
        }
    }
}
