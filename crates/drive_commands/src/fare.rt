//! The command `fare`.
ghost use Rattle.drive_commands.specs.{Common.{Carries}, Fare.{fare_command}};

use crate::drive_ends::ended_of;
use crate::fare_seal::fare_seal;
use call_ends::{Ended, refused_by};
use drive_modes::Constant;
use meter_run::print_drive;
use outside::{Files, Printer, STORE_SIZE};
use std::alloc::Global;
use std::sync::ledger::Ledger;
use taxi_units::Steps;
use word_tables::tables_of_word;

/// Reads the tariff of word 1, and carries out the drive of word 2 under its tables, without a store.
#[tactic(auto, using(call_ends::proofs::Laws::board_runs))]
pub fn fare<F: Files, B: Printer<STORE_SIZE, L>, L: Ledger>(
    alloc: Global,
    constant: Constant,
    files: &mut F,
    board: &mut B,
    steps: &mut Steps<L>,
) -> Ended
    ensures { Carries F.Files B.Printer (fare_command constant) files.old files.new board.old board.new
        steps.old steps.new result }
{
    let tables = match tables_of_word(alloc, files, 1, constant) {
        Ok(tables) => tables,
        Err(fault) => return refused_by(fault),
    };
    let seal = fare_seal(constant, tables.decimals());
    let ran = print_drive(&tables, &seal, files, 2, board, steps);
    ended_of(ran)
}
