//! The command `tables`.
#![tactic(auto, using(call_ends::proofs::Laws::board_runs))]

ghost use Rattle.std.specs.Prelude.{◌++◌, ◌+◌, ◌<◌, ◌≡◌, ◌≤◌, OnOk, length};
ghost use Rattle.{taxi_units.specs.Line.{line_size}, outside.specs.{Faults.{HasCause}, PrintedText.{Begins}}};
ghost use Rattle.outside.specs.Runs.{KeepsStore};
ghost use Rattle.tariff_commands.specs.{Common.{Carries, row_count, row_text, rows_text}, Tables.{tables_command}};

use call_ends::{Ended, ended_behind, refused_by};
use drive_modes::Constant;
use outside::{Failed, Files, Printer, STORE_SIZE};
use std::alloc::Global;
use std::sync::ledger::Ledger;
use tariff_compile::Tables;
use taxi_units::{Line, Steps};
use word_tables::tables_of_word;

/// Prints all rows of the tables of word 1's tariff under a constant.
pub fn print_tables<F: Files, B: Printer<STORE_SIZE, L>, L: Ledger>(
    alloc: Global,
    constant: Constant,
    files: &mut F,
    board: &mut B,
    steps: &mut Steps<L>,
) -> Ended
    ensures { Carries F.Files B.Printer (tables_command constant) files.old files.new board.old board.new
        steps.old steps.new result }
{
    let tables = match tables_of_word(alloc, files, 1, constant) {
        Ok(tables) => tables,
        Err(fault) => return refused_by(fault),
    };
    ended_behind(print_rows(&tables, board, steps), Ended::Done)
}

/// Prints the rows of tables, one after the other.
fn print_rows<B: Printer<STORE_SIZE, L>, L: Ledger>(
    tables: &Tables,
    board: &mut B,
    steps: &mut Steps<L>,
) -> Result<(), Failed>
    ensures whole { B.tells_text → OnOk result (B.printed board.new ≡ B.printed board.old ++ rows_text tables.now) }
    ensures begun { B.tells_text → Begins (B.printed board.old) (B.printed board.new) (rows_text tables.now) }
    ensures cause { HasCause (B.faults board.old) (B.faults board.new) result }
    ensures steps { steps.new ≤ steps.old + row_count tables.now }
    ensures store { KeepsStore B.Printer board.old board.new }
{
    for i in 0..tables.rows() {
        let line = row_of(tables, i);
        board.print(line.as_slice(), steps)?;
    }
    Ok(())
}

/// A row of tables.
fn row_of(tables: &Tables, i: u64) -> Line
    requires { i < row_count tables.now }
    ensures text { result.items ≡ row_text tables.now i }
    ensures some { 0 < length result.items }
    ensures few { length result.items ≤ line_size }
{
    let mut line = Line::new();
    tables.put_row(i, &mut line).unwrap();
    line
}
