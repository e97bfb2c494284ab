//! A program whose calls carry out runs, and the taximeter as one.
ghost use Rattle.std.specs.Prelude.{ℕ, ◌≡◌, ◌≢◌, Some, map, string_bytes};
ghost use Rattle.{commands.specs.declared.words.Row.TheVariants.{Run}, run_chains.specs.MemoryRuns.{IsRunInMemory}};
ghost use Rattle.run_chains.specs.Common.{IsRun, rest_of, row_of};

use commands::taxi;
use memory_devices::{MemoryBoard, MemoryFiles};
use outside::{Files, Printer, STORE_SIZE};
use std::alloc::Global;
use std::sync::ledger::Ledger;
use taxi_units::Steps;

/// A program that carries out runs, on files and boards in memory. The program alone knows what one of its calls may
/// leave. So code that is given any program knows that a call has left a board only if it made that call, with these
/// files and this board. It can't make the board up, and can't make other calls of it than those of the program.
pub trait Program<L: Ledger> {
    ghost use Rattle.run_chains.specs.Common.{BoardState, FilesState};

    /// Whether a call with the words of a run, made with files and a board, may leave these other files and this
    /// other board, with this status.
    ghost ran: { FilesState → BoardState → FilesState → BoardState → ℕ → Type 0 };

    /// Carries out a run, and gives its status.
    fn run(
        alloc: Global,
        words: &[String],
        files: &mut MemoryFiles,
        board: &mut MemoryBoard,
        steps: &mut Steps<L>,
    ) -> u8
        requires { row_of (map string_bytes words.now) ≡ Some Run }
        ensures ran { ran files.old board.old.state files.new board.new.state result }
        ensures runs { IsRun ⟦<MemoryFiles as Files>⟧ ⟦<MemoryBoard as Printer<STORE_SIZE, L>>⟧
            files.old files.new board.old board.new result }
        ensures others { (word : ℕ) → word ≢ 1 → word ≢ 2 → rest_of files.new word ≡ rest_of files.old word };
}

/// The taximeter: its calls are those of `taxi`.
pub struct Taximeter;

impl<L: Ledger> Program<L> for Taximeter {
    ghost ran = { IsRunInMemory ⟦<MemoryFiles as Files>⟧ ⟦<MemoryBoard as Printer<STORE_SIZE, L>>⟧ };

    fn run(
        alloc: Global,
        words: &[String],
        files: &mut MemoryFiles,
        board: &mut MemoryBoard,
        steps: &mut Steps<L>,
    ) -> u8 {
        taxi(alloc, words, files, board, steps)
    }
}
