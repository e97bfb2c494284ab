//! A law of what a call of `rows` has printed.
ghost use Rattle.std.specs.Prelude.{ℕ, ◌++◌, ◌≡◌, List};
ghost use Rattle.{receipt_reading.specs.Roll.{IsFirst}, log_commands.specs.RowsCalls.{IsRowsCall, listing_of}};
ghost use Rattle.log_commands.specs.Common.{AreOnRoll, Printed};

use outside::{Board, Files, LOG_SIZE};
use std::sync::ledger::Ledger;

/// A law: a call of `rows` that ends with 0 has printed the heading and a row for each receipt of the roll, in their
/// order, and nothing else. The receipts that a call has gone through are the first of the roll's, however it ends.
pub fn rows_list_the_roll<F: Files, G: Board<LOG_SIZE, L>, L: Ledger>()
    ensures whole { (files files' : F) (log log' : G) (steps steps' : ℕ) (all : List Printed)
        → AreOnRoll all (F.rest files 1) → IsRowsCall F.Files G.Printer files files' log log' steps steps' 0
        → G.tells_text → G.printed log' ≡ G.printed log ++ listing_of all }
    ensures first { (files files' : F) (log log' : G) (steps steps' status : ℕ) (all : List Printed)
        → AreOnRoll all (F.rest files 1)
        → (call : IsRowsCall F.Files G.Printer files files' log log' steps steps' status)
        → IsFirst call.receipts all }
{}
