//! What scans say of a store that is to be sealed.
ghost use Rattle.std.specs.Prelude.{ℕ, ◌≡◌};
ghost use Rattle.meter_store.specs.{Common.{Durable, Found, Seal}, Sealing.{totals_found}};
ghost use Rattle.meter_store.specs.Sealing.{FoundSeal, FoundTotals, ScannedSeal, ScannedTotals, old_seal, seal_found};

use outside::{Board, STORE_SIZE};
use std::sync::ledger::Ledger;

/// What scans of both pairs found is what a sealing asks for. It stays so on a board with the same image of which no
/// more is in flight, as after another scan.
pub fn scans_find_what_a_sealing_asks_for<B: Board<STORE_SIZE, L>, L: Ledger>()
    ensures totals { (board : B) (found : Found Durable) → ScannedTotals B.Printer board found
        → FoundTotals B.Printer board (totals_found found) }
    ensures seal { (board : B) (found : Found Seal) → ScannedSeal B.Printer board found
        → FoundSeal B.Printer board (seal_found found) (old_seal found) }
    ensures totals_stay { (board after : B) (found : Found Durable) → ScannedTotals B.Printer board found
        → B.image after ≡ B.image board
        → ((place : ℕ) → B.in_flight after place → B.in_flight board place)
        → ScannedTotals B.Printer after found }
{}
