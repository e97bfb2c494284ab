//! Sealing: totals of zero if the store has none, and then the seal.
ghost use Rattle.std.specs.{Option.{ForSome, option_map}, Prelude.{◌+◌, ◌≡◌, ◌≤◌, IfOk, None, OnOk, Option}};
ghost use Rattle.{outside.specs.Faults.{HasCause}, slot_store.specs.Sizes.{pair_size}};
ghost use Rattle.{seal_record.specs.Ranges.{IsSeal}, meter_store.specs.Sealing.{places_written, seals_at}};
ghost use Rattle.meter_store.specs.{Common.{LeavesThroughout, Seal, WritesIn, first_state}, Stored.{HoldsState}};
ghost use Rattle.meter_store.specs.Sealing.{FoundSeal, FoundTotals, HasEitherSeal, HoldsSeal, HoldsSealing};
ghost use Rattle.meter_store.specs.Sealing.{LeavesSealing, StillHas, first_written, found_number, next_number};

use crate::DeviceFailed;
use outside::{Board, STORE_SIZE};
use seal_record::Seal;
use slot_store::{Place, Ready};
use std::sync::ledger::Ledger;
use taxi_units::Steps;
use totals_record::Durable;

/// The place at which the pair of seals begins in the store.
const SEALS_AT: u32 = 1024;

/// Seals the store. Totals that were found stay as they are, byte for byte; if there were none, totals of zero with
/// number 1 are written first. Then the seal is written, with the number after the found seal's, or 1. `totals` and
/// `found`, the place and the number of the seal, are what scans of both pairs have just found.
///
/// At each moment a cut leaves the totals that were found or, if there were none, none or those of zero. It leaves the
/// seal that was found, or none as before, or the new one, and the new one only beside totals. So does the board's own
/// image, even if the sealing failed. Nothing is printed, and at most 10 calls of the board are made.
///
/// `DeviceFailed`: the board failed, so its count of faults rose. Only a scan may follow.
pub fn place_seal<B: Board<STORE_SIZE, L>, L: Ledger>(
    board: &mut B,
    totals: Option<Durable>,
    found: Option<(Place, u64)>,
    seal: &Seal,
    steps: &mut Steps<L>,
) -> Result<(), DeviceFailed>
    requires valid { IsSeal seal.now }
    requires number { seal.now.seal_number ≡ next_number (found_number found) }
    requires slot { ForSome found (λ latest. latest.0.slot ≤ 1) }
    requires totals { B.tells_image → FoundTotals B.Printer board.old totals }
    requires found { B.tells_image → (old : Option Seal) × FoundSeal B.Printer board.old found old }
    ensures any_moment { B.tells_image → (old : Option Seal) → FoundSeal B.Printer board.old found old
        → LeavesSealing B.Printer (record { totals = totals; old = old; new = seal.now }) board.old board.new }
    ensures sealed { B.tells_image → OnOk result (HoldsSealing B.Printer totals seal.now board.new) }
    ensures beside { WritesIn B.Printer (first_written totals) (places_written totals) board.old board.new }
    ensures cause { HasCause (B.faults board.old) (B.faults board.new) result }
    ensures steps { steps.new ≤ steps.old + 10 }
{
    match totals {
        Some(_) => {
            put_seal(board, found, seal, steps)?;
            Ok(())
        }
        None => {
            put_totals(board, steps)?;
            put_seal(board, found, seal, steps)?;
            Ok(())
        }
    }
}

/// Writes totals of zero into a blank pair.
fn put_totals<B: Board<STORE_SIZE, L>, L: Ledger>(
    board: &mut B,
    steps: &mut Steps<L>,
) -> Result<Place, DeviceFailed>
    requires { B.tells_image → FoundTotals B.Printer board.old None }
    ensures any_moment { B.tells_image → LeavesThroughout B.Printer 0 pair_size (StillHas None) board.old board.new }
    ensures settled { B.tells_image → IfOk result (λ place. HoldsState B.Printer place board.new first_state) }
    ensures beside { WritesIn B.Printer 0 pair_size board.old board.new }
    ensures cause { HasCause (B.faults board.old) (B.faults board.new) result }
    ensures steps { steps.new ≤ steps.old + 4 }
{
    let place = Ready::blank(0).store(board, &Durable::zero(), steps)?;
    Ok(place)
}

/// Writes a seal over the one that was found, or into a blank pair.
fn put_seal<B: Board<STORE_SIZE, L>, L: Ledger>(
    board: &mut B,
    found: Option<(Place, u64)>,
    seal: &Seal,
    steps: &mut Steps<L>,
) -> Result<Place, DeviceFailed>
    requires valid { IsSeal seal.now }
    requires number { seal.now.seal_number ≡ next_number (found_number found) }
    requires slot { ForSome found (λ latest. latest.0.slot ≤ 1) }
    requires found { B.tells_image → (old : Option Seal) × FoundSeal B.Printer board.old found old }
    ensures any_moment { B.tells_image → (old : Option Seal) → FoundSeal B.Printer board.old found old
        → LeavesThroughout B.Printer seals_at pair_size (HasEitherSeal old seal.now) board.old board.new }
    ensures settled { B.tells_image → IfOk result (λ place. HoldsSeal B.Printer place board.new seal.now) }
    ensures beside { WritesIn B.Printer seals_at pair_size board.old board.new }
    ensures cause { HasCause (B.faults board.old) (B.faults board.new) result }
    ensures steps { steps.new ≤ steps.old + 6 }
{
    let ready = ready_for(found);
    let place = ready.store(board, seal, steps)?;
    Ok(place)
}

/// The pair of seals, as it was found.
fn ready_for(found: Option<(Place, u64)>) -> Ready
    requires { ForSome found (λ latest. latest.0.slot ≤ 1) }
    ensures { result ≡ record { at = seals_at; latest = option_map (λ latest. latest.0) found } }
{
    match found {
        Some((place, _)) => Ready::new(SEALS_AT, place),
        None => Ready::blank(SEALS_AT),
    }
}
