//! The commit: a new state over the one that the store has.
ghost use Rattle.std.specs.Prelude.{◌+◌, ◌≡◌, ◌≤◌, IfOk};
ghost use Rattle.{outside.specs.Faults.{HasCause}, slot_store.specs.Sizes.{slot_size}};
ghost use Rattle.totals_record.specs.{Ranges.{IsDurable}, States.{after}};
ghost use Rattle.meter_store.specs.{Common.{WritesIn}, Stored.{HoldsState, LeavesEither, place_after, written_at}};

use outside::{Board, Failed, STORE_SIZE};
use slot_store::{Place, Ready};
use std::sync::ledger::Ledger;
use taxi_units::Steps;
use totals_record::{Change, Durable};

/// The board failed.
#[derive(Clone, Copy)]
pub struct DeviceFailed;

impl From<Failed> for DeviceFailed {
    ghost from_gives = { λ _ _. Unit {0} };

    fn from(_: Failed) -> Self {
        DeviceFailed
    }
}

/// Commits a change of the state that the pair of totals has at a place, and gives the new state and its place, which
/// is in the other slot. At each moment a cut leaves the state before or the state after, and so does the board's own
/// image, even if the commit failed. Outside the other slot a cut leaves what it might have left at the start, so the
/// slot with the state before stays as it was. Nothing is printed. The state after has to be in its ranges.
///
/// `DeviceFailed`: the board failed, so its count of faults rose. Only a scan may follow.
pub fn commit<B: Board<STORE_SIZE, L>, L: Ledger>(
    board: &mut B,
    durable: &Durable,
    place: Place,
    commit: &Change,
    steps: &mut Steps<L>,
) -> Result<(Durable, Place), DeviceFailed>
    requires range { IsDurable (after durable.now commit.now) }
    requires slot { place.slot ≤ 1 }
    requires settled { B.tells_image → HoldsState B.Printer place board.old durable.now }
    ensures any_moment { B.tells_image
        → LeavesEither B.Printer place durable.now (after durable.now commit.now) board.old board.new }
    ensures settled { B.tells_image → IfOk result (λ answer. HoldsState B.Printer answer.1 board.new answer.0) }
    ensures state { IfOk result (λ answer. answer.0 ≡ after durable.now commit.now) }
    ensures place { IfOk result (λ answer. answer.1 ≡ place_after place) }
    ensures slot_in { IfOk result (λ answer. answer.1.slot ≤ 1) }
    ensures beside { WritesIn B.Printer (written_at place) slot_size board.old board.new }
    ensures cause { HasCause (B.faults board.old) (B.faults board.new) result }
    ensures steps { steps.new ≤ steps.old + 6 }
{
    let after = durable.after(commit);
    let place = Ready::new(0, place).store(board, &after, steps)?;
    Ok((after, place))
}
