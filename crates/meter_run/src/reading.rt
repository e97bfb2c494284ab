//! Reads what the store has as the supply comes.
ghost use Rattle.std.specs.{Option.{ForSome}, Prelude.{[], ◌+◌, ◌≡◌, ◌≤◌, IfOk, OnOk, Some}};
ghost use Rattle.meter_run.specs.Common.{Durable, Fits, HasCause, HoldsState, IsDurable, KeepsStore, Known, Place};
ghost use Rattle.meter_run.specs.{Common.{Seal}, OnStore.{Agrees, WritesTotals}, Points.{GoesBy}};

use crate::stored::Known;
use meter_states::fits;
use outside::{Board, Failed, STORE_SIZE};
use slot_store::{Found, SlotFault, scan};
use std::sync::ledger::Ledger;
use tariff_compile::Tables;
use taxi_units::Steps;
use totals_record::Durable;

/// Scans the pair of totals. `None` if it stands for no durable state, or for one whose held trip doesn't fit the
/// tables. On a board that tells its image, that comes only if the image says so. At most 19 steps.
pub(crate) fn read_store<B: Board<STORE_SIZE, L>, L: Ledger>(
    tables: &Tables,
    board: &mut B,
    steps: &mut Steps<L>,
) -> Result<Option<Known>, Failed>
    ensures agrees { IfOk result (λ found. ForSome found (λ known. Agrees B.Printer tables.now known board.new)) }
    ensures range { IfOk result (λ found. ForSome found (λ known. IsDurable known.durable)) }
    ensures finds { B.tells_image → (place : Place) (durable : Durable) → HoldsState B.Printer place board.old durable
        → ForSome durable.hold (Fits tables.now)
        → IfOk result (λ found. (known : Known) × ((found ≡ Some known) × (known.durable ≡ durable))) }
    ensures points { B.tells_image → (seal : Seal) (place : Place) (durable : Durable)
        → HoldsState B.Printer place board.old durable → ForSome durable.hold (Fits tables.now)
        → GoesBy B.Printer tables.now seal board.old board.new durable [] }
    ensures text { B.printed board.new ≡ B.printed board.old }
    ensures kept { OnOk result (KeepsStore B.Printer board.old board.new) }
    ensures beside { B.tells_image → WritesTotals B.Printer board.old board.new }
    ensures cause { HasCause (B.faults board.old) (B.faults board.new) result }
    ensures steps { steps.new ≤ steps.old + 19 }
{
    match scan::<Durable, B, L>(board, 0, steps) {
        Ok(Found::Latest { place, body }) => {
            let known = Known {
                durable: body,
                place,
            };
            Ok(where_it_fits(known, tables, steps))
        }
        Ok(Found::Blank) => Ok(None),
        Err(SlotFault::DeviceFailed) => Err(Failed),
        Err(SlotFault::BadBody(_)) => Ok(None),
        Err(SlotFault::SameNumber(_)) => Ok(None),
    }
}

/// What was found, if its held trip fits. At most 16 steps.
fn where_it_fits<L: Ledger>(known: Known, tables: &Tables, steps: &mut Steps<L>) -> Option<Known>
    ensures same { ForSome result (λ found. found ≡ known) }
    ensures fits { ForSome result (λ found. ForSome found.durable.hold (Fits tables.now)) }
    ensures finds { ForSome known.durable.hold (Fits tables.now) → result ≡ Some known }
    ensures steps { steps.new ≤ steps.old + 16 }
{
    match &known.durable.hold {
        None => Some(known),
        Some(trip) => {
            if fits(trip, tables, steps) {
                Some(known)
            } else {
                None
            }
        }
    }
}
