//! The three stages in a row.
ghost use Rattle.std.specs.Prelude.{◌+◌, ◌≡◌, ◌≤◌, IfOk, Option, false};
ghost use Rattle.slot_store.specs.{Common.{HasCause}, Sizes.{slot_size}, Writes.{WritesIn}};
ghost use Rattle.slot_store.specs.Stages.{IsSettledOn, LeavesLatestOrNew, MayGet, is_spare_open, new_place, spare_at};

use crate::{Place, Ready};
use outside::{Board, Failed, STORE_SIZE};
use slot_bodies::Body;
use std::sync::ledger::Ledger;
use taxi_units::Steps;

impl Ready {
    /// Stores a body by the three stages, and gives its place. Its number has to be greater than the latest body's. At
    /// each moment a cut leaves an image that stands for the latest body, or is blank as before, or stands for the new
    /// body, and so does the board's own image, even if a stage failed. `Failed`: the board failed, so its count of
    /// faults rose. Over a closed slot it makes at most 4 calls of the board.
    pub fn store<T: Body, B: Board<STORE_SIZE, L>, L: Ledger>(
        self,
        board: &mut B,
        body: &T,
        steps: &mut Steps<L>,
    ) -> Result<Place, Failed>
        requires valid { T.valid body.now }
        requires ready { B.tells_image → (latest : Option T) × MayGet T.Body B.Printer self board.old latest body.now }
        ensures any_moment { B.tells_image → (latest : Option T) → MayGet T.Body B.Printer self board.old latest
            body.now
            → LeavesLatestOrNew T.Body B.Printer self latest body.now board.old board.new }
        ensures settled { B.tells_image
            → IfOk result (λ place. IsSettledOn T.Body B.Printer self.at place board.new body.now) }
        ensures beside { WritesIn B.Printer (spare_at self) slot_size board.old board.new }
        ensures place { IfOk result (λ place. place ≡ new_place self) }
        ensures slot_in { IfOk result (λ place. place.slot ≤ 1) }
        ensures cause { HasCause (B.faults board.old) (B.faults board.new) result }
        ensures closed { is_spare_open self.latest ≡ false → steps.new ≤ steps.old + 4 }
        ensures steps { steps.new ≤ steps.old + 6 }
    {
        let shut = self.shut::<T, B, L>(board, steps)?;
        let written = shut.write(board, body, steps)?;
        written.finish::<T, B, L>(board, steps)
    }
}
