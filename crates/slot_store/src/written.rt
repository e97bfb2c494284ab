//! The third stage: the gate is opened.
ghost use Rattle.std.specs.Prelude.{◌+◌, ◌≡◌, ◌≤◌, IfOk, OnOk, Option};
ghost use Rattle.slot_store.specs.{Common.{HasCause, Pair}, Stages.{spare_at}};
ghost use Rattle.slot_store.specs.Stages.{IsPair, IsWrittenOn, LeavesLatestOrNew, OpensAt, WritesOfSpare, new_place};

use crate::pair::OPEN;
use crate::synced_write::write_and_sync;
use crate::{Pair, Place};
use outside::{Board, Failed, STORE_SIZE};
use slot_bodies::Body;
use std::marker::Model;
use std::sync::ledger::Ledger;
use taxi_units::Steps;

/// A pair of slots of which the shut slot has a new body.
#[derive(Drop)]
pub struct Written {
    pair: Pair,
}

impl Model for Written {
    ghost Value = { Pair };

    ghost view = { λ w. w.pair };

    ghost invariant = { λ w. IsPair w.pair };
}

impl Written {
    /// The state after the second stage.
    pub(crate) fn of(pair: Pair) -> Written
        requires { IsPair pair }
        ensures { result ≡ pair }
    {
        Written { pair }
    }

    /// Opens the slot that was written: writes 0xA5 at its gate and syncs, and gives the new place. At each moment a
    /// cut leaves an image that stands for the latest body, or is blank as before, or stands for the new body, and so
    /// does the board's own image, even if the stage failed. `Failed`: the board failed, so its count of faults rose.
    pub fn finish<T: Body, B: Board<STORE_SIZE, L>, L: Ledger>(
        self,
        board: &mut B,
        steps: &mut Steps<L>,
    ) -> Result<Place, Failed>
        requires written { B.tells_image → (latest : Option T)
            × ((body : T) × IsWrittenOn T.Body B.Printer self board.old latest body) }
        ensures any_moment { B.tells_image → (latest : Option T) (body : T)
            → IsWrittenOn T.Body B.Printer self board.old latest body
            → LeavesLatestOrNew T.Body B.Printer self latest body board.old board.new }
        ensures settled { B.tells_image → IfOk result (OpensAt T.Body B.Printer self board.old board.new) }
        ensures writes { WritesOfSpare B.Printer self (spare_at self) 1 board.old board.new }
        ensures place { IfOk result (λ place. place ≡ new_place self) }
        ensures slot_in { IfOk result (λ place. place.slot ≤ 1) }
        ensures cause { HasCause (B.faults board.old) (B.faults board.new) result }
        ensures calls { OnOk result (steps.new ≡ steps.old + 2) }
        ensures steps { steps.new ≤ steps.old + 2 }
    {
        write_and_sync(board, self.pair.spare(), &[OPEN], steps)?;
        Ok(self.pair.place_after())
    }
}
