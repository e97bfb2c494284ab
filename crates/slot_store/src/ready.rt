//! The first stage: the slot that is written next is shut.
ghost use Rattle.std.specs.Prelude.{◌+◌, ◌≡◌, ◌≤◌, IfOk, IsOk, None, OnOk, Option, Some, false, get_or, true};
ghost use Rattle.slot_store.specs.{Common.{HasCause, Pair}, Sizes.{last_pair}, Stages.{spare_at}};
ghost use Rattle.slot_store.specs.Stages.{IsPair, IsReadyOn, LeavesLatest, Shuts, WritesOfSpare, is_spare_open};

use crate::pair::CLOSED;
use crate::synced_write::write_and_sync;
use crate::{Pair, Place, Shut};
use outside::{Board, Failed, STORE_SIZE};
use slot_bodies::Body;
use std::marker::Model;
use std::sync::ledger::Ledger;
use taxi_units::Steps;

/// A pair of slots that may get a new body. A stage uses up its state; after a stage that failed only a scan may
/// follow.
#[derive(Drop)]
pub struct Ready {
    pair: Pair,
}

impl Model for Ready {
    ghost Value = { Pair };

    ghost view = { λ r. r.pair };

    ghost invariant = { λ r. IsPair r.pair };
}

impl Ready {
    /// The pair that begins at `at`, at most 1,024, with its latest body at a place, whose slot is 0 or 1. The other
    /// slot is written next.
    pub fn new(at: u32, place: Place) -> Ready
        requires at { at ≤ last_pair }
        requires slot { place.slot ≤ 1 }
        ensures { result ≡ record { at = at; latest = Some place } }
    {
        Ready {
            pair: Pair {
                at,
                latest: Some(place),
            },
        }
    }

    /// The pair that begins at `at`, at most 1,024, without an open gate. Slot 0 is written next.
    pub fn blank(at: u32) -> Ready
        requires { at ≤ last_pair }
        ensures { result ≡ record { at = at; latest = None } }
    {
        Ready {
            pair: Pair { at, latest: None },
        }
    }

    /// Shuts the slot that is written next: if its gate is open, writes 0x00 there and syncs, and else makes no call.
    /// At each moment a cut leaves an image that stands for the latest body, or is blank as before, and so does the
    /// board's own image, even if the stage failed. `Failed`: the board failed, so its count of faults rose.
    pub fn shut<T: Body, B: Board<STORE_SIZE, L>, L: Ledger>(
        self,
        board: &mut B,
        steps: &mut Steps<L>,
    ) -> Result<Shut, Failed>
        requires ready { B.tells_image → (latest : Option T) × IsReadyOn T.Body B.Printer self board.old latest }
        ensures any_moment { B.tells_image → (latest : Option T) → IsReadyOn T.Body B.Printer self board.old latest
            → LeavesLatest T.Body B.Printer self latest board.old board.new }
        ensures shut { B.tells_image → OnOk result (Shuts T.Body B.Printer self board.old board.new) }
        ensures gate { B.tells_image → is_spare_open self.latest ≡ true
            → OnOk result (get_or (B.image board.new) (spare_at self) 0 ≡ 0) }
        ensures closed { is_spare_open self.latest ≡ false
            → IsOk result × (board.new ≡ board.old) × (steps.new ≡ steps.old) }
        ensures writes { WritesOfSpare B.Printer self (spare_at self) 1 board.old board.new }
        ensures pair { IfOk result (λ shut. shut ≡ self) }
        ensures cause { HasCause (B.faults board.old) (B.faults board.new) result }
        ensures calls { is_spare_open self.latest ≡ true → OnOk result (steps.new ≡ steps.old + 2) }
        ensures steps { steps.new ≤ steps.old + 2 }
    {
        let shut = Shut::of(self.pair);
        if !self.pair.is_spare_open() {
            return Ok(shut);
        }
        write_and_sync(board, self.pair.spare(), &[CLOSED], steps)?;
        Ok(shut)
    }
}
