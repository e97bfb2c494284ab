//! The second stage: the body is written behind the shut gate.
ghost use Rattle.std.specs.Prelude.{◌+◌, ◌≡◌, ◌≤◌, IfOk, OnOk, Option};
ghost use Rattle.{slot_bodies.specs.Bodies.{body_size}, slot_store.specs.{Common.{HasCause, Pair}, Stages.{spare_at}}};
ghost use Rattle.slot_store.specs.Slots.{bytes_behind};
ghost use Rattle.slot_store.specs.Stages.{IsPair, IsShutOn, LeavesLatest, MayWrite, WritesBody, WritesOfSpare};

use crate::synced_write::write_and_sync;
use crate::{Pair, Written};
use outside::{Board, Failed, STORE_SIZE};
use slot_bodies::{BODY_SIZE, Body};
use std::marker::Model;
use std::sync::ledger::Ledger;
use taxi_units::Steps;

/// A pair of slots of which the slot that is written next is shut.
#[derive(Drop)]
pub struct Shut {
    pair: Pair,
}

impl Model for Shut {
    ghost Value = { Pair };

    ghost view = { λ s. s.pair };

    ghost invariant = { λ s. IsPair s.pair };
}

impl Shut {
    /// The state after the first stage.
    pub(crate) fn of(pair: Pair) -> Shut
        requires { IsPair pair }
        ensures { result ≡ pair }
    {
        Shut { pair }
    }

    /// Writes a body's bytes into the shut slot and syncs. Its number has to be greater than the latest body's. At each
    /// moment a cut leaves an image that stands for the latest body, or is blank as before, and so does the board's own
    /// image, even if the stage failed. `Failed`: the board failed, so its count of faults rose.
    pub fn write<T: Body, B: Board<STORE_SIZE, L>, L: Ledger>(
        self,
        board: &mut B,
        body: &T,
        steps: &mut Steps<L>,
    ) -> Result<Written, Failed>
        requires valid { T.valid body.now }
        requires shut { B.tells_image → (latest : Option T) × MayWrite T.Body B.Printer self board.old latest body.now }
        ensures any_moment { B.tells_image → (latest : Option T) → IsShutOn T.Body B.Printer self board.old latest
            → LeavesLatest T.Body B.Printer self latest board.old board.new }
        ensures written { B.tells_image → OnOk result (WritesBody T.Body B.Printer self body.now board.old board.new) }
        ensures spelled { B.tells_image
            → OnOk result (bytes_behind (spare_at self) (B.image board.new) ≡ T.spelling body.now) }
        ensures writes { WritesOfSpare B.Printer self (spare_at self + 1) body_size board.old board.new }
        ensures pair { IfOk result (λ written. written ≡ self) }
        ensures cause { HasCause (B.faults board.old) (B.faults board.new) result }
        ensures calls { OnOk result (steps.new ≡ steps.old + 2) }
        ensures steps { steps.new ≤ steps.old + 2 }
    {
        let mut bytes = [0; BODY_SIZE];
        body.put(&mut bytes);
        write_and_sync(board, self.pair.spare() + 1, &bytes, steps)?;
        Ok(Written::of(self.pair))
    }
}
