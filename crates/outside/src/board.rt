//! The board: a store and a printer.
ghost use Rattle.std.specs.Prelude.{ℕ, ◌+◌, ◌≡◌, ◌⊎◌, OnOk, drop, length, take};
ghost use Rattle.outside.specs.{Disk.{CallTakes, IsPiece, IsWithin, SameBut}, Faults.{HasCause}};

use crate::fault::Failed;
use crate::printer::Printer;
use std::sync::ledger::Ledger;
use taxi_units::Steps;

/// How many bytes the meter's store has.
pub const STORE_SIZE: usize = 2048;

/// How many bytes the store of the hiring log has.
pub const LOG_SIZE: usize = 131072;

/// The one device of a program: a store of `N` bytes, at places from 0 on, and a printer, on one clock of moments. The
/// meter's store has `STORE_SIZE` bytes, the hiring log's `LOG_SIZE`. Bytes that are written are in flight until a sync
/// succeeds: if the power is cut, any bytes may stand in their places. `Printer` has the print, and what is said of the
/// device as a whole.
pub trait Board<const N: usize, L: Ledger>: Printer<N, L> {
    /// Fills `buf`, of 1 to 512 bytes, from the place `at` on; all of it has to lie in the store. If the read fails,
    /// `buf` may hold anything.
    fn read(&mut self, at: u32, buf: &mut [u8], steps: &mut Steps<L>) -> Result<(), Failed>
        requires { IsPiece N at (length buf.old) }
        ensures bytes { Self.tells_image → OnOk result (buf.new ≡ take (length buf.old) (drop at
            (Self.image self.old))) }
        ensures image { Self.image self.new ≡ Self.image self.old }
        ensures flight { (place : ℕ) → Self.in_flight self.new place → Self.in_flight self.old place }
        ensures text { Self.printed self.new ≡ Self.printed self.old }
        ensures time { CallTakes Self.moment Self.left_since Self.image Self.in_flight Self.printed self.old self.new }
        ensures cause { HasCause (Self.faults self.old) (Self.faults self.new) result }
        ensures step { steps.new ≡ steps.old + 1 };

    /// Writes a piece of 1 to 512 bytes, which has to lie in the store. It is in flight until a sync succeeds. If the
    /// write fails, the piece's places may hold any bytes.
    fn write_at(&mut self, at: u32, bytes: &[u8], steps: &mut Steps<L>) -> Result<(), Failed>
        requires { IsPiece N at (length bytes.now) }
        ensures written { Self.tells_image → OnOk result (take (length bytes.now) (drop at (Self.image self.new))
            ≡ bytes.now) }
        ensures image { SameBut (IsWithin at (length bytes.now)) (Self.image self.old) (Self.image self.new) }
        ensures flight { (place : ℕ) → Self.in_flight self.new place → Self.in_flight self.old place
            ⊎ IsWithin at (length bytes.now) place }
        ensures text { Self.printed self.new ≡ Self.printed self.old }
        ensures time { CallTakes Self.moment Self.left_since Self.image Self.in_flight Self.printed self.old self.new }
        ensures cause { HasCause (Self.faults self.old) (Self.faults self.new) result }
        ensures step { steps.new ≡ steps.old + 1 };

    /// Waits until the medium has every byte that was written. Then nothing is in flight, and a cut leaves what a read
    /// gives. If the sync fails, the places in flight may hold any bytes.
    fn sync(&mut self, steps: &mut Steps<L>) -> Result<(), Failed>
        ensures durable { Self.tells_image → OnOk result ((place : ℕ) → ¬ Self.in_flight self.new place) }
        ensures same { OnOk result (Self.image self.new ≡ Self.image self.old) }
        ensures image { SameBut (Self.in_flight self.old) (Self.image self.old) (Self.image self.new) }
        ensures flight { (place : ℕ) → Self.in_flight self.new place → Self.in_flight self.old place }
        ensures text { Self.printed self.new ≡ Self.printed self.old }
        ensures time { CallTakes Self.moment Self.left_since Self.image Self.in_flight Self.printed self.old self.new }
        ensures cause { HasCause (Self.faults self.old) (Self.faults self.new) result }
        ensures step { steps.new ≡ steps.old + 1 };
}
