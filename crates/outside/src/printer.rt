//! The printer: what a program may call that leaves its store alone.
ghost use Rattle.std.specs.Prelude.{ℕ, ◌++◌, ◌+◌, ◌<◌, ◌≡◌, ◌≤◌, List, OnOk, length};
ghost use Rattle.outside.specs.{Disk.{IsImage, MayLeave, PieceTakes, piece_size}, PrintedText.{Begins}};
ghost use Rattle.outside.specs.Faults.{HasCause};

use crate::fault::Failed;
use std::sync::ledger::Ledger;
use taxi_units::Steps;

/// A device as one sees it who may print on it and nothing else: its store of `N` bytes is neither read nor written. A
/// call that is given a printer alone can't touch the store, by its type. What is said of the whole device stands here,
/// since a print must say what it leaves of the store: that is all of it.
///
/// Each call of the device takes one step of the ledger that it is given. A call that fails raises the count of faults
/// by one, up to the last value of 64 bits; a call that is Ok leaves it.
///
/// What is said of the places in flight and of what a cut might have left is an upper bound: a device may have less in
/// flight, and leave less, than its calls allow. Two clauses bound it from below. What a cut might have left since a
/// moment still counts later (`keeps` of each call's `time`). What a cut may leave now counts if the device tells its
/// image and its text (`counts_now`).
pub trait Printer<const N: usize, L: Ledger> {
    /// Whether the device tells what its store holds. It depends on the type alone, so it never changes.
    ghost tells_image: { Type 0 };

    /// Whether the device tells what was printed. It depends on the type alone, so it never changes.
    ghost tells_text: { Type 0 };

    /// What a read gives: the bytes of the store.
    ghost image: { Self → List ℕ };

    /// The places where a cut may leave any byte: at no others, and perhaps not at all of them.
    ghost in_flight: { Self → ℕ → Type 0 };

    /// What was printed, in bytes.
    ghost printed: { Self → List ℕ };

    /// The moment, a number that never falls.
    ghost moment: { Self → ℕ };

    /// The images and texts that a cut might have left at that moment or later, inside a call too.
    ghost left_since: { Self → ℕ → List ℕ → List ℕ → Type 0 };

    /// How many faults the device had.
    ghost faults: { Self → ℕ };

    /// Prints a piece of 1 to 512 bytes. If the print fails, or a cut ends it, a beginning of the piece was printed,
    /// perhaps none of it and perhaps all.
    fn print(&mut self, bytes: &[u8], steps: &mut Steps<L>) -> Result<(), Failed>
        requires some { 0 < length bytes.now }
        requires few { length bytes.now ≤ piece_size }
        ensures whole { tells_text → OnOk result (printed self.new ≡ printed self.old ++ bytes.now) }
        ensures begun { tells_text → Begins (printed self.old) (printed self.new) bytes.now }
        ensures image { image self.new ≡ image self.old }
        ensures flight { (place : ℕ) → in_flight self.new place → in_flight self.old place }
        ensures time { PieceTakes moment left_since image in_flight printed bytes.now self.old self.new }
        ensures cause { HasCause (faults self.old) (faults self.new) result }
        ensures step { steps.new ≡ steps.old + 1 };

    /// The store has `N` bytes.
    ghost store: { (board : Self) → tells_image → IsImage N (image board) };

    /// What a cut may leave now is among what a cut since any earlier moment might have left.
    ghost counts_now: { (board : Self) (start : ℕ) (left_image left_text : List ℕ)
        → tells_image → tells_text → start ≤ moment board
        → MayLeave (image board) (in_flight board) (printed board) left_image left_text
        → left_since board start left_image left_text };

    /// Since the moment of now a cut might have left nothing else.
    ghost only_now: { (board : Self) (left_image left_text : List ℕ)
        → left_since board (moment board) left_image left_text
        → MayLeave (image board) (in_flight board) (printed board) left_image left_text };
}
