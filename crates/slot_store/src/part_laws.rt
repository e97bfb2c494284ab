//! Laws of runs that write a part of the store.
ghost use Rattle.std.specs.Prelude.{ℕ, ◌+◌, ◌≤◌, List};
ghost use Rattle.slot_store.specs.{Common.{SameBut}, Writes.{LeavesThroughout, OrWithin, WritesIn}};

use outside::Board;
use std::sync::ledger::Ledger;

/// A kind of images. The laws hold for each kind.
pub trait Images {
    ghost images: { List ℕ → Type 0 };
}

/// What a run leaves of a part of the store, and writes there, it leaves of the whole around that part, and writes
/// there; also as a wider kind.
pub fn a_part_of_the_store_lies_in_the_whole<
    B: Board<N, L>,
    K: Images,
    W: Images,
    L: Ledger,
    const N: usize,
>()
    ensures leaves { (start count part size : ℕ) (old new : B) → start ≤ part → part + size ≤ start + count
        → ((left_image : List ℕ) → SameBut (OrWithin (B.in_flight old) part size) (B.image old) left_image
        → K.images left_image → W.images left_image)
        → WritesIn B.Printer part size old new → LeavesThroughout B.Printer part size K.images old new
        → LeavesThroughout B.Printer start count W.images old new }
    ensures writes { (start count part size : ℕ) (old new : B) → start ≤ part → part + size ≤ start + count
        → WritesIn B.Printer part size old new → WritesIn B.Printer start count old new }
{}

/// What two runs leave of the same part, and write there, both leave and write as one run.
pub fn a_run_goes_on_in_its_part<B: Board<N, L>, K: Images, L: Ledger, const N: usize>()
    ensures leaves { (start count : ℕ) (old between new : B) → WritesIn B.Printer start count old between
        → LeavesThroughout B.Printer start count K.images old between
        → LeavesThroughout B.Printer start count K.images between new
        → LeavesThroughout B.Printer start count K.images old new }
    ensures writes { (start count : ℕ) (old between new : B) → WritesIn B.Printer start count old between
        → WritesIn B.Printer start count between new → WritesIn B.Printer start count old new }
{}
