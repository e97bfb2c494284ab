//! Laws of a call that syncs before anything else.
ghost use Rattle.{std.specs.Prelude.{ℕ, List}, slot_store.specs.Syncs.{IsAsHeld, IsSynced, LeavesFromSync}};
ghost use Rattle.slot_store.specs.Common.{IsAtRest, LeavesOnly, MayLeave};

use outside::{Board, Kind};
use std::sync::ledger::Ledger;

/// What is known if a call fails. The laws hold for anything.
pub trait Failing {
    ghost fails: { Type 0 };
}

/// What follows the opening sync of a call, and neither writes nor prints, leaves what the board held before the call.
pub fn a_synced_board_is_left_as_held<B: Board<N, L>, L: Ledger, const N: usize>()
    ensures { (old synced new : B) → IsSynced B.Printer old synced
        → LeavesOnly B.Printer synced new (MayLeave (B.image synced) (B.in_flight synced) (B.printed synced))
        → LeavesOnly B.Printer synced new (IsAsHeld B.Printer old) }
{}

/// If nothing was in flight before a call, and what the board held is of a kind that the call leaves from its opening
/// sync on, a cut at any moment of the call leaves only that kind.
pub fn a_settled_board_is_synced_already<
    B: Board<N, L>,
    K: Kind,
    F: Failing,
    L: Ledger,
    const N: usize,
>()
    ensures { (old new : B) → IsAtRest B.Printer old → K.kind (B.image old) (B.printed old)
        → LeavesFromSync B.Printer F.fails old new K.kind → LeavesOnly B.Printer old new K.kind }
{}

/// What a call leaves from its opening sync on is of each wider kind too, and more may be known if it fails. What
/// follows that sync leaves what either leaves.
pub fn a_call_goes_on_behind_its_sync<
    B: Board<N, L>,
    K: Kind,
    W: Kind,
    F: Failing,
    G: Failing,
    L: Ledger,
    const N: usize,
>()
    ensures wider { (old new : B) → (F.fails → G.fails)
        → ((left_image left_text : List ℕ) → K.kind left_image left_text → W.kind left_image left_text)
        → LeavesFromSync B.Printer F.fails old new K.kind → LeavesFromSync B.Printer G.fails old new W.kind }
    ensures goes_on { (old between new : B) → ¬ F.fails
        → ((left_image left_text : List ℕ) → K.kind left_image left_text → W.kind left_image left_text)
        → LeavesFromSync B.Printer F.fails old between K.kind → LeavesOnly B.Printer between new W.kind
        → LeavesFromSync B.Printer G.fails old new W.kind }
{}
