//! What a run on the store and a cut of the power in it mean, in words that share nothing with how the code works.
ghost use Rattle.std.specs.Prelude.{[], ℕ, ◌++◌, ◌+◌, ◌<◌, ◌∷◌, ◌≡◌, ◌≤◌, List, get_or, length};
ghost use Rattle.totals_record.specs.{States.{IsHeldAfter}, Sums.{AddsUp}};
ghost use Rattle.meter_run.specs.Common.{Begins, Durable, HasSeal, HoldsSeal, IsAtRest, KeepsStore, LeavesOnly};
ghost use Rattle.meter_run.specs.Common.{MayLeaveAmid, Place, Receipt, Seal, Setting, TableParts, entries_of};
ghost use Rattle.meter_run.specs.Deeds.{Deed, Does, Prints, changes_of};
ghost use Rattle.meter_run.specs.{OnStore.{HasBeside, WritesTotals}, Runs.{HasDone, HasStopped, OpensWith, run_deeds}};
ghost use Rattle.meter_run.specs.Points.{HasEntries, HasEntryOf, IsCutOfDeeds, IsNumberedWithin};
ghost use Rattle.taxi_units.specs.declared.receipt.Receipt as receipts;

use outside::{Board, STORE_SIZE};
use std::sync::ledger::Ledger;

/// An image that a cut left has a beginning of the run's deeds. The stored number less the opening one is the number of
/// commits among them. The totals found are the opening ones plus the sums over their entries, and the held trip is the
/// last one that no closing entry follows.
pub fn the_number_tells_the_commits<B: Board<STORE_SIZE, L>, L: Ledger>()
    ensures beginning { (tables : TableParts) (seal : Seal) (opening : Durable) (printed : List ℕ) (deeds : List Deed)
        (image text : List ℕ) → (cut : IsCutOfDeeds tables seal B.tells_text opening printed deeds image text)
        → (more : List Deed) × (deeds ≡ cut.kept ++ more) }
    ensures number { (tables : TableParts) (seal : Seal) (opening : Durable) (printed : List ℕ) (deeds : List Deed)
        (image text : List ℕ) → (cut : IsCutOfDeeds tables seal B.tells_text opening printed deeds image text)
        → cut.found.number ≡ opening.number + length (changes_of cut.kept) }
    ensures totals { (tables : TableParts) (seal : Seal) (opening : Durable) (printed : List ℕ) (deeds : List Deed)
        (image text : List ℕ) → (cut : IsCutOfDeeds tables seal B.tells_text opening printed deeds image text)
        → AddsUp opening.totals cut.found.totals (entries_of (changes_of cut.kept)) }
    ensures held { (tables : TableParts) (seal : Seal) (opening : Durable) (printed : List ℕ) (deeds : List Deed)
        (image text : List ℕ) → (cut : IsCutOfDeeds tables seal B.tells_text opening printed deeds image text)
        → IsHeldAfter opening.hold (changes_of cut.kept) cut.found.hold }
{}

/// In what a run does, each receipt stands directly behind its entry, with the number that the store has then. So if a
/// byte of a receipt may have been printed when the power was cut, its entry is among those whose sums the store has.
pub fn receipts_have_their_entries<B: Board<STORE_SIZE, L>, L: Ledger>()
    ensures run { (s : Setting) (opening : Durable) (drive : List ℕ)
        → HasEntries opening.number (run_deeds s opening drive) }
    ensures cut { (tables : TableParts) (seal : Seal) (opening : Durable) (printed : List ℕ) (deeds : List Deed)
        (image text : List ℕ) → (cut : IsCutOfDeeds tables seal B.tells_text opening printed deeds image text)
        → (earlier later : List Deed) (receipt : receipts.Receipt)
        → cut.done ++ cut.next ≡ earlier ++ Does (Receipt receipt) ∷ later
        → HasEntryOf receipt (entries_of (changes_of cut.kept)) }
{}

/// No two receipts have one number: of two receipts of a run the later one has the greater number. If a byte of a
/// receipt may have been printed when the power was cut, its number is above the opening one, and no greater than the
/// one found.
pub fn receipts_are_numbered_in_order<B: Board<STORE_SIZE, L>, L: Ledger>()
    ensures rise { (number : ℕ) (earlier between later : List Deed) (first next : receipts.Receipt)
        → HasEntries number (earlier ++ Does (Receipt first) ∷ (between ++ Does (Receipt next) ∷ later))
        → first.number < next.number }
    ensures cut { (tables : TableParts) (seal : Seal) (opening : Durable) (printed : List ℕ) (deeds : List Deed)
        (image text : List ℕ) → (cut : IsCutOfDeeds tables seal B.tells_text opening printed deeds image text)
        → (earlier later : List Deed) (receipt : receipts.Receipt)
        → cut.done ++ cut.next ≡ earlier ++ Does (Receipt receipt) ∷ later
        → IsNumberedWithin opening.number cut.found.number receipt }
{}

/// A board with nothing in flight, whose image a cut left, opens the next run with the state found.
pub fn cuts_open_the_next_run<B: Board<STORE_SIZE, L>, C: Board<STORE_SIZE, L>, L: Ledger>()
    ensures { (tables : TableParts) (seal : Seal) (opening : Durable) (printed : List ℕ) (deeds : List Deed)
        (image text : List ℕ) → (cut : IsCutOfDeeds tables seal B.tells_text opening printed deeds image text)
        → (board : C) → C.image board ≡ image → IsAtRest C.Printer board
        → OpensWith C.Printer tables board cut.found }
{}

/// A run leaves the seals as they are: each byte from place 1,024 on that isn't in flight. So a pair of seals that is
/// settled with a seal stays so, in each image that a cut leaves and at the end.
pub fn runs_leave_the_seals<B: Board<STORE_SIZE, L>, L: Ledger>()
    ensures bytes { (board : B) (left_image : List ℕ) (place : ℕ) → HasBeside B.Printer board left_image
        → 1024 ≤ place → ¬ B.in_flight board place → get_or left_image place 0 ≡ get_or (B.image board) place 0 }
    ensures left { (board : B) (left_image : List ℕ) (place : Place) (seal : Seal)
        → HasBeside B.Printer board left_image
        → HoldsSeal B.Printer place board seal → HasSeal left_image seal }
    ensures kept { (old new : B) (place : Place) (seal : Seal) → WritesTotals B.Printer old new
        → HoldsSeal B.Printer place old seal → HoldsSeal B.Printer place new seal }
{}

/// A line that is printed behind a run, whole or in part, is one more deed of it.
pub fn lines_follow_a_run<B: Board<STORE_SIZE, L>, L: Ledger>()
    ensures whole { (tables : TableParts) (seal : Seal) (old mid new : B) (opening : Durable) (deeds : List Deed)
        (line : List ℕ) → HasEntries opening.number deeds → HasDone B.Printer tables seal old mid opening deeds
        → WritesTotals B.Printer old mid → KeepsStore B.Printer mid new
        → LeavesOnly B.Printer mid new (MayLeaveAmid (B.image mid) (B.in_flight mid) (B.printed mid) line)
        → (B.tells_text → B.printed new ≡ B.printed mid ++ line)
        → HasDone B.Printer tables seal old new opening (deeds ++ Prints line ∷ []) }
    ensures begun { (tables : TableParts) (seal : Seal) (old mid new : B) (opening : Durable) (deeds : List Deed)
        (line : List ℕ) → HasEntries opening.number deeds → HasDone B.Printer tables seal old mid opening deeds
        → WritesTotals B.Printer old mid → KeepsStore B.Printer mid new
        → LeavesOnly B.Printer mid new (MayLeaveAmid (B.image mid) (B.in_flight mid) (B.printed mid) line)
        → (B.tells_text → Begins (B.printed mid) (B.printed new) line)
        → HasStopped B.Printer tables seal old new opening (deeds ++ Prints line ∷ []) }
{}
