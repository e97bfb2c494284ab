//! Runs on two stores that differ in the sealed digest alone, each sealed with its tariff, under tariffs that are the
//! same.
ghost use Rattle.std.specs.Prelude.{ℕ, ◌≡◌, List, Ok};
ghost use Rattle.run_chains.specs.Common.{Deed, Start, opening_in, start_of};
ghost use Rattle.run_chains.specs.SameRuns.{AreSameStarts, AreStartsAlike, DoTheSame, IsTextAlike, start_after};

/// A law: take two stores that are equal but for the sealed digest, hold no trip, and are each sealed with a tariff,
/// and let these tariffs be the same under the sealed constant. Then runs over any drive do the same on both. Their
/// answers have one status and one last line, and show the same displays, refusals and receipts, each under its own
/// seal, so that receipts differ in their line `TARIFF` alone. The same entries are made. After both runs the stores
/// are alike: a trip that is held is equal but for its cover left and its rest, which are the same money. So further
/// runs do the same too.
pub fn same_tariffs_print_the_same()
    ensures begins { (a b : Start) → AreSameStarts a b → AreStartsAlike a b }
    ensures answers { (image other tariff rewritten drive : List ℕ) (a b : Start)
        → start_of (opening_in image) tariff ≡ Ok a → start_of (opening_in other) rewritten ≡ Ok b → AreStartsAlike a b
        → DoTheSame (start_of (opening_in image) tariff) (start_of (opening_in other) rewritten) a b drive }
    ensures texts { (a b : Start) (deed : Deed) → AreStartsAlike a b → IsTextAlike a.seal b.seal deed }
    ensures goes_on { (image other tariff rewritten drive : List ℕ) (a b : Start)
        → start_of (opening_in image) tariff ≡ Ok a → start_of (opening_in other) rewritten ≡ Ok b → AreStartsAlike a b
        → AreStartsAlike (start_after a drive) (start_after b drive) }
{}
