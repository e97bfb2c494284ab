//! What first contexts and differences are.
ghost use Rattle.std.specs.Prelude.{ℕ, ◌↔◌, ◌≡◌, None, Some, true};
ghost use Rattle.tariff_compare.specs.{Common.{ChoiceKind, Difference, In, MeterContext, Tree}, Uses.{first_counting}};
ghost use Rattle.tariff_compare.specs.{Contexts.{HasTables, IsFirstOrNone, IsMeterTime, IsTimeOf}, Sides.{side_of}};
ghost use Rattle.tariff_compare.specs.{CountedLine.{counts}, FirstParts.{IsFirstKind, IsFirstOfFrame, IsSameBy}};
ghost use Rattle.tariff_compare.specs.Differences.{difference_of, frame_difference};
ghost use Rattle.tariff_compare.specs.Kinds.{InForce, differing_kind, is_same_of};
ghost use Rattle.tariff_compare.specs.Same.{AreSame, DiffersFirst, HasSameFrame};

/// The law of first contexts: the context that is given of a line is the first one of a meter in which that line
/// counts. None is given exactly if it counts in none.
pub fn first_contexts_are_first()
    ensures { (t : Tree) (k : ℕ) (kind : ChoiceKind) (place : ℕ) → HasTables t k
        → IsFirstOrNone t (λ m. counts t k kind place m ≡ true) (first_counting (side_of t k) kind place) }
{}

/// The law of differences: none is given exactly if two tariffs are the same. One of the frame comes before all
/// contexts, and one of a context is in the first context of a meter in which anything differs.
pub fn differences_are_first()
    ensures none { (t u : Tree) (k : ℕ) → HasTables t k → HasTables u k
        → (difference_of t u k ≡ None) ↔ AreSame t u k }
    ensures frame { (t u : Tree) (k : ℕ) (d : Difference) → frame_difference t u ≡ Some d
        → difference_of t u k ≡ Some d }
    ensures same_frame { (t u : Tree) (k : ℕ) → HasTables t k → HasTables u k
        → (frame_difference t u ≡ None) ↔ HasSameFrame t u }
    ensures context { (t u : Tree) (k : ℕ) (kind : ChoiceKind) (m : MeterContext) → HasTables t k → HasTables u k
        → HasSameFrame t u → difference_of t u k ≡ Some (In kind m) → DiffersFirst t u k kind m }
{}

/// The law of first parts. What is found of two frames is the first part in which they differ, of decimals, display
/// step, rounding, positions, zones and the supplements by number. What is found in a context is the first kind of line
/// that is asked for there and differs, of initial hire fee, minimum fare and rate. Two are the same in a kind exactly
/// if their numbers say so.
pub fn first_parts_differ()
    ensures frame { (t u : Tree) (k : ℕ) (d : Difference) → HasTables t k → HasTables u k
        → frame_difference t u ≡ Some d → IsFirstOfFrame t u d }
    ensures kind { (m : MeterContext) (one other : InForce) (kind : ChoiceKind)
        → differing_kind m one other ≡ Some kind → IsFirstKind m one other kind }
    ensures same { (kind : ChoiceKind) (one other : InForce)
        → (is_same_of kind one other ≡ true) ↔ IsSameBy kind one other }
{}

/// The law of times: a meter has each minute of the days from 2000-01-01 to 2199-12-31, those of 1999-12-31 from 10:00
/// on, and those of 2200-01-01 before 14:00.
pub fn meters_have_their_times()
    ensures { (day minute : ℕ) → IsMeterTime day minute ↔ IsTimeOf day minute }
{}
