//! Why cuts are enough: contexts between the same cuts mean the same.
ghost use Rattle.std.specs.Prelude.{ℕ, ℤ, ◌*◌, ◌+◌, ◌<◌, ◌↔◌, ◌≡◌, ◌≤◌, Contains, List, Some, length, slice_index};
ghost use Rattle.{interval_clock.specs.Calendar.{IsDateOf}, tariff_tree.specs.Tree.{when_part}};
ghost use Rattle.tariff_check.specs.{Kinds.{part_of}, declared.choice.ChoiceKind.{ChoiceKind}};
ghost use Rattle.tariff_calendar.specs.Common.{Condition, Context, IsSound, IsWritable, Line, Tree, at_hiring};
ghost use Rattle.tariff_calendar.specs.Common.{choice_place, has_holidays, holds, with_each};
ghost use Rattle.tariff_calendar.specs.Lists.{AreOrdered, IsNotFalling, count_at_most, has_day, has_days, is_holiday};
ghost use Rattle.tariff_calendar.specs.{Lists.{lists_of, pulses_for}, Range.{IsInRangeOf, IsSameCell}};

/// The law of cuts: in two contexts of one cell, each condition of a sound tariff holds alike. So the same line of each
/// kind holds first, there and at the hiring. A condition compares with the cuts of its tariff alone, and how many cuts
/// are at most a value decides each such comparison.
pub fn cuts_decide_conditions()
    ensures condition { (t : Tree) (k : ℕ) (x y : Context) → IsWritable t → IsSound t → IsInRangeOf t k x
        → IsInRangeOf t k y → IsSameCell (lists_of t k) x y
        → (l : Line) (c : Condition) → Contains t.lines l → when_part l.entry ≡ Some c → holds c x ≡ holds c y }
    ensures first { (kind : ChoiceKind) (t : Tree) (k : ℕ) (x y : Context) → IsWritable t → IsSound t
        → IsInRangeOf t k x → IsInRangeOf t k y → IsSameCell (lists_of t k) x y
        → (choice_place (part_of kind) t x ≡ choice_place (part_of kind) t y)
        × (choice_place (part_of kind) t (at_hiring x) ≡ choice_place (part_of kind) t (at_hiring y)) }
{}

/// The law of distances: the pulses at which a distance is cut are the fewest that are as far.
pub fn cuts_are_the_fewest_pulses()
    ensures { (k decimetres pulses : ℕ) → (k * decimetres ≤ 10000 * pulses) ↔ (pulses_for k decimetres ≤ pulses) }
{}

/// The law of counts: at most all numbers are at most a value. If they don't fall, those before the place of that count
/// are at most the value, and those from there on are greater.
pub fn counts_are_places()
    ensures few { (value : ℕ) (xs : List ℕ) → count_at_most value xs ≤ length xs }
    ensures before { (value : ℕ) (xs : List ℕ) (i : ℕ) → IsNotFalling xs → i < count_at_most value xs
        → slice_index xs i ≤ value }
    ensures after { (value : ℕ) (xs : List ℕ) (i : ℕ) → IsNotFalling xs → count_at_most value xs ≤ i
        → i < length xs → value < slice_index xs i }
{}

/// The law of lists: the numbers of a sound tariff's lists don't fall, and no list is longer than a look-up
/// by halving reaches. No distance and no time is cut at the hiring. No more numbers are in a list than were put in.
pub fn lists_are_ordered()
    ensures hiring { (t : Tree) (k : ℕ) → IsWritable t → IsSound t → 0 < k
        → (count_at_most 0 (lists_of t k).distances ≡ 0) × (count_at_most 0 (lists_of t k).times ≡ 0) }
    ensures ordered { (t : Tree) (k : ℕ) → IsWritable t → IsSound t → AreOrdered (lists_of t k) }
    ensures few { (xs ns : List ℕ) → length (with_each xs ns) ≤ length xs + length ns }
{}

/// The law of holidays: the day numbers of a sound tariff's holidays are those of the dates in its holiday lines. There
/// is one exactly if there is such a line.
pub fn holidays_are_dates()
    ensures some { (t : Tree) (k : ℕ) → has_days (lists_of t k) ≡ has_holidays t.lines }
    ensures dates { (t : Tree) (k : ℕ) (day : ℤ) (year month date : ℕ) → IsWritable t → IsSound t
        → IsDateOf day year month date
        → has_day (lists_of t k).holidays day ≡ is_holiday t.lines year month date }
{}
