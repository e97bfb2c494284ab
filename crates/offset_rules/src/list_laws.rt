//! Laws of the lists that rules give.
ghost use Rattle.std.specs.Prelude.{ℕ, ◌+◌, ◌<◌, ◌↔◌, ◌≡◌, ◌≤◌, length};
ghost use Rattle.offset_rules.specs.{Common.{IsOffsetList, offset_at}, Summer.{first_second_of, offset_by, year_of}};
ghost use Rattle.offset_rules.specs.{Pairs.{AreYears, IsListOf, pairs_of}, Rule.{IsRule, Rule}};

/// A law: a second is of a year from 1970 on exactly if the year begins at or before it, and the next one after it.
pub fn seconds_have_their_year()
    ensures { (year second : ℕ) → 1970 ≤ year
        → (year_of second ≡ year) ↔ ((first_second_of year ≤ second) × (second < first_second_of (year + 1))) }
{}

/// A law: the first of the pairs that a rule gives for some years is the first second of all with the offset at
/// the beginning of the first year. Then come exactly the changes of these years, but none at that second, in
/// order of time.
pub fn lists_have_each_change()
    ensures { (rule : Rule) (from to : ℕ) → IsRule rule → AreYears from to
        → IsListOf rule from to (pairs_of rule from to) }
{}

/// A law: the pairs that a rule gives for some years are a list of offsets, at most 31. At each second of
/// these years in UTC, the offset in force is that of the rule.
pub fn lists_follow_their_rule()
    ensures lawful { (rule : Rule) (from to : ℕ) → IsRule rule → AreYears from to
        → IsOffsetList (pairs_of rule from to) × (length (pairs_of rule from to) ≤ 31) }
    ensures follows { (rule : Rule) (from to second : ℕ) → IsRule rule → AreYears from to
        → from ≤ year_of second → year_of second ≤ to
        → offset_at (pairs_of rule from to) second ≡ offset_by rule second }
{}
