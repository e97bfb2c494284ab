//! The list of offsets that a rule gives for some years.
ghost use Rattle.std.specs.Prelude.{[], ℕ, ◌++◌, ◌+◌, ◌<◌, ◌∷◌, ◌≡◌, ◌≤◌, filter};
ghost use Rattle.{arrayvec.specs.ArrayVec.{array_vec_len}, offset_rules.specs.Summer.{offset_by, year_of}};
ghost use Rattle.offset_rules.specs.{Common.{IsOffsetList, offset_at}, Pairs.{AreYears, IsListOf, is_later, pairs_of}};
ghost use Rattle.offset_rules.specs.Rule.{IsRule};

use crate::changes::first_second_of;
use crate::rules::Rules;
use arrayvec::ArrayVec;
use taxi_units::FIRST_SECOND;

/// Appends a change, unless it comes at the first second of all.
fn push_later(pairs: &mut ArrayVec<(u64, i32), 32>, change: (u64, i32))
    requires { array_vec_len pairs.old < 32 }
    ensures items { pairs.new.items ≡ pairs.old.items ++ filter is_later (change ∷ []) }
    ensures few { array_vec_len pairs.new ≤ array_vec_len pairs.old + 1 }
{
    if change.0 != FIRST_SECOND {
        pairs.push(change);
    }
}

impl Rules {
    /// The pairs of a list of offsets for the years `from` to `to`, at most fifteen of 2000 to 2199. The first is
    /// the first second of all, 946,684,800, with the offset at the first second of `from`. Then come the changes
    /// of these years in order of time, each with the offset that begins there, but none at 946,684,800 itself.
    ///
    /// They are at most 31, and `Offsets::from_pairs` accepts them. From the beginning of `from` to the end of
    /// `to`, in UTC, the offset in force in that list is that of these rules.
    pub fn pairs(&self, from: u16, to: u16) -> ArrayVec<(u64, i32), 32>
        requires { AreYears from to }
        ensures value { result.items ≡ pairs_of self.now from to }
        ensures meaning { IsListOf self.now from to result.items }
        ensures few { array_vec_len result ≤ 31 }
        ensures lawful { IsRule self.now }
        ensures list { IsOffsetList result.items }
        ensures follows { (second : ℕ) → from ≤ year_of second → year_of second ≤ to
            → offset_at result.items second ≡ offset_by self.now second }
    {
        let mut pairs = ArrayVec::new();
        pairs.push((FIRST_SECOND, self.at(first_second_of(from))));
        for year in from..=to {
            let [earlier, later] = self.changes(year);
            push_later(&mut pairs, earlier);
            push_later(&mut pairs, later);
        }
        pairs
    }
}
