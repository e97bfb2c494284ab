//! The list of offsets from UTC that gives local time.
ghost use Rattle.std.specs.Prelude.{ℕ, ℤ, ◌+◌, ◌<◌, ◌↔◌, ◌≡◌, ◌≤◌, Err, IfOk, IsOk, List, MatchOption, pos};
ghost use Rattle.interval_clock.specs.Offsets.{EachPlace, FirstPlace, IsFaultOf, IsInForce, IsInRangeAt, IsOffset};
ghost use Rattle.interval_clock.specs.Offsets.{IsOffsetList, IsSecond, RisesAt, offset_at, offset_of, second_at};

use arrayvec::ArrayVec;
use std::marker::Model;
use std::sync::ledger::Ledger;
use taxi_units::{Counted, FIRST_SECOND, LAST_SECOND, Steps};

/// The greatest offset to either side, in seconds: 14 hours.
pub const GREATEST_OFFSET: i32 = 50_400;

/// Why a list of offsets was refused. A place counts from 0.
#[derive(Clone, Copy)]
pub enum OffsetFault {
    /// It has no pair.
    Empty,
    /// It has more than 32 pairs.
    TooMany,
    /// Its first second is not 946,684,800, which is 2000-01-01T00:00Z.
    FirstNotStart,
    /// The pair at this place has a second outside 946,684,800 to 7,258,118,399, or an offset of more
    /// than 50,400 seconds.
    OutOfRange(usize),
    /// The second at this place isn't greater than the one before.
    NotRising(usize),
}

/// The offsets from UTC that give local time: 1 to 32 pairs of a second and the offset in seconds that
/// is in force from that second until the next pair's. The first pair begins at 2000-01-01T00:00Z, the
/// seconds rise, and an offset has at most 14 hours. The list is this project's own form of local time.
#[derive(Drop)]
pub struct Offsets {
    pairs: ArrayVec<(u64, i32), 32>,
}

impl Model for Offsets {
    ghost use Rattle.{std.specs.Prelude.{ℕ, ℤ, List}, interval_clock.specs.Offsets.{IsOffsetList}};

    ghost Value = { List (ℕ × ℤ) };

    ghost view = { λ o. o.pairs.items };

    ghost invariant = { λ o. IsOffsetList o.pairs.items };
}

impl Offsets {
    /// The list of these pairs. It is refused exactly if it isn't lawful, with the first fault in the order
    /// of `OffsetFault`, at the first place that has it. No memory is taken.
    pub fn from_pairs(pairs: &[(u64, i32)]) -> Result<Offsets, OffsetFault>
        ensures lawful { IsOk result ↔ IsOffsetList pairs.now }
        ensures value { IfOk result (λ offsets. offsets ≡ pairs.now) }
        ensures fault { (fault : OffsetFault) → (result ≡ Err fault) ↔ IsFaultOf pairs.now fault }
    {
        if let Some(fault) = fault_of(pairs) {
            return Err(fault);
        }
        let mut kept = ArrayVec::new();
        for pair in pairs {
            kept.push(*pair);
        }
        Ok(Offsets { pairs: kept })
    }

    /// The pairs that the list was made from, in order. No steps.
    pub fn pairs(&self) -> &[(u64, i32)]
        ensures value { result.now ≡ self.now }
        ensures lawful { IsOffsetList self.now }
    {
        self.pairs.as_slice()
    }

    /// The offset in force at a second of 946,684,800 to 7,258,118,399, in seconds: that of the last
    /// pair that begins at or before it. Each pair that is read is one step, of at most 6.
    #[tactic(auto, using(crate::proofs::OffsetLists::parted, crate::proofs::OffsetLists::last_begun))]
    pub fn at<L: Ledger>(&self, second: u64, steps: &mut Steps<L>) -> i32
        requires { IsSecond second }
        ensures value { result ≡ offset_at self.now second }
        ensures in_force { (place : ℕ) × IsInForce self.now second place × (result ≡ offset_of self.now place) }
        ensures in_range { IsOffset result }
        ensures steps { steps.new ≤ steps.old + 6 }
        ensures read { steps.old + 1 ≤ steps.new }
    {
        let found = Counted::of(self.pairs()).at_most(second, steps);
        match found.last {
            Some(pair) => pair.1,
            None => 0,
        }
    }
}

/// A law: in every list, the offset at a second is that of the last pair that begins at or before it, and
/// 0 if none does.
pub fn the_last_pair_begun_is_in_force()
    ensures in_force { (pairs : List (ℕ × ℤ)) (second place : ℕ) → IsInForce pairs second place
        → offset_at pairs second ≡ offset_of pairs place }
    ensures before { (pairs : List (ℕ × ℤ)) (second : ℕ) → EachPlace pairs (λ place. second < second_at pairs place)
        → offset_at pairs second ≡ pos 0 }
{}

/// The first fault of a list.
fn fault_of(pairs: &[(u64, i32)]) -> Option<OffsetFault>
    ensures { MatchOption result (IsOffsetList pairs.now) (IsFaultOf pairs.now) }
{
    if pairs.is_empty() {
        return Some(OffsetFault::Empty);
    }
    if pairs.len() > 32 {
        return Some(OffsetFault::TooMany);
    }
    if pairs[0].0 != FIRST_SECOND {
        return Some(OffsetFault::FirstNotStart);
    }
    if let Some(place) = first_out_of_range(pairs) {
        return Some(OffsetFault::OutOfRange(place));
    }
    if let Some(place) = first_not_rising(pairs) {
        return Some(OffsetFault::NotRising(place));
    }
    None
}

/// The first place whose second or offset is out of range.
fn first_out_of_range(pairs: &[(u64, i32)]) -> Option<usize>
    ensures { MatchOption result
        (EachPlace pairs.now (IsInRangeAt pairs.now))
        (FirstPlace pairs.now (IsInRangeAt pairs.now)) }
{
    for (place, pair) in pairs.iter().enumerate() {
        let (second, offset) = *pair;
        if second < FIRST_SECOND || second > LAST_SECOND {
            return Some(place);
        }
        if offset < -GREATEST_OFFSET || offset > GREATEST_OFFSET {
            return Some(place);
        }
    }
    None
}

/// The first place whose second isn't greater than the one before.
fn first_not_rising(pairs: &[(u64, i32)]) -> Option<usize>
    ensures { MatchOption result
        (EachPlace pairs.now (RisesAt pairs.now))
        (FirstPlace pairs.now (RisesAt pairs.now)) }
{
    for place in 1..pairs.len() {
        if pairs[place].0 <= pairs[place - 1].0 {
            return Some(place);
        }
    }
    None
}
