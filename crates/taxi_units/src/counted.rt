//! Lists whose reads are counted.
ghost use Rattle.std.specs.{List.Sorted.{IsPartitionPoint, IsPartitionedBy}, Prelude.{length, true}};
ghost use Rattle.std.specs.Prelude.{ℕ, ◌+◌, ◌/◌, ◌<◌, ◌↔◌, ◌≡◌, ◌≤◌, Bool, IsTrue, MatchOption, count_by, false};
ghost use Rattle.taxi_units.specs.{Counted.{HalvesIn, IsElement, IsLastOf}, Halving.{EndsWithin}};

use crate::steps::Steps;
use std::marker::Model;
use std::sync::ledger::Ledger;

/// An element that is looked up by a key.
pub trait Keyed: Copy {
    /// The type of the key.
    type Key: Copy;

    /// Whether the element's key is at most a key.
    ghost at_most: { Self → Self.Key → Bool };

    /// Whether the element's key is at most this one.
    fn is_at_most(&self, key: Self::Key) -> bool
        ensures { result ≡ at_most self.now key };
}

/// A number is its own key.
impl Keyed for u64 {
    ghost use Rattle.std.specs.Prelude.{nat_le};

    type Key = u64;

    ghost at_most = { nat_le };

    fn is_at_most(&self, key: u64) -> bool {
        *self <= key
    }
}

/// A signed number is its own key.
impl Keyed for i32 {
    ghost use Rattle.std.specs.Prelude.{int_le};

    type Key = i32;

    ghost at_most = { int_le };

    fn is_at_most(&self, key: i32) -> bool {
        *self <= key
    }
}

/// A pair of a second and the offset that is in force from it on is looked up by its second.
impl Keyed for (u64, i32) {
    ghost use Rattle.std.specs.Prelude.{nat_le};

    type Key = u64;

    ghost at_most = { λ pair second. nat_le pair.0 second };

    fn is_at_most(&self, second: u64) -> bool {
        self.0 <= second
    }
}

/// How many elements of a list have keys up to a given one, and the last of them.
#[derive(Clone, Copy)]
pub struct AtMost<T> {
    pub count: usize,
    pub last: Option<T>,
}

/// A view of a list that counts its reads: each read of one element is one step. The length costs none.
#[derive(Drop)]
pub struct Counted<'a, T> {
    items: &'a [T],
}

impl<'a, T> Model for Counted<'a, T> {
    ghost use Rattle.std.specs.Prelude.{List};

    ghost Value = { List T };

    ghost view = { λ c. c.items.now };
}

impl<'a, T: Copy> Counted<'a, T> {
    /// A view of this list.
    pub fn of(items: &'a [T]) -> Counted<'a, T>
        ensures { result ≡ items.now }
    {
        Counted { items }
    }

    /// How many elements there are. No step.
    pub fn len(&self) -> usize
        ensures { result ≡ length self.now }
    {
        self.items.len()
    }

    /// Whether there are none. No step.
    pub fn is_empty(&self) -> bool
        ensures { IsTrue result ↔ (length self.now ≡ 0) }
    {
        self.items.is_empty()
    }

    /// Reads the element at a place, counted from 0. One step.
    pub fn read<L: Ledger>(&self, place: usize, steps: &mut Steps<L>) -> T
        requires { place < length self.now }
        ensures value { IsElement self.now place result }
        ensures step { steps.new ≡ steps.old + 1 }
    {
        steps.spend();
        let items = self.items;
        items[place]
    }
}

impl<'a, T: Keyed> Counted<'a, T> {
    /// How many elements have keys up to this one, and the last of them. In the list they come before all others.
    /// They are found by halving, in no more steps than the length has binary digits.
    pub fn at_most<L: Ledger>(&self, key: T::Key, steps: &mut Steps<L>) -> AtMost<T>
        requires { IsPartitionedBy (λ element. T.at_most element key) self.now }
        ensures count { result.count ≡ count_by (λ element. T.at_most element key) self.now }
        ensures point { IsPartitionPoint (λ element. T.at_most element key ≡ true)
            (λ element. T.at_most element key ≡ false) self.now result.count }
        ensures last { MatchOption result.last (result.count ≡ 0) (IsLastOf self.now result.count) }
        ensures steps { HalvesIn (length self.now) steps.old steps.new }
    {
        let mut count = 0;
        let mut last = None;
        let mut end = self.len();
        while count < end {
            let middle = count + (end - count) / 2;
            let element = self.read(middle, steps);
            if element.is_at_most(key) {
                count = middle + 1;
                last = Some(element);
            } else {
                end = middle;
            }
        }
        AtMost { count, last }
    }
}

/// A law: if a step leaves at most half of what was to be looked through, the steps that are left are enough
/// for that half.
pub fn each_step_halves()
    ensures { (spent bound width half : ℕ) → EndsWithin spent bound width → 0 < width → half ≤ width / 2
        → EndsWithin (spent + 1) bound half }
{}
