//! The choices of a tariff: what its lines say of each kind of which the first line that holds counts.
ghost use Rattle.std.specs.{Option.{option_to_list}, Prelude.{[], ◌++◌, ◌∷◌, ◌≡◌, ◌≤◌, OnOk, length}};
ghost use Rattle.tariff_check.specs.Common.{Gives, IsWritable, at_hiring, condition_of, entry_of, initial_place};
ghost use Rattle.tariff_check.specs.{Common.{line_of, minimum_place, rate_place, tree_of}, Faults.{IsSound}};
ghost use Rattle.tariff_check.specs.{Kinds.{EachKind, is_great, is_of, kept_of, kind_of, part_of}, Parts.{when_part}};
ghost use Rattle.tariff_check.specs.{Resolved.{count_in, counted_choice, placed}, SoundTariff.{AreChoices, sound_of}};

use crate::checked::Checked;
use std::alloc::Global;
use tariff_tree::{Cond, Context, InitialNumbers, Item, RateLine, RateNumbers, TariffLine};
use taxi_units::{LARGEST_AMOUNT, LARGEST_DISPLAY_STEP, NoMemory};

/// The kinds of lines of which the first that holds in a context counts: rates, initial hire fees and minimum fares.
#[derive(Clone, Copy)]
pub enum ChoiceKind {
    Rate,
    Initial,
    Minimum,
}

/// Which choice a line gives: its kind, its place among the choices of that kind, from 0, and the number of the line in
/// the text.
#[derive(Clone, Copy)]
pub struct ChoiceLine {
    pub kind: ChoiceKind,
    pub place_in_kind: usize,
    pub line: u32,
}

/// One of the lines of a kind of which the first that holds counts: what it says, the number of its line in the text,
/// and the place of that line among the lines of the tariff, from 0. Its condition stays in the line.
#[derive(Clone, Copy)]
pub struct Choice<V> {
    pub value: V,
    pub line: u32,
    pub place: usize,
}

/// The choices of each kind, in the order of the lines.
#[derive(Drop)]
pub(crate) struct Choices {
    pub(crate) rates: Vec<Choice<RateNumbers>>,
    pub(crate) initials: Vec<Choice<InitialNumbers>>,
    pub(crate) minimums: Vec<Choice<u64>>,
}

impl Choices {
    /// No choices.
    pub(crate) fn new(alloc: Global) -> Choices
        ensures { EachKind (λ kind. kept_of kind result ≡ []) }
    {
        Choices {
            rates: Vec::new(alloc),
            initials: Vec::new(alloc),
            minimums: Vec::new(alloc),
        }
    }

    /// Puts the choice that the line at a place gives, if it gives one, behind the others of its kind.
    pub(crate) fn add(&mut self, place: usize, line: &TariffLine) -> Result<(), NoMemory>
        ensures { OnOk result (EachKind (λ kind. kept_of kind self.new
            ≡ kept_of kind self.old ++ option_to_list (placed (part_of kind) place (line_of line.now)))) }
    {
        let number = line.line;
        match &line.item {
            Item::Rate(rate) => put(&mut self.rates, chosen(numbers_of(rate), number, place)),
            Item::Initial(initial) => {
                let value = InitialNumbers {
                    amount: initial.amount,
                    covers: initial.covers,
                };
                put(&mut self.initials, chosen(value, number, place))
            }
            Item::Minimum(minimum) => {
                put(&mut self.minimums, chosen(minimum.amount, number, place))
            }
            _ => Ok(()),
        }
    }

    /// Which choice a line gives behind those that are there.
    pub(crate) fn line_of(&self, line: &TariffLine) -> Option<ChoiceLine>
        ensures { result ≡ counted_choice (count_in self.now) (line_of line.now) }
    {
        let (kind, place_in_kind) = match &line.item {
            Item::Rate(_) => (ChoiceKind::Rate, self.rates.len()),
            Item::Initial(_) => (ChoiceKind::Initial, self.initials.len()),
            Item::Minimum(_) => (ChoiceKind::Minimum, self.minimums.len()),
            _ => return None,
        };
        Some(ChoiceLine {
            kind,
            place_in_kind,
            line: line.line,
        })
    }
}

impl Checked {
    /// The choices among its rates, in the order of its lines: 1 to 64, of which one has no condition.
    pub fn rates(&self) -> &[Choice<RateNumbers>]
        ensures value { AreChoices (tree_of self.now).lines result.now (sound_of (tree_of self.now)).rates }
        ensures few { length result.now ≤ 64 }
        ensures sound { IsSound (tree_of self.now) }
        ensures writable { IsWritable (tree_of self.now) }
    {
        self.parts().choices.rates.as_slice()
    }

    /// The choices among its initial hire fees, in the order of its lines: 1 to 64, of which one has no
    /// condition.
    pub fn initials(&self) -> &[Choice<InitialNumbers>]
        ensures value { AreChoices (tree_of self.now).lines result.now (sound_of (tree_of self.now)).initials }
        ensures few { length result.now ≤ 64 }
        ensures sound { IsSound (tree_of self.now) }
        ensures writable { IsWritable (tree_of self.now) }
    {
        self.parts().choices.initials.as_slice()
    }

    /// The choices among its minimum fares, in the order of its lines: at most 64.
    pub fn minimums(&self) -> &[Choice<u64>]
        ensures value { AreChoices (tree_of self.now).lines result.now (sound_of (tree_of self.now)).minimums }
        ensures few { length result.now ≤ 64 }
        ensures sound { IsSound (tree_of self.now) }
        ensures writable { IsWritable (tree_of self.now) }
    {
        self.parts().choices.minimums.as_slice()
    }

    /// The rate of a context: the first one that has no condition or whose condition holds, by its place among the
    /// rates, from 0.
    pub fn rate_of(&self, x: &Context) -> Option<usize>
        ensures { result ≡ rate_place (tree_of self.now) x.now }
    {
        self.place_of(self.rates(), x)
    }

    /// The initial hire fee of a context: the first one that has no condition or whose condition holds with no pulse
    /// and no tick of the trip, by its place among the initial hire fees, from 0.
    pub fn initial_of(&self, x: &Context) -> Option<usize>
        ensures { result ≡ initial_place (tree_of self.now) x.now }
    {
        self.place_of(self.initials(), &hiring(x))
    }

    /// The minimum fare of a context: the first one that has no condition or whose condition holds with no pulse and no
    /// tick of the trip, by its place among the minimum fares, from 0. `None` exactly if none holds.
    pub fn minimum_of(&self, x: &Context) -> Option<usize>
        ensures { result ≡ minimum_place (tree_of self.now) x.now }
    {
        self.place_of(self.minimums(), &hiring(x))
    }
}

/// A context at the hiring, with no pulse and no tick of the trip.
fn hiring(x: &Context) -> Context
    ensures { result ≡ at_hiring x.now }
{
    Context {
        pulses: 0,
        ticks: 0,
        ..*x
    }
}

/// What a rate charges, and for what.
fn numbers_of(rate: &RateLine) -> RateNumbers
    ensures { result ≡ record { a = rate.now.a; b = rate.now.b; c = rate.now.c; e = rate.now.e } }
{
    RateNumbers {
        a: rate.a,
        b: rate.b,
        c: rate.c,
        e: rate.e,
    }
}

/// A choice of the line with a number at a place.
fn chosen<V>(value: V, line: u32, place: usize) -> Choice<V>
    ensures { result ≡ record { value = value; line = line; place = place } }
{
    Choice { value, line, place }
}

/// Puts a value behind others.
pub(crate) fn put<V: Drop>(all: &mut Vec<V>, value: V) -> Result<(), NoMemory>
    ensures { OnOk result (all.new.items ≡ all.old.items ++ value ∷ []) }
{
    all.push(value).map_err(|_| NoMemory)
}

/// The kind of an item, if it is of one.
pub(crate) fn kind_of(item: &Item) -> Option<ChoiceKind>
    ensures { result ≡ kind_of (entry_of item.now) }
{
    match item {
        Item::Rate(_) => Some(ChoiceKind::Rate),
        Item::Initial(_) => Some(ChoiceKind::Initial),
        Item::Minimum(_) => Some(ChoiceKind::Minimum),
        _ => None,
    }
}

/// Whether an item is of a kind.
pub(crate) fn is_of(kind: ChoiceKind, item: &Item) -> bool
    ensures { result ≡ is_of kind (entry_of item.now) }
{
    match (kind, item) {
        (ChoiceKind::Rate, Item::Rate(_)) => true,
        (ChoiceKind::Initial, Item::Initial(_)) => true,
        (ChoiceKind::Minimum, Item::Minimum(_)) => true,
        _ => false,
    }
}

/// The condition of a line, if it has one.
pub(crate) fn condition(item: &Item) -> Option<&Cond>
    ensures { Gives (λ cond. condition_of cond.now) result (when_part (entry_of item.now)) }
{
    match item {
        Item::Rate(rate) => rate.cond.as_ref(),
        Item::Initial(initial) => initial.cond.as_ref(),
        Item::Minimum(minimum) => minimum.cond.as_ref(),
        _ => None,
    }
}

/// The most units of an amount of a rate and of a supplement.
const MOST_AMOUNT: u64 = 1_000_000;

/// Whether an item has an amount that is too big.
pub(crate) fn is_great(item: &Item) -> bool
    ensures { result ≡ is_great (entry_of item.now) }
{
    match item {
        Item::Step { amount, .. } => *amount > LARGEST_DISPLAY_STEP,
        Item::Supplement { amount, .. } => *amount > MOST_AMOUNT,
        Item::Rate(rate) => rate.a > MOST_AMOUNT || rate.c > MOST_AMOUNT,
        Item::Initial(initial) => initial.amount > LARGEST_AMOUNT
            || initial.covers > LARGEST_AMOUNT,
        Item::Minimum(minimum) => minimum.amount > LARGEST_AMOUNT,
        _ => false,
    }
}
