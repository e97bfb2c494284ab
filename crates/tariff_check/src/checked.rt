//! A tariff that was found to be sound.
ghost use Rattle.std.specs.Prelude.{◌^◌, ◌≡◌, ◌≤◌, Some, length};
ghost use Rattle.tariff_check.specs.{Cells.{cells_of}, ChoiceLines.{choice_lines}, Kinds.{EachKind, kept_of, part_of}};
ghost use Rattle.tariff_check.specs.Common.{Gives, IsFromTo, IsWritable, condition_of, holds_if, largest_display_step};
ghost use Rattle.tariff_check.specs.{Common.{tree_of}, Parts.{positions_of, step_of, supplement_of, zones_of}};
ghost use Rattle.tariff_check.specs.{Faults.{IsSound}, Measure.{measure_of}, Resolved.{HasParts}};
ghost use Rattle.tariff_check.specs.SoundTariff.{AreChoices, choices, own_conditions, place_of, sound_of, when_at};

use crate::choice::{Choice, ChoiceLine, condition};
use crate::numbers::Numbers;
use crate::resolving::{Parts, numbered};
use crate::values::{DateNumbers, Supplement};
use drive_modes::Rounding;
use std::marker::Model;
use tariff_tree::{Cond, Context, Tariff, sat};

/// A sound tariff, with its numbers and its parts.
#[derive(Drop)]
pub struct Checked {
    pub(crate) tariff: Tariff,
    pub(crate) numbers: Numbers,
    pub(crate) parts: Parts,
}

impl Model for Checked {
    ghost use Rattle.{std.specs.Coded.{codes}, tariff_check.specs.Common.{IsWritable, Tariff, tree_of}};
    ghost use Rattle.tariff_check.specs.{Counted.{HasNumbers}, Resolved.{HasParts}, Sound.{HasSoundParts}};
    ghost use Rattle.tariff_tree.specs.contracts.condition.Cond as condition;

    ghost Value = { Tariff };

    ghost coded = { Prim.hlevel (codes, condition.the_row.coded) };

    ghost view = { λ c. c.tariff };

    ghost invariant = { λ c. IsWritable (tree_of c.tariff) × HasNumbers (tree_of c.tariff).lines c.numbers
        × HasParts (tree_of c.tariff).lines c.parts × HasSoundParts (tree_of c.tariff) };
}

impl Checked {
    /// The tariff.
    pub fn tariff(&self) -> &Tariff
        ensures value { result.now ≡ self.now }
        ensures sound { IsSound (tree_of self.now) }
        ensures writable { IsWritable (tree_of self.now) }
    {
        &self.tariff
    }

    /// The decimals of money, 0 to 3.
    pub fn decimals(&self) -> u8
        ensures value { result ≡ (tree_of self.now).decimals }
        ensures range { result ≤ 3 }
    {
        self.tariff.decimals
    }

    /// The display step, 1 to 1,000,000 units, and how the fare is rounded to it.
    pub fn step(&self) -> (u64, Rounding)
        ensures value { step_of (tree_of self.now).lines ≡ Some result }
        ensures range { IsFromTo 1 largest_display_step result.0 }
    {
        (self.numbers.step, self.numbers.rounding)
    }

    /// How many tariff positions there are, 1 to 9.
    pub fn positions(&self) -> u8
        ensures value { result ≡ positions_of (tree_of self.now).lines }
        ensures range { IsFromTo 1 9 result }
    {
        self.numbers.positions
    }

    /// How many zones there are, 1 to 9.
    pub fn zones(&self) -> u8
        ensures value { result ≡ zones_of (tree_of self.now).lines }
        ensures range { IsFromTo 1 9 result }
    {
        self.numbers.zones
    }

    /// How many cells it has: the product of its positions, its zones, the seven weekdays, 2 if it has a holiday, and
    /// the bands between its cuts in each dimension. At most 64,512.
    pub fn cells(&self) -> u64
        ensures value { result ≡ cells_of (tree_of self.now).lines }
        ensures range { IsFromTo 1 64512 result }
    {
        self.numbers.cells
    }

    /// The least common multiple of the measures of its rates, in decimetres and tenths of a second. At most 10^18.
    pub fn measure(&self) -> u64
        ensures value { result ≡ measure_of (tree_of self.now).lines }
        ensures range { IsFromTo 1 (10 ^ 18) result }
    {
        self.numbers.measure
    }

    /// The parts of a sound tariff.
    pub(crate) fn parts(&self) -> &Parts
        ensures parts { HasParts (tree_of self.now).lines result.now }
        ensures choices { EachKind (λ kind. AreChoices (tree_of self.now).lines (kept_of kind result.now.choices)
            (choices (part_of kind) (tree_of self.now).lines)) }
        ensures few { EachKind (λ kind. length (kept_of kind result.now.choices) ≤ 64) }
        ensures sound { IsSound (tree_of self.now) }
        ensures writable { IsWritable (tree_of self.now) }
    {
        &self.parts
    }

    /// The dates of its holidays, in the order of its lines.
    pub fn holidays(&self) -> &[DateNumbers]
        ensures value { result.now ≡ (sound_of (tree_of self.now)).holidays }
        ensures sound { IsSound (tree_of self.now) }
        ensures writable { IsWritable (tree_of self.now) }
    {
        self.parts().holidays.as_slice()
    }

    /// The supplement of a number. `None` exactly if it has none.
    pub fn supplement(&self, number: u8) -> Option<Supplement>
        ensures value { result ≡ supplement_of (tree_of self.now).lines number }
        ensures sound { IsSound (tree_of self.now) }
        ensures writable { IsWritable (tree_of self.now) }
    {
        numbered(self.parts().supplements.as_slice(), number)
    }

    /// The choices that its lines give, of all kinds, in the order of its lines.
    pub fn choice_lines(&self) -> &[ChoiceLine]
        ensures { result.now ≡ choice_lines (tree_of self.now).lines }
    {
        self.parts().choice_lines.as_slice()
    }

    /// The condition of the line at a place, from 0. `None` if that line has none, or there is no line.
    pub fn condition_at(&self, place: usize) -> Option<&Cond>
        ensures { Gives (λ cond. condition_of cond.now) result (when_at (tree_of self.now).lines place) }
    {
        match self.tariff.lines.as_slice().get(place) {
            Some(line) => condition(&line.item),
            None => None,
        }
    }

    /// Whether the line at a place has no condition, or one that holds in a context.
    fn does_hold(&self, place: usize, x: &Context) -> bool
        ensures { result ≡ holds_if x.now (when_at (tree_of self.now).lines place) }
    {
        match self.condition_at(place) {
            Some(cond) => sat(cond, x),
            None => true,
        }
    }

    /// The first of some choices of this tariff that has no condition or whose condition holds in a context, by its
    /// place among them, from 0. `None` exactly if none holds. A choice has the condition of its line.
    pub fn place_of<V>(&self, choices: &[Choice<V>], x: &Context) -> Option<usize>
        ensures { result ≡ place_of x.now (own_conditions (tree_of self.now).lines choices.now) }
    {
        for (place, choice) in choices.iter().enumerate() {
            if self.does_hold(choice.place, x) {
                return Some(place);
            }
        }
        None
    }
}
