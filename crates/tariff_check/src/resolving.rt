//! The parts of a tariff, from its lines.
ghost use Rattle.std.specs.{Option.{option_to_list}, Prelude.{◌++◌, ◌≡◌, IfOk, OnOk, map}};
ghost use Rattle.tariff_check.specs.{Common.{line_of}, Resolved.{HasParts, count_in, counted_choice, placed}};
ghost use Rattle.tariff_check.specs.Kinds.{EachKind, kept_of, part_of};
ghost use Rattle.tariff_check.specs.{Parts.{holiday_part}, SoundTariff.{numbered_supplement, supplement_numbered}};

use crate::choice::{ChoiceLine, Choices, put};
use crate::values::{DateNumbers, Supplement};
use std::alloc::Global;
use tariff_tree::{Item, TariffLine};
use taxi_units::NoMemory;

/// What the lines of a tariff say, kind by kind, and which choices they give, each in the order of the lines.
#[derive(Drop)]
pub(crate) struct Parts {
    pub(crate) holidays: Vec<DateNumbers>,
    pub(crate) supplements: Vec<(u8, Supplement)>,
    pub(crate) choices: Choices,
    pub(crate) choice_lines: Vec<ChoiceLine>,
}

/// The parts that some lines say.
pub(crate) fn resolved(alloc: Global, lines: &[TariffLine]) -> Result<Parts, NoMemory>
    ensures { IfOk result (HasParts (map line_of lines.now)) }
{
    let mut parts = Parts {
        holidays: Vec::new(alloc),
        supplements: Vec::new(alloc),
        choices: Choices::new(alloc),
        choice_lines: Vec::new(alloc),
    };
    for (place, line) in lines.iter().enumerate() {
        parts.add(place, line)?;
    }
    Ok(parts)
}

impl Parts {
    /// Puts what the line at a place says behind the others of its kind.
    fn add(&mut self, place: usize, line: &TariffLine) -> Result<(), NoMemory>
        ensures holidays { OnOk result (self.new.holidays.items
            ≡ self.old.holidays.items ++ option_to_list (holiday_part (line_of line.now).entry)) }
        ensures supplements { OnOk result (self.new.supplements.items
            ≡ self.old.supplements.items ++ option_to_list (numbered_supplement (line_of line.now).entry)) }
        ensures choices { OnOk result (EachKind (λ kind. kept_of kind self.new.choices
            ≡ kept_of kind self.old.choices ++ option_to_list (placed (part_of kind) place (line_of line.now)))) }
        ensures choice_lines { OnOk result (self.new.choice_lines.items ≡ self.old.choice_lines.items
            ++ option_to_list (counted_choice (count_in self.old.choices) (line_of line.now))) }
    {
        put_if(&mut self.choice_lines, self.choices.line_of(line))?;
        self.choices.add(place, line)?;
        match &line.item {
            Item::Holiday { year, month, date } => put(
                &mut self.holidays,
                DateNumbers {
                    year: *year,
                    month: *month,
                    date: *date,
                },
            ),
            Item::Supplement {
                number,
                amount,
                max,
            } => {
                let said = Supplement {
                    amount: *amount,
                    max: *max,
                };
                put(&mut self.supplements, (*number, said))
            }
            _ => Ok(()),
        }
    }
}

/// Puts a value behind others, if there is one.
fn put_if<V: Drop>(all: &mut Vec<V>, value: Option<V>) -> Result<(), NoMemory>
    ensures { OnOk result (all.new.items ≡ all.old.items ++ option_to_list value) }
{
    match value {
        Some(value) => put(all, value),
        None => Ok(()),
    }
}

/// The first of some supplements that has a number.
pub(crate) fn numbered(all: &[(u8, Supplement)], wanted: u8) -> Option<Supplement>
    ensures { result ≡ supplement_numbered all.now wanted }
{
    for (number, said) in all {
        if wanted == *number {
            return Some(*said);
        }
    }
    None
}
